ghost use Rattle.std.specs.Prelude.{◌≡◌, Ok, MatchResult};
ghost use Rattle.pict_cli.specs.Options.{settings_seen};
ghost use Rattle.pict_cli.specs.Ranges.{FitRun};
ghost use Rattle.command_line.specs.believed.Words.{texts};
ghost use Rattle.pict_cli.specs.believed.Words.{IsWordFault, asked_by, model_file};

use crate::options::{Opts, WordFault, read_words};

/// What the words of `pict` ask for, which is in its ranges.
///
/// # Errors
///
/// The first word that has no reading.
pub(crate) fn read_command<'w>(words: &'w [String]) -> Result<Opts<'w>, WordFault>
    ensures { MatchResult result
        (λ opts. (asked_by (texts words.now) ≡ Ok (settings_seen opts)) × FitRun (settings_seen opts) × (opts.model.now ≡ model_file words.now))
        (λ fault. IsWordFault (texts words.now) fault.index) }
{
    read_words(words)
}
