ghost use Rattle.std.specs.Prelude.{◌≡◌, ◌+◌, ◌-◌, ◌^◌, ◌∷◌, [], ℕ, List, min, position, option_map, is_none, filter_map, fold, MatchResult, Some, None, Ok};
ghost use Rattle.seq_cli.specs.Commands.{asked_seen, setting_seen};
ghost use Rattle.command_line.specs.believed.Words.{texts};
ghost use Rattle.seq_cli.specs.believed.Words.{IsWordFault, asked_by, asked_of, set, set_by, setting_of};

use crate::setting::{Length, Setting, setting_of};
use command_line::{WordFault, missing_name};

/// What the words of a command ask for (this project's rules). It borrows the words.
#[derive(Drop, Clone, Copy)]
pub(crate) struct Command<'w> {
    /// The name of the file of events.
    pub file: &'w str,
    /// The length of the sequences of events that are to be covered.
    pub length: Length,
    /// The name of the report that is checked, in place of one being made.
    pub report: Option<&'w str>,
}

impl<'w> Command<'w> {
    /// What holds for a file of events without further words.
    fn of(file: &'w str) -> Command<'w>
        ensures { asked_seen result ≡ asked_of file.now }
    {
        Command {
            file,
            length: Length::Two,
            report: None,
        }
    }

    /// Sets one thing more.
    fn set(&mut self, setting: Setting<'w>)
        ensures { asked_seen self.new ≡ set (asked_seen self.old) (setting_seen setting.entry) }
    {
        match setting {
            Setting::Events(length) => self.length = length,
            Setting::Report(name) => self.report = Some(name),
        }
    }
}

/// The fault of the option of this number from 0, of which the first is the second argument.
fn fault_at(place: usize) -> WordFault
    ensures { result.index ≡ min (place + 2) (2 ^ 32 - 1) }
{
    WordFault::at(place.saturating_add(1))
}

/// What options ask for, of this file of events.
fn read_options<'w>(file: &'w str, options: &'w [String]) -> Result<Command<'w>, WordFault>
    ensures { MatchResult result
        (λ command. (position (λ word. is_none (setting_of word)) (texts options.now) ≡ None) × (asked_seen command ≡ set_by file.now (texts options.now)))
        (λ fault. (n : ℕ) × (position (λ word. is_none (setting_of word)) (texts options.now) ≡ Some n) × (fault.index ≡ min (n + 2) (2 ^ 32 - 1))) }
{
    let mut command = Command::of(file);
    for (place, option) in options.iter().enumerate() {
        let Some(setting) = setting_of(option.as_str()) else {
            return Err(fault_at(place));
        };
        command.set(setting);
    }
    Ok(command)
}

/// What the words of `pictseq` ask for, those behind the program's name. Takes no memory.
///
/// # Errors
///
/// The first word that has no reading; the first where there is none.
pub(crate) fn read_words<'w>(words: &'w [String]) -> Result<Command<'w>, WordFault>
    ensures { MatchResult result
        (λ command. asked_by (texts words.now) ≡ Ok (asked_seen command))
        (λ fault. IsWordFault (texts words.now) fault.index) }
{
    if let Some(place) = missing_name(words, 1) {
        return Err(WordFault::at(place));
    }
    read_options(words[0].as_str(), &words[1..])
}
