ghost use Rattle.std.specs.Prelude.{◌≡◌, ◌+◌, ◌-◌, ◌^◌, ℕ, min, not, position, Ok, Some, None, MatchResult};
ghost use Rattle.std.specs.List.{list_any};
ghost use Rattle.std.specs.String.{string_bytes};
ghost use Rattle.command_line.specs.believed.Words.{texts};
ghost use Rattle.acts_cli.specs.believed.Words.{IsWordFault, asked_by, is_case_word};
ghost use Rattle.acts_cli.specs.Runs.{asked_seen};

use command_line::{WordFault, missing_name};
use value_text::same_text;

/// What the words of `pictacts` ask for (this project's rules). It borrows the words.
#[derive(Drop, Clone, Copy)]
pub(crate) struct Command<'w> {
    /// The name of the file that is read.
    pub(crate) input: &'w str,
    /// The name of the file that is written.
    pub(crate) output: &'w str,
    /// Whether letters of either case are one.
    pub(crate) fold: bool,
}

/// Whether a word is `/c`, in either case.
fn is_case_word(word: &str) -> bool
    ensures { result ≡ is_case_word word.now }
{
    same_text(word, "/c", true)
}

/// The place of the first of some options, from 0, that isn't `/c`.
fn other_place(options: &[String]) -> Option<usize>
    ensures { result ≡ position (λ word. not (is_case_word (string_bytes word))) options.now }
{
    options.iter().position(|word| !is_case_word(word.as_str()))
}

/// Whether one of some options is `/c`.
fn has_case_word(options: &[String]) -> bool
    ensures { result ≡ list_any (λ word. is_case_word (string_bytes word)) options.now }
{
    options.iter().any(|word| is_case_word(word.as_str()))
}

/// The fault of the option of this number from 0, of which the first is the third argument.
fn fault_at(place: usize) -> WordFault
    ensures { result.index ≡ min (place + 3) (2 ^ 32 - 1) }
{
    WordFault::at(place.saturating_add(2))
}

/// What these options ask for, with these names of files.
fn read_options<'w>(
    input: &'w str,
    output: &'w str,
    options: &'w [String],
) -> Result<Command<'w>, WordFault>
    ensures { MatchResult result
        (λ asked. (position (λ word. not (is_case_word word)) (texts options.now) ≡ None)
        × (asked_seen asked ≡ record { input = input.now; output = output.now; fold = not (list_any is_case_word (texts options.now)) }))
        (λ fault. (place : ℕ) × (position (λ word. not (is_case_word word)) (texts options.now) ≡ Some place) × (fault.index ≡ min (place + 3) (2 ^ 32 - 1))) }
{
    match other_place(options) {
        Some(place) => Err(fault_at(place)),
        None => Ok(Command {
            input,
            output,
            fold: !has_case_word(options),
        }),
    }
}

/// What the words of `pictacts` ask for, those behind the program's name. Takes no memory.
///
/// # Errors
///
/// The first word that has no reading, or the first name that is missing.
pub(crate) fn read_words<'w>(words: &'w [String]) -> Result<Command<'w>, WordFault>
    ensures { MatchResult result
        (λ asked. asked_by (texts words.now) ≡ Ok (asked_seen asked))
        (λ fault. IsWordFault (texts words.now) fault.index) }
{
    if let Some(place) = missing_name(words, 2) {
        return Err(WordFault::at(place));
    }
    read_options(words[0].as_str(), words[1].as_str(), &words[2..])
}
