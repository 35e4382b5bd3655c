ghost use Rattle.std.specs.Prelude.{◌≡◌, ◌⊎◌, option_map};
ghost use Rattle.value_text.specs.believed.Numbers.{count_of};
ghost use Rattle.seq_cli.specs.Commands.{events_in, setting_seen};
ghost use Rattle.seq_cli.specs.believed.Words.{setting_of, valued_setting};

use command_line::file_of;
use value_text::{read_count, same_text};

/// How many events the sequences have that are to be covered.
#[derive(Debug, Drop, Clone, Copy, PartialEq, Eq)]
pub(crate) enum Length {
    Two,
    Three,
}

impl Length {
    /// The number of events.
    pub(crate) fn number(self) -> u32
        ensures value { result ≡ events_in self }
        ensures range { (result ≡ 2) ⊎ (result ≡ 3) }
    {
        match self {
            Length::Two => 2,
            Length::Three => 3,
        }
    }
}

/// What one option sets.
#[derive(Drop, Clone, Copy)]
pub(crate) enum Setting<'w> {
    /// The length of the sequences.
    Events(Length),
    /// The report that is checked.
    Report(&'w str),
}

/// The length that a value gives.
fn length_of(value: &str) -> Option<Length>
    ensures { option_map events_in result ≡ count_of value.now 2 3 }
{
    match read_count(value, 2, 3) {
        Some(2) => Some(Length::Two),
        Some(_) => Some(Length::Three),
        None => None,
    }
}

/// What an option of this name sets, by its value.
fn valued_setting<'w>(name: &str, value: &'w str) -> Option<Setting<'w>>
    ensures { option_map setting_seen result ≡ valued_setting name.now value.now }
{
    if same_text(name, "/t", true) {
        Some(Setting::Events(length_of(value)?))
    } else if same_text(name, "/check", true) {
        Some(Setting::Report(file_of(value)?))
    } else {
        None
    }
}

/// What a word sets; `None` exactly where it is no option, or its value is out of range.
pub(crate) fn setting_of<'w>(word: &'w str) -> Option<Setting<'w>>
    ensures { option_map setting_seen result ≡ setting_of word.now }
{
    match word.split_once(':') {
        Some((name, value)) => valued_setting(name, value),
        None => None,
    }
}
