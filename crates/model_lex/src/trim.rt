ghost use Rattle.std.specs.Prelude.{◌≡◌};
ghost use Rattle.std.specs.List.{suffix_len};
ghost use Rattle.model_lex.specs.believed.Blanks.{trimmed, without_first_blanks, without_last_blanks};
ghost use Rattle.value_text.specs.believed.Texts.{is_blank};

use crate::bytes::{blank_len, is_blank};

// How many blanks stand at the end of a text.
#[tactic(auto, using(crate::proofs::Runs::run_len))]
fn last_blanks(text: &[u8]) -> usize
    ensures { result ≡ suffix_len is_blank text.now }
{
    text.iter()
        .rev()
        .take_while(|byte| is_blank(**byte))
        .count()
}

/// A text without the blanks at its start. Takes no memory.
pub fn without_first_blanks(text: &str) -> &str
    ensures { result.now ≡ without_first_blanks text.now }
{
    let blanks = blank_len(text.as_bytes());
    &text[blanks..]
}

// A text without the blanks at its end.
fn without_last_blanks(text: &str) -> &str
    ensures { result.now ≡ without_last_blanks text.now }
{
    let blanks = last_blanks(text.as_bytes());
    &text[..text.len() - blanks]
}

/// A text without the blanks at both ends; blanks are spaces and tabs (this project's rule). Takes
/// no memory.
pub fn trimmed(text: &str) -> &str
    ensures { result.now ≡ trimmed text.now }
{
    without_last_blanks(without_first_blanks(text))
}
