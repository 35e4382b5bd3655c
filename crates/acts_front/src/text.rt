//! Texts as bytes: the blanks at their ends, and what stands before and behind marks.
ghost use Rattle.std.specs.Prelude.{◌≡◌, ◌≤◌, ◌==◌, ◌&&◌, map, length, drop, take, IfOk, MatchOption, false, true, ◌-◌};
ghost use Rattle.std.specs.List.{after_first, before_first, position, prefix_len, suffix_len};
ghost use Rattle.model_lex.specs.believed.Blanks.{trimmed, without_first_blanks, without_last_blanks};
ghost use Rattle.value_text.specs.believed.Texts.{is_blank};
ghost use Rattle.model_parse.specs.believed.Pieces.{before_end, begins_with, ends_with_byte, is_byte, pieces};

use std::alloc::Global;
use value_text::NoMemory;

/// Whether a byte is a space or a tab.
pub(crate) fn is_blank(byte: u8) -> bool
    ensures { result ≡ is_blank byte }
{
    byte == b' ' || byte == b'\t'
}

// How many blanks stand at the start of a text.
#[tactic(auto, using(model_lex::proofs::Runs::run_len, model_lex::proofs::Runs::run_within))]
fn first_blanks(text: &[u8]) -> usize
    ensures value { result ≡ prefix_len is_blank text.now }
    ensures within { result ≤ length text.now }
{
    text.iter().take_while(|byte| is_blank(**byte)).count()
}

// How many blanks stand at the end of a text.
#[tactic(auto, using(model_lex::proofs::Runs::run_len))]
fn last_blanks(text: &[u8]) -> usize
    ensures { result ≡ suffix_len is_blank text.now }
{
    text.iter()
        .rev()
        .take_while(|byte| is_blank(**byte))
        .count()
}

/// A text without the blanks at its start.
pub(crate) fn without_first_blanks(text: &[u8]) -> &[u8]
    ensures { result.now ≡ without_first_blanks text.now }
{
    &text[first_blanks(text)..]
}

// A text without the blanks at its end.
fn without_last_blanks(text: &[u8]) -> &[u8]
    ensures { result.now ≡ without_last_blanks text.now }
{
    &text[..text.len() - last_blanks(text)]
}

/// A text without the blanks at both ends.
pub(crate) fn trimmed(text: &[u8]) -> &[u8]
    ensures { result.now ≡ trimmed text.now }
{
    without_last_blanks(without_first_blanks(text))
}

/// Whether a text begins with a mark.
pub(crate) fn begins_with(text: &[u8], mark: u8) -> bool
    ensures { result ≡ begins_with mark text.now }
{
    !text.is_empty() && text[0] == mark
}

/// What stands between two marks with which a text begins and ends; `None` exactly where it doesn't.
pub(crate) fn between(text: &[u8], first: u8, last: u8) -> Option<&[u8]>
    requires { ¬ (first ≡ last) }
    ensures { MatchOption result (begins_with first text.now && ends_with_byte last text.now ≡ false)
        (λ inside. (begins_with first text.now && ends_with_byte last text.now ≡ true) × (inside.now ≡ before_end (drop 1 text.now))) }
{
    match text {
        [begin, inside @ .., end] if *begin == first && *end == last => Some(inside),
        _ => None,
    }
}

/// The place of the first mark in a text.
pub(crate) fn mark_place(text: &[u8], mark: u8) -> Option<usize>
    ensures { result ≡ position (is_byte mark) text.now }
{
    text.iter().position(|byte| *byte == mark)
}

/// What stands before the first mark in a text, and what stands behind it; where there is none, all of it and
/// nothing.
pub(crate) fn cut_first(text: &[u8], mark: u8) -> (&[u8], &[u8])
    ensures before { result.0.now ≡ before_first (is_byte mark) text.now }
    ensures behind { result.1.now ≡ after_first (is_byte mark) text.now }
{
    match mark_place(text, mark) {
        Some(place) => (&text[..place], &text[place + 1..]),
        None => (text, &[]),
    }
}

/// The parts of a text between commas, each trimmed.
pub(crate) fn pieces(alloc: Global, text: &[u8]) -> Result<Vec<&[u8]>, NoMemory>
    ensures { IfOk result (λ parts. map (λ part. part.now) parts.items ≡ pieces 44 text.now) }
{
    let parts = text
        .split(|byte| *byte == b',')
        .map(|part| trimmed(part))
        .collect(alloc)?;
    Ok(parts)
}
