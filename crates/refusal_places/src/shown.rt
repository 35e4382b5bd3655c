//! Parts of a file as messages show them.
ghost use Rattle.std.specs.Prelude.{◌≡◌, true, false, IfOk};
ghost use Rattle.std.specs.Char.{is_control};
ghost use Rattle.std.specs.String.{string_bytes};
ghost use Rattle.refusal_places.specs.Told.{is_clean};

use crate::span::Span;
use std::alloc::Global;
use std::str::from_utf8;
use value_text::NoMemory;

// The most characters of a part that are shown.
const MOST_SHOWN: usize = 60;

// The first characters of a text, and three dots where there are more.
fn shortened(alloc: Global, text: &str) -> Result<String, NoMemory> {
    let mut short = String::new(alloc);
    for (i, character) in text.chars().enumerate() {
        if i == MOST_SHOWN {
            short.push_str("...")?;
            break;
        }
        short.push(character)?;
    }
    Ok(short)
}

/// The text of a part of a file, without what is too long to be read; no character where it isn't UTF-8.
pub(crate) fn text_of(alloc: Global, file: &[u8], part: Span) -> Result<String, NoMemory> {
    match from_utf8(part.bytes(file)) {
        Ok(text) => shortened(alloc, text),
        Err(_) => Ok(String::new(alloc)),
    }
}

// Whether a byte may stand in a number.
fn is_of_number(byte: u8) -> bool {
    byte.is_ascii_digit() || byte == b'.' || byte == b'+' || byte == b'-'
}

// Whether a text needs no quotes: a name in brackets, a text in quotes, or a number.
fn is_bare(text: &[u8]) -> bool {
    match text {
        [b'[' | b'"', ..] => true,
        _ => text.iter().all(|byte| is_of_number(*byte)),
    }
}

/// The text of a part of a file in quotes; a name in brackets, a text in quotes and a number as they
/// stand.
pub(crate) fn quoted(alloc: Global, file: &[u8], part: Span) -> Result<String, NoMemory> {
    let text = text_of(alloc, file, part)?;
    if is_bare(part.bytes(file)) {
        return Ok(text);
    }
    Ok(format!(in alloc; "\"{text}\"")?)
}

// A character, or a question mark in place of a control character.
fn harmless(character: char) -> char
    ensures { is_control result ≡ false }
{
    if character.is_control() {
        '?'
    } else {
        character
    }
}

/// A text with a question mark in place of each control character, which a terminal might obey.
#[tactic(auto, using(crate::proofs::Clean::clean_more))]
pub(crate) fn cleaned(alloc: Global, text: &str) -> Result<String, NoMemory>
    ensures { IfOk result (λ clean. is_clean (string_bytes clean) ≡ true) }
{
    let mut clean = String::new(alloc);
    for character in text.chars() {
        clean.push(harmless(character))?;
    }
    Ok(clean)
}
