//! Cutting lines into parts.
ghost use Rattle.std.specs.Prelude.{◌≡◌, ◌<◌, map, drop, length, IfOk, MatchOption, true, false, not, ◌==◌};
ghost use Rattle.std.specs.List.{before_first, after_first, before_last, after_last, list_all, list_any, suffix_len};
ghost use Rattle.std.specs.Str.{chars};
ghost use Rattle.cov_model.specs.believed.Names.{is_plain};
ghost use Rattle.model_parse.specs.believed.Pieces.{is_byte, pieces, begins_with, ends_with_byte, before_end, is_unfit};

use model_lex::trimmed;
use std::alloc::Global;
use value_text::NoMemory;

/// The parts of a text between an ASCII mark, each trimmed.
pub(crate) fn pieces(alloc: Global, text: &str, mark: u8) -> Result<Vec<&str>, NoMemory>
    requires { mark < 128 }
    ensures { IfOk result (λ parts. map (λ part. part.now) parts.items ≡ pieces mark text.now) }
{
    let parts = text
        .split(char::from(mark))
        .map(|part| trimmed(part))
        .collect(alloc)?;
    Ok(parts)
}

/// What stands before the first colon of a text, and what stands behind it.
pub(crate) fn cut_colon(text: &str) -> (&str, &str)
    ensures before { result.0.now ≡ before_first (is_byte 58) text.now }
    ensures behind { result.1.now ≡ after_first (is_byte 58) text.now }
{
    match text.split_once(':') {
        Some(parts) => parts,
        None => (text, ""),
    }
}

// How many bytes stand behind the last one that is a mark.
#[tactic(auto, using(model_lex::proofs::Runs::run_len))]
fn bytes_behind(text: &[u8], mark: u8) -> usize
    ensures { result ≡ suffix_len (λ byte. not (is_byte mark byte)) text.now }
{
    text.iter().rev().take_while(|byte| **byte != mark).count()
}

/// What stands before the last of an ASCII mark, and what stands behind it; `None` exactly where
/// it stands nowhere.
pub(crate) fn cut_last(text: &str, mark: u8) -> Option<(&str, &str)>
    requires { mark < 128 }
    ensures { MatchOption result (list_any (is_byte mark) text.now ≡ false) (λ parts. (list_any (is_byte mark) text.now ≡ true)
        × (parts.0.now ≡ before_last (is_byte mark) text.now) × (parts.1.now ≡ after_last (is_byte mark) text.now)) }
{
    let behind = bytes_behind(text.as_bytes(), mark);
    if behind == text.len() {
        return None;
    }
    let end = text.len() - behind;
    Some((&text[..end - 1], &text[end..]))
}

/// Whether a text begins with a mark.
pub(crate) fn begins_with(text: &str, mark: u8) -> bool
    ensures { result ≡ begins_with mark text.now }
{
    let bytes = text.as_bytes();
    !bytes.is_empty() && bytes[0] == mark
}

/// Whether a text ends with a mark.
pub(crate) fn ends_with_byte(text: &str, mark: u8) -> bool
    ensures { result ≡ ends_with_byte mark text.now }
{
    let bytes = text.as_bytes();
    !bytes.is_empty() && bytes[bytes.len() - 1] == mark
}

/// What stands behind the ASCII mark with which a text begins; `None` exactly where it doesn't.
pub(crate) fn behind_mark(text: &str, mark: u8) -> Option<&str>
    requires { mark < 128 }
    ensures { MatchOption result (begins_with mark text.now ≡ false) (λ rest. (begins_with mark text.now ≡ true) × (rest.now ≡ drop 1 text.now)) }
{
    if begins_with(text, mark) {
        Some(&text[1..])
    } else {
        None
    }
}

/// What stands before the ASCII mark with which a text ends; `None` exactly where it doesn't.
pub(crate) fn before_mark(text: &str, mark: u8) -> Option<&str>
    requires { mark < 128 }
    ensures { MatchOption result (ends_with_byte mark text.now ≡ false) (λ rest. (ends_with_byte mark text.now ≡ true) × (rest.now ≡ before_end text.now)) }
{
    if ends_with_byte(text, mark) {
        Some(&text[..text.len() - 1])
    } else {
        None
    }
}

// Whether a byte is a control character.
fn is_control(byte: u8) -> bool
    ensures { result ≡ not (is_plain byte) }
{
    byte < 32 || byte == 127
}

/// Whether a control character or a byte-order mark stands in a text.
pub(crate) fn is_unfit(text: &str) -> bool
    ensures { result ≡ is_unfit text.now }
{
    !is_plain(text.as_bytes()) || has_order_mark(text)
}

// Whether a byte-order mark stands in a text.
fn has_order_mark(text: &str) -> bool
    ensures { result ≡ list_any (λ c. c == 0xfeff) (chars text.now) }
{
    text.chars().any(|c| c == '\u{feff}')
}

// Whether no control character stands in a text.
fn is_plain(text: &[u8]) -> bool
    ensures { result ≡ list_all is_plain text.now }
{
    text.iter().all(|byte| !is_control(*byte))
}
