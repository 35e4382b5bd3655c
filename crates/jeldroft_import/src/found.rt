use crate::part::Part;
use outside_io::{Sink, WriteAnswer, put_pieces};

// The most bytes of what was found that are shown.
const MOST_SHOWN: usize = 60;

/// What is wrong with what stands at a place.
#[derive(Drop, Clone, Copy)]
pub(crate) enum Wrong {
    /// This was expected.
    Expected(&'static str),
    /// This has to be said of it.
    Is(&'static str),
}

/// What was found where a line is refused, and what is wrong with it.
#[derive(Drop, Clone, Copy)]
pub(crate) struct Found<'a> {
    /// The part of the line; without bytes where the line's text ends.
    pub(crate) part: Part<'a>,
    /// What is wrong with it.
    pub(crate) wrong: Wrong,
}

// The first byte of a part.
fn first_byte(part: Part<'_>) -> Part<'_> {
    part.up_to(1)
}

impl<'a> Found<'a> {
    /// This was expected in place of a part.
    pub(crate) fn in_place_of(part: Part<'a>, expected: &'static str) -> Found<'a> {
        Found {
            part,
            wrong: Wrong::Expected(expected),
        }
    }

    /// This was expected in place of a part, or where it has no bytes, in place of what stands behind it: the first byte
    /// of a text from there on.
    pub(crate) fn before(part: Part<'a>, text: Part<'a>, expected: &'static str) -> Found<'a> {
        if !part.text.is_empty() {
            return Found::in_place_of(part, expected);
        }
        let rest = text.behind(part.at.saturating_sub(text.at));
        Found::in_place_of(first_byte(rest), expected)
    }

    /// This has to be said of a part.
    pub(crate) fn is(part: Part<'a>, words: &'static str) -> Found<'a> {
        Found {
            part,
            wrong: Wrong::Is(words),
        }
    }
}

// What stands around a text that is shown: quotes, unless it has its own.
fn quote_of(text: &[u8]) -> &'static str {
    match text {
        [b'"', ..] => "",
        _ => "\"",
    }
}

// Writes a text in quotes, or that the line ends.
fn put_found<E: Sink>(text: &[u8], diag: &mut E) -> WriteAnswer {
    if text.is_empty() {
        return put_pieces(diag, &["the end of the line"]);
    }
    let quote = quote_of(text);
    let shown = &text[..text.len().min(MOST_SHOWN)];
    let end = if shown.len() < text.len() { ".." } else { "" };
    let _ = put_pieces(diag, &[quote]);
    let _ = diag.put(shown);
    put_pieces(diag, &[end, quote])
}

/// Writes what was found, and what is wrong with it.
pub(crate) fn put_words<E: Sink>(found: &Found<'_>, diag: &mut E) -> WriteAnswer {
    match found.wrong {
        Wrong::Expected(expected) => {
            let _ = put_pieces(diag, &["expected ", expected, ", found "]);
            put_found(found.part.text, diag)
        }
        Wrong::Is(words) => {
            let _ = put_found(found.part.text, diag);
            put_pieces(diag, &[" ", words])
        }
    }
}
