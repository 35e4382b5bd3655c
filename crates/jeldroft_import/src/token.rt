//! The tokens of a constraint line, with their places.
use crate::kind::{Kind, are_few_digits, is_truth, is_word_byte};
use crate::part::Part;

/// What a token of a constraint line is.
#[derive(Drop, Clone, Copy, PartialEq, Eq)]
pub(crate) enum TokenKind {
    /// A name.
    Name,
    /// A value of a type.
    Value(Kind),
    /// `=` or `!=`.
    Equality,
    /// `>`, `>=`, `<` or `<=`.
    Order,
    /// `=>`
    Arrow,
    /// `||` or `&&`.
    Joint,
    /// `!`
    Not,
    /// `(`
    Open,
    /// `)`
    Close,
    /// Nothing that a constraint may have.
    Bad,
}

/// A token where it stands.
#[derive(Drop, Clone, Copy)]
pub(crate) struct Token<'a> {
    pub(crate) kind: TokenKind,
    pub(crate) part: Part<'a>,
}

// The word at the start of a text, and its length.
fn word(text: &[u8]) -> (TokenKind, usize) {
    let end = text.iter().position(|byte| !is_word_byte(*byte));
    let len = end.unwrap_or(text.len());
    if is_truth(&text[..len.min(text.len())]) {
        (TokenKind::Value(Kind::Boolean), len)
    } else {
        (TokenKind::Name, len)
    }
}

// The number whose digits are at the start of a text, and how many there are.
fn number(digits: &[u8]) -> (TokenKind, usize) {
    let end = digits.iter().position(|byte| !byte.is_ascii_digit());
    let len = end.unwrap_or(digits.len());
    if are_few_digits(&digits[..len.min(digits.len())]) {
        (TokenKind::Value(Kind::Int), len)
    } else {
        (TokenKind::Bad, len)
    }
}

// The text in quotes behind the first of them, and its length with both.
fn quoted(behind: &[u8]) -> (TokenKind, usize) {
    let Some(len) = behind.iter().position(|byte| *byte == b'"') else {
        return (TokenKind::Bad, behind.len().saturating_add(1));
    };
    let end = len.saturating_add(2);
    if behind[..len.min(behind.len())].contains(&b'\\') {
        (TokenKind::Bad, end)
    } else {
        (TokenKind::Value(Kind::Enum), end)
    }
}

// The mark at the start of a text, and its length.
fn mark(text: &[u8]) -> (TokenKind, usize) {
    match text {
        [b'=', b'>', ..] => (TokenKind::Arrow, 2),
        [b'!', b'=', ..] => (TokenKind::Equality, 2),
        [b'>' | b'<', b'=', ..] => (TokenKind::Order, 2),
        [b'|', b'|', ..] | [b'&', b'&', ..] => (TokenKind::Joint, 2),
        [b'=', ..] => (TokenKind::Equality, 1),
        [b'>' | b'<', ..] => (TokenKind::Order, 1),
        [b'!', ..] => (TokenKind::Not, 1),
        [b'(', ..] => (TokenKind::Open, 1),
        [b')', ..] => (TokenKind::Close, 1),
        _ => (TokenKind::Bad, 1),
    }
}

// The token at the start of a text, and its length.
fn first(text: &[u8]) -> (TokenKind, usize) {
    match text {
        [b'"', behind @ ..] => quoted(behind),
        [b'-', digits @ ..] => {
            let (kind, len) = number(digits);
            (kind, len.saturating_add(1))
        }
        [b'0'..=b'9', ..] => number(text),
        [byte, ..] if is_word_byte(*byte) => word(text),
        _ => mark(text),
    }
}

/// Takes the token at the start of a text, if the text has one.
pub(crate) fn take_token<'a>(rest: &mut Part<'a>) -> Option<Token<'a>> {
    let ahead = rest.without_first_blanks();
    if ahead.text.is_empty() {
        return None;
    }
    let (kind, len) = first(ahead.text);
    *rest = ahead.behind(len);
    Some(Token {
        kind,
        part: ahead.up_to(len),
    })
}
