ghost use Rattle.std.specs.Prelude.{◌≡◌, ◌<◌, ◌^◌, ◌≤◌, length, drop, IfSome};
ghost use Rattle.std.specs.List.{prefix_len};
ghost use Rattle.value_text.specs.believed.Numbers.{number_of};
ghost use Rattle.model_lex.specs.believed.Sections.{first_word, is_word_among};
ghost use Rattle.model_lex.specs.believed.Tokens.{begins_number, begins_relation, first_token, is_punctuation, is_number_byte, is_quotable, keywords};
ghost use Rattle.model_lex.specs.believed.Tokens.{number_run, number_token, quoted_len, quoted_token, relation_len, word_token};
ghost use Rattle.model_lex.specs.Tokens.{quotes_next};

use crate::bytes::{first_word, is_word};
use crate::diag::DiagCode;
use crate::token::TokenKind;
use value_text::{FixedAnswer, read_fixed};

/// The token at the start of a text, as what it is and how long it is, or why none stands there.
pub fn first_token(text: &str) -> Result<(TokenKind, usize), DiagCode>
    requires { 0 < length text.now }
    ensures { result ≡ first_token text.now }
{
    let bytes = text.as_bytes();
    let first = bytes[0];
    if first == b'[' {
        quoted_token(&bytes[1..], b']', TokenKind::Name, DiagCode::NameNotClosed)
    } else if first == b'"' {
        quoted_token(&bytes[1..], b'"', TokenKind::Words, DiagCode::TextNotClosed)
    } else if begins_number(first) {
        number_token(text)
    } else if first.is_ascii_alphabetic() {
        word_token(bytes)
    } else if begins_relation(first) {
        Ok((TokenKind::Relation, relation_len(bytes)))
    } else if is_punctuation(first) {
        Ok((TokenKind::Mark, 1))
    } else {
        Err(DiagCode::StrayCharacter)
    }
}

// A name or a text, given what stands behind its opening mark.
fn quoted_token(
    inside: &[u8],
    close: u8,
    kind: TokenKind,
    code: DiagCode,
) -> Result<(TokenKind, usize), DiagCode>
    requires { length inside.now < 2 ^ 63 }
    ensures { result ≡ quoted_token kind code (quoted_len close inside.now) }
{
    match quoted_len(close, inside) {
        Some(len) => Ok((kind, 2 + len)),
        None => Err(code),
    }
}

// Whether a backslash before a byte quotes it.
fn is_quotable(byte: u8) -> bool
    ensures { result ≡ is_quotable byte }
{
    byte == b'"' || byte == b']' || byte == b'\\'
}

// Whether a backslash at a place of a text quotes the byte behind it.
fn quotes(text: &[u8], at: usize) -> bool
    requires { at < length text.now }
    ensures { result ≡ quotes_next (drop at text.now) }
{
    text[at] == b'\\' && at + 1 < text.len() && is_quotable(text[at + 1])
}

// How many bytes stand before the first closing mark that no backslash quotes.
fn quoted_len(close: u8, text: &[u8]) -> Option<usize>
    ensures value { result ≡ quoted_len close text.now }
    ensures within { IfSome result (λ len. len < length text.now) }
{
    let mut at = 0;
    while at < text.len() {
        if text[at] == close {
            return Some(at);
        }
        at += if quotes(text, at) { 2 } else { 1 };
    }
    None
}

// Whether a byte may begin a number.
fn begins_number(byte: u8) -> bool
    ensures { result ≡ begins_number byte }
{
    byte.is_ascii_digit() || byte == b'+' || byte == b'-'
}

// Whether a byte may stand in the run of a number.
fn is_number_byte(byte: u8) -> bool
    ensures { result ≡ is_number_byte byte }
{
    byte.is_ascii_alphanumeric() || byte == b'+' || byte == b'-' || byte == b'.' || byte == b'_'
}

// How long the run of a number at the start of a text is.
#[tactic(auto, using(crate::proofs::Runs::run_len, crate::proofs::Runs::run_within))]
fn number_len(text: &[u8]) -> usize
    ensures value { result ≡ prefix_len is_number_byte text.now }
    ensures within { result ≤ length text.now }
{
    text.iter()
        .take_while(|byte| is_number_byte(**byte))
        .count()
}

// The number at the start of a text.
fn number_token(text: &str) -> Result<(TokenKind, usize), DiagCode>
    ensures { result ≡ number_token (length (number_run text.now)) (number_of (number_run text.now)) }
{
    let len = number_len(text.as_bytes());
    match read_fixed(&text[..len]) {
        FixedAnswer::Number(_) => Ok((TokenKind::Number, len)),
        FixedAnswer::NotNumber => Err(DiagCode::BadNumber),
        FixedAnswer::TooWide => Err(DiagCode::NumberTooWide),
    }
}

// Whether a word is one of those of constraints.
fn is_keyword(word: &[u8]) -> bool
    ensures { result ≡ is_word_among keywords word.now }
{
    is_word(b"IF", word)
        || is_word(b"THEN", word)
        || is_word(b"ELSE", word)
        || is_word(b"AND", word)
        || is_word(b"OR", word)
        || is_word(b"NOT", word)
        || is_word(b"IN", word)
        || is_word(b"LIKE", word)
        || is_word(b"ISNEGATIVE", word)
        || is_word(b"ISPOSITIVE", word)
}

// The word at the start of a text.
fn word_token(text: &[u8]) -> Result<(TokenKind, usize), DiagCode>
    ensures { result ≡ word_token (first_word text.now) }
{
    let word = first_word(text);
    if is_keyword(word) {
        Ok((TokenKind::Word, word.len()))
    } else {
        Err(DiagCode::UnknownWord)
    }
}

// Whether a byte may begin a relation.
fn begins_relation(byte: u8) -> bool
    ensures { result ≡ begins_relation byte }
{
    byte == b'<' || byte == b'=' || byte == b'>'
}

// How long the relation at the start of a text is.
fn relation_len(text: &[u8]) -> usize
    ensures { result ≡ relation_len text.now }
{
    match text {
        [b'<', b'=' | b'>', ..] | [b'>', b'=', ..] => 2,
        _ => 1,
    }
}

// Whether a byte is a punctuation mark.
fn is_punctuation(byte: u8) -> bool
    ensures { result ≡ is_punctuation byte }
{
    b"(){},;".contains(&byte)
}
