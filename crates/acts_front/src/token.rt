//! The tokens of a constraint line.
ghost use Rattle.std.specs.Prelude.{◌≡◌, ◌<◌, ◌≤◌, ◌^◌, ◌&&◌, ◌+◌, ◌++◌, drop, length, map, option_map, slice_index, IfOk, IfSome};
ghost use Rattle.std.specs.Char.{is_ascii_digit};
ghost use Rattle.std.specs.List.{prefix_len};
ghost use Rattle.model_lex.specs.believed.Sections.{first_word, is_word_byte};
ghost use Rattle.acts_front.specs.Reading.{found_seen, token_seen, tokens_seen};
ghost use Rattle.acts_front.specs.believed.Tokens.{first_found, mark_token, tokens_found, whole_run, whole_token, token_of_word, words_token};

use crate::kind::{is_false, is_true, is_whole, is_word_byte};
use crate::text::{mark_place, without_first_blanks};
use cov_model::Rel;
use std::alloc::Global;
use value_text::NoMemory;

/// A token of a constraint line (ACTS guide).
#[derive(Drop, Clone, Copy)]
pub(crate) enum Token<'a> {
    /// A name.
    Name(&'a [u8]),
    /// A whole number, as it stands.
    Whole(&'a [u8]),
    /// A text, without its quotes.
    Words(&'a [u8]),
    /// TRUE or FALSE.
    Truth(bool),
    /// `=`, `!=`, `>`, `>=`, `<` or `<=`.
    Relation(Rel),
    /// `=>`
    Arrow,
    /// `||`
    Or,
    /// `&&`
    And,
    /// `!`
    Not,
    /// `(`
    Open,
    /// `)`
    Close,
}

// How many bytes of a word stand at the start of a text.
#[tactic(auto, using(model_lex::proofs::Runs::run_len, model_lex::proofs::Runs::run_within))]
fn word_len(text: &[u8]) -> usize
    ensures value { result ≡ prefix_len is_word_byte text.now }
    ensures within { result ≤ length text.now }
{
    text.iter().take_while(|byte| is_word_byte(**byte)).count()
}

// How many digits stand at the start of a text.
#[tactic(auto, using(model_lex::proofs::Runs::run_len, model_lex::proofs::Runs::run_within))]
fn digit_len(text: &[u8]) -> usize
    ensures value { result ≡ prefix_len is_ascii_digit text.now }
    ensures within { result ≤ length text.now }
{
    text.iter().take_while(|byte| byte.is_ascii_digit()).count()
}

// The word at the start of a text.
fn token_of_word(text: &[u8]) -> (Token<'_>, usize)
    ensures token { token_seen result.0 ≡ token_of_word (first_word text.now) }
    ensures len { result.1 ≡ length (first_word text.now) }
{
    let len = word_len(text);
    let word = &text[..len];
    let token = if is_true(word) {
        Token::Truth(true)
    } else if is_false(word) {
        Token::Truth(false)
    } else {
        Token::Name(word)
    };
    (token, len)
}

// The whole number at the start of a text.
fn whole_token(text: &[u8]) -> Option<(Token<'_>, usize)>
    ensures { found_seen result ≡ whole_token (whole_run text.now) }
{
    let len = match text {
        [b'-', rest @ ..] => 1 + digit_len(rest),
        _ => digit_len(text),
    };
    let run = &text[..len];
    if is_whole(run) {
        Some((Token::Whole(run), len))
    } else {
        None
    }
}

// The text in quotes, given what stands behind the first of them.
fn words_token(behind: &[u8]) -> Option<(Token<'_>, usize)>
    requires { length behind.now < 2 ^ 63 }
    ensures value { found_seen result ≡ words_token behind.now }
    ensures within { IfSome result (λ found. (0 < found.1) × (found.1 ≤ length behind.now + 1)) }
{
    let len = mark_place(behind, b'"')?;
    let inside = &behind[..len];
    if mark_place(inside, b'\\').is_some() {
        return None;
    }
    Some((Token::Words(inside), 2 + len))
}

// The relation or other mark at the start of a text.
fn mark_token<'a>(text: &[u8]) -> Option<(Token<'a>, usize)>
    requires { 0 < length text.now }
    ensures value { found_seen result ≡ mark_token (slice_index text.now 0) (slice_index text.now 1) }
    ensures within { IfSome result (λ found. (0 < found.1) × (found.1 ≤ length text.now)) }
{
    match text {
        [b'=', b'>', ..] => Some((Token::Arrow, 2)),
        [b'!', b'=', ..] => Some((Token::Relation(Rel::Ne), 2)),
        [b'>', b'=', ..] => Some((Token::Relation(Rel::Ge), 2)),
        [b'<', b'=', ..] => Some((Token::Relation(Rel::Le), 2)),
        [b'|', b'|', ..] => Some((Token::Or, 2)),
        [b'&', b'&', ..] => Some((Token::And, 2)),
        [b'=', ..] => Some((Token::Relation(Rel::Eq), 1)),
        [b'!', ..] => Some((Token::Not, 1)),
        [b'>', ..] => Some((Token::Relation(Rel::Gt), 1)),
        [b'<', ..] => Some((Token::Relation(Rel::Lt), 1)),
        [b'(', ..] => Some((Token::Open, 1)),
        [b')', ..] => Some((Token::Close, 1)),
        _ => None,
    }
}

// The token at the start of a text, with its length.
fn first_found(text: &[u8]) -> Option<(Token<'_>, usize)>
    requires { 0 < length text.now }
    ensures value { found_seen result ≡ first_found text.now }
    ensures within { IfSome result (λ found. (0 < found.1) × (found.1 ≤ length text.now)) }
{
    let first = text[0];
    if first.is_ascii_digit() || first == b'-' {
        whole_token(text)
    } else if is_word_byte(first) {
        Some(token_of_word(text))
    } else if first == b'"' {
        words_token(&text[1..])
    } else {
        mark_token(text)
    }
}

/// The tokens of a text, with blanks between them; `None` where a part of it is none.
pub(crate) fn tokens_found(alloc: Global, text: &[u8]) -> Result<Option<Vec<Token<'_>>>, NoMemory>
    ensures { IfOk result (λ tokens. option_map (λ list. tokens_seen list.items) tokens ≡ tokens_found text.now) }
{
    let mut tokens = Vec::new(alloc);
    let mut ahead = text;
    loop {
        let rest = without_first_blanks(ahead);
        if rest.is_empty() {
            return Ok(Some(tokens));
        }
        let Some((token, len)) = first_found(rest) else {
            return Ok(None);
        };
        tokens.push(token)?;
        ahead = &rest[len..];
    }
}
