//! Where the terms of the constraints stand in a file.
ghost use Rattle.std.specs.Prelude.{◌≤◌, length};

use crate::span::Span;
use crate::token::PlacedToken;
use model_lex::TokenKind;
use std::alloc::Global;
use value_text::NoMemory;

// The number of tokens up to the first `}`.
fn brace_len(file: &[u8], tokens: &[PlacedToken]) -> usize
    ensures { result ≤ length tokens.now }
{
    match tokens.iter().position(|token| token.is(file, b"}")) {
        Some(i) => i + 1,
        None => tokens.len(),
    }
}

// The number of tokens of a LIKE with its text, or of an IN with its list; 0 where neither stands there.
fn asked_len(file: &[u8], tokens: &[PlacedToken]) -> usize
    ensures { result ≤ length tokens.now }
{
    match tokens {
        [first, ..] if first.is(file, b"LIKE") => 2.min(tokens.len()),
        [first, ..] if first.is(file, b"IN") => brace_len(file, tokens),
        _ => 0,
    }
}

// The number of tokens that belong to a term behind its name; 0 where they make none.
fn named_len(file: &[u8], tokens: &[PlacedToken]) -> usize
    ensures { result ≤ length tokens.now }
{
    match tokens {
        [first, ..] if first.kind == TokenKind::Relation => 2.min(tokens.len()),
        [first, rest @ ..] if first.is(file, b"NOT") => match asked_len(file, rest) {
            0 => 0,
            len => 1 + len,
        },
        _ => asked_len(file, tokens),
    }
}

// The number of tokens of the term at the start; 0 where none stands there.
fn term_len(file: &[u8], tokens: &[PlacedToken]) -> usize
    ensures { result ≤ length tokens.now }
{
    match tokens {
        [first, rest @ ..] if first.kind == TokenKind::Name => match named_len(file, rest) {
            0 => 0,
            len => 1 + len,
        },
        [first, ..] if first.is(file, b"ISNEGATIVE") || first.is(file, b"ISPOSITIVE") => {
            4.min(tokens.len())
        }
        _ => 0,
    }
}

/// The terms of some tokens, one behind another.
pub(crate) fn terms_of(
    alloc: Global,
    file: &[u8],
    tokens: &[PlacedToken],
) -> Result<Vec<Span>, NoMemory> {
    let mut terms = Vec::new(alloc);
    let mut behind = 0;
    for (i, first) in tokens.iter().enumerate() {
        if i < behind {
            continue;
        }
        let len = term_len(file, &tokens[i..]);
        if len == 0 {
            continue;
        }
        behind = i + len;
        terms.push(first.span.up_to(tokens[behind - 1].span))?;
    }
    Ok(terms)
}

/// The terms whose first token stands in a line.
pub(crate) fn terms_in(
    alloc: Global,
    file: &[u8],
    tokens: &[PlacedToken],
    line: u32,
) -> Result<Vec<Span>, NoMemory> {
    let all = terms_of(alloc, file, tokens)?;
    let mut terms = Vec::new(alloc);
    for term in all.as_slice() {
        if term.line == line {
            terms.push(*term)?;
        }
    }
    Ok(terms)
}
