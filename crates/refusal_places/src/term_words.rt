//! Messages of terms that are refused.
ghost use Rattle.std.specs.Prelude.{◌≤◌, ◌^◌, length};
ghost use Rattle.model_parse.specs.RawModels.{AreOpts};

use crate::shown::quoted;
use crate::span::Span;
use crate::token::PlacedToken;
use crate::tokens::{constraint_tokens, constraints_head};
use crate::trial::refusal_behind;
use model_lex::{ModelOpts, TokenKind};
use std::alloc::Global;
use value_text::NoMemory;

// Whether the values of a parameter are numbers, given its name in brackets.
fn has_numbers(
    alloc: Global,
    file: &[u8],
    head: Span,
    name: Span,
    opts: &ModelOpts,
) -> Result<bool, NoMemory>
    requires { AreOpts opts.now }
{
    let mut asked = Vec::from_slice(alloc, name.bytes(file))?;
    asked.extend_from_slice(b" = 0;")?;
    let refusal = refusal_behind(alloc, file, head, asked.as_slice(), opts)?;
    Ok(refusal.is_none())
}

// The first token of a part.
fn first_in(tokens: &[PlacedToken], part: Span) -> Option<PlacedToken> {
    for token in tokens {
        if part.from <= token.span.from && token.span.to <= part.to {
            return Some(*token);
        }
    }
    None
}

// Whether a token can't be compared with a parameter whose values are numbers, or are texts.
fn differs(kind: TokenKind, numbers: bool) -> bool {
    match kind {
        TokenKind::Name => true,
        TokenKind::Words => numbers,
        TokenKind::Number => !numbers,
        TokenKind::Word | TokenKind::Relation | TokenKind::Mark => false,
    }
}

// The first token of a term behind its name that can't be compared with the parameter.
fn first_other(
    tokens: &[PlacedToken],
    term: Span,
    name: Span,
    numbers: bool,
) -> Option<PlacedToken> {
    for token in tokens {
        if name.to <= token.span.from && token.span.to <= term.to && differs(token.kind, numbers) {
            return Some(*token);
        }
    }
    None
}

// What a parameter has, in words.
fn values_of(numbers: bool) -> &'static str {
    if numbers { "numbers" } else { "texts" }
}

// What the other side of a comparison is, in words.
fn other_words(kind: TokenKind, numbers: bool) -> &'static str {
    match kind {
        TokenKind::Name => { if numbers { "has texts" } else { "has numbers" } }
        _ => { if numbers { "is a text" } else { "is a number" } }
    }
}

// The message of a name and of what it is compared with.
fn mismatch(
    alloc: Global,
    file: &[u8],
    name: Span,
    other: PlacedToken,
    numbers: bool,
) -> Result<String, NoMemory> {
    let parameter = quoted(alloc, file, name)?;
    let operand = quoted(alloc, file, other.span)?;
    let values = values_of(numbers);
    let words = other_words(other.kind, numbers);
    Ok(format!(in alloc; "{parameter} has {values}, {operand} {words}")?)
}

/// The message of a term whose sides have different types; `None` where they aren't found.
pub(crate) fn type_message(
    alloc: Global,
    file: &[u8],
    opts: &ModelOpts,
    term: Span,
) -> Result<Option<String>, NoMemory>
    requires opts { AreOpts opts.now }
    requires len { length file.now ≤ 2 ^ 22 }
{
    let head = constraints_head(alloc, file)?;
    let placed = constraint_tokens(alloc, file)?;
    let tokens = placed.tokens.as_slice();
    let Some(name) = first_in(tokens, term) else {
        return Ok(None);
    };
    let numbers = has_numbers(alloc, file, head, name.span, opts)?;
    match first_other(tokens, term, name.span, numbers) {
        Some(other) => Ok(Some(mismatch(alloc, file, name.span, other, numbers)?)),
        None => Ok(None),
    }
}

/// The message of a LIKE that is asked of a parameter whose values are numbers; `None` where it isn't found.
pub(crate) fn like_message(
    alloc: Global,
    file: &[u8],
    term: Span,
) -> Result<Option<String>, NoMemory>
    requires { length file.now ≤ 2 ^ 22 }
{
    let placed = constraint_tokens(alloc, file)?;
    let Some(name) = first_in(placed.tokens.as_slice(), term) else {
        return Ok(None);
    };
    let parameter = quoted(alloc, file, name.span)?;
    Ok(Some(format!(in alloc; "LIKE needs a parameter with texts, {parameter} has numbers")?))
}
