//! Messages of tokens that are refused.
ghost use Rattle.std.specs.Prelude.{◌≤◌, ◌^◌, length};
ghost use Rattle.model_parse.specs.RawModels.{AreOpts};

use crate::could_stand::choices_behind;
use crate::expectations::expected;
use crate::found::{found_words, plain_message};
use crate::near_name::nearest;
use crate::shown::{quoted, text_of};
use crate::span::Span;
use crate::token::PlacedToken;
use crate::tokens::constraint_tokens;
use model_lex::{DiagCode, ModelOpts, TokenKind};
use std::alloc::Global;
use value_text::NoMemory;

// The keywords of constraints.
const KEYWORDS: [&str; 10] = [
    "IF",
    "THEN",
    "ELSE",
    "AND",
    "OR",
    "NOT",
    "IN",
    "LIKE",
    "ISNEGATIVE",
    "ISPOSITIVE",
];

// The last of some tokens that ends at a place or before it.
fn token_before(tokens: &[PlacedToken], at: usize) -> Option<PlacedToken> {
    let mut before = None;
    for token in tokens {
        if token.span.to <= at {
            before = Some(*token);
        }
    }
    before
}

// The message of a token that can't go on, given the token before it.
fn grammar_message(
    alloc: Global,
    file: &[u8],
    opts: &ModelOpts,
    code: DiagCode,
    part: Span,
    before: Span,
) -> Result<String, NoMemory>
    requires { AreOpts opts.now }
{
    let choices = choices_behind(alloc, file, opts, before, code)?;
    let wanted = match &choices {
        Some(words) => words.as_str(),
        None => expected(code),
    };
    let last = quoted(alloc, file, before)?;
    let found = found_words(alloc, file, part, "the end of the constraint")?;
    Ok(format!(in alloc; "expected {wanted} after {last}, found {found}")?)
}

/// The message of a token that can't go on.
pub(crate) fn token_message(
    alloc: Global,
    file: &[u8],
    opts: &ModelOpts,
    code: DiagCode,
    part: Span,
) -> Result<String, NoMemory>
    requires opts { AreOpts opts.now }
    requires len { length file.now ≤ 2 ^ 22 }
{
    let placed = constraint_tokens(alloc, file)?;
    match token_before(placed.tokens.as_slice(), part.from) {
        Some(before) => grammar_message(alloc, file, opts, code, part, before.span),
        None => plain_message(alloc, file, code, part, "the end of the constraint"),
    }
}

// Whether a value has to stand behind a token.
fn wants_value(file: &[u8], before: PlacedToken) -> bool {
    before.kind == TokenKind::Relation
        || before.is(file, b"LIKE")
        || before.is(file, b"{")
        || before.is(file, b",")
}

// The keyword that may be meant by a word, where no value has to stand in its place.
fn keyword_meant(
    alloc: Global,
    file: &[u8],
    tokens: &[PlacedToken],
    part: Span,
    word: &str,
) -> Result<Option<&'static str>, NoMemory> {
    match token_before(tokens, part.from) {
        Some(before) if wants_value(file, before) => Ok(None),
        _ => nearest(alloc, word, &KEYWORDS),
    }
}

/// The message of a word that is no keyword.
pub(crate) fn word_message(alloc: Global, file: &[u8], part: Span) -> Result<String, NoMemory>
    requires { length file.now ≤ 2 ^ 22 }
{
    let word = text_of(alloc, file, part)?;
    let placed = constraint_tokens(alloc, file)?;
    match keyword_meant(alloc, file, placed.tokens.as_slice(), part, word.as_str())? {
        Some(near) => Ok(format!(in alloc; "\"{word}\" is no keyword; did you mean {near}?")?),
        None => Ok(format!(in alloc; "\"{word}\" is no keyword; texts stand in quotes")?),
    }
}
