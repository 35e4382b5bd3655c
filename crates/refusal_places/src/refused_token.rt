//! Where the constraints stop to follow their grammar.
ghost use Rattle.std.specs.Prelude.{◌≤◌, ◌^◌, length};
ghost use Rattle.model_parse.specs.RawModels.{AreOpts};

use crate::span::Span;
use crate::token::PlacedToken;
use crate::tokens::constraint_tokens;
use crate::trial::first_refused;
use model_lex::{DiagCode, ModelOpts};
use std::alloc::Global;
use value_text::NoMemory;

// Where tokens stand.
fn spans_of(alloc: Global, tokens: &[PlacedToken]) -> Result<Vec<Span>, NoMemory> {
    let mut spans = Vec::new(alloc);
    for token in tokens {
        spans.push(token.span)?;
    }
    Ok(spans)
}

// The place behind the last of some parts.
fn end_of(spans: &[Span]) -> Option<Span> {
    match spans {
        [.., last] => Some(Span::empty(last.line, last.to)),
        [] => None,
    }
}

/// The first text of the constraints that is no token.
pub(crate) fn bad_token(alloc: Global, file: &[u8]) -> Result<Option<Span>, NoMemory>
    requires { length file.now ≤ 2 ^ 22 }
{
    let placed = constraint_tokens(alloc, file)?;
    Ok(placed.bad)
}

/// The first token of the constraints that can't go on, or the place behind the last one where the
/// tokens end too early. A `{` in the next line tells them apart: behind tokens that can go on it is
/// what is refused, or else the end of the tokens, which are both in its line.
pub(crate) fn refused_token(
    alloc: Global,
    file: &[u8],
    opts: &ModelOpts,
    code: DiagCode,
) -> Result<Option<Span>, NoMemory>
    requires opts { AreOpts opts.now }
    requires len { length file.now ≤ 2 ^ 22 }
{
    let placed = constraint_tokens(alloc, file)?;
    let spans = spans_of(alloc, placed.tokens.as_slice())?;
    let spans = spans.as_slice();
    let number = first_refused(alloc, file, spans, b"\n{", opts, code)?;
    match spans.get(number) {
        Some(span) => Ok(Some(*span)),
        None => Ok(end_of(spans)),
    }
}
