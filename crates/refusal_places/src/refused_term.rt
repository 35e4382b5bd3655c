//! Where a term is refused that names no parameter, or asks of one what its type hasn't.
ghost use Rattle.std.specs.Prelude.{◌≤◌, ◌^◌, length};
ghost use Rattle.model_parse.specs.RawModels.{AreOpts};

use crate::span::Span;
use crate::terms::terms_in;
use crate::token::PlacedToken;
use crate::tokens::{constraint_tokens, constraints_head};
use crate::trial::{first_refused, refusal_behind};
use model_lex::{Diag, DiagCode, ModelOpts, TokenKind};
use std::alloc::Global;
use value_text::NoMemory;

// A file with constraints of one term each, and where these end.
#[derive(Drop)]
struct TermFile {
    text: Vec<u8>,
    ends: Vec<Span>,
}

// The file of the lines before the constraints, and of constraints of one term each.
fn term_file(alloc: Global, file: &[u8], head: Span, terms: &[Span]) -> Result<TermFile, NoMemory> {
    let mut text = Vec::from_slice(alloc, head.bytes(file))?;
    let mut ends = Vec::new(alloc);
    for term in terms {
        text.extend_from_slice(term.bytes(file))?;
        text.extend_from_slice(b" ;\n")?;
        ends.push(Span::empty(u32::MAX, text.len()))?;
    }
    Ok(TermFile { text, ends })
}

// Whether no parameter of the lines before the constraints has a name.
fn is_unknown(
    alloc: Global,
    file: &[u8],
    head: Span,
    name: Span,
    opts: &ModelOpts,
) -> Result<bool, NoMemory>
    requires { AreOpts opts.now }
{
    let mut asked = Vec::from_slice(alloc, b"ISNEGATIVE (")?;
    asked.extend_from_slice(name.bytes(file))?;
    asked.extend_from_slice(b");")?;
    match refusal_behind(alloc, file, head, asked.as_slice(), opts)? {
        Some(diag) => Ok(diag.code == DiagCode::UnknownParameter),
        None => Ok(false),
    }
}

// The name of a term that no parameter has, or the term where that stands in a later line.
fn unknown_name(
    alloc: Global,
    file: &[u8],
    head: Span,
    tokens: &[PlacedToken],
    term: Span,
    opts: &ModelOpts,
) -> Result<Span, NoMemory>
    requires { AreOpts opts.now }
{
    for token in tokens {
        let name = token.span;
        let is_here = name.line == term.line && term.from <= name.from && name.to <= term.to;
        if is_here && token.kind == TokenKind::Name && is_unknown(alloc, file, head, name, opts)? {
            return Ok(name);
        }
    }
    Ok(term)
}

// The term that is refused of those that begin in the line.
fn term_in(
    alloc: Global,
    file: &[u8],
    head: Span,
    tokens: &[PlacedToken],
    opts: &ModelOpts,
    diag: &Diag,
) -> Result<Option<Span>, NoMemory>
    requires { AreOpts opts.now }
{
    let terms = terms_in(alloc, file, tokens, diag.line)?;
    let trial = term_file(alloc, file, head, terms.as_slice())?;
    let number = first_refused(
        alloc,
        trial.text.as_slice(),
        trial.ends.as_slice(),
        b"",
        opts,
        diag.code,
    )?;
    Ok(terms.get(number).copied())
}

/// The term that is refused, or the name in it that no parameter has.
pub(crate) fn refused_term(
    alloc: Global,
    file: &[u8],
    opts: &ModelOpts,
    diag: &Diag,
) -> Result<Option<Span>, NoMemory>
    requires opts { AreOpts opts.now }
    requires len { length file.now ≤ 2 ^ 22 }
{
    let head = constraints_head(alloc, file)?;
    let placed = constraint_tokens(alloc, file)?;
    let tokens = placed.tokens.as_slice();
    match term_in(alloc, file, head, tokens, opts, diag)? {
        Some(term) if diag.code == DiagCode::UnknownParameter => {
            Ok(Some(unknown_name(alloc, file, head, tokens, term, opts)?))
        }
        found => Ok(found),
    }
}
