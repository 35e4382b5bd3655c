ghost use Rattle.std.specs.Prelude.{◌≡◌, ◌≤◌, ◌^◌, length, IfOk};
ghost use Rattle.model_parse.specs.RawModels.{AreOpts};

use crate::column::column_of;
use crate::file_lines::line_span;
use crate::pieces::{
    behind_braces, group_order, param_name, refused_member, refused_value, strength,
};
use crate::refused_term::refused_term;
use crate::refused_token::{bad_token, refused_token};
use crate::span::Span;
use model_lex::{Diag, DiagCode, ModelOpts};
use std::alloc::Global;
use std::str::from_utf8;
use value_text::NoMemory;

/// Where a model file is refused, and what stands there.
#[derive(Debug, Drop, Clone, Copy, PartialEq, Eq)]
pub struct Place {
    /// The line, from 1.
    pub line: u32,
    /// The column, from 1, in characters. A byte-order mark at the start of the file doesn't count.
    pub column: u32,
    /// The place in the file of the first byte of what stands there.
    pub from: usize,
    /// The place behind its last byte; that of its first where nothing stands there.
    pub to: usize,
}

// The first byte of a line that isn't UTF-8.
fn not_text(file: &[u8], line: Span) -> Span {
    match from_utf8(line.bytes(file)) {
        Ok(_) => line,
        Err(fault) => {
            let valid = fault.valid_up_to();
            line.part(valid, valid.saturating_add(1))
        }
    }
}

// What is refused in a line by a code; `None` where it isn't found.
fn refused_part(
    alloc: Global,
    file: &[u8],
    line: Span,
    opts: &ModelOpts,
    diag: &Diag,
) -> Result<Option<Span>, NoMemory>
    requires opts { AreOpts opts.now }
    requires len { length file.now ≤ 2 ^ 22 }
{
    match diag.code {
        DiagCode::NotText => Ok(Some(not_text(file, line))),
        DiagCode::LateParameter | DiagCode::GroupNotClosed => Ok(Some(line.trimmed(file))),
        DiagCode::NoColon => Ok(Some(Span::empty(line.line, line.to))),
        DiagCode::EmptyParameterName | DiagCode::BadParameterName | DiagCode::RepeatedParameter =>
            Ok(Some(param_name(file, line))),
        DiagCode::EmptyValueName
        | DiagCode::BadValueName
        | DiagCode::BadWeight
        | DiagCode::UnknownReference => refused_value(alloc, file, line, opts, diag.code),
        DiagCode::UnknownMember | DiagCode::RepeatedMember => {
            refused_member(alloc, file, line, opts, diag.code)
        }
        DiagCode::BadGroupOrder => Ok(Some(group_order(file, line))),
        DiagCode::TextAfterGroup => Ok(Some(behind_braces(file, line))),
        DiagCode::RelationNoOrder => Ok(Some(strength(file, line))),
        DiagCode::NoParameters | DiagCode::OrderTooLarge => Ok(None),
        DiagCode::StrayCharacter
        | DiagCode::NameNotClosed
        | DiagCode::TextNotClosed
        | DiagCode::BadNumber
        | DiagCode::NumberTooWide
        | DiagCode::UnknownWord => bad_token(alloc, file),
        DiagCode::PredicateExpected
        | DiagCode::RelationExpected
        | DiagCode::OperandExpected
        | DiagCode::MarkExpected
        | DiagCode::TooDeep => refused_token(alloc, file, opts, diag.code),
        DiagCode::UnknownParameter | DiagCode::TypeMismatch | DiagCode::LikeNeedsText => {
            refused_term(alloc, file, opts, diag)
        }
    }
}

// A part of a line as a place of the file.
fn place_of(file: &[u8], line: Span, part: Span) -> Place
    ensures line { result.line ≡ line.line }
    ensures ordered { result.from ≤ result.to }
    ensures within { result.to ≤ length file.now }
{
    let to = part.to.min(file.len());
    let from = part.from.min(to);
    Place {
        line: line.line,
        column: column_of(&file[line.from.min(from)..from]),
        from,
        to,
    }
}

// What is refused, where it was found in the line; else the start of the line.
fn part_in(line: Span, found: Option<Span>) -> Span {
    match found {
        Some(part) if part.line == line.line => part,
        _ => Span::empty(line.line, line.from),
    }
}

/// Where a model file is refused, of which the reading told a line and a code: what stands there, from
/// its first byte on.
///
/// Behind a name, a value, a member or a token that may stand there the reader goes on; so the place
/// is found by reading parts of the file, about twenty of them where it is large.
///
/// # Errors
///
/// `NoMemory` where memory was refused.
pub fn refusal_place(
    alloc: Global,
    bytes: &[u8],
    opts: &ModelOpts,
    diag: &Diag,
) -> Result<Place, NoMemory>
    requires opts { AreOpts opts.now }
    requires len { length bytes.now ≤ 2 ^ 22 }
    ensures line { IfOk result (λ place. place.line ≡ diag.now.line) }
    ensures within { IfOk result (λ place. (place.from ≤ place.to) × (place.to ≤ length bytes.now)) }
{
    let line = line_span(bytes, diag.line);
    let found = refused_part(alloc, bytes, line, opts, diag)?;
    Ok(place_of(bytes, line, part_in(line, found)))
}
