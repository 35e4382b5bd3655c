//! The parts of parameter lines and of group lines.
ghost use Rattle.model_parse.specs.RawModels.{AreOpts};

use crate::span::Span;
use crate::trial::first_refused;
use model_lex::{DiagCode, ModelOpts};
use std::alloc::Global;
use value_text::NoMemory;

/// The parts of a part between a mark, with their blanks.
pub(crate) fn pieces(
    alloc: Global,
    file: &[u8],
    whole: Span,
    mark: u8,
) -> Result<Vec<Span>, NoMemory> {
    let bytes = whole.bytes(file);
    let mut parts = Vec::new(alloc);
    let mut start = 0;
    for (i, byte) in bytes.iter().enumerate() {
        if *byte == mark {
            parts.push(whole.part(start, i))?;
            start = i + 1;
        }
    }
    parts.push(whole.part(start, bytes.len()))?;
    Ok(parts)
}

// The place of the first colon of a line, counted from the start of the line, or the line's length.
fn colon(file: &[u8], line: Span) -> usize {
    let bytes = line.bytes(file);
    bytes
        .iter()
        .position(|byte| *byte == b':')
        .unwrap_or(bytes.len())
}

/// The name of a parameter line, without blanks.
pub(crate) fn param_name(file: &[u8], line: Span) -> Span {
    line.part(0, colon(file, line)).trimmed(file)
}

// The first of the pieces of a list that is refused by a code, without blanks.
fn refused_piece(
    alloc: Global,
    file: &[u8],
    list: Span,
    behind: &[u8],
    opts: &ModelOpts,
    code: DiagCode,
) -> Result<Option<Span>, NoMemory>
    requires { AreOpts opts.now }
{
    let parts = pieces(alloc, file, list, opts.marks.separator)?;
    let number = first_refused(alloc, file, parts.as_slice(), behind, opts, code)?;
    match parts.get(number) {
        Some(part) => Ok(Some(part.trimmed(file))),
        None => Ok(None),
    }
}

/// What stands behind the colon of a parameter line.
pub(crate) fn value_list(file: &[u8], line: Span) -> Span {
    line.part(colon(file, line).saturating_add(1), usize::MAX)
}

/// The piece of a parameter line behind its colon that is refused by a code. The blank behind each
/// keeps a carriage return at its end from being part of a line end.
pub(crate) fn refused_value(
    alloc: Global,
    file: &[u8],
    line: Span,
    opts: &ModelOpts,
    code: DiagCode,
) -> Result<Option<Span>, NoMemory>
    requires { AreOpts opts.now }
{
    refused_piece(alloc, file, value_list(file, line), b" ", opts, code)
}

// The places of the first `{` and of the last `}` of a line, counted from its start.
fn braces(file: &[u8], line: Span) -> Option<(usize, usize)> {
    let bytes = line.bytes(file);
    let first = bytes.iter().position(|byte| *byte == b'{')?;
    let last = bytes.iter().rposition(|byte| *byte == b'}')?;
    Some((first, last))
}

/// The member of a group line that is refused by a code.
pub(crate) fn refused_member(
    alloc: Global,
    file: &[u8],
    line: Span,
    opts: &ModelOpts,
    code: DiagCode,
) -> Result<Option<Span>, NoMemory>
    requires { AreOpts opts.now }
{
    match braces(file, line) {
        Some((first, last)) => {
            let list = line.part(first.saturating_add(1), last);
            refused_piece(alloc, file, list, b"}", opts, code)
        }
        None => Ok(None),
    }
}

/// What stands behind the last `}` of a group line.
pub(crate) fn behind_braces(file: &[u8], line: Span) -> Span {
    match braces(file, line) {
        Some((_, last)) => line.part(last.saturating_add(1), usize::MAX).trimmed(file),
        None => line.trimmed(file),
    }
}

/// What stands where the strength of a relation has to: behind its `@`, before its `{`.
pub(crate) fn strength(file: &[u8], line: Span) -> Span {
    let text = line.trimmed(file);
    let bytes = text.bytes(file);
    let end = bytes
        .iter()
        .position(|byte| *byte == b'{')
        .unwrap_or(bytes.len());
    text.part(1, end).trimmed(file)
}

/// The written order of a group line.
pub(crate) fn group_order(file: &[u8], line: Span) -> Span {
    match line.trimmed(file).bytes(file) {
        [b'@', ..] => strength(file, line),
        _ => behind_braces(file, line).part(1, usize::MAX).trimmed(file),
    }
}
