//! What was expected at a place, and what was found there.

use crate::expectations::expected;
use crate::shown::quoted;
use crate::span::Span;
use model_lex::DiagCode;
use std::alloc::Global;
use value_text::NoMemory;

/// What stands at a place, in words; others where nothing stands there.
pub(crate) fn found_words(
    alloc: Global,
    file: &[u8],
    part: Span,
    end: &str,
) -> Result<String, NoMemory> {
    if part.from < part.to {
        quoted(alloc, file, part)
    } else {
        Ok(String::from_str(alloc, end)?)
    }
}

/// The message of what was expected by a code, and of what was found.
pub(crate) fn plain_message(
    alloc: Global,
    file: &[u8],
    code: DiagCode,
    part: Span,
    end: &str,
) -> Result<String, NoMemory> {
    let wanted = expected(code);
    let found = found_words(alloc, file, part, end)?;
    Ok(format!(in alloc; "expected {wanted}, found {found}")?)
}
