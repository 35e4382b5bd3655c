//! What is told of a refusal.
ghost use Rattle.std.specs.Prelude.{◌≤◌, ◌^◌, length};
ghost use Rattle.model_parse.specs.RawModels.{AreOpts};

use crate::found::plain_message;
use crate::name_words::{member_message, reference_message, unknown_message};
use crate::shown::text_of;
use crate::span::Span;
use crate::term_words::{like_message, type_message};
use crate::token_words::{token_message, word_message};
use crate::tokens::constraints_head;
use crate::trial::model_of;
use model_lex::{DiagCode, ModelOpts, OrderWord};
use std::alloc::Global;
use value_text::NoMemory;

// The message of a byte that isn't UTF-8.
fn byte_message(alloc: Global, file: &[u8], part: Span) -> Result<String, NoMemory> {
    match part.bytes(file) {
        [byte, ..] => Ok(format!(in alloc; "expected text in UTF-8, found the byte 0x{byte:02x}")?),
        [] => Ok(String::from_str(alloc, "expected text in UTF-8")?),
    }
}

// The message of an order of the whole that is above the number of parameters.
fn order_message(alloc: Global, file: &[u8], opts: &ModelOpts) -> Result<Option<String>, NoMemory>
    requires opts { AreOpts opts.now }
    requires len { length file.now ≤ 2 ^ 22 }
{
    let head = constraints_head(alloc, file)?;
    match (model_of(alloc, head.bytes(file), opts)?, opts.order) {
        (Some(model), OrderWord::Number(order)) => {
            let count = model.params().len();
            Ok(Some(format!(in alloc;
                "{order} parameters are to be combined, and the model has {count}"
            )?))
        }
        _ => Ok(None),
    }
}

// The message of a name, behind some words or before others.
fn name_message(
    alloc: Global,
    file: &[u8],
    part: Span,
    before: &str,
    behind: &str,
) -> Result<String, NoMemory> {
    let name = text_of(alloc, file, part)?;
    Ok(format!(in alloc; "{before}{name}{behind}")?)
}

// What is told of a refusal by a code, of what stands at its place; `None` where it is not more than what
// was expected and found.
fn special_message(
    alloc: Global,
    file: &[u8],
    opts: &ModelOpts,
    code: DiagCode,
    part: Span,
) -> Result<Option<String>, NoMemory>
    requires opts { AreOpts opts.now }
    requires len { length file.now ≤ 2 ^ 22 }
{
    let told = match code {
        DiagCode::UnknownReference => return reference_message(alloc, file, opts, part),
        DiagCode::UnknownMember => return member_message(alloc, file, opts, part),
        DiagCode::OrderTooLarge => return order_message(alloc, file, opts),
        DiagCode::TypeMismatch => return type_message(alloc, file, opts, part),
        DiagCode::LikeNeedsText => return like_message(alloc, file, part),
        DiagCode::NotText => byte_message(alloc, file, part)?,
        DiagCode::RepeatedParameter => {
            name_message(alloc, file, part, "a second parameter named ", "")?
        }
        DiagCode::RepeatedMember => {
            name_message(alloc, file, part, "", " stands in the group twice")?
        }
        DiagCode::NoParameters => String::from_str(alloc, "the model has no parameters")?,
        DiagCode::UnknownWord => word_message(alloc, file, part)?,
        DiagCode::PredicateExpected
        | DiagCode::RelationExpected
        | DiagCode::OperandExpected
        | DiagCode::MarkExpected => token_message(alloc, file, opts, code, part)?,
        DiagCode::UnknownParameter => unknown_message(alloc, file, opts, part)?,
        _ => return Ok(None),
    };
    Ok(Some(told))
}

/// What is told of a refusal by a code, given what stands at its place.
pub(crate) fn message(
    alloc: Global,
    file: &[u8],
    opts: &ModelOpts,
    code: DiagCode,
    part: Span,
) -> Result<String, NoMemory>
    requires opts { AreOpts opts.now }
    requires len { length file.now ≤ 2 ^ 22 }
{
    if let Some(special) = special_message(alloc, file, opts, code, part)? {
        return Ok(special);
    }
    let end = match code {
        DiagCode::NoColon => "the end of the line",
        _ => "nothing",
    };
    plain_message(alloc, file, code, part, end)
}
