//! Reading parts of a file to find out what is refused in it: of the whole, the reader tells a line
//! and a code alone.
ghost use Rattle.model_parse.specs.RawModels.{AreOpts};

use crate::span::Span;
use cov_model::TestModel;
use model_lex::{Diag, DiagCode, ModelFault, ModelOpts, OrderWord};
use std::alloc::Global;
use type_check::read_model;
use value_text::NoMemory;

// The most bytes that the reader takes.
const MOST_BYTES: usize = 1 << 28;

// The same options with an order that is above no number of parameters: a part of a file may have
// fewer parameters than the file.
fn without_order(opts: &ModelOpts) -> ModelOpts
    requires { AreOpts opts.now }
    ensures { AreOpts result }
{
    ModelOpts {
        order: OrderWord::Number(1),
        marks: opts.marks,
        fold: opts.fold,
    }
}

// The model of a text, where it is one.
pub(crate) fn model_of(
    alloc: Global,
    text: &[u8],
    opts: &ModelOpts,
) -> Result<Option<TestModel>, NoMemory>
    requires { AreOpts opts.now }
{
    if text.len() > MOST_BYTES {
        return Ok(None);
    }
    match read_model(alloc, text, &without_order(opts)) {
        Ok((model, _)) => Ok(Some(model)),
        Err(ModelFault::NoMemory) => Err(NoMemory),
        Err(_) => Ok(None),
    }
}

// Where and why a text is refused, where it is so by a code.
fn refusal_of(alloc: Global, text: &[u8], opts: &ModelOpts) -> Result<Option<Diag>, NoMemory>
    requires { AreOpts opts.now }
{
    if text.len() > MOST_BYTES {
        return Ok(None);
    }
    match read_model(alloc, text, &without_order(opts)) {
        Ok(_) | Err(ModelFault::Limit(_, _)) => Ok(None),
        Err(ModelFault::Bad(diag) | ModelFault::BadRule(diag)) => Ok(Some(diag)),
        Err(ModelFault::NoMemory) => Err(NoMemory),
    }
}

// Where and why a file is refused that ends with a part, and with a text behind it.
pub(crate) fn refusal_behind(
    alloc: Global,
    file: &[u8],
    part: Span,
    behind: &[u8],
    opts: &ModelOpts,
) -> Result<Option<Diag>, NoMemory>
    requires { AreOpts opts.now }
{
    let mut text = Vec::from_slice(alloc, &file[..part.to.min(file.len())])?;
    text.extend_from_slice(behind)?;
    refusal_of(alloc, text.as_slice(), opts)
}

// Whether a file that ends with a part, and with a text behind it, is refused by a code, and not
// behind the part.
fn is_refused(
    alloc: Global,
    file: &[u8],
    part: Span,
    behind: &[u8],
    opts: &ModelOpts,
    code: DiagCode,
) -> Result<bool, NoMemory>
    requires { AreOpts opts.now }
{
    match refusal_behind(alloc, file, part, behind, opts)? {
        Some(diag) => Ok(diag.code == code && diag.line <= part.line),
        None => Ok(false),
    }
}

// The number of the first of some parts, which stand one behind another, that is refused by a code:
// a file that ends with it or with a later one, and with a text behind that, is refused so. The
// number of the parts where none is.
pub(crate) fn first_refused(
    alloc: Global,
    file: &[u8],
    parts: &[Span],
    behind: &[u8],
    opts: &ModelOpts,
    code: DiagCode,
) -> Result<usize, NoMemory>
    requires { AreOpts opts.now }
{
    let mut low = 0;
    let mut high = parts.len();
    while low < high {
        let middle = low + (high - low) / 2;
        if is_refused(alloc, file, parts[middle], behind, opts, code)? {
            high = middle;
        } else {
            low = middle + 1;
        }
    }
    Ok(low)
}
