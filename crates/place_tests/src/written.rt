//! What is written of the refusal of a file.
ghost use Rattle.std.specs.Prelude.{◌≤◌};

use memory_io::MemSink;
use model_lex::{Diag, ModelFault};
use refusal_places::put_refusal;
use std::alloc::Global;
use std::str::from_utf8;
use test_models::options;
use type_check::read_model;
use value_text::NoMemory;

// The most bytes of a file that is asked of.
const MOST_BYTES: usize = 1 << 22;

/// Where and why a file is refused at an order, where it is so by a code.
pub fn diag_of(alloc: Global, file: &[u8], order: u32) -> Option<Diag>
    requires { 1 ≤ order }
{
    if file.len() > MOST_BYTES {
        return None;
    }
    match read_model(alloc, file, &options(order)) {
        Err(ModelFault::Bad(diag) | ModelFault::BadRule(diag)) => Some(diag),
        _ => None,
    }
}

// A sink that holds what is written of the refusal of a file at an order.
fn told_of(alloc: Global, file: &[u8], order: u32) -> Result<MemSink, NoMemory>
    requires { 1 ≤ order }
{
    let mut sink = MemSink::up_to(alloc, 1000)?;
    if let Some(diag) = diag_of(alloc, file, order)
        && file.len() <= MOST_BYTES
    {
        let _ = put_refusal(alloc, "m.txt", file, &options(order), &diag, &mut sink);
    }
    Ok(sink)
}

/// Whether a text is written of the refusal of a file at an order.
pub fn tells(alloc: Global, file: &[u8], order: u32, line: &str) -> Result<bool, NoMemory>
    requires { 1 ≤ order }
{
    let sink = told_of(alloc, file, order)?;
    match from_utf8(sink.bytes()) {
        Ok(text) => Ok(text == line),
        Err(_) => Ok(false),
    }
}
