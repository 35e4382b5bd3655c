//! Cutting lines into parts.
ghost use Rattle.std.specs.Prelude.{◌≡◌, ◌==◌, map, IfOk};
ghost use Rattle.std.specs.List.{slice_split};

use std::alloc::Global;
use value_text::NoMemory;

/// The parts of a line between a mark.
pub(crate) fn parts(alloc: Global, line: &[u8], mark: u8) -> Result<Vec<&[u8]>, NoMemory>
    ensures { IfOk result (λ parts. map (λ part. part.now) parts.items ≡ slice_split (λ byte. byte == mark) line.now) }
{
    let parts = line.split(|byte| *byte == mark).collect(alloc);
    match parts {
        Ok(parts) => Ok(parts),
        Err(_) => Err(NoMemory),
    }
}
