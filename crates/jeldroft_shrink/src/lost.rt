ghost use Rattle.std.specs.Prelude.{◌≡◌, IfOk};
ghost use Rattle.row_text.specs.RowFiles.{seeds_seen};
ghost use Rattle.jeldroft_shrink.specs.Lost.{lost_lines};

use cov_model::Rows;
use row_text::RowFile;
use std::alloc::Global;
use suite_shrink::is_contained;
use value_text::NoMemory;

/// The lines of the seed rows that no given row contains.
///
/// # Errors
///
/// `NoMemory` where memory is refused.
pub(crate) fn lost_lines(alloc: Global, given: &Rows, seeds: &RowFile) -> Result<Vec<u32>, NoMemory>
    ensures { IfOk result (λ lost. lost.items ≡ lost_lines given.now (seeds_seen seeds.now)) }
{
    let mut lost = Vec::new(alloc);
    for seed in seeds.rows.as_slice() {
        if !is_contained(given, seed.cells.as_slice()) {
            lost.push(seed.line)?;
        }
    }
    Ok(lost)
}
