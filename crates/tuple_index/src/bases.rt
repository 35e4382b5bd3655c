ghost use Rattle.std.specs.Prelude.{◌≤◌, ◌^◌, sum, IfOk};
ghost use Rattle.tuple_index.specs.Kept.{AreBases};

use std::alloc::Global;
use value_text::NoMemory;

/// The sums of the sizes before each place.
///
/// # Errors
///
/// `NoMemory` where there is no room for them.
pub fn bases_of(alloc: Global, sizes: &[u32]) -> Result<Vec<u32>, NoMemory>
    requires { sum sizes.now ≤ 2 ^ 26 }
    ensures { IfOk result (λ bases. AreBases sizes.now bases.items) }
{
    let mut bases = Vec::with_capacity(alloc, sizes.len())?;
    let mut total: u32 = 0;
    for size in sizes {
        bases.push(total)?;
        total += *size;
    }
    Ok(bases)
}
