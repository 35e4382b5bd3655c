ghost use Rattle.std.specs.Prelude.{◌≡◌, ◌<◌, ◌^◌, ℕ, List, length, map, IfOk};
ghost use Rattle.std.specs.List.{range_with_len};
ghost use Rattle.suspect_tuples.specs.SetCounts.{next_count, ways_up_to};
ghost use Rattle.tuple_index.specs.believed.PlanFault.{saturated};

use std::alloc::Global;
use value_text::NoMemory;

// What the next row has at a place.
fn count_at(row: &[u64], k: usize) -> u64
    requires { k < length row.now }
    ensures { result ≡ next_count row.now k }
{
    if k == 0 {
        return 0;
    }
    row[k - 1].saturating_add(row[k]).saturating_add(1)
}

// The row of one item more.
fn next_counts(alloc: Global, row: &[u64]) -> Result<Vec<u64>, NoMemory>
    ensures { IfOk result (λ next. next.items ≡ map (next_count row.now) (range_with_len 0 (length row.now))) }
{
    let mut next = Vec::new(alloc);
    for k in 0..row.len() {
        next.push(count_at(row, k))?;
    }
    Ok(next)
}

// How many sets of 1 to `most` of so many items there are, or 2^64 - 1 where that is less.
pub(crate) fn count_sets(alloc: Global, items: usize, most: usize) -> Result<u64, NoMemory>
    requires { most < 2 ^ 16 }
    ensures { IfOk result (λ count. (list : List ℕ) → length list ≡ items → count ≡ saturated (ways_up_to most list)) }
{
    let mut row = vec![in alloc; 0; most + 1]?;
    let mut counted = 0;
    while counted < items {
        row = next_counts(alloc, &row)?;
        counted += 1;
    }
    Ok(row[most])
}
