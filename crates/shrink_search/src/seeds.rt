use crate::suite::Suite;
use crate::task::Task;
use cov_model::{ParamNo, Rows, ValueNo};
use std::alloc::Global;
use value_text::NoMemory;

// Whether a row gives every value that a seed row gives.
fn contains(row: &[Option<ValueNo>], seed: &[Option<ValueNo>]) -> bool {
    let mut given = row.iter();
    for cell in seed {
        let own = given.next();
        if cell.is_some() && own != Some(cell) {
            return false;
        }
    }
    true
}

// The number of the first row that contains a seed row.
fn holder(rows: &Rows, seed: &[Option<ValueNo>]) -> Option<u32> {
    for row in 0..rows.len() {
        if contains(rows.row(row), seed) {
            return u32::try_from(row).ok();
        }
    }
    None
}

// For each seed row the number of the first row that contains it.
pub(crate) fn holders(
    alloc: Global,
    rows: &Rows,
    seeds: &Rows,
) -> Result<Vec<Option<u32>>, NoMemory> {
    let mut list = Vec::with_capacity(alloc, seeds.len())?;
    for seed in 0..seeds.len() {
        list.push(holder(rows, seeds.row(seed)))?;
    }
    Ok(list)
}

// The values of each seed have to stay in the row that contains it.
pub(crate) fn fix_seeds(task: Task<'_>, numbers: &[u32], suite: &mut Suite<'_>) {
    for seed in 0..task.seeds.len() {
        if let Some(Some(number)) = task.holders.get(seed) {
            if let Ok(row) = numbers.binary_search(number) {
                fix_row(task.seeds.row(seed), row, suite);
            }
        }
    }
}

// The values that a seed row gives have to stay in a row.
fn fix_row(seed: &[Option<ValueNo>], row: usize, suite: &mut Suite<'_>) {
    let mut p: ParamNo = 0;
    for cell in seed {
        if cell.is_some() {
            suite.fix(p, row);
        }
        p = p.saturating_add(1);
    }
}
