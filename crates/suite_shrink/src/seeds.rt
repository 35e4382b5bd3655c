ghost use Rattle.std.specs.Prelude.{◌≡◌, true, None, All, slice_index_or};
ghost use Rattle.cov_model.specs.believed.Rows.{contains};
ghost use Rattle.shorter_suites.specs.believed.Shrinking.{is_contained};
ghost use Rattle.suite_shrink.specs.Coverage.{Stays};

use cov_model::{Rows, ValueNo};

// The value that a row gives a parameter.
fn value_at(row: &[Option<ValueNo>], p: usize) -> Option<ValueNo>
    ensures { result ≡ slice_index_or row.now p None }
{
    match row.get(p) {
        Some(cell) => *cell,
        None => None,
    }
}

// Whether a row gives every value that a partial row gives.
fn contains(row: &[Option<ValueNo>], part: &[Option<ValueNo>]) -> bool
    ensures { result ≡ contains row.now part.now }
{
    for p in 0..part.len() {
        if part[p].is_some() && value_at(row, p) != part[p] {
            return false;
        }
    }
    true
}

/// Whether one of the rows gives every value that a partial row gives.
pub fn is_contained(rows: &Rows, part: &[Option<ValueNo>]) -> bool
    ensures { result ≡ is_contained rows.now part.now }
{
    for i in 0..rows.len() {
        if contains(rows.row(i), part) {
            return true;
        }
    }
    false
}

// Whether a seed row is contained in one of the rows, if a given row contains it.
fn stays(given: &Rows, rows: &Rows, seed: &[Option<ValueNo>]) -> bool
    ensures { result ≡ true → Stays given.now rows.now seed.now }
{
    // these rows are fewer, and contain most seed rows
    is_contained(rows, seed) || !is_contained(given, seed)
}

// Whether each seed row that a given row contains is contained in one of the rows.
pub(crate) fn keep_seeds(given: &Rows, seeds: &Rows, rows: &Rows) -> bool
    ensures { result ≡ true → All (Stays given.now rows.now) seeds.now }
{
    for i in 0..seeds.len() {
        if !stays(given, rows, seeds.row(i)) {
            return false;
        }
    }
    true
}
