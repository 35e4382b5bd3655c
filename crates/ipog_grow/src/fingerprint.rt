ghost use Rattle.std.specs.Prelude.{◌≡◌, ◌+◌, ◌<◌, ℕ, true, length, map, slice_index_or, IfOk};
ghost use Rattle.definitions.specs.believed.Seeds.{distinct};
ghost use Rattle.ipog_grow.specs.Fingerprints.{code_of, fingerprint};
ghost use Rattle.ipog_grow.specs.Rows.{AreAsLong};

use cov_model::{Rows, ValueNo};
use std::alloc::Global;
use value_text::NoMemory;

// 2^64 divided by the golden ratio, whose multiples lie far apart.
const FACTOR: u64 = 0x9e37_79b9_7f4a_7c15;

// A place as a number.
fn code_of(place: Option<ValueNo>) -> u64
    ensures { result ≡ code_of place }
{
    match place {
        Some(v) => u64::from(v) + 1,
        None => 0,
    }
}

// A number that equal rows have in common.
fn fingerprint(row: &[Option<ValueNo>]) -> u64
    ensures { result ≡ fingerprint row.now }
{
    let mut number: u64 = 0;
    for place in row {
        number = number.wrapping_mul(FACTOR).wrapping_add(code_of(*place));
    }
    number
}

// The numbers of the rows.
fn fingerprints(alloc: Global, rows: &Rows) -> Result<Vec<u64>, NoMemory>
    ensures { IfOk result (λ numbers. numbers.items ≡ map fingerprint rows.now) }
{
    let mut numbers = Vec::new(alloc);
    numbers.reserve(rows.len())?;
    for i in 0..rows.len() {
        numbers.push(fingerprint(rows.row(i)))?;
    }
    Ok(numbers)
}

// Whether each number is less than the next one.
fn are_rising(numbers: &[u64]) -> bool
    ensures { result ≡ true → (k : ℕ) → k + 1 < length numbers.now → slice_index_or numbers.now k 0 < slice_index_or numbers.now (k + 1) 0 }
{
    for i in 1..numbers.len() {
        if numbers[i - 1] >= numbers[i] {
            return false;
        }
    }
    true
}

// Whether the rows, which are of one length, all have different fingerprints, and so are distinct.
pub(crate) fn are_apart(alloc: Global, rows: &Rows) -> Result<bool, NoMemory>
    requires { AreAsLong rows.now }
    ensures { IfOk result (λ apart. apart ≡ true → distinct rows.now ≡ rows.now) }
{
    let mut numbers = fingerprints(alloc, rows)?;
    numbers.sort_unstable();
    Ok(are_rising(numbers.as_slice()))
}
