ghost use Rattle.std.specs.Prelude.{◌≡◌, ◌+◌, ◌<◌, ◌≤◌, ◌^◌, ℕ, All, IfSome, false, length, slice_index_or, sum_by, true};
ghost use Rattle.cov_model.specs.believed.Sound.{param_at};
ghost use Rattle.definitions.specs.SliceRows.{IsOfSlice};
ghost use Rattle.uncovered_table.specs.Bits.{InPlay, sets_in_play, value_held};
ghost use Rattle.uncovered_table.specs.Digits.{HasAllValues, cell_digit, own_values};
ghost use Rattle.uncovered_table.specs.Places.{slice_places};
ghost use Rattle.uncovered_table.specs.Prepared.{AreLinesOf, AreReady, digit_in};
ghost use Rattle.uncovered_table.specs.Words.{AreCounted};

use crate::lanes::{LANES, put_counts, with_marks};
use crate::prepared::ColumnLines;
use crate::sets::SliceSets;
use bit_table::BitTable;
use cov_model::{Cells, ParamNo, ValueNo};
use std::simd::prelude::*;

// Adds to each of 8 counts whether a tuple of a set that is ready is open that cells contain, with its value in
// the column. The first `count` counts are for the values from `from` on; the others mean nothing. Tells whether
// it could: the bits of the values have to stand side by side.
#[inline(always)]
fn count_set(
    sets: &SliceSets<'_>,
    lines: &ColumnLines,
    k: usize,
    bits: &BitTable,
    cells: &Cells,
    row: &[u16],
    column: ParamNo,
    from: ValueNo,
    count: u32,
    counts: &mut u32x8,
) -> bool
    requires k { k < length lines.now.sets.items }
    requires set { InPlay sets.now.model sets.now.slice column (slice_index_or lines.now.sets.items k 0) }
    requires lines { AreLinesOf sets.now.model sets.now.slice column lines.now }
    requires bits { length bits.now ≡ length (slice_places sets.now.model sets.now.slice) }
    requires cells { IsOfSlice sets.now.model sets.now.slice cells.now }
    requires row { digit_in row.now ≡ cell_digit (own_values sets.now.model sets.now.slice) cells.now }
    requires long { length sets.now.model.params ≤ length row.now }
    requires all { HasAllValues sets.now.model sets.now.slice column }
    requires values { from + count ≤ length (param_at sets.now.model.params column).values }
    requires some { 0 < count }
    requires few { count ≤ 8 }
    requires eight { length counts.old ≡ 8 }
    requires low { All (λ count. count < 2 ^ 31) counts.old }
    ensures { result ≡ true → AreCounted (λ i. value_held sets.now.model sets.now.slice bits.now cells.now column (from + i)
        (slice_index_or lines.now.sets.items k 0)) count counts.old counts.new }
{
    sets.assert_invariant();
    let set = lines.sets[k];
    match sets.prepared_line(lines, k, set, column, cells, row) {
        Some(line) if line.step == 1 => {
            *counts = with_marks(bits, line.first + u32::from(from), count, *counts);
            true
        }
        Some(_) => false,
        None => true,
    }
}

// Puts how many open tuples of the sets that are ready cells contain, with each of a few values in the column,
// from `from` on. Tells whether it did: the bits of the values have to stand side by side.
fn put_few(
    sets: &SliceSets<'_>,
    lines: &ColumnLines,
    bits: &BitTable,
    cells: &Cells,
    row: &[u16],
    column: ParamNo,
    from: ValueNo,
    scores: &mut [u32],
) -> bool
    requires play { All (InPlay sets.now.model sets.now.slice column) lines.now.sets.items }
    requires sets { length lines.now.sets.items ≤ 2 ^ 20 }
    requires lines { AreLinesOf sets.now.model sets.now.slice column lines.now }
    requires bits { length bits.now ≡ length (slice_places sets.now.model sets.now.slice) }
    requires cells { IsOfSlice sets.now.model sets.now.slice cells.now }
    requires row { digit_in row.now ≡ cell_digit (own_values sets.now.model sets.now.slice) cells.now }
    requires long { length sets.now.model.params ≤ length row.now }
    requires all { HasAllValues sets.now.model sets.now.slice column }
    requires values { from + length scores.old ≤ length (param_at sets.now.model.params column).values }
    requires some { 0 < length scores.old }
    requires few { length scores.old ≤ 8 }
    ensures long { length scores.new ≡ length scores.old }
    ensures same { result ≡ false → scores.new ≡ scores.old }
    ensures each { result ≡ true → (i : ℕ) → i < length scores.old → slice_index_or scores.new i 0
        ≡ sum_by (value_held sets.now.model sets.now.slice bits.now cells.now column (from + i)) lines.now.sets.items }
{
    let count = scores.len() as u32;
    let mut counts = u32x8::splat(0);
    for k in 0..lines.sets.len() {
        if !count_set(
            sets,
            lines,
            k,
            bits,
            cells,
            row,
            column,
            from,
            count,
            &mut counts,
        ) {
            return false;
        }
    }
    put_counts(counts, scores);
    true
}

// Puts the counts of open tuples of the sets in play that cells contain, with each of as many values in the
// column, from `from` on, where the column is ready, all its values are in the slice, and the values are few
// and their bits stand side by side. Tells whether it did.
pub(crate) fn put_ready(
    sets: &SliceSets<'_>,
    lines: Option<&ColumnLines>,
    bits: &BitTable,
    cells: &Cells,
    row: &[u16],
    column: ParamNo,
    from: ValueNo,
    scores: &mut [u32],
) -> bool
    requires cells { IsOfSlice sets.now.model sets.now.slice cells.now }
    requires column { column < length sets.now.model.params }
    requires values { from + length scores.old ≤ length (param_at sets.now.model.params column).values }
    requires bits { length bits.now ≡ length (slice_places sets.now.model sets.now.slice) }
    requires lines { IfSome lines (λ made. AreReady sets.now.model sets.now.slice bits.now column made.now) }
    requires row { digit_in row.now ≡ cell_digit (own_values sets.now.model sets.now.slice) cells.now }
    requires long { length sets.now.model.params ≤ length row.now }
    ensures long { length scores.new ≡ length scores.old }
    ensures same { result ≡ false → scores.new ≡ scores.old }
    ensures each { result ≡ true → (i : ℕ) → i < length scores.old → slice_index_or scores.new i 0
        ≡ sum_by (value_held sets.now.model sets.now.slice bits.now cells.now column (from + i)) (sets_in_play sets.now.model sets.now.slice column) }
{
    sets.assert_invariant();
    let _ = sets.walked(lines, bits, column);
    let all = sets.has_all_values(column);
    match lines {
        Some(lines) if all && !scores.is_empty() && scores.len() <= LANES => {
            put_few(sets, lines, bits, cells, row, column, from, scores)
        }
        _ => false,
    }
}
