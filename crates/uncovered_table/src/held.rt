ghost use Rattle.std.specs.Prelude.{◌≡◌, ◌+◌, ◌*◌, ◌<◌, ◌≤◌, ◌^◌, ℕ, All, IfSome, None, Some, drop, length, slice_index_or, sum_by, true};
ghost use Rattle.definitions.specs.SliceRows.{IsOfSlice};
ghost use Rattle.uncovered_table.specs.Bits.{InPlay, all_cleared, bit_count, cleared, held_bit, held_count, line_bit, sets_in_play, value_held};
ghost use Rattle.uncovered_table.specs.Digits.{HasAllValues, cell_digit, own_values, with_digit};
ghost use Rattle.uncovered_table.specs.Places.{slice_places};
ghost use Rattle.uncovered_table.specs.Prepared.{AreLinesOf, AreReady, digit_in};
ghost use Rattle.cov_model.specs.believed.Sound.{param_at};

use crate::block::Line;
use crate::counts::put_ready;
use crate::lanes::add_marks;
use crate::prepared::{ColumnLines, NO_DIGIT};
use crate::sets::SliceSets;
use bit_table::BitTable;
use cov_model::{Cells, ParamNo, ValueNo};

// The bit of a line for a digit, where there is one.
#[inline]
fn bit_at(line: Line, digit: Option<u16>) -> Option<u32>
    requires { IfSome digit (λ d. line.first + d * line.step < 2 ^ 32) }
    ensures { result ≡ line_bit line digit }
{
    match digit {
        Some(d) => Some(line.first + u32::from(d) * line.step),
        None => None,
    }
}

// How many bits are set, of one or none.
#[inline]
fn count_at(bits: &BitTable, bit: Option<u32>) -> u32
    requires { IfSome bit (λ b. b < length bits.now) }
    ensures { result ≡ bit_count bits.now bit }
{
    match bit {
        Some(b) => u32::from(bits.is_set(b)),
        None => 0,
    }
}

// Clears a bit, if there is one.
#[inline]
fn clear_at(bits: &mut BitTable, bit: Option<u32>)
    requires { IfSome bit (λ b. b < length bits.old) }
    ensures { bits.new ≡ cleared bit bits.old }
{
    if let Some(b) = bit {
        bits.clear(b);
    }
}

// The bit of the tuple of a set in play that cells contain, with this digit in the column.
#[inline(always)]
fn tuple_bit(
    sets: &SliceSets<'_>,
    lines: Option<&ColumnLines>,
    k: usize,
    set: u32,
    cells: &Cells,
    digits: &[u16],
    column: ParamNo,
    digit: u16,
) -> Option<u32>
    requires set { InPlay sets.now.model sets.now.slice column set }
    requires cells { IsOfSlice sets.now.model sets.now.slice cells.now }
    requires digits { digit_in digits.now ≡ cell_digit (own_values sets.now.model sets.now.slice) cells.now }
    requires long { length sets.now.model.params ≤ length digits.now }
    requires own { IfSome lines (λ made. (k < length made.now.sets.items) × (set ≡ slice_index_or made.now.sets.items k 0)) }
    requires lines { IfSome lines (λ made. AreLinesOf sets.now.model sets.now.slice column made.now) }
    requires digit { digit < length (own_values sets.now.model sets.now.slice column) }
    ensures value { result ≡ held_bit sets.now.model sets.now.slice (with_digit (cell_digit (own_values sets.now.model sets.now.slice) cells.now) column digit) set }
    ensures within { IfSome result (λ b. b < length (slice_places sets.now.model sets.now.slice)) }
{
    sets.assert_invariant();
    let line = sets.set_line(lines, k, set, column, cells, digits)?;
    Some(line.first + u32::from(digit) * line.step)
}

// How many open tuples of the sets in play cells contain, with this digit in the column.
pub(crate) fn count_held(
    sets: &SliceSets<'_>,
    lines: Option<&ColumnLines>,
    bits: &BitTable,
    cells: &Cells,
    column: ParamNo,
    digit: u16,
) -> u32
    requires cells { IsOfSlice sets.now.model sets.now.slice cells.now }
    requires column { column < length sets.now.model.params }
    requires digit { digit < length (own_values sets.now.model sets.now.slice column) }
    requires bits { length bits.now ≡ length (slice_places sets.now.model sets.now.slice) }
    requires lines { IfSome lines (λ made. AreReady sets.now.model sets.now.slice bits.now column made.now) }
    ensures { result ≡ sum_by (held_count sets.now.model sets.now.slice bits.now
        (with_digit (cell_digit (own_values sets.now.model sets.now.slice) cells.now) column digit)) (sets_in_play sets.now.model sets.now.slice column) }
{
    sets.assert_invariant();
    let _ = sets.model().params();
    let walked = sets.walked(lines, bits, column);
    let mut row = [NO_DIGIT; 256];
    sets.put_digits(cells, &mut row);
    let mut count: u32 = 0;
    for k in 0..walked.len() {
        let bit = tuple_bit(sets, lines, k, walked[k], cells, &row, column, digit);
        count += count_at(bits, bit);
    }
    count
}

// Clears the bits of the tuples of the sets in play that cells contain, with this digit in the column.
pub(crate) fn clear_held(
    sets: &SliceSets<'_>,
    lines: Option<&ColumnLines>,
    bits: &mut BitTable,
    cells: &Cells,
    column: ParamNo,
    digit: u16,
)
    requires cells { IsOfSlice sets.now.model sets.now.slice cells.now }
    requires column { column < length sets.now.model.params }
    requires digit { digit < length (own_values sets.now.model sets.now.slice column) }
    requires bits { length bits.old ≡ length (slice_places sets.now.model sets.now.slice) }
    requires lines { IfSome lines (λ made. AreReady sets.now.model sets.now.slice bits.old column made.now) }
    ensures { bits.new ≡ all_cleared sets.now.model sets.now.slice
        (with_digit (cell_digit (own_values sets.now.model sets.now.slice) cells.now) column digit) bits.old
        (sets_in_play sets.now.model sets.now.slice column) }
{
    sets.assert_invariant();
    let _ = sets.model().params();
    let walked = sets.walked(lines, bits, column);
    let mut row = [NO_DIGIT; 256];
    sets.put_digits(cells, &mut row);
    for k in 0..walked.len() {
        let bit = tuple_bit(sets, lines, k, walked[k], cells, &row, column, digit);
        clear_at(bits, bit);
    }
}

// Adds to each score the set bits of a line, for its digit.
fn add_line(bits: &BitTable, line: Line, digits: &[Option<u16>], scores: &mut [u32])
    requires room { length scores.old ≤ length digits.now }
    requires low { All (λ score. score < 2 ^ 31) scores.old }
    requires few { length bits.now ≤ 2 ^ 26 }
    requires within { All (λ digit. IfSome digit (λ d. line.first + d * line.step < length bits.now)) digits.now }
    ensures long { length scores.new ≡ length scores.old }
    ensures each { (i : ℕ) → i < length scores.old → slice_index_or scores.new i 0 ≡ slice_index_or scores.old i 0 + bit_count bits.now
        (line_bit line (slice_index_or digits.now i None)) }
{
    for i in 0..scores.len() {
        scores[i] += count_at(bits, bit_at(line, digits[i]));
    }
}

// Adds 1 to each score whose bit is set. The bits of the values stand side by side, and the scores are
// those of the values from `from` on.
fn add_bits(bits: &BitTable, first: u32, from: ValueNo, scores: &mut [u32])
    requires within { 0 < length scores.old → first + from + length scores.old ≤ length bits.now }
    requires few { length bits.now ≤ 2 ^ 26 }
    requires low { All (λ score. score < 2 ^ 31) scores.old }
    ensures long { length scores.new ≡ length scores.old }
    ensures each { (i : ℕ) → i < length scores.old → slice_index_or scores.new i 0 ≡ slice_index_or scores.old i 0 + bit_count bits.now (Some (first + from + i)) }
{
    if !scores.is_empty() {
        add_marks(bits, first + u32::from(from), scores);
    }
}

// The digits of the values from `from` on.
pub(crate) fn from_value(digits: &[Option<u16>], from: ValueNo) -> &[Option<u16>]
    requires { from ≤ length digits.now }
    ensures { result.now ≡ drop from digits.now }
{
    &digits[from as usize..]
}

// Adds to each score whether a tuple of a set is open that cells contain, with its value in the column.
// The scores are for the values from `from` on, in order. Where all values of the column are in the slice, and
// its digit is the last one, their bits stand side by side.
fn add_set(
    sets: &SliceSets<'_>,
    lines: Option<&ColumnLines>,
    k: usize,
    bits: &BitTable,
    set: u32,
    cells: &Cells,
    row: &[u16],
    column: ParamNo,
    from: ValueNo,
    all: bool,
    scores: &mut [u32],
)
    requires set { InPlay sets.now.model sets.now.slice column set }
    requires cells { IsOfSlice sets.now.model sets.now.slice cells.now }
    requires column { column < length sets.now.model.params }
    requires values { from + length scores.old ≤ length (param_at sets.now.model.params column).values }
    requires bits { length bits.now ≡ length (slice_places sets.now.model sets.now.slice) }
    requires row { digit_in row.now ≡ cell_digit (own_values sets.now.model sets.now.slice) cells.now }
    requires long { length sets.now.model.params ≤ length row.now }
    requires own { IfSome lines (λ made. (k < length made.now.sets.items) × (set ≡ slice_index_or made.now.sets.items k 0)) }
    requires lines { IfSome lines (λ made. AreLinesOf sets.now.model sets.now.slice column made.now) }
    requires all { all ≡ true → HasAllValues sets.now.model sets.now.slice column }
    requires low { All (λ score. score < 2 ^ 31) scores.old }
    ensures long { length scores.new ≡ length scores.old }
    ensures each { (i : ℕ) → i < length scores.old → slice_index_or scores.new i 0
        ≡ slice_index_or scores.old i 0 + value_held sets.now.model sets.now.slice bits.now cells.now column (from + i) set }
{
    sets.assert_invariant();
    if let Some(line) = sets.set_line(lines, k, set, column, cells, row) {
        if all && line.step == 1 {
            add_bits(bits, line.first, from, scores);
        } else {
            let digits = from_value(sets.digits(column), from);
            add_line(bits, line, digits, scores);
        }
    }
}

// Adds to each score how many open tuples of the sets in play cells contain, with its value in the
// column.
pub(crate) fn add_held(
    sets: &SliceSets<'_>,
    lines: Option<&ColumnLines>,
    bits: &BitTable,
    cells: &Cells,
    column: ParamNo,
    from: ValueNo,
    scores: &mut [u32],
)
    requires cells { IsOfSlice sets.now.model sets.now.slice cells.now }
    requires column { column < length sets.now.model.params }
    requires values { from + length scores.old ≤ length (param_at sets.now.model.params column).values }
    requires bits { length bits.now ≡ length (slice_places sets.now.model sets.now.slice) }
    requires lines { IfSome lines (λ made. AreReady sets.now.model sets.now.slice bits.now column made.now) }
    requires zero { All (λ score. score ≡ 0) scores.old }
    ensures long { length scores.new ≡ length scores.old }
    ensures each { (i : ℕ) → i < length scores.old → slice_index_or scores.new i 0
        ≡ sum_by (value_held sets.now.model sets.now.slice bits.now cells.now column (from + i)) (sets_in_play sets.now.model sets.now.slice column) }
{
    sets.assert_invariant();
    let _ = sets.model().params();
    let walked = sets.walked(lines, bits, column);
    let mut row = [NO_DIGIT; 256];
    sets.put_digits(cells, &mut row);
    if put_ready(sets, lines, bits, cells, &row, column, from, scores) {
        return;
    }
    let all = sets.has_all_values(column);
    for k in 0..walked.len() {
        add_set(
            sets, lines, k, bits, walked[k], cells, &row, column, from, all, scores,
        );
    }
}
