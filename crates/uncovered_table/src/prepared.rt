ghost use Rattle.std.specs.Prelude.{◌≡◌, ◌∷◌, [], Bool, List, false, ◌+◌, ◌*◌, ◌<◌, ◌≤◌, ◌^◌, ◌==◌, ℕ, All, IfOk, IfSome, OnOk, Some, if◌then◌else◌, length, option_map, slice_index_or, slice_range};
ghost use Rattle.uncovered_table.specs.Prepared.{AreLines, AreLinesOf, ArePushed, AreReady, IsComplete, IsLeft, digit_in, sum_of, with_part};
ghost use Rattle.definitions.specs.believed.Demand.{demanded_sets};
ghost use Rattle.definitions.specs.SliceRows.{IsOfSlice};
ghost use Rattle.uncovered_table.specs.Bits.{InPlay, held_bit, sets_in_play};
ghost use Rattle.uncovered_table.specs.Digits.{cell_digit, joined, own_values, step_of, with_digit};
ghost use Rattle.uncovered_table.specs.Places.{set_at, slice_places};

use crate::block::Line;
use crate::sets::SliceSets;
use bit_table::BitTable;
use cov_model::{Cells, ParamNo};
use std::alloc::Global;
use value_text::NoMemory;

// The number that stands for no digit.
pub(crate) const NO_DIGIT: u16 = u16::MAX;

// A member of a set beside the column, and how far the numbers of its neighbouring digits are apart.
#[derive(Drop, Clone, Copy)]
pub(crate) struct Part {
    pub(crate) param: ParamNo,
    pub(crate) weight: u32,
}

// The line of a set in play for a column, without what the row adds: its parts are those from one place
// to another.
#[derive(Drop, Clone, Copy)]
pub(crate) struct Prepared {
    pub(crate) first: u32,
    pub(crate) step: u32,
    pub(crate) begin: u32,
    pub(crate) end: u32,
}

// The lines of the sets in play for a column, in order, and their parts one behind another. Sets without
// an open tuple may be missing.
#[derive(Drop)]
pub(crate) struct ColumnLines {
    pub(crate) column: ParamNo,
    pub(crate) sets: Vec<u32>,
    pub(crate) lines: Vec<Prepared>,
    pub(crate) parts: Vec<Part>,
}

// The parts between two places.
#[inline]
fn between(parts: &[Part], begin: usize, end: usize) -> &[Part]
    requires order { begin ≤ end }
    requires within { end ≤ length parts.now }
    ensures { result.now ≡ slice_range parts.now begin end }
{
    &parts[begin..end]
}

// The number that the digits of two parts make, where both are there.
#[inline]
fn sum_of_two(first: Part, second: Part, digits: &[u16]) -> Option<u64>
    requires first { first.param < length digits.now }
    requires second { second.param < length digits.now }
    ensures { result ≡ sum_of (digit_in digits.now) (first ∷ second ∷ []) }
{
    let one = digits[first.param as usize];
    let other = digits[second.param as usize];
    if one == NO_DIGIT || other == NO_DIGIT {
        return None;
    }
    let number = u64::from(one) * u64::from(first.weight);
    Some(number + u64::from(other) * u64::from(second.weight))
}

// The number that the digits of any parts make, where each is there.
fn sum_of_all(parts: &[Part], digits: &[u16]) -> Option<u64>
    requires within { All (λ part. part.param < length digits.now) parts.now }
    requires few { length parts.now ≤ 256 }
    ensures { result ≡ sum_of (digit_in digits.now) parts.now }
{
    let mut number: u64 = 0;
    for part in parts {
        let digit = digits[part.param as usize];
        if digit == NO_DIGIT {
            return None;
        }
        number += u64::from(digit) * u64::from(part.weight);
    }
    Some(number)
}

// The number that digits make, where each is there. At order 3 there are two parts.
#[inline(always)]
pub(crate) fn sum_of(parts: &[Part], digits: &[u16]) -> Option<u64>
    requires within { All (λ part. part.param < length digits.now) parts.now }
    requires few { length parts.now ≤ 256 }
    ensures { result ≡ sum_of (digit_in digits.now) parts.now }
{
    match parts {
        [first, second] => sum_of_two(*first, *second, digits),
        _ => sum_of_all(parts, digits),
    }
}

// Puts a member behind other parts, unless it is the column.
fn push_part(
    parts: &mut Vec<Part>,
    p: ParamNo,
    column: ParamNo,
    weight: u32,
) -> Result<(), NoMemory>
    ensures { OnOk result (parts.new.items ≡ with_part p column weight parts.old.items) }
{
    if p != column {
        parts.push(Part { param: p, weight })?;
    }
    Ok(())
}

// The step of a column: the weight of its digit, at the column itself.
fn step_at(p: ParamNo, column: ParamNo, weight: u32, step: u32) -> u32
    ensures { result ≡ (if p == column then weight else step) }
{
    if p == column { weight } else { step }
}

// A number with the digit of one more member before it, where this is there. The digit of the column is
// left out.
#[inline]
fn with_member(number: u64, digits: &[u16], p: ParamNo, column: ParamNo, weight: u32) -> Option<u64>
    requires within { p < length digits.now }
    requires few { number < 2 ^ 32 }
    ensures { result ≡ joined (with_digit (digit_in digits.now) column 0 p) weight (Some number) }
{
    if p == column {
        return Some(number);
    }
    let digit = digits[p as usize];
    if digit == NO_DIGIT {
        None
    } else {
        Some(u64::from(digit) * u64::from(weight) + number)
    }
}

impl<'a> SliceSets<'a> {
    // Puts the parts of a set in play behind those of others, and gives the step of the column.
    fn push_parts(&self, set: u32, column: ParamNo, parts: &mut Vec<Part>) -> Result<u32, NoMemory>
        requires set { InPlay self.now.model self.now.slice column set }
        ensures step { IfOk result (λ step. step ≡ step_of (own_values self.now.model self.now.slice) column (set_at self.now.model set)) }
        ensures parts { OnOk result (ArePushed self.now.model self.now.slice column set parts.old.items parts.new.items) }
    {
        self.assert_invariant();
        let members = self.part.members(set);
        let mut weight: u32 = 1;
        let mut step: u32 = 0;
        let mut left = members.len();
        while left > 0 {
            left -= 1;
            let p = members[left];
            push_part(parts, p, column, weight)?;
            step = step_at(p, column, weight, step);
            weight *= self.part.value_count(p);
        }
        Ok(step)
    }

    // The prepared lines of a column.
    pub(crate) fn column_lines(
        &self,
        alloc: Global,
        column: ParamNo,
    ) -> Result<ColumnLines, NoMemory>
        requires { column < length self.now.model.params }
        ensures own { IfOk result (λ made. made.column ≡ column) }
        ensures ready { IfOk result (λ made. (bits : List Bool) → AreReady self.now.model self.now.slice bits column made) }
    {
        let mut sets = Vec::new(alloc);
        let mut lines = Vec::new(alloc);
        let mut parts = Vec::new(alloc);
        let in_play = self.in_play(column);
        for set in in_play {
            let begin = parts.len() as u32;
            let step = self.push_parts(*set, column, &mut parts)?;
            let line = Prepared {
                first: self.block(*set).first,
                step,
                begin,
                end: parts.len() as u32,
            };
            sets.push(*set)?;
            lines.push(line)?;
        }
        Ok(ColumnLines {
            column,
            sets,
            lines,
            parts,
        })
    }

    // The lines that are ready, where they are those of this column.
    pub(crate) fn lines_for<'b>(
        &self,
        ready: &'b Option<ColumnLines>,
        column: ParamNo,
    ) -> Option<&'b ColumnLines>
        ensures { (bits : List Bool) → IfSome ready.now (λ made. AreReady self.now.model self.now.slice bits made.column made)
            → IfSome result (λ made. AreReady self.now.model self.now.slice bits column made.now) }
    {
        let _ = self;
        match ready {
            Some(lines) if lines.column == column => Some(lines),
            _ => None,
        }
    }

    // The sets that are walked over for a column: those that are ready, else all in play.
    pub(crate) fn walked<'b>(
        &'b self,
        lines: Option<&'b ColumnLines>,
        bits: &BitTable,
        column: ParamNo,
    ) -> &'b [u32]
        requires column { column < length self.now.model.params }
        requires lines { IfSome lines (λ made. AreReady self.now.model self.now.slice bits.now column made.now) }
        ensures left { IsLeft (IsComplete self.now.model self.now.slice bits.now) (sets_in_play self.now.model self.now.slice column) result.now }
        ensures own { IfSome lines.entry (λ made. made.now.sets.items ≡ result.now) }
        ensures few { length result.now ≤ 2 ^ 20 }
        ensures each { All (InPlay self.now.model self.now.slice column) result.now }
    {
        self.assert_invariant();
        let _ = bits;
        let in_play = self.in_play(column);
        match lines {
            Some(lines) => lines.sets.as_slice(),
            None => in_play,
        }
    }

    // Puts the digits of a row's values.
    pub(crate) fn put_digits(&self, cells: &Cells, into: &mut [u16])
        requires cells { IsOfSlice self.now.model self.now.slice cells.now }
        requires none { All (λ digit. digit ≡ 65535) into.old }
        requires room { length self.now.model.params ≤ length into.old }
        ensures value { digit_in into.new ≡ cell_digit (own_values self.now.model self.now.slice) cells.now }
        ensures long { length into.new ≡ length into.old }
    {
        self.assert_invariant();
        let count = cells.len() as ParamNo;
        for p in 0..count {
            if let Some(digit) = self.cell_digit(cells, p) {
                into[p as usize] = digit;
            }
        }
    }

    // The bits of the tuples of a set in play that cells contain, for the digits of the column, by its
    // prepared line.
    #[inline(always)]
    pub(crate) fn prepared_line(
        &self,
        lines: &ColumnLines,
        k: usize,
        set: u32,
        column: ParamNo,
        cells: &Cells,
        digits: &[u16],
    ) -> Option<Line>
        requires set { InPlay self.now.model self.now.slice column set }
        requires cells { IsOfSlice self.now.model self.now.slice cells.now }
        requires digits { digit_in digits.now ≡ cell_digit (own_values self.now.model self.now.slice) cells.now }
        requires long { length self.now.model.params ≤ length digits.now }
        requires k { k < length lines.now.sets.items }
        requires own { set ≡ slice_index_or lines.now.sets.items k 0 }
        requires lines { AreLinesOf self.now.model self.now.slice column lines.now }
        ensures value { (d : ℕ) → held_bit self.now.model self.now.slice (with_digit (cell_digit (own_values self.now.model self.now.slice) cells.now) column d) set
            ≡ option_map (λ line. line.first + d * line.step) result }
        ensures within { IfSome result (λ line. (d : ℕ) → d < length (own_values self.now.model self.now.slice column)
            → line.first + d * line.step < length (slice_places self.now.model self.now.slice)) }
    {
        self.assert_invariant();
        let _ = cells;
        let line = lines.lines[k];
        let parts = between(
            lines.parts.as_slice(),
            line.begin as usize,
            line.end as usize,
        );
        match sum_of(parts, digits) {
            Some(sum) => Some(Line {
                first: line.first + sum as u32,
                step: line.step,
            }),
            None => None,
        }
    }

    // Those bits, by the members of the set, the last one first. Out of line, so that the prepared ones are found
    // without a call.
    #[inline(never)]
    fn member_line(&self, set: u32, column: ParamNo, cells: &Cells, digits: &[u16]) -> Option<Line>
        requires set { InPlay self.now.model self.now.slice column set }
        requires cells { IsOfSlice self.now.model self.now.slice cells.now }
        requires digits { digit_in digits.now ≡ cell_digit (own_values self.now.model self.now.slice) cells.now }
        requires long { length self.now.model.params ≤ length digits.now }
        ensures value { (d : ℕ) → held_bit self.now.model self.now.slice (with_digit (cell_digit (own_values self.now.model self.now.slice) cells.now) column d) set
            ≡ option_map (λ line. line.first + d * line.step) result }
        ensures within { IfSome result (λ line. (d : ℕ) → d < length (own_values self.now.model self.now.slice column)
            → line.first + d * line.step < length (slice_places self.now.model self.now.slice)) }
    {
        self.assert_invariant();
        let _ = cells;
        let members = self.part.members(set);
        let mut weight: u32 = 1;
        let mut step: u32 = 0;
        let mut number: u64 = 0;
        let mut left = members.len();
        while left > 0 {
            left -= 1;
            let p = members[left];
            let count = self.part.value_count(p);
            number = with_member(number, digits, p, column, weight)?;
            step = step_at(p, column, weight, step);
            weight *= count;
        }
        Some(Line {
            first: self.block(set).first + number as u32,
            step,
        })
    }

    // Those bits, by the prepared line where the lines of the column are ready.
    #[inline(always)]
    pub(crate) fn set_line(
        &self,
        lines: Option<&ColumnLines>,
        k: usize,
        set: u32,
        column: ParamNo,
        cells: &Cells,
        digits: &[u16],
    ) -> Option<Line>
        requires set { InPlay self.now.model self.now.slice column set }
        requires cells { IsOfSlice self.now.model self.now.slice cells.now }
        requires digits { digit_in digits.now ≡ cell_digit (own_values self.now.model self.now.slice) cells.now }
        requires long { length self.now.model.params ≤ length digits.now }
        requires own { IfSome lines (λ made. (k < length made.now.sets.items) × (set ≡ slice_index_or made.now.sets.items k 0)) }
        requires lines { IfSome lines (λ made. AreLinesOf self.now.model self.now.slice column made.now) }
        ensures value { (d : ℕ) → held_bit self.now.model self.now.slice (with_digit (cell_digit (own_values self.now.model self.now.slice) cells.now) column d) set
            ≡ option_map (λ line. line.first + d * line.step) result }
        ensures within { IfSome result (λ line. (d : ℕ) → d < length (own_values self.now.model self.now.slice column)
            → line.first + d * line.step < length (slice_places self.now.model self.now.slice)) }
    {
        let line = match lines {
            Some(lines) => self.prepared_line(lines, k, set, column, cells, digits)?,
            None => self.member_line(set, column, cells, digits)?,
        };
        Some(line)
    }
}

// Whether a tuple of a set is open.
fn has_open(sets: &SliceSets<'_>, bits: &BitTable, set: u32) -> bool
    requires set { set < length (demanded_sets sets.now.model) }
    requires bits { length bits.now ≡ length (slice_places sets.now.model sets.now.slice) }
    ensures { result ≡ false → IsComplete sets.now.model sets.now.slice bits.now set }
{
    sets.assert_invariant();
    let block = sets.block(set);
    bits.next_set(block.first, block.first + block.count)
        .is_some()
}

// Keeps the sets with an open tuple among those that are ready, and their lines. Parts stay where they
// are, since a line names its own.
fn keep_open(sets: &SliceSets<'_>, made: &mut ColumnLines, bits: &BitTable)
    requires bits { length bits.now ≡ length (slice_places sets.now.model sets.now.slice) }
    requires ready { AreReady sets.now.model sets.now.slice bits.now made.old.column made.old }
    ensures { AreReady sets.now.model sets.now.slice bits.now made.new.column made.new }
{
    sets.assert_invariant();
    let count = made.sets.len();
    let mut kept: usize = 0;
    for k in 0..count {
        let set = made.sets[k];
        made.sets[kept] = set;
        made.lines[kept] = made.lines[k];
        kept += usize::from(has_open(sets, bits, set));
    }
    made.sets.truncate(kept);
    made.lines.truncate(kept);
}

// Lets the sets without an open tuple leave what is ready, where it is ready for this column.
pub(crate) fn leave_complete(
    sets: &SliceSets<'_>,
    ready: &mut Option<ColumnLines>,
    bits: &BitTable,
    column: ParamNo,
)
    requires bits { length bits.now ≡ length (slice_places sets.now.model sets.now.slice) }
    requires ready { IfSome ready.old (λ made. AreReady sets.now.model sets.now.slice bits.now made.column made) }
    ensures { IfSome ready.new (λ made. AreReady sets.now.model sets.now.slice bits.now made.column made) }
{
    match ready {
        Some(made) if made.column == column => keep_open(sets, made, bits),
        _ => {}
    }
}
