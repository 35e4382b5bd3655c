ghost use Rattle.std.specs.Prelude.{◌≡◌, ◌<◌, ◌≤◌, ◌^◌, All, IfOk, length, true};
ghost use Rattle.std.specs.List.{list_any};
ghost use Rattle.cov_model.specs.believed.Sound.{IsSound, param_at};
ghost use Rattle.definitions.specs.believed.Demand.{demanded_sets};
ghost use Rattle.definitions.specs.SliceRows.{IsOfSlice, IsSliceOf};
ghost use Rattle.tuple_index.specs.Kept.{IsKept};
ghost use Rattle.tuple_index.specs.Plan.{plan_of};
ghost use Rattle.uncovered_table.specs.Bits.{InPlay, bit_of, sets_in_play};
ghost use Rattle.uncovered_table.specs.Digits.{HasAllValues, cell_digit, digit_of, own_values};
ghost use Rattle.uncovered_table.specs.Kept.{IsBlock, digits_of, firsts_of};
ghost use Rattle.uncovered_table.specs.Places.{is_place, slice_places};

use crate::block::Block;
use crate::part::SlicePart;
use crate::tables::SliceTables;
use cov_model::{Cells, ParamNo, TestModel, ValueNo};
use std::alloc::Global;
use std::marker::Model;
use value_text::NoMemory;

/// The demanded sets of a model in a slice: where their tuples have bits, and which are in play for each
/// column. Contracts see the model and the slice.
#[derive(Drop)]
pub(crate) struct SliceSets<'a> {
    pub(crate) part: SlicePart<'a>,
    tables: SliceTables,
}

impl<'a> Model for SliceSets<'a> {
    ghost use Rattle.std.specs.Coded.{codes};
    ghost use Rattle.std.specs.Prelude.{map};
    ghost use Rattle.cov_model.specs.contracts.model.TestModel as tested;
    ghost use Rattle.uncovered_table.specs.Kept.{AreTablesOf, SliceView};

    ghost Value = { SliceView };

    ghost coded = { Prim.hlevel (codes, tested.the_row.coded) };

    ghost view = { λ a. a.part };

    ghost invariant = { λ a. AreTablesOf a.part a.tables.begins.items (map (λ list. list.items) a.tables.plays.items)
        (map (λ list. list.items) a.tables.firsts.items) (map (λ list. list.items) a.tables.digits.items) a.tables.plain };
}

impl<'a> SliceSets<'a> {
    // The sets of this slice.
    pub(crate) fn new(alloc: Global, part: SlicePart<'a>) -> Result<SliceSets<'a>, NoMemory>
        ensures { IfOk result (λ sets. sets ≡ part.entry) }
    {
        let tables = part.tables(alloc)?;
        Ok(SliceSets { part, tables })
    }

    // The model of the sets.
    pub(crate) fn model(&self) -> &TestModel
        ensures { result.now ≡ self.now.model }
    {
        self.part.model()
    }

    // Says again what is kept of the model, its plan and the slice. Does nothing when it runs.
    pub(crate) fn assert_invariant(&self)
        ensures sound { IsSound self.now.model }
        ensures kept { IsKept (plan_of self.now.model) }
        ensures own { IsSliceOf self.now.model self.now.slice }
        ensures few { length (slice_places self.now.model self.now.slice) ≤ 2 ^ 26 }
    {
        self.part.assert_invariant();
    }

    // The number of tuples of the slice.
    pub(crate) fn size(&self) -> u32
        ensures { result ≡ length (slice_places self.now.model self.now.slice) }
    {
        self.assert_invariant();
        let sets = self.part.set_count();
        if sets == 0 {
            return 0;
        }
        let block = self.block(sets - 1);
        block.first + block.count
    }

    // Where a set has its bits.
    pub(crate) fn block(&self, set: u32) -> Block
        requires { set < length (demanded_sets self.now.model) }
        ensures { IsBlock self.now.model self.now.slice set result }
    {
        let first = self.tables.begins[set as usize];
        let end = self.tables.begins[set as usize + 1];
        Block {
            first,
            start: self.part.first_rank(set),
            count: end - first,
        }
    }

    // The bit of a place.
    pub(crate) fn bit(&self, set: u32, rank: u32) -> u32
        requires { list_any (is_place (set, rank)) (slice_places self.now.model self.now.slice) ≡ true }
        ensures value { result ≡ bit_of self.now.model self.now.slice (set, rank) }
        ensures within { result < length (slice_places self.now.model self.now.slice) }
    {
        self.assert_invariant();
        let block = self.block(set);
        block.first + (rank - block.start)
    }

    // The sets in play for a column that have tuples in the slice.
    pub(crate) fn in_play(&self, column: ParamNo) -> &[u32]
        requires { column < length self.now.model.params }
        ensures value { result.now ≡ sets_in_play self.now.model self.now.slice column }
        ensures few { length result.now ≤ 2 ^ 20 }
        ensures each { All (InPlay self.now.model self.now.slice column) result.now }
    {
        self.assert_invariant();
        self.tables.plays[column as usize].as_slice()
    }

    // Their first bits.
    pub(crate) fn firsts(&self, column: ParamNo) -> &[u32]
        requires { column < length self.now.model.params }
        ensures { result.now ≡ firsts_of self.now.model self.now.slice column }
    {
        self.tables.firsts[column as usize].as_slice()
    }

    // The digits of the values of a parameter.
    pub(crate) fn digits(&self, p: ParamNo) -> &[Option<u16>]
        requires { p < length self.now.model.params }
        ensures { result.now ≡ digits_of self.now.model self.now.slice p }
    {
        self.tables.digits[p as usize].as_slice()
    }

    // Whether each value of a parameter is one of the slice, and so its own digit.
    pub(crate) fn has_all_values(&self, p: ParamNo) -> bool
        requires { p < length self.now.model.params }
        ensures { result ≡ true → HasAllValues self.now.model self.now.slice p }
    {
        self.part.has_all_values(p)
    }

    // The digit of a value, where it is one of the slice.
    pub(crate) fn value_digit(&self, p: ParamNo, v: ValueNo) -> Option<u16>
        requires param { p < length self.now.model.params }
        requires value { v < length (param_at self.now.model.params p).values }
        ensures { result ≡ digit_of (own_values self.now.model self.now.slice p) v }
    {
        if self.tables.plain {
            return Some(v);
        }
        self.digits(p)[v as usize]
    }

    // The digit of the value that cells give a parameter.
    pub(crate) fn cell_digit(&self, cells: &Cells, p: ParamNo) -> Option<u16>
        requires cells { IsOfSlice self.now.model self.now.slice cells.now }
        requires param { p < length self.now.model.params }
        ensures { result ≡ cell_digit (own_values self.now.model self.now.slice) cells.now p }
    {
        self.digit_in(cells.as_slice(), p)
    }

    // The same of cells that are read as a slice, for those who walk over many parameters.
    pub(crate) fn digit_in(&self, cells: &[Option<ValueNo>], p: ParamNo) -> Option<u16>
        requires cells { IsOfSlice self.now.model self.now.slice cells.now }
        requires param { p < length self.now.model.params }
        ensures { result ≡ cell_digit (own_values self.now.model self.now.slice) cells.now p }
    {
        match cells[p as usize] {
            Some(v) => self.value_digit(p, v),
            None => None,
        }
    }
}
