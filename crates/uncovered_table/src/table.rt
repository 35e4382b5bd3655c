ghost use Rattle.std.specs.Prelude.{◌≡◌, ◌+◌, ◌^◌, ◌≤◌, map, ◌<◌, ◌&&◌, All, IfOk, IfSome, length, not, true};
ghost use Rattle.std.specs.List.{filter, list_any, range_with_len};
ghost use Rattle.cov_model.specs.believed.Rows.{contains};
ghost use Rattle.cov_model.specs.believed.Sound.{IsSound, param_at};
ghost use Rattle.definitions.specs.SliceRows.{IsOfSlice, IsSliceOf};
ghost use Rattle.tuple_index.specs.Plan.{plan_of};
ghost use Rattle.uncovered_table.specs.Bits.{sets_in_play};
ghost use Rattle.uncovered_table.specs.Open.{IsPlaceOf, all_open, closed, gain, is_open, next_open, row_closed};
ghost use Rattle.uncovered_table.specs.Places.{is_in_play, is_place, slice_places, tuple_at};

use crate::held::{add_held, count_held};
use crate::next::next_of;
use crate::pairs::{PairBits, clear_column, forget_pairs, put_pair_counts};
use crate::part::SlicePart;
use crate::prepared::{ColumnLines, leave_complete};
use crate::sets::SliceSets;
use bit_table::BitTable;
use cov_model::{Cells, ParamNo, Slice, TestModel, ValueNo};
use std::alloc::Global;
use std::marker::Model;
use tuple_index::Plan;
use value_text::NoMemory;

/// The demanded tuples of a slice that are still open. Contracts see the model, the slice, and the
/// places of the open tuples in order.
#[derive(Drop)]
pub struct Uncovered<'a> {
    sets: SliceSets<'a>,
    // The lines of one column at most, since those of all columns take much memory.
    ready: Option<ColumnLines>,
    begins: Vec<u32>,
    pairs: Vec<Option<PairBits>>,
    bits: BitTable,
}

impl<'a> Model for Uncovered<'a> {
    ghost use Rattle.std.specs.Coded.{codes};
    ghost use Rattle.cov_model.specs.contracts.model.TestModel as tested;
    ghost use Rattle.std.specs.Prelude.{◌≡◌, length};
    ghost use Rattle.uncovered_table.specs.Bits.{marked};
    ghost use Rattle.uncovered_table.specs.Table.{IsTable};
    ghost use Rattle.uncovered_table.specs.Open.{OpenView};
    ghost use Rattle.uncovered_table.specs.Places.{slice_places};

    ghost Value = { OpenView };

    ghost coded = { Prim.hlevel (codes, tested.the_row.coded) };

    ghost view = { λ a. marked a.sets.model a.sets.slice a.bits };

    ghost invariant = { λ a. IsTable a.sets.model a.sets.slice a.ready a.begins.items a.pairs.items a.bits };
}

impl<'a> Uncovered<'a> {
    /// The table of this slice of the model, where every tuple of the slice is open. The plan has to be
    /// the model's, and the slice one of the model's.
    ///
    /// # Errors
    ///
    /// `NoMemory` where memory is refused.
    pub fn new(
        alloc: Global,
        model: &'a TestModel,
        plan: &'a Plan,
        slice: Slice,
    ) -> Result<Uncovered<'a>, NoMemory>
        requires plan { plan.now ≡ plan_of model.now }
        requires slice { IsSliceOf model.now slice }
        ensures { IfOk result (λ table. table ≡ all_open model.now slice) }
    {
        let sets = SliceSets::new(alloc, SlicePart::new(model, plan, slice))?;
        let bits = BitTable::all_set(alloc, sets.size())?;
        let begins = sets.begins(alloc)?;
        let pairs = sets.all_pairs(alloc, begins.as_slice())?;
        Ok(Uncovered {
            sets,
            ready: None,
            begins,
            pairs,
            bits,
        })
    }

    /// Says again what every table keeps: its model is sound, its slice is one of the model's, and its
    /// open tuples are some of the slice's. Does nothing when it runs.
    pub fn assert_invariant(&self)
        ensures sound { IsSound self.now.model }
        ensures own { IsSliceOf self.now.model self.now.slice }
        ensures some { All (IsPlaceOf self.now) self.now.places }
    {
        self.sets.assert_invariant();
    }

    /// The model that the table was made from. Takes no memory.
    pub fn model(&self) -> &TestModel
        ensures { result.now ≡ self.now.model }
    {
        self.sets.model()
    }

    /// Makes a column ready, in place of the one that was: `gain`, `gains` and `close_row` take fewer
    /// steps for it. After a refusal none is ready.
    ///
    /// # Errors
    ///
    /// `NoMemory` where memory is refused.
    pub fn prepare(&mut self, alloc: Global, column: ParamNo) -> Result<(), NoMemory>
        requires { column < length self.old.model.params }
        ensures { self.new ≡ self.old }
    {
        self.ready = None;
        self.ready = Some(self.sets.column_lines(alloc, column)?);
        Ok(())
    }

    /// Lets the sets without an open tuple leave what is ready for a column, so that `gain`, `gains` and
    /// `close_row` don't look at them any more. Does nothing where another column is ready, or none.
    /// Takes no memory.
    pub fn leave_complete(&mut self, column: ParamNo)
        requires { column < length self.old.model.params }
        ensures { self.new ≡ self.old }
    {
        leave_complete(&self.sets, &mut self.ready, &self.bits, column);
    }

    /// Whether the tuple of this place is open. Takes no memory.
    pub fn is_open(&self, set: u32, rank: u32) -> bool
        requires { IsPlaceOf self.now (set, rank) }
        ensures { result ≡ is_open self.now (set, rank) }
    {
        self.bits.is_set(self.sets.bit(set, rank))
    }

    /// Closes the tuple of this place and no other. Takes no memory.
    pub fn close(&mut self, set: u32, rank: u32)
        requires { IsPlaceOf self.old (set, rank) }
        ensures { self.new ≡ closed self.old (set, rank) }
    {
        self.sets.assert_invariant();
        forget_pairs(&self.sets, &mut self.pairs, set);
        self.bits.clear(self.sets.bit(set, rank));
    }

    /// Closes the tuples of the sets in play for this column that the cells contain. The cells have to
    /// be of the slice. Takes no memory.
    pub fn close_row(&mut self, cells: &Cells, column: ParamNo)
        requires cells { IsOfSlice self.old.model self.old.slice cells.now }
        requires column { column < length self.old.model.params }
        ensures { self.new ≡ row_closed self.old column cells.now }
    {
        self.sets.assert_invariant();
        match self.sets.cell_digit(cells, column) {
            Some(digit) => clear_column(
                &self.sets,
                &mut self.pairs,
                self.sets.lines_for(&self.ready, column),
                self.begins.as_slice(),
                &mut self.bits,
                cells,
                column,
                digit,
            ),
            None => {}
        }
    }

    /// The number of open tuples. Takes no memory.
    pub fn open_count(&self) -> u32
        ensures { result ≡ length self.now.places }
    {
        self.bits.count()
    }

    /// The number of sets in play for this column that have tuples in the slice. Takes no memory.
    pub fn in_play_count(&self, column: ParamNo) -> usize
        requires { column < length self.now.model.params }
        ensures value { result ≡ length (sets_in_play self.now.model self.now.slice column) }
        ensures few { result ≤ 2 ^ 20 }
    {
        self.sets.in_play(column).len()
    }

    /// The place of the first open tuple of the sets in play for this column behind a place, or of the
    /// first one of all. Takes no memory.
    pub fn next_open(&self, column: ParamNo, from: Option<(u32, u32)>) -> Option<(u32, u32)>
        requires column { column < length self.now.model.params }
        requires from { IfSome from (IsPlaceOf self.now) }
        ensures value { result ≡ next_open self.now column from }
        ensures own { IfSome result (IsPlaceOf self.now) }
    {
        next_of(&self.sets, &self.bits, column, from)
    }

    /// The gain of a value of this column: the number of open tuples of the sets in play that the cells
    /// with this value contain. It is 0 for a value outside the slice. Takes no memory.
    pub fn gain(&self, cells: &Cells, column: ParamNo, value: ValueNo) -> u32
        requires cells { IsOfSlice self.now.model self.now.slice cells.now }
        requires column { column < length self.now.model.params }
        requires value { value < length (param_at self.now.model.params column).values }
        ensures { result ≡ gain self.now cells.now column value }
    {
        self.sets.assert_invariant();
        match self.sets.value_digit(column, value) {
            Some(digit) => count_held(
                &self.sets,
                self.sets.lines_for(&self.ready, column),
                &self.bits,
                cells,
                column,
                digit,
            ),
            None => 0,
        }
    }

    /// Puts the gains of as many values of this column as there are scores, from one value on. Takes no
    /// memory.
    pub fn gains(&self, cells: &Cells, column: ParamNo, from: ValueNo, scores: &mut [u32])
        requires cells { IsOfSlice self.now.model self.now.slice cells.now }
        requires column { column < length self.now.model.params }
        requires values { from + length scores.old ≤ length (param_at self.now.model.params column).values }
        ensures { scores.new ≡ map (gain self.now cells.now column) (range_with_len from (length scores.old)) }
    {
        self.sets.assert_invariant();
        let kept = &self.pairs[column as usize];
        match kept {
            Some(pairs) => put_pair_counts(
                &self.sets,
                pairs,
                self.begins.as_slice(),
                &self.bits,
                cells,
                column,
                from,
                scores,
            ),
            None => {
                scores.fill(0);
                add_held(
                    &self.sets,
                    self.sets.lines_for(&self.ready, column),
                    &self.bits,
                    cells,
                    column,
                    from,
                    scores,
                );
            }
        }
    }
}
