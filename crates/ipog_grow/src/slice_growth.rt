ghost use Rattle.std.specs.Prelude.{◌≡◌, ◌+◌, ◌^◌, ◌++◌, ◌∷◌, ◌<◌, [], All, IfOk, OnOk, filter_map, length, map};
ghost use Rattle.cov_model.specs.Preference.{OrdersValues};
ghost use Rattle.cov_model.specs.believed.Sound.{param_at};
ghost use Rattle.definitions.specs.believed.Completion.{column_order};
ghost use Rattle.definitions.specs.believed.Growth.{down, settle};
ghost use Rattle.cov_model.specs.believed.Tuples.{cells_of};
ghost use Rattle.definitions.specs.believed.Pairs.{pairs_of};
ghost use Rattle.definitions.specs.believed.Seeds.{distinct};
ghost use Rattle.definitions.specs.SliceRows.{IsSliceOf};
ghost use Rattle.feasibility.specs.Ends.{Ends};
ghost use Rattle.feasibility.specs.Refuting.{earlier_tuples};
ghost use Rattle.tuple_index.specs.Plan.{plan_of};
ghost use Rattle.ipog_grow.specs.Completing.{completed};
ghost use Rattle.ipog_grow.specs.Omissions.{AreOmissionsOf, IsOmittedTuple};
ghost use Rattle.ipog_grow.specs.Asking.{Grows, IsNew, IsNext, IsOpen, IsPassed, IsReady, Told, column_grown, columns_grown, extends, first_spent, omitted_alone, rows_alone};
ghost use Rattle.ipog_grow.specs.Growing.{Keeps, columns_to, given_params, open_tuples};
ghost use Rattle.ipog_grow.specs.UnfilledRows.{HasUnfilled};

use crate::asker::Asker;
use crate::contained::close_contained;
use crate::finish::finish_slice;
use crate::horizontal::grow_horizontally;
use crate::join::join_first;
use crate::order::column_order;
use crate::place_tuple::{clear_values, put_tuple, take_tuple};
use crate::stop::Stop;
use crate::unfilled::UnfilledRows;
use crate::value_order::ValueOrder;
use crate::values::no_scores;
use crate::workers::Workers;
use cov_model::{Cells, ParamNo, Prefs, Rows, Slice, TestModel, Tuple};
use definitions::Effort;
use feasibility::{SearchFault, tuple_of};
use refutation::{Omissions, ProofForm};
use std::alloc::Global;
use std::mem;
use std::thread::Threads;
use tuple_index::Plan;
use uncovered_table::Uncovered;
use value_text::NoMemory;
use worker_gate::Gate;

// What grows in a slice: the partial rows, the table of the open tuples and the tuples that were
// omitted; with room for a tuple and for a partial row.
pub(crate) struct SliceGrowth<'a> {
    pub(crate) table: Uncovered<'a>,
    pub(crate) asker: Asker<'a>,
    pub(crate) tuple: Cells,
    pub(crate) room: Cells,
    pub(crate) rows: Rows,
    pub(crate) omitted: Vec<Tuple>,
}

// Its parts are dropped here, and not anew wherever a growth may end.
impl Drop for SliceGrowth<'_> {
    fn drop(self) {
        let SliceGrowth {
            table: _,
            asker: _,
            tuple: _,
            room: _,
            rows: _,
            omitted: _,
        } = self;
    }
}

// Puts the tuple of these cells behind others.
fn push_tuple(alloc: Global, cells: &Cells, into: &mut Vec<Tuple>) -> Result<(), NoMemory>
    requires { length cells.now < 2 ^ 16 }
    ensures { OnOk result (into.new.items ≡ into.old.items ++ pairs_of cells.now ∷ []) }
{
    let tuple = tuple_of(alloc, cells)?;
    into.push(tuple)?;
    Ok(())
}

impl<'a> SliceGrowth<'a> {
    // The growth of a slice of the model from these partial rows, given what a question may cost,
    // before its first column. The plan and the preferences have to be the model's.
    pub(crate) fn new(
        alloc: Global,
        model: &'a TestModel,
        prefs: &'a Prefs,
        plan: &'a Plan,
        slice: Slice,
        effort: Effort,
        rows: Rows,
    ) -> Result<SliceGrowth<'a>, NoMemory>
        requires plan { plan.now ≡ plan_of model.now }
        requires slice { IsSliceOf model.now slice }
        requires orders { OrdersValues model.now prefs.now }
        ensures context { IfOk result (λ growth. growth.asker.context ≡ record { model = model.now; prefs = prefs.now; slice = slice; effort = effort }) }
        ensures is_new { IfOk result (λ growth. IsNew growth.asker.context growth.table growth.tuple growth.room) }
        ensures rows { IfOk result (λ growth. growth.rows ≡ rows) }
        ensures omitted { IfOk result (λ growth. growth.omitted.items ≡ []) }
    {
        let count = model.params().len();
        let tuple = Cells::empty(alloc, count)?;
        let room = Cells::empty(alloc, count)?;
        let table = Uncovered::new(alloc, model, plan, slice)?;
        let asker = Asker::new(alloc, model, prefs, slice, effort)?;
        Ok(SliceGrowth {
            table,
            asker,
            tuple,
            room,
            rows,
            omitted: Vec::new(alloc),
        })
    }

    // Puts the tuple of a place that no row takes: as a new row, where it is extendable, else among
    // the omitted ones. It is closed then. The new row's number is put behind those of the rows that
    // may have an empty cell in one of the columns, if it has one.
    fn settle_alone(
        &mut self,
        alloc: Global,
        column: ParamNo,
        place: (u32, u32),
        columns: &[ParamNo],
        unfilled: &mut UnfilledRows,
    ) -> Result<(), Stop>
        requires column { column < length self.old.asker.context.model.params }
        requires next { IsNext self.old.asker.context self.old.table column place self.old.tuple self.old.rows }
        requires exist { All (λ p. p < length self.old.asker.context.model.params) columns.now }
        requires unfilled { HasUnfilled columns.now column (length (param_at self.old.asker.context.model.params column).values) self.old.rows unfilled.old }
        ensures asked { Told result self.new.asker.question (first_spent self.old.asker.context (self.old.tuple ∷ [])) }
        ensures rows { OnOk result (self.new.rows ≡ rows_alone self.old.asker.context self.old.tuple self.old.rows) }
        ensures omitted { OnOk result (self.new.omitted.items ≡ self.old.omitted.items ++ omitted_alone self.old.asker.context self.old.tuple) }
        ensures passed { OnOk result (IsPassed self.old.asker.context self.old.table self.new.table column place self.new.rows) }
        ensures unfilled { OnOk result (HasUnfilled columns.now column (length (param_at self.old.asker.context.model.params column).values) self.new.rows unfilled.new) }
        ensures same { self.new.asker.context ≡ self.old.asker.context }
        ensures tuple { self.new.tuple ≡ self.old.tuple }
        ensures room { self.new.room ≡ self.old.room }
    {
        self.asker.assert_invariant();
        if self.asker.ask(&self.tuple)? {
            let number = self.rows.len();
            self.rows.push(self.tuple.as_slice())?;
            unfilled.push_row(self.tuple.as_slice(), columns, column, number)?;
            self.table.close_row(&self.tuple, column);
        } else {
            push_tuple(alloc, &self.tuple, &mut self.omitted)?;
            self.table.close(place.0, place.1);
        }
        Ok(())
    }

    // Puts the tuple of a place, which no row contains: the first row that takes it becomes the union
    // with it, or it becomes a new row, or it is omitted. It is closed then. The tuple gives values to the
    // given parameters, the columns are those up to this one, and only the rows of these numbers may have an
    // empty cell there.
    fn settle(
        &mut self,
        alloc: Global,
        column: ParamNo,
        place: (u32, u32),
        given: &[ParamNo],
        columns: &[ParamNo],
        unfilled: &mut UnfilledRows,
    ) -> Result<(), Stop>
        requires column { column < length self.old.asker.context.model.params }
        requires next { IsNext self.old.asker.context self.old.table column place self.old.tuple self.old.rows }
        requires columns { columns.now ≡ columns_to self.old.asker.context.model self.old.asker.context.slice column }
        requires exist { All (λ p. p < length self.old.asker.context.model.params) columns.now }
        requires unfilled { HasUnfilled columns.now column (length (param_at self.old.asker.context.model.params column).values) self.old.rows unfilled.old }
        requires given { given.now ≡ given_params self.old.tuple }
        requires room { length self.old.room ≡ length self.old.asker.context.model.params }
        ensures asked { Told result self.new.asker.question
            (first_spent self.old.asker.context (settle (extends self.old.asker.context) self.old.tuple self.old.rows).asked) }
        ensures rows { OnOk result (self.new.rows ≡ (settle (extends self.old.asker.context) self.old.tuple self.old.rows).rows) }
        ensures omitted { OnOk result (self.new.omitted.items ≡ self.old.omitted.items
            ++ map pairs_of (settle (extends self.old.asker.context) self.old.tuple self.old.rows).omitted) }
        ensures passed { OnOk result (IsPassed self.old.asker.context self.old.table self.new.table column place self.new.rows) }
        ensures unfilled { OnOk result (HasUnfilled columns.now column (length (param_at self.old.asker.context.model.params column).values) self.new.rows unfilled.new) }
        ensures same { self.new.asker.context ≡ self.old.asker.context }
        ensures tuple { self.new.tuple ≡ self.old.tuple }
        ensures room { length self.new.room ≡ length self.old.room }
    {
        self.asker.assert_invariant();
        match join_first(
            &mut self.asker,
            &self.tuple,
            given,
            &mut self.room,
            &mut self.rows,
            unfilled.candidates(&self.tuple, column),
        )? {
            Some(_) => self.table.close_row(&self.room, column),
            None => self.settle_alone(alloc, column, place, columns, unfilled)?,
        }
        Ok(())
    }

    // Vertical growth of a column, which has this number of values: the open tuples in play there, in
    // order. The columns are those up to this one.
    fn grow_vertically(
        &mut self,
        alloc: Global,
        plan: &Plan,
        column: ParamNo,
        count: usize,
        columns: &[ParamNo],
    ) -> Result<(), Stop>
        requires plan { plan.now ≡ plan_of self.old.asker.context.model }
        requires column { column < length self.old.asker.context.model.params }
        requires count { count ≡ length (param_at self.old.asker.context.model.params column).values }
        requires is_open { IsOpen self.old.asker.context self.old.table column self.old.rows }
        requires columns { columns.now ≡ columns_to self.old.asker.context.model self.old.asker.context.slice column }
        requires exist { All (λ p. p < length self.old.asker.context.model.params) columns.now }
        requires tuple { length self.old.tuple ≡ length self.old.asker.context.model.params }
        requires room { length self.old.room ≡ length self.old.asker.context.model.params }
        ensures asked { Told result self.new.asker.question
            (first_spent self.old.asker.context (down (extends self.old.asker.context) (open_tuples self.old.table column) self.old.rows).asked) }
        ensures rows { OnOk result (self.new.rows
            ≡ (down (extends self.old.asker.context) (open_tuples self.old.table column) self.old.rows).rows) }
        ensures omitted { OnOk result (self.new.omitted.items ≡ self.old.omitted.items
            ++ map pairs_of (down (extends self.old.asker.context) (open_tuples self.old.table column) self.old.rows).omitted) }
        ensures keeps { OnOk result (Keeps self.old.table self.new.table column) }
        ensures grows { OnOk result (All (Grows self.old.asker.context) self.new.rows) }
        ensures same { self.new.asker.context ≡ self.old.asker.context }
        ensures tuple { length self.new.tuple ≡ length self.old.tuple }
        ensures room { length self.new.room ≡ length self.old.room }
    {
        self.asker.assert_invariant();
        plan.assert_invariant();
        if self.table.next_open(column, None).is_none() {
            return Ok(());
        }
        let mut unfilled = UnfilledRows::among(alloc, &self.rows, columns, column, count)?;
        clear_values(&mut self.tuple);
        let mut from = None;
        while let Some(place) = self.table.next_open(column, from) {
            let given = put_tuple(plan, place, &mut self.tuple);
            self.settle(alloc, column, place, given, columns, &mut unfilled)?;
            take_tuple(given, &mut self.tuple);
            from = Some(place);
        }
        Ok(())
    }

    // A column: horizontal, then vertical growth. The preferences are those of the slice's questions,
    // and the columns those up to this one.
    fn grow_column<R: Threads + Sync, G: Gate + Sync>(
        &mut self,
        workers: &Workers<'_, R, G>,
        alloc: Global,
        prefs: &Prefs,
        plan: &Plan,
        column: ParamNo,
        columns: &[ParamNo],
    ) -> Result<(), Stop>
        requires prefs { prefs.now ≡ self.old.asker.context.prefs }
        requires plan { plan.now ≡ plan_of self.old.asker.context.model }
        requires column { column < length self.old.asker.context.model.params }
        requires ready { IsReady self.old.asker.context self.old.table column self.old.rows }
        requires columns { columns.now ≡ columns_to self.old.asker.context.model self.old.asker.context.slice column }
        requires exist { All (λ p. p < length self.old.asker.context.model.params) columns.now }
        requires tuple { length self.old.tuple ≡ length self.old.asker.context.model.params }
        requires room { length self.old.room ≡ length self.old.asker.context.model.params }
        ensures asked { Told result self.new.asker.question
            (first_spent self.old.asker.context (column_grown self.old.asker.context column self.old.rows).asked) }
        ensures rows { OnOk result (self.new.rows ≡ (column_grown self.old.asker.context column self.old.rows).rows) }
        ensures omitted { OnOk result (self.new.omitted.items ≡ self.old.omitted.items
            ++ map pairs_of (column_grown self.old.asker.context column self.old.rows).omitted) }
        ensures keeps { OnOk result (Keeps self.old.table self.new.table column) }
        ensures grows { OnOk result (All (Grows self.old.asker.context) self.new.rows) }
        ensures same { self.new.asker.context ≡ self.old.asker.context }
        ensures tuple { length self.new.tuple ≡ length self.old.tuple }
        ensures room { length self.new.room ≡ length self.old.room }
    {
        self.asker.assert_invariant();
        let values = prefs.of(column);
        let order = ValueOrder::new(values);
        self.table.prepare(alloc, column)?;
        let mut scores = no_scores(alloc, values.len())?;
        close_contained(&mut self.table, &self.rows, column, &mut self.room);
        grow_horizontally(
            workers,
            &mut self.table,
            &mut self.asker,
            &order,
            column,
            &mut scores,
            &mut self.rows,
            &mut self.room,
        )?;
        self.grow_vertically(alloc, plan, column, values.len(), columns)
    }

    // The columns in order. The model, the slice and the preferences are those of the slice's questions.
    pub(crate) fn grow_columns<R: Threads + Sync, G: Gate + Sync>(
        &mut self,
        workers: &Workers<'_, R, G>,
        alloc: Global,
        model: &TestModel,
        prefs: &Prefs,
        plan: &Plan,
        slice: Slice,
    ) -> Result<(), Stop>
        requires model { self.old.asker.context.model ≡ model.now }
        requires slice { self.old.asker.context.slice ≡ slice }
        requires prefs { self.old.asker.context.prefs ≡ prefs.now }
        requires plan { plan.now ≡ plan_of model.now }
        requires is_new { IsNew self.old.asker.context self.old.table self.old.tuple self.old.room }
        requires grows { All (Grows self.old.asker.context) self.old.rows }
        ensures asked { Told result self.new.asker.question
            (first_spent self.old.asker.context (columns_grown self.old.asker.context (column_order model.now slice) self.old.rows).asked) }
        ensures rows { OnOk result (self.new.rows ≡ (columns_grown self.old.asker.context (column_order model.now slice) self.old.rows).rows) }
        ensures omitted { OnOk result (self.new.omitted.items ≡ self.old.omitted.items
            ++ map pairs_of (columns_grown self.old.asker.context (column_order model.now slice) self.old.rows).omitted) }
        ensures grows { OnOk result (All (Grows self.old.asker.context) self.new.rows) }
        ensures same { self.new.asker.context ≡ self.old.asker.context }
    {
        self.asker.assert_invariant();
        let order = column_order(alloc, model, plan, slice)?;
        for k in 0..order.len() {
            self.grow_column(workers, alloc, prefs, plan, order[k], &order[..k + 1])?;
        }
        Ok(())
    }

    // Ends the growth after the last column: completes the grown rows, and puts them and the omitted tuples
    // behind those of earlier slices.
    pub(crate) fn finish(
        self,
        alloc: Global,
        proof: Option<ProofForm>,
        rows: &mut Rows,
        omissions: &mut Omissions,
    ) -> Result<(), SearchFault>
        requires grows { All (Grows self.asker.context) self.rows }
        requires omitted { All (IsOmittedTuple self.asker.context) self.omitted.items }
        requires earlier { AreOmissionsOf self.asker.context.model self.asker.context.prefs self.asker.context.effort proof omissions.old }
        requires few { length omissions.old.omissions + length self.omitted.items < 2 ^ 32 }
        requires long { All (λ row. length row ≡ length self.asker.context.model.params) rows.old }
        ensures rows { OnOk result (rows.new ≡ rows.old ++ distinct (filter_map (completed self.entry.asker.context) self.entry.rows)) }
        ensures long { OnOk result (All (λ row. length row ≡ length self.entry.asker.context.model.params) rows.new) }
        ensures tuples { OnOk result (earlier_tuples self.entry.asker.context.model omissions.new
            ≡ earlier_tuples self.entry.asker.context.model omissions.old
            ++ map (cells_of (length self.entry.asker.context.model.params)) self.entry.omitted.items) }
        ensures omissions { OnOk result (AreOmissionsOf self.entry.asker.context.model self.entry.asker.context.prefs
            self.entry.asker.context.effort proof omissions.new) }
        ensures asked { Ends result (first_spent self.entry.asker.context self.entry.rows) }
    {
        let SliceGrowth {
            table,
            mut asker,
            tuple: _,
            room: _,
            rows: grown,
            omitted,
        } = self;
        // the omissions may take as much memory as the table, which isn't needed any more
        mem::drop(table);
        finish_slice(alloc, &mut asker, proof, grown, omitted, rows, omissions)
    }
}
