ghost use Rattle.std.specs.Prelude.{◌≡◌, ◌∷◌, [], true, All, IfOk, OnOk, length, map};
ghost use Rattle.cov_model.specs.Fits.{FitsModel};
ghost use Rattle.definitions.specs.believed.Demand.{demanded_tuples};
ghost use Rattle.shared_marks.specs.Adding.{Marks};
ghost use Rattle.shared_marks.specs.Served.{is_served_at};
ghost use Rattle.shorter_suites.specs.believed.Shrinking.{ServesToo};
ghost use Rattle.suite_shrink.specs.Coverage.{AreMarksOf};
ghost use Rattle.tuple_index.specs.Plan.{plan_of};

use crate::comparing::are_within;
use crate::planned_model::PlannedModel;
use cov_model::{Cells, Rows, TestModel, ValueNo};
use model_lex::NoteList;
use row_text::{FileRow, FileRowList, RowFile};
use shared_marks::{Bits, MarkSeat, SharedMarks, count_tuples};
use std::alloc::Global;
use tuple_index::Plan;
use value_text::NoMemory;

// A row as a file of one row.
fn file_of(alloc: Global, row: &[Option<ValueNo>]) -> Result<RowFile, NoMemory>
    ensures { IfOk result (λ file. map (λ one. one.cells) file.rows ≡ row.now ∷ []) }
{
    let mut cells = Cells::empty(alloc, row.len())?;
    cells.copy_from_slice(row);
    let mut rows = FileRowList::new(alloc);
    rows.push(FileRow { line: 0, cells })?;
    Ok(RowFile {
        rows,
        notes: NoteList::new(alloc),
    })
}

// Marks the place of each demanded tuple that a row serves.
fn mark_row(
    alloc: Global,
    table: &SharedMarks,
    seat: &mut MarkSeat,
    model: &TestModel,
    plan: &Plan,
    row: &[Option<ValueNo>],
) -> Result<(), NoMemory>
    requires table { seat.old.table ≡ table.now.table }
    requires plan { plan.now ≡ plan_of model.now }
    requires bits { table.now.bits ≡ length (demanded_tuples model.now) }
    requires fits { FitsModel model.now row.now }
    ensures { OnOk result (Marks (is_served_at model.now (row.now ∷ [])) seat.old seat.new) }
{
    let file = file_of(alloc, row)?;
    table.mark_served(seat, model, plan, &file, 0, 1);
    Ok(())
}

// Marks the place of each demanded tuple that one of the rows serves.
fn mark_rows(
    alloc: Global,
    table: &SharedMarks,
    seat: &mut MarkSeat,
    model: &TestModel,
    plan: &Plan,
    rows: &Rows,
) -> Result<(), NoMemory>
    requires table { seat.old.table ≡ table.now.table }
    requires plan { plan.now ≡ plan_of model.now }
    requires bits { table.now.bits ≡ length (demanded_tuples model.now) }
    requires fits { All (FitsModel model.now) rows.now }
    ensures { OnOk result (Marks (is_served_at model.now rows.now) seat.old seat.new) }
{
    for i in 0..rows.len() {
        mark_row(alloc, table, seat, model, plan, rows.row(i))?;
    }
    Ok(())
}

// The marks of the demanded tuples that the rows serve.
pub(crate) fn marks_of(
    alloc: Global,
    model: &TestModel,
    plan: &Plan,
    rows: &Rows,
) -> Result<Bits, NoMemory>
    requires plan { plan.now ≡ plan_of model.now }
    requires fits { All (FitsModel model.now) rows.now }
    ensures { IfOk result (AreMarksOf model.now rows.now) }
{
    let (table, mut seat) = SharedMarks::new(alloc, count_tuples(plan))?;
    mark_rows(alloc, &table, &mut seat, model, plan, rows)?;
    Ok(table.close(seat))
}

// Whether the rows serve each demanded tuple that the given rows serve, which are marked.
pub(crate) fn serve_too(
    alloc: Global,
    of: &PlannedModel<'_>,
    given: &Rows,
    marks: &Bits,
    rows: &Rows,
) -> Result<bool, NoMemory>
    requires plan { of.now.plan.now ≡ plan_of of.now.model.now }
    requires marks { AreMarksOf of.now.model.now given.now marks.now }
    requires fits { All (FitsModel of.now.model.now) rows.now }
    ensures { IfOk result (λ serve. serve ≡ true
        → ServesToo of.now.model.now given.now rows.now) }
{
    let _ = given;
    let own = marks_of(alloc, of.model, of.plan, rows)?;
    Ok(are_within(marks, &own))
}
