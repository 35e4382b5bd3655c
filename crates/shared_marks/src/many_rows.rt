ghost use Rattle.std.specs.Prelude.{◌≡◌, ◌&&◌, ◌+◌, ◌≤◌, ◌<◌, ◌^◌, ◌∷◌, [], false, All, filter, length, map, not, slice_range, OnOk};
ghost use Rattle.cov_model.specs.Fits.{FitsModel};
ghost use Rattle.cov_model.specs.believed.Slices.{slice_of};
ghost use Rattle.definitions.specs.believed.Demand.{demanded_tuples};
ghost use Rattle.row_text.specs.RowFiles.{suite_seen};
ghost use Rattle.tuple_index.specs.Plan.{plan_of, set_at};
ghost use Rattle.shared_marks.specs.Adding.{Adds, Marks};
ghost use Rattle.shared_marks.specs.TestColumns.{AreColumns, AreRanks, is_positive, place_in};
ghost use Rattle.shared_marks.specs.OpenSets.{AreLines, AreOpen, IsLine, front, is_of_some};
ghost use Rattle.shared_marks.specs.Served.{base_of, is_served_at, served_between};

use crate::digits::{has_no_negative, radix_of};
use crate::open_sets::{Line, OpenSets, front};
use crate::ranks::mark_ranks;
use crate::seat::MarkSeat;
use crate::served::mark_row;
use crate::table::SharedMarks;
use crate::test_columns::{TestColumns, add_digits, is_positive, put_places};
use cov_model::TestModel;
use row_text::{FileRow, RowFile};
use std::alloc::Global;
use tuple_index::Plan;
use value_text::NoMemory;

// The fewest rows for which columns pay.
const FEWEST_ROWS: u32 = 8;

// The most rows that stand in columns at a time.
const MOST_ROWS: u32 = 1 << 10;

// Puts for each test the place of its values of all members of a line's set but the last. These are there already where
// the line before begins with the same members.
fn put_fronts(
    model: &TestModel,
    plan: &Plan,
    line: Line,
    columns: &mut TestColumns<'_>,
    places: &mut [u32],
) -> Result<(), NoMemory>
    requires plan { plan.now ≡ plan_of model.now }
    requires columns { AreColumns model.now columns.old }
    requires line { IsLine plan.now line }
    requires room { length places.old ≡ length columns.old.tests }
    requires kept { line.is_fresh ≡ false → places.old ≡ map (place_in model.now (front (set_at plan.now line.set))) columns.old.tests }
    ensures places { OnOk result (places.new ≡ map (place_in model.now (front (set_at plan.now line.set))) columns.old.tests) }
    ensures tests { OnOk result (columns.new.tests ≡ columns.old.tests) }
    ensures columns { OnOk result (AreColumns model.now columns.new) }
{
    if !line.is_fresh {
        return Ok(());
    }
    plan.assert_invariant();
    put_places(model, plan, front(plan.members(line.set)), columns, places)
}

// Puts for each test the rank of the demanded tuple of a line's set that it serves. The places of the tests' values of
// all members but the last are at hand.
fn put_ranks(
    model: &TestModel,
    plan: &Plan,
    line: Line,
    columns: &mut TestColumns<'_>,
    fronts: &[u32],
    ranks: &mut [u32],
) -> Result<(), NoMemory>
    requires plan { plan.now ≡ plan_of model.now }
    requires columns { AreColumns model.now columns.old }
    requires line { IsLine plan.now line }
    requires fronts { fronts.now ≡ map (place_in model.now (front (set_at plan.now line.set))) columns.old.tests }
    requires room { length ranks.old ≡ length columns.old.tests }
    ensures ranks { OnOk result (AreRanks model.now (set_at (plan_of model.now) line.set) columns.old.tests ranks.new) }
    ensures tests { OnOk result (columns.new.tests ≡ columns.old.tests) }
    ensures columns { OnOk result (AreColumns model.now columns.new) }
{
    plan.assert_invariant();
    columns.fill(model, plan, line.last)?;
    ranks.copy_from_slice(fronts);
    add_digits(
        ranks,
        radix_of(model, plan, line.last),
        columns.column(line.last),
    );
    Ok(())
}

// Marks the places of the demanded tuples of a line's set that the tests serve. The places of their values of all
// members but the last are at hand. There is room for a number for each test, and for words.
fn mark_line(
    table: &SharedMarks,
    seat: &mut MarkSeat,
    model: &TestModel,
    plan: &Plan,
    line: Line,
    columns: &mut TestColumns<'_>,
    fronts: &[u32],
    ranks: &mut [u32],
    words: &mut [u64],
) -> Result<(), NoMemory>
    requires table { seat.old.table ≡ table.now.table }
    requires plan { plan.now ≡ plan_of model.now }
    requires bits { table.now.bits ≡ length (demanded_tuples model.now) }
    requires columns { AreColumns model.now columns.old }
    requires line { IsLine plan.now line }
    requires fronts { fronts.now ≡ map (place_in model.now (front (set_at plan.now line.set))) columns.old.tests }
    requires room { length ranks.old ≡ length columns.old.tests }
    ensures marks { OnOk result (Marks (served_between model.now columns.old.tests (base_of model.now line.set) (base_of model.now (line.set + 1))) seat.old seat.new) }
    ensures room { OnOk result (length ranks.new ≡ length ranks.old) }
    ensures tests { OnOk result (columns.new.tests ≡ columns.old.tests) }
    ensures columns { OnOk result (AreColumns model.now columns.new) }
{
    put_ranks(model, plan, line, columns, fronts, ranks)?;
    mark_ranks(table, seat, line.base, plan.size(line.set), ranks, words);
    Ok(())
}

// Marks the places of the demanded tuples of the lines' sets that the tests serve. There is room for two
// numbers for each test, and for words.
fn mark_lines(
    table: &SharedMarks,
    seat: &mut MarkSeat,
    model: &TestModel,
    plan: &Plan,
    lines: &[Line],
    columns: &mut TestColumns<'_>,
    fronts: &mut [u32],
    ranks: &mut [u32],
    words: &mut [u64],
) -> Result<(), NoMemory>
    requires table { seat.old.table ≡ table.now.table }
    requires plan { plan.now ≡ plan_of model.now }
    requires bits { table.now.bits ≡ length (demanded_tuples model.now) }
    requires columns { AreColumns model.now columns.old }
    requires lines { AreLines plan.now lines.now }
    requires fronts { length fronts.old ≡ length columns.old.tests }
    requires ranks { length ranks.old ≡ length columns.old.tests }
    ensures { OnOk result (Marks (λ place. is_of_some plan.now lines.now place && is_served_at model.now columns.old.tests place) seat.old seat.new) }
{
    for line in lines {
        put_fronts(model, plan, *line, columns, fronts)?;
        mark_line(
            table, seat, model, plan, *line, columns, fronts, ranks, words,
        )?;
    }
    Ok(())
}

// Marks the place of each demanded tuple that a row with a negative value serves, if it is a test.
fn mark_negative(
    table: &SharedMarks,
    seat: &mut MarkSeat,
    model: &TestModel,
    plan: &Plan,
    row: &FileRow,
)
    requires table { seat.old.table ≡ table.now.table }
    requires plan { plan.now ≡ plan_of model.now }
    requires bits { table.now.bits ≡ length (demanded_tuples model.now) }
    requires fits { FitsModel model.now row.now.cells }
    ensures { Marks (is_served_at model.now (filter (λ cells. not (is_positive (slice_of model.now cells))) (row.now.cells ∷ []))) seat.old seat.new }
{
    if !is_positive(model, &row.cells) {
        mark_row(table, seat, model, plan, &row.cells);
    }
}

// Marks the place of each demanded tuple that a test with a negative value serves among rows.
fn mark_negatives(
    table: &SharedMarks,
    seat: &mut MarkSeat,
    model: &TestModel,
    plan: &Plan,
    rows: &[FileRow],
)
    requires table { seat.old.table ≡ table.now.table }
    requires plan { plan.now ≡ plan_of model.now }
    requires bits { table.now.bits ≡ length (demanded_tuples model.now) }
    requires fits { All (λ row. FitsModel model.now row.cells) rows.now }
    ensures { Marks (is_served_at model.now (filter (λ cells. not (is_positive (slice_of model.now cells))) (map (λ row. row.cells) rows.now))) seat.old seat.new }
{
    if has_no_negative(model, plan) {
        return;
    }
    for row in rows {
        mark_negative(table, seat, model, plan, row);
    }
}

// Marks the place of each demanded tuple that some of these rows serve, but for places that the seat holds, by
// the sets that are open.
fn mark_many(
    table: &SharedMarks,
    alloc: Global,
    seat: &mut MarkSeat,
    model: &TestModel,
    plan: &Plan,
    in_play: &OpenSets,
    rows: &[FileRow],
) -> Result<(), NoMemory>
    requires table { seat.old.table ≡ table.now.table }
    requires plan { plan.now ≡ plan_of model.now }
    requires bits { table.now.bits ≡ length (demanded_tuples model.now) }
    requires in_play { AreOpen plan.now in_play.now.lines.items in_play.now.upto seat.old.holds }
    requires all { in_play.now.upto ≡ length plan.now.sets }
    requires fits { All (λ row. FitsModel model.now row.cells) rows.now }
    ensures { OnOk result (Adds (is_served_at model.now (map (λ row. row.cells) rows.now)) seat.old seat.new) }
{
    mark_negatives(table, seat, model, plan, rows);
    if in_play.are_none(plan) {
        return Ok(());
    }
    let mut columns = TestColumns::of(alloc, model, plan, rows)?;
    let mut fronts = vec![in alloc; 0; columns.len()]?;
    let mut ranks = vec![in alloc; 0; columns.len()]?;
    // gathering pays where a set has fewer words than there are tests
    let mut words = vec![in alloc; 0; columns.len()]?;
    let lines = in_play.lines.as_slice();
    mark_lines(
        table,
        seat,
        model,
        plan,
        lines,
        &mut columns,
        &mut fronts,
        &mut ranks,
        &mut words,
    )?;
    Ok(())
}

// Marks what `mark_served` marks, but for places that the seat holds, by the sets that are open.
pub(crate) fn mark_open(
    table: &SharedMarks,
    alloc: Global,
    seat: &mut MarkSeat,
    model: &TestModel,
    plan: &Plan,
    in_play: &OpenSets,
    file: &RowFile,
    from: u32,
    to: u32,
) -> Result<(), NoMemory>
    requires table { seat.old.table ≡ table.now.table }
    requires plan { plan.now ≡ plan_of model.now }
    requires bits { table.now.bits ≡ length (demanded_tuples model.now) }
    requires in_play { AreOpen plan.now in_play.now.lines.items in_play.now.upto seat.old.holds }
    requires fits { All (λ row. FitsModel model.now row.cells) file.now.rows }
    requires ordered { from ≤ to }
    requires within { to ≤ length file.now.rows }
    requires few { length file.now.rows ≤ 2 ^ 20 }
    ensures { OnOk result (Adds (is_served_at model.now (slice_range (suite_seen file.now) from to)) seat.old seat.new) }
{
    // a few rows are marked one by one, which takes no memory
    if to - from < FEWEST_ROWS || in_play.upto != plan.set_count() {
        table.mark_served(seat, model, plan, file, from, to);
        return Ok(());
    }
    let mut marked = from;
    while marked < to {
        let next = to.min(marked + MOST_ROWS);
        let rows = &file.rows.as_slice()[marked as usize..next as usize];
        mark_many(table, alloc, seat, model, plan, in_play, rows)?;
        marked = next;
    }
    Ok(())
}
