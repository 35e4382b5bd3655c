ghost use Rattle.std.specs.Prelude.{◌≡◌, ◌<◌, ◌≤◌, All, AllPairs, IfOk, length, map, take};
ghost use Rattle.std.specs.List.{filter, range_with_len};
ghost use Rattle.cov_model.specs.Fits.{FitsModel};
ghost use Rattle.definitions.specs.believed.Demand.{demanded_tuples, is_among};
ghost use Rattle.row_text.specs.RowFiles.{suite_seen};
ghost use Rattle.shared_marks.specs.Seats.{IsWhole};
ghost use Rattle.suite_facts.specs.believed.Coverages.{point_of};
ghost use Rattle.suite_facts.specs.believed.Facts.{covered_of};
ghost use Rattle.suite_facts.specs.Marked.{HoldsCovered, KeepsMarked};
ghost use Rattle.tuple_index.specs.Plan.{plan_of};

use cov_model::TestModel;
use row_text::RowFile;
use shared_marks::{MarkSeat, SharedMarks, count_tuples};
use std::alloc::Global;
use tuple_index::Plan;
use value_text::NoMemory;

/// How many demanded tuples the first tests cover.
#[derive(Debug, Drop, Clone, Copy, PartialEq, Eq)]
pub struct CurvePoint {
    /// How many of the rows these are.
    pub tests: u32,
    /// How many tuples they cover.
    pub covered: u32,
}

// Whether a place of a table is marked. The seat has the whole share.
fn look(table: &SharedMarks, seat: &mut MarkSeat, place: u32) -> bool
    requires table { seat.old.table ≡ table.now.table }
    requires whole { IsWhole seat.old.holds }
    requires place { place < table.now.bits }
    ensures marked { result ≡ is_among seat.old.holds.marked place }
    ensures kept { KeepsMarked seat.old seat.new }
{
    table.is_marked(seat, place)
}

// How many places of a table are marked. The table has so many, and the seat has the whole share.
fn count_places(table: &SharedMarks, seat: &mut MarkSeat, places: u32) -> u32
    requires table { seat.old.table ≡ table.now.table }
    requires whole { IsWhole seat.old.holds }
    requires places { places ≡ table.now.bits }
    ensures count { result ≡ length (filter (is_among seat.old.holds.marked) (range_with_len 0 places)) }
    ensures kept { KeepsMarked seat.old seat.new }
{
    let mut marked = 0;
    for place in 0..places {
        marked += u32::from(look(table, seat, place));
    }
    marked
}

// Marks what the rows of a file from number `from` up to but not including `to` cover, and counts what is marked then. What
// the rows before cover is marked already.
fn cover_next(
    table: &SharedMarks,
    seat: &mut MarkSeat,
    model: &TestModel,
    plan: &Plan,
    file: &RowFile,
    from: u32,
    to: u32,
    places: u32,
) -> u32
    requires plan { plan.now ≡ plan_of model.now }
    requires fits { All (λ row. FitsModel model.now row.cells) file.now.rows }
    requires bits { table.now.bits ≡ length (demanded_tuples model.now) }
    requires places { places ≡ table.now.bits }
    requires ordered { from ≤ to }
    requires within { to ≤ length file.now.rows }
    requires holds { HoldsCovered model.now (suite_seen file.now) from table.now.table seat.old }
    ensures counts { result ≡ covered_of model.now (take to (suite_seen file.now)) }
    ensures holds { HoldsCovered model.now (suite_seen file.now) to table.now.table seat.new }
{
    table.mark_served(seat, model, plan, file, from, to);
    count_places(table, seat, places)
}

// How many demanded tuples the first rows of a file cover, at each of these numbers of rows. Nothing is marked before.
fn cover_each(
    alloc: Global,
    table: &SharedMarks,
    seat: &mut MarkSeat,
    model: &TestModel,
    plan: &Plan,
    file: &RowFile,
    numbers: &[u32],
    places: u32,
) -> Result<Vec<CurvePoint>, NoMemory>
    requires plan { plan.now ≡ plan_of model.now }
    requires fits { All (λ row. FitsModel model.now row.cells) file.now.rows }
    requires bits { table.now.bits ≡ length (demanded_tuples model.now) }
    requires places { places ≡ table.now.bits }
    requires rising { AllPairs (λ a b. a ≤ b) numbers.now }
    requires within { All (λ n. n ≤ length file.now.rows) numbers.now }
    requires holds { HoldsCovered model.now (suite_seen file.now) 0 table.now.table seat.old }
    ensures { IfOk result (λ points. points.items ≡ map (point_of model.now (suite_seen file.now)) numbers.now) }
{
    let mut points = Vec::new(alloc);
    let mut from = 0;
    for number in numbers {
        let to = *number;
        let covered = cover_next(table, seat, model, plan, file, from, to, places);
        points.push(CurvePoint { tests: to, covered })?;
        from = to;
    }
    Ok(points)
}

/// How many demanded tuples the first rows of a file cover: as many rows as each of these numbers says, which never fall.
/// Each complete and valid row covers what it serves, and other rows cover nothing. Plan and file have to be the model's.
///
/// # Errors
///
/// `NoMemory` where memory is refused.
pub fn covered_after(
    alloc: Global,
    model: &TestModel,
    plan: &Plan,
    file: &RowFile,
    numbers: &[u32],
) -> Result<Vec<CurvePoint>, NoMemory>
    requires plan { plan.now ≡ plan_of model.now }
    requires fits { All (λ row. FitsModel model.now row.cells) file.now.rows }
    requires rising { AllPairs (λ a b. a ≤ b) numbers.now }
    requires within { All (λ n. n ≤ length file.now.rows) numbers.now }
    ensures { IfOk result (λ points. points.items ≡ map (point_of model.now (suite_seen file.now)) numbers.now) }
{
    let places = count_tuples(plan);
    let (table, mut seat) = SharedMarks::new(alloc, places)?;
    cover_each(alloc, &table, &mut seat, model, plan, file, numbers, places)
}
