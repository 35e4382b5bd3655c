ghost use Rattle.std.specs.Prelude.{◌≡◌, ◌+◌, ◌^◌, ◌<◌, ◌≤◌, All, IfOk, length, map, slice_range};
ghost use Rattle.std.specs.Thread.{IsSync};
ghost use Rattle.cov_model.specs.Fits.{FitsModel};
ghost use Rattle.definitions.specs.believed.Demand.{demanded_tuples};
ghost use Rattle.definitions.specs.believed.Figures.{is_served, tests_of};
ghost use Rattle.row_text.specs.RowFiles.{suite_seen};
ghost use Rattle.tuple_index.specs.Plan.{plan_of};
ghost use Rattle.shared_marks.specs.Adding.{Adds};
ghost use Rattle.shared_marks.specs.OpenSets.{AreOpen};
ghost use Rattle.shared_marks.specs.Served.{is_served_at};

use crate::bits::Bits;
use crate::many_rows::mark_open;
use crate::open_sets::OpenSets;
use crate::seat::MarkSeat;
use crate::served::count_tuples;
use crate::table::SharedMarks;
use cov_model::TestModel;
use row_text::RowFile;
use std::alloc::Global;
use std::thread::{Threads, join};
use tuple_index::Plan;
use value_text::NoMemory;
use worker_gate::Gate;

/// How many rows are marked before sets that are complete leave.
const FIRST_ROUND: u32 = 1 << 10;

/// The marks of the demanded tuples that some test of a file serves, put by workers numbered from 1. The rows
/// go in rounds, one at least; in each round each worker comes to the gate and then marks, with a seat of its
/// own, what its share of the round's rows serves. With more workers than rows some shares are empty. The
/// marks are the same for every number of workers from 1 to 64. A test is a complete and valid row, and the place of a tuple is the base of its set plus its rank.
/// Plan and file have to be the model's; a file has at most 2^20 rows.
///
/// # Errors
///
/// `NoMemory` where memory is refused.
pub fn mark_rows<R: Threads + Sync, G: Gate + Sync>(
    rt: &R,
    alloc: Global,
    model: &TestModel,
    plan: &Plan,
    file: &RowFile,
    workers: u32,
    gate: &G,
) -> Result<Bits, NoMemory>
    requires plan { plan.now ≡ plan_of model.now }
    requires fits { All (λ row. FitsModel model.now row.cells) file.now.rows }
    requires few { length file.now.rows ≤ 2 ^ 20 }
    requires least { 1 ≤ workers }
    requires most { workers ≤ 64 }
    ensures { IfOk result (λ bits. bits ≡ map (is_served model.now (tests_of model.now (suite_seen file.now))) (demanded_tuples model.now)) }
{
    let (table, seat) = SharedMarks::new(alloc, count_tuples(plan))?;
    let seat = mark_rounds(rt, alloc, &table, seat, model, plan, file, workers, gate)?;
    Ok(table.close(seat))
}

// Marks what the tests of a file serve, in rounds of rows, each round as long as all rounds before it. Between
// rounds the sets that are complete leave. There is a round even where there are no rows, so that each worker
// comes to the gate. The seat comes back with all that was marked, and with its share.
fn mark_rounds<R: Threads + Sync, G: Gate + Sync>(
    rt: &R,
    alloc: Global,
    table: &SharedMarks,
    mut seat: MarkSeat,
    model: &TestModel,
    plan: &Plan,
    file: &RowFile,
    workers: u32,
    gate: &G,
) -> Result<MarkSeat, NoMemory>
    requires table { seat.table ≡ table.now.table }
    requires plan { plan.now ≡ plan_of model.now }
    requires bits { table.now.bits ≡ length (demanded_tuples model.now) }
    requires fits { All (λ row. FitsModel model.now row.cells) file.now.rows }
    requires few { length file.now.rows ≤ 2 ^ 20 }
    requires least { 1 ≤ workers }
    requires most { workers ≤ 64 }
    ensures { IfOk result (λ after. Adds (is_served_at model.now (suite_seen file.now)) seat after) }
{
    let count = file.rows.len() as u32;
    let mut from = 0;
    loop {
        let in_play = OpenSets::find(alloc, table, &mut seat, plan)?;
        let to = count.min(from + from.max(FIRST_ROUND));
        seat = mark_range(
            rt, alloc, table, seat, model, plan, &in_play, file, from, to, 1, workers, gate,
        )?;
        if to == count {
            return Ok(seat);
        }
        from = to;
    }
}

// How many of the rows the first of the workers take.
fn share(count: u32, first: u32, workers: u32) -> u32
    requires { first < workers }
    ensures { result ≤ count }
{
    (u64::from(count) * u64::from(first) / u64::from(workers)) as u32
}

// Marks what the tests of a range of the rows serve, by so many workers, the first of which has the number
// `worker`. The seat comes back with all that they marked, and with its share.
fn mark_range<R: Threads + Sync, G: Gate + Sync>(
    rt: &R,
    alloc: Global,
    table: &SharedMarks,
    mut seat: MarkSeat,
    model: &TestModel,
    plan: &Plan,
    in_play: &OpenSets,
    file: &RowFile,
    from: u32,
    to: u32,
    worker: u32,
    workers: u32,
    gate: &G,
) -> Result<MarkSeat, NoMemory>
    requires table { seat.table ≡ table.now.table }
    requires plan { plan.now ≡ plan_of model.now }
    requires bits { table.now.bits ≡ length (demanded_tuples model.now) }
    requires in_play { AreOpen plan.now in_play.now.lines.items in_play.now.upto seat.holds }
    requires fits { All (λ row. FitsModel model.now row.cells) file.now.rows }
    requires ordered { from ≤ to }
    requires within { to ≤ length file.now.rows }
    requires few { length file.now.rows ≤ 2 ^ 20 }
    requires some { 0 < workers }
    requires last { worker + workers ≤ 65 }
    ensures { IfOk result (λ after. Adds (is_served_at model.now (slice_range (suite_seen file.now) from to)) seat after) }
{
    if workers == 1 {
        gate.come(worker);
        mark_open(
            table, alloc, &mut seat, model, plan, in_play, file, from, to,
        )?;
        return Ok(seat);
    }
    let half = workers / 2;
    let next = worker + half;
    let rest = workers - half;
    let middle = from + share(to - from, half, workers);
    let other = table.split(&mut seat);
    let (first, second) = join(
        rt,
        move || -> Result<MarkSeat, NoMemory>
            requires { IsSync R.row × IsSync G.row × (seat.table ≡ table.now.table) × (plan.now ≡ plan_of model.now) × AreOpen plan.now in_play.now.lines.items in_play.now.upto seat.holds
                × (table.now.bits ≡ length (demanded_tuples model.now)) × All (λ row. FitsModel model.now row.cells) file.now.rows
                × (from ≤ middle) × (middle ≤ length file.now.rows) × (length file.now.rows ≤ 2 ^ 20) × (0 < half) × (worker + half ≤ 65) }
            ensures { IfOk result (λ after. Adds (is_served_at model.entry.now (slice_range (suite_seen file.entry.now) from middle)) seat after) }
        {
            mark_range(
                rt, alloc, table, seat, model, plan, in_play, file, from, middle, worker, half,
                gate,
            )
        },
        move || -> Result<MarkSeat, NoMemory>
            requires { IsSync R.row × IsSync G.row × (other.table ≡ table.now.table) × (plan.now ≡ plan_of model.now) × AreOpen plan.now in_play.now.lines.items in_play.now.upto other.holds
                × (table.now.bits ≡ length (demanded_tuples model.now)) × All (λ row. FitsModel model.now row.cells) file.now.rows
                × (middle ≤ to) × (to ≤ length file.now.rows) × (length file.now.rows ≤ 2 ^ 20) × (0 < rest) × (next + rest ≤ 65) }
            ensures { IfOk result (λ after. Adds (is_served_at model.entry.now (slice_range (suite_seen file.entry.now) middle to)) other after) }
        {
            mark_range(
                rt, alloc, table, other, model, plan, in_play, file, middle, to, next, rest, gate,
            )
        },
    );
    let mut seat = first?;
    let other = second?;
    table.join(&mut seat, other);
    Ok(seat)
}
