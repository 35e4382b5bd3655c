ghost use Rattle.std.specs.Prelude.{◌≡◌, ◌+◌, ◌*◌, ◌^◌, ◌<◌, ◌≤◌, length, map};
ghost use Rattle.std.specs.List.{range_with_len};
ghost use Rattle.std.specs.Thread.{IsSync};
ghost use Rattle.cov_model.specs.believed.Sound.{param_at};
ghost use Rattle.definitions.specs.SliceRows.{IsOfSlice};
ghost use Rattle.scoring.specs.Gains.{AreGains};
ghost use Rattle.uncovered_table.specs.Open.{gain};

use cov_model::{Cells, ParamNo, ValueNo};
use std::thread::{Threads, join_mut};
use uncovered_table::Uncovered;
use worker_gate::Gate;

/// Puts the gain of each value of a column in these cells, by workers numbered from 1. Each worker comes
/// to the gate before its share of the values; with more workers than values some shares are empty.
/// The cells have to be of the table's slice, there is a score for each value, and the workers are 1 to
/// 64. Takes no memory.
pub fn score_all<R: Threads + Sync, G: Gate + Sync>(
    rt: &R,
    table: &Uncovered<'_>,
    cells: &Cells,
    column: ParamNo,
    scores: &mut [u32],
    workers: u32,
    gate: &G,
)
    requires cells { IsOfSlice table.now.model table.now.slice cells.now }
    requires column { column < length table.now.model.params }
    requires scores { length scores.old ≡ length (param_at table.now.model.params column).values }
    requires least { 1 ≤ workers }
    requires most { workers ≤ 64 }
    ensures { scores.new ≡ map (gain table.now cells.now column) (range_with_len 0 (length scores.old)) }
{
    table.assert_invariant();
    score_values(rt, table, cells, column, 0, scores, 1, workers, gate);
}

// How many of the values the first of the workers take.
fn share(count: usize, first: u32, workers: u32) -> usize
    requires count { count ≤ 2 ^ 16 }
    requires first { first < workers }
    requires few { workers ≤ 65 }
    ensures { result ≤ count }
{
    let whole = workers as usize;
    (count * first as usize + whole - 1) / whole
}

// Puts the gains of the values from `from` on, as many as there are scores, by so many workers, the first of which has
// the number `worker`.
fn score_values<R: Threads + Sync, G: Gate + Sync>(
    rt: &R,
    table: &Uncovered<'_>,
    cells: &Cells,
    column: ParamNo,
    from: ValueNo,
    scores: &mut [u32],
    worker: u32,
    workers: u32,
    gate: &G,
)
    requires cells { IsOfSlice table.now.model table.now.slice cells.now }
    requires column { column < length table.now.model.params }
    requires values { from + length scores.old ≤ length (param_at table.now.model.params column).values }
    requires few { length (param_at table.now.model.params column).values ≤ 4095 }
    requires some { 0 < workers }
    requires last { worker + workers ≤ 65 }
    ensures { AreGains table.now cells.now column from scores.new }
{
    if workers == 1 {
        gate.come(worker);
        table.gains(cells, column, from, scores);
        return;
    }
    let half = workers / 2;
    let middle = share(scores.len(), half, workers);
    let (left, right) = scores.split_at_mut(middle);
    let next = from + middle as ValueNo;
    join_mut(
        rt,
        &mut ||
            requires { IsSync R.row × IsSync G.row × IsOfSlice table.now.model table.now.slice cells.now × (column < length table.now.model.params)
                × (from + length left.now ≤ length (param_at table.now.model.params column).values)
                × (length (param_at table.now.model.params column).values ≤ 4095) × (0 < half) × (worker + half ≤ 65) }
            ensures { AreGains table.entry.now cells.entry.now column from left.exit.now }
        { score_values(rt, table, cells, column, from, left, worker, half, gate) },
        &mut ||
            requires { IsSync R.row × IsSync G.row × IsOfSlice table.now.model table.now.slice cells.now × (column < length table.now.model.params)
                × (next + length right.now ≤ length (param_at table.now.model.params column).values)
                × (length (param_at table.now.model.params column).values ≤ 4095) × (half < workers) × (worker + workers ≤ 65) }
            ensures { AreGains table.entry.now cells.entry.now column next right.exit.now }
        {
            score_values(
                rt,
                table,
                cells,
                column,
                next,
                right,
                worker + half,
                workers - half,
                gate,
            )
        },
    );
}
