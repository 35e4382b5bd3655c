ghost use Rattle.std.specs.Prelude.{◌≡◌, ◌^◌, ◌<◌, ◌≤◌, length, map};
ghost use Rattle.std.specs.List.{range_with_len};
ghost use Rattle.cov_model.specs.believed.Sound.{param_at};
ghost use Rattle.definitions.specs.SliceRows.{IsOfSlice};
ghost use Rattle.uncovered_table.specs.Open.{gain};

use cov_model::{Cells, ParamNo};
use scoring::score_all;
use std::thread::Threads;
use uncovered_table::Uncovered;
use worker_gate::Gate;

// How many pairs of a set in play and a value are worth a worker more: to score them takes about as long
// as to start a thread.
const PAIRS_OF_A_WORKER: usize = 1 << 15;

// How many workers may score the values of a cell at the same time, and the gate to which each comes.
#[derive(Drop)]
pub(crate) struct Workers<'a, R, G> {
    pub(crate) rt: &'a R,
    pub(crate) count: u32,
    pub(crate) gate: &'a G,
    ghost some: { 1 ≤ count },
    ghost few: { count ≤ 64 },
}

impl<'a, R: Threads + Sync, G: Gate + Sync> Workers<'a, R, G> {
    // How many of the workers score this many values in this many sets, so that none costs more than it
    // saves.
    fn count_for(&self, sets: usize, values: usize) -> u32
        requires sets { sets ≤ 2 ^ 20 }
        requires values { values ≤ 4095 }
        ensures least { 1 ≤ result }
        ensures most { result ≤ 64 }
        ensures given { result ≤ self.now.count }
    {
        let worthwhile = sets * values / PAIRS_OF_A_WORKER + 1;
        worthwhile.min(self.count as usize) as u32
    }

    // Puts the gain of each value of a column.
    pub(crate) fn put_gains(
        &self,
        table: &Uncovered,
        row: &Cells,
        column: ParamNo,
        scores: &mut [u32],
    )
        requires row { IsOfSlice table.now.model table.now.slice row.now }
        requires column { column < length table.now.model.params }
        requires scores { length scores.old ≡ length (param_at table.now.model.params column).values }
        ensures { scores.new ≡ map (gain table.now row.now column) (range_with_len 0 (length scores.old)) }
    {
        table.assert_invariant();
        let count = self.count_for(table.in_play_count(column), scores.len());
        score_all(self.rt, table, row, column, scores, count, self.gate);
    }
}
