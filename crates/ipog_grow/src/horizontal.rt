ghost use Rattle.std.specs.Prelude.{◌≡◌, ◌<◌, List, Option, ℕ, All, [], length, slice_index_or, OnOk};
ghost use Rattle.std.specs.List.{filter};
ghost use Rattle.cov_model.specs.believed.Sound.{param_at};
ghost use Rattle.definitions.specs.believed.Growth.{is_uncovered};
ghost use Rattle.ipog_grow.specs.Asking.{Grows, IsTableOf, Told, crossed, first_spent};
ghost use Rattle.ipog_grow.specs.Growing.{IsInPlay, Keeps, open_tuples};

use crate::asker::Asker;
use crate::fill::fill_cell;
use crate::stop::Stop;
use crate::value_order::ValueOrder;
use crate::workers::Workers;
use cov_model::{Cells, ParamNo, Rows};
use std::thread::Threads;
use uncovered_table::Uncovered;
use worker_gate::Gate;

// Complete sets leave before each row whose place is a multiple of this, and not before each row,
// since all sets in play are looked at then.
const ROWS_BETWEEN: usize = 32;

// Lets complete sets leave before every 32nd row.
fn leave_at_times(table: &mut Uncovered, column: ParamNo, i: usize)
    requires { column < length table.old.model.params }
    ensures { table.new ≡ table.old }
{
    if i % ROWS_BETWEEN == 0 {
        table.leave_complete(column);
    }
}

// Horizontal growth of a column: each partial row in order gets the value there that covers most, or
// none where no value would cover anything. The open tuples in play are those that no row contains,
// before and after. The room is for a partial row.
pub(crate) fn grow_horizontally<R: Threads + Sync, G: Gate + Sync>(
    workers: &Workers<'_, R, G>,
    table: &mut Uncovered,
    asker: &mut Asker,
    order: &ValueOrder<'_>,
    column: ParamNo,
    scores: &mut [u32],
    rows: &mut Rows,
    room: &mut Cells,
) -> Result<(), Stop>
    requires table { IsTableOf asker.old.context table.old }
    requires column { column < length asker.old.context.model.params }
    requires order { order.now ≡ slice_index_or asker.old.context.prefs column [] }
    requires scores { length scores.old ≡ length (param_at asker.old.context.model.params column).values }
    requires in_play { All (IsInPlay asker.old.context.model asker.old.context.slice column) (open_tuples table.old column) }
    requires room { length room.old ≡ length asker.old.context.model.params }
    requires grows { All (Grows asker.old.context) rows.old }
    ensures asked { (tuples : List (List (Option ℕ))) → open_tuples table.old column ≡ filter (is_uncovered rows.old) tuples
        → Told result asker.new.question (first_spent asker.old.context (crossed asker.old.context column tuples [] rows.old).asked) }
    ensures rows { OnOk result ((tuples : List (List (Option ℕ))) → open_tuples table.old column ≡ filter (is_uncovered rows.old) tuples
        → rows.new ≡ (crossed asker.old.context column tuples [] rows.old).rows) }
    ensures moment { OnOk result ((tuples : List (List (Option ℕ))) → open_tuples table.old column ≡ filter (is_uncovered rows.old) tuples
        → open_tuples table.new column ≡ filter (is_uncovered rows.new) tuples) }
    ensures keeps { OnOk result (Keeps table.old table.new column) }
    ensures in_play { OnOk result (All (IsInPlay asker.old.context.model asker.old.context.slice column) (open_tuples table.new column)) }
    ensures grows { OnOk result (All (Grows asker.old.context) rows.new) }
    ensures same { asker.new.context ≡ asker.old.context }
    ensures long { length scores.new ≡ length scores.old }
    ensures room { length room.new ≡ length room.old }
{
    for i in 0..rows.len() {
        leave_at_times(table, column, i);
        fill_cell(workers, table, asker, order, column, scores, rows, i, room)?;
    }
    Ok(())
}
