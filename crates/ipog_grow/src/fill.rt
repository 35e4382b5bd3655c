ghost use Rattle.std.specs.Prelude.{◌≡◌, ◌<◌, ℕ, List, Option, true, All, [], length, slice_index_or, slice_set, OnOk};
ghost use Rattle.std.specs.List.{filter};
ghost use Rattle.cov_model.specs.believed.Sound.{param_at};
ghost use Rattle.cov_model.specs.believed.Rows.{contains};
ghost use Rattle.definitions.specs.believed.Growth.{is_uncovered};
ghost use Rattle.ipog_grow.specs.Asking.{Grows, IsTableOf, Told, filled, first_spent};
ghost use Rattle.ipog_grow.specs.Growing.{IsClosedBy, IsInPlay, open_tuples};

use crate::asker::Asker;
use crate::stop::Stop;
use crate::value_order::ValueOrder;
use crate::values::try_values;
use crate::workers::Workers;
use cov_model::{Cells, ParamNo, Rows};
use std::thread::Threads;
use uncovered_table::Uncovered;
use worker_gate::Gate;

// Fills the cell of the partial row at a place in a column, if it has no value there: of the values
// with a gain that leave it extendable, it gets the one of the greatest gain, and among these the
// first in preference order. Where there is none, the cell stays empty, so that vertical growth can
// use it. What the row then contains is closed. The scores are lost. The room is for the row.
pub(crate) fn fill_cell<R: Threads + Sync, G: Gate + Sync>(
    workers: &Workers<'_, R, G>,
    table: &mut Uncovered,
    asker: &mut Asker,
    order: &ValueOrder<'_>,
    column: ParamNo,
    scores: &mut [u32],
    rows: &mut Rows,
    i: usize,
    room: &mut Cells,
) -> Result<(), Stop>
    requires table { IsTableOf asker.old.context table.old }
    requires column { column < length asker.old.context.model.params }
    requires order { order.now ≡ slice_index_or asker.old.context.prefs column [] }
    requires scores { length scores.old ≡ length (param_at asker.old.context.model.params column).values }
    requires in_play { All (IsInPlay asker.old.context.model asker.old.context.slice column) (open_tuples table.old column) }
    requires place { i < length rows.old }
    requires grows { Grows asker.old.context (slice_index_or rows.old i []) }
    requires room { length room.old ≡ length asker.old.context.model.params }
    ensures asked { (known tuples : List (List (Option ℕ))) → open_tuples table.old column ≡ filter (is_uncovered known) tuples
        → Told result asker.new.question (first_spent asker.old.context (filled asker.old.context column known tuples (slice_index_or rows.old i [])).asked) }
    ensures row { OnOk result ((known tuples : List (List (Option ℕ))) → open_tuples table.old column ≡ filter (is_uncovered known) tuples
        → slice_index_or rows.new i [] ≡ (filled asker.old.context column known tuples (slice_index_or rows.old i [])).row) }
    ensures others { OnOk result (rows.new ≡ slice_set rows.old i (slice_index_or rows.new i [])) }
    ensures closes { OnOk result (IsClosedBy table.old table.new column (slice_index_or rows.old i []) (slice_index_or rows.new i [])) }
    ensures grows { OnOk result (Grows asker.old.context (slice_index_or rows.new i [])) }
    ensures more { OnOk result (contains (slice_index_or rows.new i []) (slice_index_or rows.old i []) ≡ true) }
    ensures same { asker.new.context ≡ asker.old.context }
    ensures long { length scores.new ≡ length scores.old }
    ensures room { length room.new ≡ length room.old }
{
    asker.assert_invariant();
    let row = rows.row(i);
    if row[column as usize].is_some() {
        return Ok(());
    }
    room.copy_from_slice(row);
    workers.put_gains(table, room, column, scores);
    if let Some(v) = try_values(asker, order, scores, column, room)? {
        table.close_row(room, column);
        rows.set_cell(i, column, v);
    }
    Ok(())
}
