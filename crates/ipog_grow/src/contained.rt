ghost use Rattle.std.specs.Prelude.{◌≡◌, ◌<◌, All, length};
ghost use Rattle.std.specs.List.{filter};
ghost use Rattle.definitions.specs.believed.Growth.{is_uncovered};
ghost use Rattle.ipog_grow.specs.Growing.{GrowsIn, IsInPlay, Keeps, open_tuples};

use cov_model::{Cells, ParamNo, Rows};
use uncovered_table::Uncovered;

// Closes the tuples in play for a column that partial rows contain before it grows, as seeds may. The
// room is for a partial row.
pub(crate) fn close_contained(table: &mut Uncovered, rows: &Rows, column: ParamNo, room: &mut Cells)
    requires column { column < length table.old.model.params }
    requires grows { All (GrowsIn table.old.model table.old.slice) rows.now }
    requires in_play { All (IsInPlay table.old.model table.old.slice column) (open_tuples table.old column) }
    requires room { length room.old ≡ length table.old.model.params }
    ensures moment { open_tuples table.new column ≡ filter (is_uncovered rows.now) (open_tuples table.old column) }
    ensures keeps { Keeps table.old table.new column }
    ensures long { length room.new ≡ length room.old }
{
    for i in 0..rows.len() {
        if rows.row(i)[column as usize].is_some() {
            room.copy_from_slice(rows.row(i));
            table.close_row(room, column);
        }
    }
}
