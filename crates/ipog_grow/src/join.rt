ghost use Rattle.std.specs.Prelude.{◌≡◌, ◌<◌, ℕ, true, false, None, [], All, length, is_some, slice_index_or, slice_set, IfOk, IfSome, OnOk};
ghost use Rattle.definitions.specs.believed.Demand.{is_among};
ghost use Rattle.tuple_index.specs.Places.{RisesFrom};
ghost use Rattle.definitions.specs.believed.Growth.{agrees, join, union};
ghost use Rattle.ipog_grow.specs.Growing.{given_params};
ghost use Rattle.ipog_grow.specs.Asking.{Grows, Told, IsUnionAt, extends, first_spent};

use crate::asker::Asker;
use crate::candidates::Candidates;
use crate::stop::Stop;
use crate::unions::{agree, unite};
use cov_model::{Cells, ParamNo, Rows};

// The first partial row that agrees with a tuple, and whose union with it is extendable, becomes this
// union; its number, if there is one. The tuple gives values to these parameters, and only the candidates may
// agree. The room is for a union, and has this one then. A union contains the tuple, so that none is tried where
// the tuple is known not to be extendable.
pub(crate) fn join_first(
    asker: &mut Asker,
    tuple: &Cells,
    given: &[ParamNo],
    room: &mut Cells,
    rows: &mut Rows,
    mut candidates: Candidates<'_>,
) -> Result<Option<usize>, Stop>
    requires tuple { Grows asker.old.context tuple.now }
    requires given { given.now ≡ given_params tuple.now }
    requires rows { All (Grows asker.old.context) rows.old }
    requires candidates { RisesFrom 0 (length rows.old) candidates }
    requires others { (i : ℕ) → i < length rows.old → is_among candidates i ≡ false → agrees (slice_index_or rows.old i []) tuple.now ≡ false }
    requires room { length room.old ≡ length asker.old.context.model.params }
    ensures asked { Told result asker.new.question (first_spent asker.old.context (join (extends asker.old.context) tuple.now rows.old).asked) }
    ensures rows { OnOk result (rows.new ≡ (join (extends asker.old.context) tuple.now rows.old).rows) }
    ensures taken { IfOk result (λ at. is_some at ≡ (join (extends asker.old.context) tuple.now rows.old).taken) }
    ensures place { IfOk result (λ at. IfSome at (λ i. IsUnionAt rows.old rows.new tuple.now i)) }
    ensures room { IfOk result (λ at. IfSome at (λ i. room.new ≡ slice_index_or rows.new i [])) }
    ensures unchanged { IfOk result (λ at. at ≡ None → rows.new ≡ rows.old) }
    ensures grows { OnOk result (All (Grows asker.old.context) rows.new) }
    ensures same { asker.new.context ≡ asker.old.context }
    ensures long { length room.new ≡ length room.old }
{
    asker.assert_invariant();
    if asker.rules_out(tuple) {
        return Ok(None);
    }
    while let Some(i) = candidates.take_first() {
        let row = rows.row(i);
        if agree(row, tuple, given) {
            unite(row, tuple, given, room);
            if asker.ask(room)? {
                rows.put(i, room.as_slice());
                return Ok(Some(i));
            }
        }
    }
    Ok(None)
}
