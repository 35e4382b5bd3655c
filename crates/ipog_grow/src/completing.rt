ghost use Rattle.std.specs.Prelude.{◌≡◌, ◌+◌, ◌^◌, ◌<◌, ◌≤◌, ◌∷◌, ◌++◌, [], All, length, filter_map, slice_index_or, take, IfOk, OnOk};
ghost use Rattle.std.specs.List.{cons_option};
ghost use Rattle.definitions.specs.believed.Seeds.{distinct};
ghost use Rattle.ipog_grow.specs.Asking.{Grows, Told, first_spent};
ghost use Rattle.ipog_grow.specs.Completing.{completed};
ghost use Rattle.ipog_grow.specs.Rows.{AreDone};

use crate::asker::Asker;
use crate::distinct::remove_repeats;
use crate::stop::Stop;
use cov_model::{Cells, Rows};
use std::alloc::Global;

// Completes the partial row at a place, and puts its first completion, if there is one, behind those
// of earlier rows: the first `count` rows. Tells how many completions there are then.
fn complete_row(
    asker: &mut Asker,
    rows: &mut Rows,
    i: usize,
    count: usize,
    partial: &mut Cells,
    room: &mut Cells,
) -> Result<usize, Stop>
    requires within { i < length rows.old }
    requires short { length rows.old < 2 ^ 64 }
    requires count { count ≤ i }
    requires grows { Grows asker.old.context (slice_index_or rows.old i []) }
    requires long { All (λ row. length row ≡ length asker.old.context.model.params) rows.old }
    requires partial { length partial.old ≡ length asker.old.context.model.params }
    requires room { length room.old ≡ length asker.old.context.model.params }
    ensures asked { Told result asker.new.question (first_spent asker.old.context (slice_index_or rows.old i [] ∷ [])) }
    ensures done { IfOk result (λ after. AreDone rows.old rows.new (i + 1) after
        (take count rows.old ++ cons_option (completed asker.old.context (slice_index_or rows.old i [])) [])) }
    ensures long { OnOk result (All (λ row. length row ≡ length asker.old.context.model.params) rows.new) }
    ensures partial { length partial.new ≡ length partial.old }
    ensures room { length room.new ≡ length room.old }
    ensures same { asker.new.context ≡ asker.old.context }
{
    partial.copy_from_slice(rows.row(i));
    if !asker.complete(partial, room)? {
        return Ok(count);
    }
    rows.put(count, room.as_slice());
    Ok(count + 1)
}

// Puts in the place of the grown rows of a slice their first completions, in order.
fn complete_each(alloc: Global, asker: &mut Asker, rows: &mut Rows) -> Result<(), Stop>
    requires grows { All (Grows asker.old.context) rows.old }
    ensures asked { Told result asker.new.question (first_spent asker.old.context rows.old) }
    ensures rows { OnOk result (rows.new ≡ filter_map (completed asker.old.context) rows.old) }
    ensures long { OnOk result (All (λ row. length row ≡ length asker.old.context.model.params) rows.new) }
    ensures same { asker.new.context ≡ asker.old.context }
{
    let mut partial = asker.question().copy(alloc)?;
    let mut room = asker.question().copy(alloc)?;
    let mut count = 0;
    for i in 0..rows.len() {
        count = complete_row(asker, rows, i, count, &mut partial, &mut room)?;
    }
    rows.truncate(count);
    Ok(())
}

// Completes the grown rows of a slice in order, and puts their first completions behind other rows,
// equal ones once. Rows before which there are none stay in the memory that they grew in.
pub(crate) fn complete_rows(
    alloc: Global,
    asker: &mut Asker,
    mut grown: Rows,
    rows: &mut Rows,
) -> Result<(), Stop>
    requires grows { All (Grows asker.old.context) grown }
    requires long { All (λ row. length row ≡ length asker.old.context.model.params) rows.old }
    ensures asked { Told result asker.new.question (first_spent asker.old.context grown) }
    ensures rows { OnOk result (rows.new ≡ rows.old ++ distinct (filter_map (completed asker.old.context) grown)) }
    ensures long { OnOk result (All (λ row. length row ≡ length asker.old.context.model.params) rows.new) }
    ensures same { asker.new.context ≡ asker.old.context }
{
    complete_each(alloc, asker, &mut grown)?;
    remove_repeats(alloc, &mut grown)?;
    rows.append(grown)?;
    Ok(())
}
