ghost use Rattle.std.specs.Prelude.{◌≡◌, ◌<◌, ◌≤◌, ℕ, true, false, Some, None, All, [], length, slice_index, slice_index_or, slice_set, IfOk, IfSome, OnOk};
ghost use Rattle.cov_model.specs.believed.Rows.{contains, is_assigned};
ghost use Rattle.cov_model.specs.believed.Slices.{slice_values};
ghost use Rattle.cov_model.specs.believed.Sound.{param_at};
ghost use Rattle.definitions.specs.believed.Demand.{is_among};
ghost use Rattle.ipog_grow.specs.Asking.{Grows, Told, first_spent, tried};

use crate::asker::Asker;
use crate::stop::Stop;
use crate::value_order::ValueOrder;
use cov_model::{Cells, ParamNo, ValueNo};
use std::alloc::Global;
use value_text::NoMemory;

// Room for the scores of `count` values, which begin as 0.
pub(crate) fn no_scores(alloc: Global, count: usize) -> Result<Vec<u32>, NoMemory>
    ensures { IfOk result (λ scores. length scores.items ≡ count) }
{
    let scores = vec![in alloc; 0; count]?;
    Ok(scores)
}

// Gives a row, which has no value in the column, the first value by falling score, of those with a
// score above 0, that leaves it extendable; this value, if there is one. The scores are lost.
pub(crate) fn try_values(
    asker: &mut Asker,
    order: &ValueOrder<'_>,
    scores: &mut [u32],
    column: ParamNo,
    row: &mut Cells,
) -> Result<Option<ValueNo>, Stop>
    requires column { column < length asker.old.context.model.params }
    requires order { order.now ≡ slice_index_or asker.old.context.prefs column [] }
    requires scores { length scores.old ≡ length (param_at asker.old.context.model.params column).values }
    requires listed { (v : ℕ) → 0 < slice_index scores.old v
        → is_among (slice_index_or (slice_values asker.old.context.model asker.old.context.slice) column []) v ≡ true }
    requires grows { Grows asker.old.context row.old }
    requires free { is_assigned row.old column ≡ false }
    ensures asked { (n : ℕ) → All (λ score. score ≤ n) scores.old
        → Told result asker.new.question (first_spent asker.old.context (tried asker.old.context n scores.old order.now column row.old).asked) }
    ensures row { OnOk result ((n : ℕ) → All (λ score. score ≤ n) scores.old → row.new ≡ (tried asker.old.context n scores.old order.now column row.old).row) }
    ensures kept { IfOk result (λ given. given ≡ None → row.new ≡ row.old) }
    ensures given { IfOk result (λ given. IfSome given (λ v. row.new ≡ slice_set row.old column (Some v))) }
    ensures grows { OnOk result (Grows asker.old.context row.new) }
    ensures more { OnOk result (contains row.new row.old ≡ true) }
    ensures same { asker.new.context ≡ asker.old.context }
    ensures long { length scores.new ≡ length scores.old }
    ensures size { length row.new ≡ length row.old }
{
    asker.assert_invariant();
    while let Some(v) = order.best(scores) {
        row.set_cell(column, v);
        if asker.ask(row)? {
            return Ok(Some(v));
        }
        row.clear_cell(column);
        scores[v as usize] = 0;
    }
    Ok(None)
}
