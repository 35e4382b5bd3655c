ghost use Rattle.std.specs.Prelude.{◌≡◌, ℕ, ◌<◌, ◌≤◌, All, None, length, map, slice_index_or};
ghost use Rattle.std.specs.List.{range_with_len};
ghost use Rattle.cov_model.specs.believed.Sound.{ModelView};
ghost use Rattle.tuple_index.specs.Plan.{plan_of, set_at, value_given};
ghost use Rattle.tuple_index.specs.Places.{RisesFrom};
ghost use Rattle.uncovered_table.specs.Places.{tuple_at};
ghost use Rattle.ipog_grow.specs.Growing.{given_params};

use cov_model::{Cells, ParamNo, ValueNo};
use tuple_index::Plan;

// Takes all values away.
pub(crate) fn clear_values(into: &mut Cells)
    requires few { length into.old ≤ 256 }
    ensures long { length into.new ≡ length into.old }
    ensures none { (p : ℕ) → slice_index_or into.new p None ≡ None }
{
    let none = [None; 256];
    into.copy_from_slice(&none[..into.len()]);
}

// Puts the values of the members of a set into cells that give none, the last one first: of equal members
// the first counts. Where they rise, they are the parameters that have values then.
fn put_given(members: &[ParamNo], values: &[ValueNo], into: &mut Cells)
    requires long { length values.now ≡ length members.now }
    requires exist { All (λ p. p < length into.old) members.now }
    requires none { (p : ℕ) → slice_index_or into.old p None ≡ None }
    ensures values { into.new ≡ map (value_given members.now values.now) (range_with_len 0 (length into.old)) }
    ensures given { RisesFrom 0 (length into.old) members.now → members.now ≡ given_params into.new }
{
    let mut left = members.len();
    while left > 0 {
        left -= 1;
        into.set_cell(members[left], values[left]);
    }
}

// Puts the tuple of a place into cells that give no values. The parameters that it gives values.
pub(crate) fn put_tuple<'p>(plan: &'p Plan, place: (u32, u32), into: &mut Cells) -> &'p [ParamNo]
    requires set { place.0 < length plan.now.sets }
    requires rank { place.1 < slice_index_or plan.now.sizes place.0 0 }
    requires members { length (set_at plan.now place.0) ≤ 256 }
    requires rise { RisesFrom 0 (length into.old) (set_at plan.now place.0) }
    requires none { (p : ℕ) → slice_index_or into.old p None ≡ None }
    ensures tuple { (m : ModelView) → plan.now ≡ plan_of m → length into.old ≡ length m.params → into.new ≡ tuple_at m place }
    ensures given { result.now ≡ given_params into.new }
    ensures long { length into.new ≡ length into.old }
{
    let members = plan.members(place.0);
    let mut room = [0; 256];
    let values = &mut room[..members.len()];
    plan.unrank(place.0, place.1, values);
    put_given(members, values, into);
    members
}

// Takes the values of a tuple away again, of these parameters.
pub(crate) fn take_tuple(given: &[ParamNo], into: &mut Cells)
    requires { given.now ≡ given_params into.old }
    ensures none { (p : ℕ) → slice_index_or into.new p None ≡ None }
    ensures long { length into.new ≡ length into.old }
{
    for p in given {
        into.clear_cell(*p);
    }
}
