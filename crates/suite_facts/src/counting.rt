ghost use Rattle.std.specs.Prelude.{◌≡◌, ◌+◌, ◌<◌, ◌≤◌, ◌^◌, ℕ, List, Option, drop, length, sum, take};
ghost use Rattle.std.specs.List.{filter};
ghost use Rattle.cov_model.specs.believed.Sound.{ModelView};
ghost use Rattle.definitions.specs.believed.Figures.{covered};
ghost use Rattle.suite_facts.specs.Facts.{AreMarksOf};
ghost use Rattle.tuple_index.specs.Plan.{plan_of, set_at};

use shared_marks::Bits;
use tuple_index::Plan;

// How many of so many places from one on are marked.
fn count_marked(marks: &Bits, from: u32, count: u32) -> u32
    requires within { from + count ≤ length marks.now }
    requires few { length marks.now ≤ 2 ^ 26 }
    ensures count { result ≡ length (filter (λ mark. mark) (take count (drop from marks.now))) }
    ensures most { result ≤ count }
{
    let mut marked = 0;
    for i in 0..count {
        if marks.has(from + i) {
            marked += 1;
        }
    }
    marked
}

// How many demanded tuples of a set are marked.
pub(crate) fn count_set(plan: &Plan, marks: &Bits, set: u32) -> u32
    requires set { set < length plan.now.sets }
    requires long { length marks.now ≡ sum plan.now.sizes }
    ensures { (m : ModelView) (rows : List (List (Option ℕ))) → plan.now ≡ plan_of m → AreMarksOf m rows marks.now
        → result ≡ covered m rows (set_at plan.now set) }
{
    plan.assert_invariant();
    count_marked(marks, plan.base(set), plan.size(set))
}
