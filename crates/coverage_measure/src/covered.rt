ghost use Rattle.std.specs.Prelude.{◌≡◌, ◌<◌, drop, length, slice_index_or, sum, take};
ghost use Rattle.std.specs.List.{filter};

use shared_marks::Bits;
use tuple_index::Plan;

// How many places of the demanded tuples of a set are marked.
pub(crate) fn count_covered(plan: &Plan, marks: &Bits, set: u32) -> u32
    requires set { set < length plan.now.sets }
    requires marks { length marks.now ≡ sum plan.now.sizes }
    ensures { result ≡ length (filter (λ mark. mark) (take (slice_index_or plan.now.sizes set 0) (drop (sum (take set plan.now.sizes)) marks.now))) }
{
    plan.assert_invariant();
    marks.count_marked(plan.base(set), plan.size(set))
}
