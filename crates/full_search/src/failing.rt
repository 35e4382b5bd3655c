ghost use Rattle.std.specs.Prelude.{◌≡◌, ◌<◌, ◌≤◌, false, true, length, IfSome, MatchOption};
ghost use Rattle.cov_model.specs.Fits.{FitsModel};
ghost use Rattle.definitions.specs.believed.Search.{breaks_a_rule};
ghost use Rattle.feasibility.specs.Live.{ShowsFailure, no_on};
ghost use Rattle.full_search.specs.Reasons.{IsReason};

use crate::reason::{add_members, clear};
use crate::searching::refute_stuck;
use cov_model::{Cells, ParamNo};
use feasibility::SearchTree;
use live_sets::LiveSets;

// The number of no parameter: a model has at most 256.
const NO_PARAM: ParamNo = ParamNo::MAX;

// The least number of a constraint that is No on the cells.
fn first_no(tree: &SearchTree<'_>, cells: &Cells) -> Option<u32>
    requires fits { FitsModel tree.now.model cells.now }
    ensures first { IfSome result (λ rule. 0 < rule) }
    ensures last { IfSome result (λ rule. rule ≤ length tree.now.model.rules) }
    ensures broken { MatchOption result (breaks_a_rule tree.now.model cells.now ≡ false) (λ rule. no_on tree.now.model cells.now rule ≡ true) }
{
    tree.assert_invariant();
    let count = tree.model().rules().len() as u32;
    for i in 0..count {
        if tree.is_no(i + 1, cells) {
            return Some(i + 1);
        }
    }
    None
}

// The reason of a path on which a constraint is No: the values that it gives the parameters which that names.
fn refute_broken(tree: &SearchTree<'_>, rule: u32, cells: &Cells, why: &mut Cells)
    requires fits { FitsModel tree.now.model cells.now }
    requires long { length why.old ≡ length cells.now }
    requires first { 0 < rule }
    requires last { rule ≤ length tree.now.model.rules }
    requires broken { no_on tree.now.model cells.now rule ≡ true }
    ensures { IsReason tree.now cells.now why.new }
{
    tree.assert_invariant();
    clear(why);
    add_members(tree, rule, NO_PARAM, cells, why);
}

// The reason of a path whose node fails, as the sets show.
pub(crate) fn refute_failing(
    tree: &SearchTree<'_>,
    cells: &mut Cells,
    sets: &LiveSets,
    why: &mut Cells,
)
    requires fits { FitsModel tree.now.model cells.old }
    requires long { length why.old ≡ length cells.old }
    requires shows { ShowsFailure tree.now.model tree.now.values cells.old sets.now }
    ensures reason { IsReason tree.now cells.old why.new }
    ensures same { cells.new ≡ cells.old }
{
    match first_no(tree, cells) {
        Some(rule) => refute_broken(tree, rule, cells, why),
        None => refute_stuck(tree, cells, sets, why),
    }
}
