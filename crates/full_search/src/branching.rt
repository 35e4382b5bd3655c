ghost use Rattle.std.specs.Prelude.{◌≡◌, ◌<◌, ◌≤◌, true, false, length, MatchOption};
ghost use Rattle.cov_model.specs.believed.Rows.{is_assigned};
ghost use Rattle.definitions.specs.believed.Demand.{is_among};
ghost use Rattle.definitions.specs.believed.Search.{constrained_params};
ghost use Rattle.feasibility.specs.Live.{HasShape};
ghost use Rattle.feasibility.specs.Tree.{constrained_at};
ghost use Rattle.full_search.specs.Branching.{CanBranch, GivesNamed};
ghost use Rattle.full_search.specs.Searching.{IsAt};
ghost use Rattle.full_search.specs.Witnesses.{BreaksOne};

use crate::witness::Witness;
use cov_model::{Cells, ParamNo};
use feasibility::SearchTree;
use live_sets::LiveSets;

// The first parameter without a value of those that a constraint names.
fn free_member(tree: &SearchTree<'_>, rule: u32, cells: &Cells) -> Option<ParamNo>
    requires first { 0 < rule }
    requires last { rule ≤ length tree.now.model.rules }
    requires long { length cells.now ≡ length tree.now.model.params }
    ensures { MatchOption result (GivesNamed tree.now.model rule cells.now) (CanBranch tree.now.model cells.now) }
{
    for q in tree.members_of(rule) {
        if cells.get(*q).is_none() {
            return Some(*q);
        }
    }
    None
}

// Of a parameter and those without a value that a constraint names the one with the fewest live values, the
// earlier one where two have equally many.
fn fewest_of(
    tree: &SearchTree<'_>,
    rule: u32,
    best: ParamNo,
    cells: &Cells,
    sets: &LiveSets,
) -> ParamNo
    requires first { 0 < rule }
    requires last { rule ≤ length tree.now.model.rules }
    requires long { length cells.now ≡ length tree.now.model.params }
    requires shape { HasShape tree.now.model sets.now.live }
    requires best { CanBranch tree.now.model cells.now best }
    ensures { CanBranch tree.now.model cells.now result }
{
    let mut best = best;
    for q in tree.members_of(rule) {
        if cells.get(*q).is_none() && sets.count(*q) < sets.count(best) {
            best = *q;
        }
    }
    best
}

// The parameter to branch on: of those without a value that the constraints name which the witness breaks the
// one with the fewest live values.
fn param_to_branch(
    tree: &SearchTree<'_>,
    cells: &Cells,
    sets: &LiveSets,
    witness: &Witness,
) -> ParamNo
    requires at { IsAt tree.now cells.now sets.now witness.now }
    requires broken { BreaksOne tree.now.model witness.now.row }
    ensures { CanBranch tree.now.model cells.now result }
{
    tree.assert_invariant();
    let end = witness.broken.len();
    let first = witness.broken.next_set(1, end).unwrap();
    let mut best = free_member(tree, first, cells).unwrap();
    let mut from = first;
    while let Some(rule) = witness.broken.next_set(from, end) {
        best = fewest_of(tree, rule, best, cells, sets);
        from = rule + 1;
    }
    best
}

// The place of a parameter among those that constraints name.
fn place_of(tree: &SearchTree<'_>, p: ParamNo) -> usize
    requires { is_among (constrained_params tree.now.model) p ≡ true }
    ensures place { result < length (constrained_params tree.now.model) }
    ensures there { constrained_at tree.now.model result ≡ p }
{
    let count = tree.constrained_len();
    for i in 0..count {
        if tree.constrained_at(i).param == p {
            return i;
        }
    }
    0
}

// The place of the parameter to branch on among those that constraints name.
pub(crate) fn place_to_branch(
    tree: &SearchTree<'_>,
    cells: &Cells,
    sets: &LiveSets,
    witness: &Witness,
) -> usize
    requires at { IsAt tree.now cells.now sets.now witness.now }
    requires broken { BreaksOne tree.now.model witness.now.row }
    ensures place { result < length (constrained_params tree.now.model) }
    ensures free { is_assigned cells.now (constrained_at tree.now.model result) ≡ false }
{
    place_of(tree, param_to_branch(tree, cells, sets, witness))
}
