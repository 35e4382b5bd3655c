ghost use Rattle.std.specs.Prelude.{◌≡◌, ◌≢◌, ◌<◌, true, false, [], ◌∷◌, length, All, slice_index_or};
ghost use Rattle.std.specs.List.{count_by};
ghost use Rattle.cov_model.specs.believed.Rows.{is_assigned, with_value};
ghost use Rattle.definitions.specs.believed.Demand.{is_among};
ghost use Rattle.definitions.specs.believed.Search.{breaks_a_rule, constrained_params};
ghost use Rattle.live_sets.specs.Trail.{IsSince};
ghost use Rattle.cov_model.specs.Fits.{FitsModel};
ghost use Rattle.feasibility.specs.Descent.{IsNode};
ghost use Rattle.feasibility.specs.Live.{HasShape, HasUnmarked, ShowsFailure};
ghost use Rattle.feasibility.specs.Tree.{IsListed, constrained_at};
ghost use Rattle.full_search.specs.Reasons.{Grows, GrowsBy, HasNoRow, IsPart, IsReason, RefutesEach};
ghost use Rattle.full_search.specs.Searching.{HasRoom, IsAt, SearchTells, TriedTells, free_count};
ghost use Rattle.full_search.specs.Witnesses.{IsWitness};

use crate::branching::place_to_branch;
use crate::reason::{add_dead, add_reason, clear};
use crate::witness::Witness;
use cov_model::{Cells, ParamNo, ValueNo};
use feasibility::SearchTree;
use live_sets::LiveSets;

// What came of a value of the parameter that a node branches on.
#[derive(Debug, Drop, Clone, Copy, PartialEq, Eq)]
pub(crate) enum Tried {
    // A row with it was found.
    Found,
    // There is none, and the reason of the node has grown by that.
    Refuted,
    // There is none, whatever the value: the reason doesn't speak of the parameter.
    Jumped,
}

// The first parameter without a value that has no live value.
pub(crate) fn stuck_param(tree: &SearchTree<'_>, cells: &Cells, sets: &LiveSets) -> ParamNo
    requires long { length cells.now ≡ length tree.now.model.params }
    requires shape { HasShape tree.now.model sets.now.live }
    requires some { HasUnmarked tree.now.model cells.now sets.now.live }
    ensures exists { result < length tree.now.model.params }
    ensures free { is_assigned cells.now result ≡ false }
    ensures unmarked { count_by (λ mark. mark) (slice_index_or sets.now.live result []) ≡ 0 }
{
    tree.assert_invariant();
    let mut q = 0;
    while cells.get(q).is_some() || sets.count(q) > 0 {
        q += 1;
    }
    q
}

// The reason of a path on which no constraint is No and a parameter has no live value, as the sets show.
pub(crate) fn refute_stuck(
    tree: &SearchTree<'_>,
    cells: &mut Cells,
    sets: &LiveSets,
    why: &mut Cells,
)
    requires fits { FitsModel tree.now.model cells.old }
    requires long { length why.old ≡ length cells.old }
    requires unbroken { breaks_a_rule tree.now.model cells.old ≡ false }
    requires shows { ShowsFailure tree.now.model tree.now.values cells.old sets.now }
    ensures reason { IsReason tree.now cells.old why.new }
    ensures same { cells.new ≡ cells.old }
{
    tree.assert_invariant();
    let q = stuck_param(tree, cells, sets);
    clear(why);
    for v in tree.values_of(q) {
        add_dead(tree, q, *v, cells, why);
    }
}

// Searches for a row that contains the path. After true the witness is one; after false the first of the reasons
// is that of the path. Cells and sets are as before.
#[cycle(searches)]
pub(crate) fn search(
    tree: &SearchTree<'_>,
    cells: &mut Cells,
    sets: &mut LiveSets,
    witness: &mut Witness,
    whys: &mut [Cells],
) -> bool
    requires at { IsAt tree.now cells.old sets.old witness.old }
    requires room { HasRoom cells.old whys.old }
    ensures told { SearchTells tree.now cells.old result witness.new whys.old whys.new }
    ensures cells { cells.new ≡ cells.old }
    ensures sets { sets.new ≡ sets.old }
{
    if witness.meets_all(tree) {
        return true;
    }
    let i = place_to_branch(tree, cells, sets, witness);
    branch(tree, i, cells, sets, witness, whys)
}

// The same by the values of the constrained parameter at a place, the witness's first.
#[cycle(searches)]
fn branch(
    tree: &SearchTree<'_>,
    i: usize,
    cells: &mut Cells,
    sets: &mut LiveSets,
    witness: &mut Witness,
    whys: &mut [Cells],
) -> bool
    requires place { i < length (constrained_params tree.now.model) }
    requires free { is_assigned cells.old (constrained_at tree.now.model i) ≡ false }
    requires at { IsAt tree.now cells.old sets.old witness.old }
    requires room { HasRoom cells.old whys.old }
    ensures told { SearchTells tree.now cells.old result witness.new whys.old whys.new }
    ensures cells { cells.new ≡ cells.old }
    ensures sets { sets.new ≡ sets.old }
{
    tree.assert_invariant();
    let p = tree.constrained_at(i).param;
    let (own, below) = whys.split_at_mut(1);
    let why = &mut own[0];
    clear(why);
    let at_hand = witness.row.get(p).unwrap();
    match try_value(tree, i, at_hand, cells, sets, witness, why, below) {
        Tried::Found => return true,
        Tried::Jumped => return false,
        Tried::Refuted => {}
    }
    for v in tree.values_of(p) {
        if *v != at_hand {
            match try_value(tree, i, *v, cells, sets, witness, why, below) {
                Tried::Found => return true,
                Tried::Jumped => return false,
                Tried::Refuted => {}
            }
        }
    }
    false
}

// Tries a value of the constrained parameter at a place.
#[cycle(searches)]
fn try_value(
    tree: &SearchTree<'_>,
    i: usize,
    v: ValueNo,
    cells: &mut Cells,
    sets: &mut LiveSets,
    witness: &mut Witness,
    why: &mut Cells,
    below: &mut [Cells],
) -> Tried
    requires place { i < length (constrained_params tree.now.model) }
    requires free { is_assigned cells.old (constrained_at tree.now.model i) ≡ false }
    requires value { is_among (slice_index_or tree.now.values (constrained_at tree.now.model i) []) v ≡ true }
    requires at { IsAt tree.now cells.old sets.old witness.old }
    requires room { HasRoom (with_value cells.old (constrained_at tree.now.model i) v) below.old }
    requires grows { Grows cells.old (constrained_at tree.now.model i) why.old why.old }
    ensures told { TriedTells tree.now cells.old (constrained_at tree.now.model i) v result witness.new why.old why.new below.old below.new }
    ensures cells { cells.new ≡ cells.old }
    ensures sets { sets.new ≡ sets.old }
{
    tree.assert_invariant();
    let p = tree.constrained_at(i).param;
    if !sets.is_live(p, v) {
        add_dead(tree, p, v, cells, why);
        return Tried::Refuted;
    }
    let len = sets.trail_len();
    witness.put(tree, i, v);
    let found = enter(tree, i, v, cells, sets, witness, below);
    sets.undo(len);
    cells.clear_cell(p);
    if found {
        return Tried::Found;
    }
    let reason = &below[0];
    if reason.get(p).is_none() {
        why.copy_from(reason);
        return Tried::Jumped;
    }
    add_reason(tree, p, v, cells, reason, why);
    Tried::Refuted
}

// Searches for a row that contains the path with a live value more, which the witness has. The cells have this
// value then, and values were taken away.
#[cycle(searches)]
fn enter(
    tree: &SearchTree<'_>,
    i: usize,
    v: ValueNo,
    cells: &mut Cells,
    sets: &mut LiveSets,
    witness: &mut Witness,
    whys: &mut [Cells],
) -> bool
    requires place { i < length (constrained_params tree.now.model) }
    requires free { is_assigned cells.old (constrained_at tree.now.model i) ≡ false }
    requires value { is_among (slice_index_or tree.now.values (constrained_at tree.now.model i) []) v ≡ true }
    requires node { IsNode tree.now cells.old sets.old }
    requires listed { IsListed tree.now.values cells.old }
    requires kept { IsWitness tree.now witness.old }
    requires part { IsPart (with_value cells.old (constrained_at tree.now.model i) v) witness.old.row }
    requires unbroken { breaks_a_rule tree.now.model (with_value cells.old (constrained_at tree.now.model i) v) ≡ false }
    requires room { HasRoom (with_value cells.old (constrained_at tree.now.model i) v) whys.old }
    ensures told { SearchTells tree.now (with_value cells.old (constrained_at tree.now.model i) v) result witness.new whys.old whys.new }
    ensures cells { cells.new ≡ with_value cells.old (constrained_at tree.now.model i) v }
    ensures since { IsSince sets.old sets.new }
{
    tree.assert_invariant();
    if tree.enter(i, v, cells, sets) {
        return search(tree, cells, sets, witness, whys);
    }
    refute_stuck(tree, cells, sets, &mut whys[0]);
    false
}
