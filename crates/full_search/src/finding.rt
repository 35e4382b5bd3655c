ghost use Rattle.std.specs.Prelude.{◌≡◌, true, false, [], length, slice_index_or};
ghost use Rattle.live_sets.specs.Trail.{IsSince};
ghost use Rattle.feasibility.specs.Solving.{IsReady};
ghost use Rattle.feasibility.specs.Tree.{IsListed};
ghost use Rattle.full_search.specs.Conflicts.{AreKept};
ghost use Rattle.full_search.specs.FullSearch.{HasReasons};
ghost use Rattle.full_search.specs.Reasons.{HasNoRow, IsPart, IsReason, IsRowFor};
ghost use Rattle.full_search.specs.Witnesses.{IsWitness};

use crate::conflicts::Conflicts;
use crate::failing::refute_failing;
use crate::searching::search;
use crate::witness::Witness;
use cov_model::Cells;
use feasibility::SearchTree;
use live_sets::LiveSets;

// Searches for a row that contains the cells, from the values that are live where no parameter has a value. After
// false the first of the reasons is that of the cells. Values were taken away then.
fn search_from(
    tree: &SearchTree<'_>,
    cells: &mut Cells,
    sets: &mut LiveSets,
    witness: &mut Witness,
    whys: &mut [Cells],
) -> bool
    requires listed { IsListed tree.now.values cells.old }
    requires ready { IsReady tree.now.model tree.now.values false sets.old }
    requires kept { IsWitness tree.now witness.old }
    requires part { IsPart cells.old witness.old.row }
    requires reasons { HasReasons tree.now.model whys.old }
    ensures yes { result ≡ true → IsRowFor tree.now cells.old witness.new.row }
    ensures reason { result ≡ false → IsReason tree.now cells.old (slice_index_or whys.new 0 []) }
    ensures kept { IsWitness tree.now witness.new }
    ensures part { IsPart cells.old witness.new.row }
    ensures reasons { HasReasons tree.now.model whys.new }
    ensures cells { cells.new ≡ cells.old }
    ensures since { IsSince sets.old sets.new }
{
    tree.assert_invariant();
    if !tree.start(cells, sets) {
        refute_failing(tree, cells, sets, &mut whys[0]);
        return false;
    }
    search(tree, cells, sets, witness, whys)
}

// Whether some row contains the cells, given whether the node without values fails. After true the witness is one.
// A reason that is found is kept, so that what it rules out isn't searched again.
pub(crate) fn find_row(
    tree: &SearchTree<'_>,
    fails: bool,
    cells: &Cells,
    room: &mut Cells,
    sets: &mut LiveSets,
    witness: &mut Witness,
    whys: &mut [Cells],
    conflicts: &mut Conflicts,
) -> bool
    requires listed { IsListed tree.now.values cells.now }
    requires ready { IsReady tree.now.model tree.now.values fails sets.old }
    requires kept { fails ≡ false → IsWitness tree.now witness.old }
    requires long { length room.old ≡ length cells.now }
    requires reasons { HasReasons tree.now.model whys.old }
    requires conflicts { AreKept tree.now conflicts.old }
    ensures fine { result ≡ true → fails ≡ false }
    ensures yes { result ≡ true → IsRowFor tree.now cells.now witness.new.row }
    ensures part { result ≡ true → IsPart cells.now witness.new.row }
    ensures no { result ≡ false → HasNoRow tree.now cells.now }
    ensures kept { fails ≡ false → IsWitness tree.now witness.new }
    ensures long { length room.new ≡ length room.old }
    ensures conflicts { AreKept tree.now conflicts.new }
    ensures reasons { HasReasons tree.now.model whys.new }
    ensures sets { sets.new ≡ sets.old }
{
    tree.assert_invariant();
    if fails {
        return false;
    }
    if conflicts.meets_last(tree, cells) {
        return false;
    }
    witness.put_all(tree, cells);
    if witness.meets_all(tree) {
        return true;
    }
    // most rows are found above, and the conflicts of all their values would take as long
    if conflicts.rule_out(tree, cells) {
        return false;
    }
    room.copy_from(cells);
    let len = sets.trail_len();
    let found = search_from(tree, room, sets, witness, whys);
    sets.undo(len);
    if !found {
        conflicts.keep(tree, &whys[0]);
    }
    found
}
