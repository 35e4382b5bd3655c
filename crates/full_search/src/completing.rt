ghost use Rattle.std.specs.Prelude.{Some, ◌≡◌, ℕ, ◌<◌, ◌+◌, true, false, [], length, All, slice_index_or};
ghost use Rattle.cov_model.specs.believed.Rows.{is_assigned, with_value};
ghost use Rattle.definitions.specs.believed.Demand.{is_among};
ghost use Rattle.definitions.specs.believed.Search.{constrained_params};
ghost use Rattle.live_sets.specs.Trail.{IsSince};
ghost use Rattle.feasibility.specs.Solving.{IsReady};
ghost use Rattle.feasibility.specs.Tree.{IsListed, constrained_at};
ghost use Rattle.full_search.specs.Completing.{HasRow, IsSettled, first_row};
ghost use Rattle.full_search.specs.FullSearch.{HasReasons};
ghost use Rattle.full_search.specs.Reasons.{HasNoRow, IsPart, IsRowFor};
ghost use Rattle.full_search.specs.Searching.{HasRoom};
ghost use Rattle.full_search.specs.Witnesses.{IsWitness};

use crate::searching::search;
use crate::witness::Witness;
use cov_model::{Cells, ValueNo};
use feasibility::SearchTree;
use live_sets::LiveSets;

// Whether the path, which the witness is a row for, has one with a value of the constrained parameter at a place,
// which has none. If so, the cells have the value, and the witness is such a row; else all is as before.
fn holds_with(
    tree: &SearchTree<'_>,
    i: usize,
    v: ValueNo,
    cells: &mut Cells,
    sets: &mut LiveSets,
    witness: &mut Witness,
    saved: &mut Cells,
    whys: &mut [Cells],
) -> bool
    requires place { i < length (constrained_params tree.now.model) }
    requires free { is_assigned cells.old (constrained_at tree.now.model i) ≡ false }
    requires value { is_among (slice_index_or tree.now.values (constrained_at tree.now.model i) []) v ≡ true }
    requires row { HasRow tree.now cells.old sets.old witness.old }
    requires saved { length saved.old ≡ length cells.old }
    requires room { HasRoom cells.old whys.old }
    ensures yes { result ≡ true → cells.new ≡ with_value cells.old (constrained_at tree.now.model i) v }
    ensures no { result ≡ false → HasNoRow tree.now (with_value cells.old (constrained_at tree.now.model i) v) }
    ensures same { result ≡ false → cells.new ≡ cells.old }
    ensures sets { result ≡ false → sets.new ≡ sets.old }
    ensures row { HasRow tree.now cells.new sets.new witness.new }
    ensures since { IsSince sets.old sets.new }
    ensures saved { length saved.new ≡ length saved.old }
    ensures room { HasRoom cells.old whys.new }
{
    tree.assert_invariant();
    let p = tree.constrained_at(i).param;
    if !sets.is_live(p, v) {
        return false;
    }
    if witness.row.get(p) == Some(v) {
        let _fine = tree.enter(i, v, cells, sets);
        return true;
    }
    saved.copy_from(&witness.row);
    let len = sets.trail_len();
    witness.put(tree, i, v);
    if tree.enter(i, v, cells, sets) && search(tree, cells, sets, witness, whys) {
        return true;
    }
    sets.undo(len);
    cells.clear_cell(p);
    witness.put_all(tree, saved);
    false
}

// Gives the constrained parameter at a place, if it has no value, the first one with which the path has a row.
fn settle(
    tree: &SearchTree<'_>,
    i: usize,
    cells: &mut Cells,
    sets: &mut LiveSets,
    witness: &mut Witness,
    saved: &mut Cells,
    whys: &mut [Cells],
)
    requires place { i < length (constrained_params tree.now.model) }
    requires given { (j : ℕ) → j < i → is_assigned cells.old (constrained_at tree.now.model j) ≡ true }
    requires row { HasRow tree.now cells.old sets.old witness.old }
    requires saved { length saved.old ≡ length cells.old }
    requires room { HasRoom cells.old whys.old }
    ensures settled { IsSettled tree.now (i + 1) cells.old cells.new }
    ensures row { HasRow tree.now cells.new sets.new witness.new }
    ensures since { IsSince sets.old sets.new }
    ensures saved { length saved.new ≡ length saved.old }
    ensures room { HasRoom cells.new whys.new }
{
    tree.assert_invariant();
    let p = tree.constrained_at(i).param;
    if cells.get(p).is_some() {
        return;
    }
    for v in tree.values_of(p) {
        if holds_with(tree, i, *v, cells, sets, witness, saved, whys) {
            return;
        }
    }
}

// Gives each constrained parameter without a value the one that it has in the first row of the path.
fn settle_each(
    tree: &SearchTree<'_>,
    cells: &mut Cells,
    sets: &mut LiveSets,
    witness: &mut Witness,
    saved: &mut Cells,
    whys: &mut [Cells],
)
    requires row { HasRow tree.now cells.old sets.old witness.old }
    requires saved { length saved.old ≡ length cells.old }
    requires room { HasRoom cells.old whys.old }
    ensures settled { IsSettled tree.now (length (constrained_params tree.now.model)) cells.old cells.new }
    ensures row { HasRow tree.now cells.new sets.new witness.new }
    ensures since { IsSince sets.old sets.new }
    ensures saved { length saved.new ≡ length saved.old }
    ensures room { HasRoom cells.new whys.new }
{
    let count = tree.constrained_len();
    for i in 0..count {
        settle(tree, i, cells, sets, witness, saved, whys);
    }
}

// The other cells become the first row of listed values that contains the cells and meets every constraint, given
// that the witness is such a row.
pub(crate) fn complete_row(
    tree: &SearchTree<'_>,
    cells: &Cells,
    into: &mut Cells,
    sets: &mut LiveSets,
    witness: &mut Witness,
    saved: &mut Cells,
    whys: &mut [Cells],
)
    requires listed { IsListed tree.now.values cells.now }
    requires ready { IsReady tree.now.model tree.now.values false sets.old }
    requires kept { IsWitness tree.now witness.old }
    requires row { IsRowFor tree.now cells.now witness.old.row }
    requires part { IsPart cells.now witness.old.row }
    requires long { length into.old ≡ length cells.now }
    requires saved { length saved.old ≡ length cells.now }
    requires reasons { HasReasons tree.now.model whys.old }
    ensures completed { Some into.new ≡ first_row tree.now cells.now }
    ensures long { length into.new ≡ length into.old }
    ensures kept { IsWitness tree.now witness.new }
    ensures saved { length saved.new ≡ length saved.old }
    ensures reasons { HasReasons tree.now.model whys.new }
    ensures sets { sets.new ≡ sets.old }
{
    tree.assert_invariant();
    let len = sets.trail_len();
    into.copy_from(cells);
    let _fine = tree.start(into, sets);
    settle_each(tree, into, sets, witness, saved, whys);
    sets.undo(len);
    tree.fill(into);
}
