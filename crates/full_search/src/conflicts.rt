ghost use Rattle.std.specs.Prelude.{◌≡◌, ◌≤◌, true, length, IfOk, IfSome};
ghost use Rattle.full_search.specs.Conflicts.{AreKept, RulesOut};
ghost use Rattle.full_search.specs.Reasons.{HasNoRow};
ghost use Rattle.feasibility.specs.Tree.{TreeView};

use crate::conflict::Conflict;
use cov_model::{Cells, ParamNo, ValueNo};
use feasibility::SearchTree;
use std::alloc::Global;
use value_text::NoMemory;

// How many values have slots of their own, more or less: a power of 2.
const BUCKETS: usize = 1024;

// How many conflicts are kept under one value.
const WAYS: usize = 4;

// Conflicts that were met, each kept under its last value. A later one takes the place of another where there is no
// slot left, and is forgotten where that can't be: what is kept only saves searches.
#[derive(Drop)]
pub(crate) struct Conflicts {
    pub(crate) slots: Vec<Option<Conflict>>,
    // The one that was met last: growth asks of one tuple with many rows, one after another.
    pub(crate) last: Option<Conflict>,
}

// The first slot of a value of a parameter.
fn slot_of(p: ParamNo, v: ValueNo) -> usize
    ensures { result ≤ 4092 }
{
    (p as usize * 37 + v as usize) % BUCKETS * WAYS
}

impl Conflicts {
    // Room for conflicts, of which none is known.
    pub(crate) fn new(alloc: Global) -> Result<Conflicts, NoMemory>
        ensures { IfOk result (λ conflicts. (tree : TreeView) → AreKept tree conflicts) }
    {
        let slots = vec![in alloc; None; BUCKETS * WAYS]?;
        Ok(Conflicts { slots, last: None })
    }

    // One that is kept under this value and has values of the cells alone.
    fn met_under(
        &self,
        tree: &SearchTree<'_>,
        p: ParamNo,
        v: ValueNo,
        cells: &Cells,
    ) -> Option<Conflict>
        requires kept { AreKept tree.now self.now }
        ensures { IfSome result (RulesOut tree.now cells.now) }
    {
        let _ = tree;
        let start = slot_of(p, v);
        for k in 0..WAYS {
            match self.slots.get(start + k) {
                Some(Some(conflict)) => {
                    if conflict.is_in(cells) {
                        return Some(*conflict);
                    }
                }
                _ => return None,
            }
        }
        None
    }

    // Whether the one that was met last has values of the cells alone.
    pub(crate) fn meets_last(&self, tree: &SearchTree<'_>, cells: &Cells) -> bool
        requires kept { AreKept tree.now self.now }
        ensures { result ≡ true → HasNoRow tree.now cells.now }
    {
        let _ = tree;
        match &self.last {
            Some(conflict) => conflict.is_in(cells),
            None => false,
        }
    }

    // Whether one that is kept has values of the cells alone: then no row contains them. That which is met becomes the
    // last.
    pub(crate) fn rule_out(&mut self, tree: &SearchTree<'_>, cells: &Cells) -> bool
        requires kept { AreKept tree.now self.old }
        requires long { length cells.now ≡ length tree.now.model.params }
        ensures none { result ≡ true → HasNoRow tree.now cells.now }
        ensures kept { AreKept tree.now self.new }
    {
        tree.assert_invariant();
        let count = tree.constrained_len();
        for i in 0..count {
            let p = tree.constrained_at(i).param;
            if let Some(v) = cells.get(p) {
                if let Some(conflict) = self.met_under(tree, p, v, cells) {
                    self.last = Some(conflict);
                    return true;
                }
            }
        }
        false
    }

    // Keeps a reason, if it has at most three values.
    pub(crate) fn keep(&mut self, tree: &SearchTree<'_>, why: &Cells)
        requires none { HasNoRow tree.now why.now }
        requires long { length why.now ≡ length tree.now.model.params }
        requires kept { AreKept tree.now self.old }
        ensures { AreKept tree.now self.new }
    {
        let Some(conflict) = Conflict::of(tree, why) else {
            return;
        };
        let place = self.free_slot(slot_of(conflict.third.param, conflict.third.value));
        if let Some(slot) = self.slots.get_mut(place) {
            *slot = Some(conflict);
        }
        self.last = Some(conflict);
    }

    // The first of the slots from one on that has no conflict, or the last of them.
    fn free_slot(&self, start: usize) -> usize
        requires { start ≤ 4092 }
    {
        for k in 0..WAYS {
            if !self.is_taken(start + k) {
                return start + k;
            }
        }
        start + WAYS - 1
    }

    // Whether a slot has a conflict.
    fn is_taken(&self, place: usize) -> bool {
        match self.slots.get(place) {
            Some(slot) => slot.is_some(),
            None => false,
        }
    }
}
