ghost use Rattle.std.specs.Prelude.{◌≡◌, ◌<◌, ◌≤◌, ◌^◌, true, None, length, IfSome, MatchOption};
ghost use Rattle.feasibility.specs.Tree.{TreeView};
ghost use Rattle.full_search.specs.Conflicts.{Gives, GivesNone, IsConflict, IsNext};
ghost use Rattle.full_search.specs.Reasons.{HasNoRow};

use cov_model::{Cells, ParamNo, ValueNo};
use feasibility::SearchTree;

// A value of a parameter.
#[derive(Debug, Drop, Clone, Copy, PartialEq, Eq)]
pub(crate) struct Pair {
    pub(crate) param: ParamNo,
    pub(crate) value: ValueNo,
}

// Values of at most three parameters that no row has together. Where they are fewer, one stands again.
#[derive(Debug, Drop, Clone, Copy, PartialEq, Eq)]
pub(crate) struct Conflict {
    pub(crate) first: Pair,
    pub(crate) second: Pair,
    pub(crate) third: Pair,
}

impl Pair {
    // Whether the cells give the parameter the value.
    fn is_in(&self, cells: &Cells) -> bool
        ensures { result ≡ true → Gives cells.now self.now }
    {
        (self.param as usize) < cells.len() && cells.get(self.param) == Some(self.value)
    }
}

// The first value that the cells give a parameter from a number on.
fn next_given(cells: &Cells, from: usize) -> Option<Pair>
    requires few { length cells.now < 2 ^ 16 }
    ensures { MatchOption result (GivesNone cells.now from) (IsNext cells.now from) }
{
    for p in from..cells.len() {
        if let Some(value) = cells.get(p as ParamNo) {
            return Some(Pair {
                param: p as ParamNo,
                value,
            });
        }
    }
    None
}

impl Conflict {
    // Whether the cells have its values.
    pub(crate) fn is_in(&self, cells: &Cells) -> bool
        ensures first { result ≡ true → Gives cells.now self.now.first }
        ensures second { result ≡ true → Gives cells.now self.now.second }
        ensures third { result ≡ true → Gives cells.now self.now.third }
    {
        self.first.is_in(cells) && self.second.is_in(cells) && self.third.is_in(cells)
    }

    // The values of a reason, if they are at most three.
    pub(crate) fn of(tree: &SearchTree<'_>, why: &Cells) -> Option<Conflict>
        requires none { HasNoRow tree.now why.now }
        requires long { length why.now ≡ length tree.now.model.params }
        ensures { IfSome result (IsConflict tree.now) }
    {
        tree.assert_invariant();
        let first = next_given(why, 0)?;
        let Some(second) = next_given(why, first.param as usize + 1) else {
            return Some(Conflict {
                first,
                second: first,
                third: first,
            });
        };
        let Some(third) = next_given(why, second.param as usize + 1) else {
            return Some(Conflict {
                first,
                second,
                third: second,
            });
        };
        match next_given(why, third.param as usize + 1) {
            Some(_) => None,
            None => Some(Conflict {
                first,
                second,
                third,
            }),
        }
    }
}
