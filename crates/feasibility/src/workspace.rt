ghost use Rattle.std.specs.Prelude.{◌≡◌, ◌<◌, length, IfOk};
ghost use Rattle.feasibility.specs.KeptTrees.{IsKeptTree};
ghost use Rattle.feasibility.specs.Recurring.{AreAnswered};
ghost use Rattle.feasibility.specs.Solving.{IsReady};

use crate::answer_table::AnswerTable;
use crate::kept_tree::KeptTree;
use crate::tree::SearchTree;
use cov_model::Cells;
use live_sets::LiveSets;
use std::alloc::Global;
use value_text::NoMemory;

// How many answered questions a solver keeps where few parameters are named by constraints, so that
// questions recur: a prime number, by which their places differ.
const MANY_PLACES: usize = 251;

// How many parameters are few.
const FEW_NAMED: usize = 12;

// As many questions, and no more, may each have a place of their own.
const MOST_PLACES: usize = 4096;

// In how many ways a question can give values to the parameters that constraints name: each has one of
// its values or none. `usize::MAX` where there are more.
fn kinds_of_questions(tree: &SearchTree) -> usize
    ensures { 0 < result }
{
    tree.assert_invariant();
    let mut kinds = 1usize;
    let count = tree.constrained_len();
    for i in 0..count {
        let p = tree.constrained_at(i).param;
        kinds = kinds.saturating_mul(tree.count_of(p) as usize + 1);
    }
    kinds
}

// How many answered questions a solver keeps that looks at this tree.
fn places_for(tree: &SearchTree) -> usize
    ensures { 0 < result }
{
    let kinds = kinds_of_questions(tree);
    if kinds <= MOST_PLACES {
        kinds
    } else if tree.constrained_len() <= FEW_NAMED {
        MANY_PLACES
    } else {
        1
    }
}

// What a solver works in beside its tree.
#[derive(Drop)]
pub(crate) struct Workspace {
    // Room for a partial row.
    pub(crate) room: Cells,
    // The values that are live where no parameter has a value, or why that node fails.
    pub(crate) sets: LiveSets,
    // Whether it fails.
    pub(crate) fails: bool,
    // Questions that were answered.
    pub(crate) answered: AnswerTable,
    // The tree that was made last.
    pub(crate) kept: KeptTree,
}

impl Workspace {
    // All room that questions about a tree need, before the first.
    pub(crate) fn new(alloc: Global, tree: &SearchTree) -> Result<Workspace, NoMemory>
        ensures room { IfOk result (λ space. length space.room ≡ length tree.now.model.params) }
        ensures ready { IfOk result (λ space. IsReady tree.now.model tree.now.values space.fails space.sets) }
        ensures answered { IfOk result (λ space. AreAnswered tree.now.model tree.now.values space.answered) }
        ensures kept { IfOk result (λ space. IsKeptTree tree.now.model tree.now.values space.kept) }
    {
        let count = tree.model().params().len();
        let kept = KeptTree::none(alloc, count)?;
        let answered = AnswerTable::new(alloc, places_for(tree), count)?;
        let mut room = Cells::empty(alloc, count)?;
        let mut sets = tree.listed_sets(alloc)?;
        let fails = tree.begin(&mut room, &mut sets);
        Ok(Workspace {
            room,
            sets,
            fails,
            answered,
            kept,
        })
    }
}
