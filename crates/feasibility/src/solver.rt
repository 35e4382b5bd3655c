ghost use Rattle.std.specs.Prelude.{◌≡◌, ◌≢◌, Some, length, IfOk};
ghost use Rattle.cov_model.specs.Preference.{OrdersValues};
ghost use Rattle.definitions.specs.believed.Completion.{first_completion, is_extendable};
ghost use Rattle.definitions.specs.believed.Demand.{is_among};
ghost use Rattle.definitions.specs.believed.Search.{constrained_params, plain_cost};
ghost use Rattle.feasibility.specs.Answers.{answer_of};
ghost use Rattle.definitions.specs.SliceRows.{IsOfSlice, IsSliceOf};

use crate::answer::Answer;
use crate::answer_table::AnswerTable;
use crate::kept_tree::KeptTree;
use crate::tree::SearchTree;
use crate::workspace::Workspace;
use cov_model::{Cells, ParamNo, Prefs, Slice, TestModel};
use live_sets::LiveSets;
use std::alloc::Global;
use std::marker::Model;
use value_text::NoMemory;

/// Tells of partial rows of one slice whether they are extendable, and completes them. The search
/// is the plain one: it looks one value ahead and has a budget of nodes (this project's rule).
/// Contracts see the model, the preference orders and the slice, and no call changes them.
#[derive(Drop)]
pub struct Solver<'a> {
    pub(crate) alloc: Global,
    pub(crate) tree: SearchTree<'a>,
    pub(crate) prefs: &'a Prefs,
    pub(crate) slice: Slice,
    pub(crate) room: Cells,
    pub(crate) sets: LiveSets,
    pub(crate) fails: bool,
    pub(crate) answered: AnswerTable,
    pub(crate) kept: KeptTree,
}

impl<'a> Model for Solver<'a> {
    ghost use Rattle.std.specs.Coded.{codes};
    ghost use Rattle.cov_model.specs.contracts.model.TestModel as tested;
    ghost use Rattle.feasibility.specs.KeptTrees.{IsKeptTree};
    ghost use Rattle.feasibility.specs.Recurring.{AreAnswered};
    ghost use Rattle.feasibility.specs.Solving.{IsSolver, SolverView};

    ghost Value = { SolverView };

    ghost coded = { Prim.hlevel (codes, tested.the_row.coded) };

    ghost view = { λ a. record { model = a.tree.model; prefs = a.prefs.now; slice = a.slice } };

    ghost invariant = { λ a. IsSolver (record { model = a.tree.model; prefs = a.prefs.now; slice = a.slice }) a.tree.values a.room a.fails a.sets
        × AreAnswered a.tree.model a.tree.values a.answered × IsKeptTree a.tree.model a.tree.values a.kept };
}

impl<'a> Solver<'a> {
    /// A solver for this slice of the model, which has to be one of the model's; the preferences
    /// have to be the model's too. All room that questions need is taken here.
    ///
    /// # Errors
    ///
    /// `NoMemory` where there is no room.
    pub fn new(
        alloc: Global,
        model: &'a TestModel,
        prefs: &'a Prefs,
        slice: Slice,
    ) -> Result<Solver<'a>, NoMemory>
        requires slice { IsSliceOf model.now slice }
        requires orders { OrdersValues model.now prefs.now }
        ensures { IfOk result (λ solver. solver ≡ record { model = model.now; prefs = prefs.now; slice = slice }) }
    {
        let tree = SearchTree::new(alloc, model, prefs, slice)?;
        let Workspace {
            room,
            sets,
            fails,
            answered,
            kept,
        } = Workspace::new(alloc, &tree)?;
        Ok(Solver {
            alloc,
            tree,
            prefs,
            slice,
            room,
            sets,
            fails,
            answered,
            kept,
        })
    }

    /// Whether a constraint of the model names a parameter. Takes no memory.
    pub fn is_constrained(&self, p: ParamNo) -> bool
        ensures { result ≡ is_among (constrained_params self.now.model) p }
    {
        self.tree.is_constrained(p)
    }

    /// Whether a partial row of the slice is extendable there. `Spent` exactly where the plain cost
    /// of the question, the number of nodes that plain search visits, exceeds the budget. Takes no
    /// memory.
    pub fn ask(&mut self, cells: &Cells, budget: u64) -> Answer
        requires { IsOfSlice self.old.model self.old.slice cells.now }
        ensures answer { result ≡ answer_of (is_extendable self.old.model self.old.slice cells.now) (plain_cost self.old.model self.old.prefs self.old.slice cells.now) budget }
        ensures same { self.new ≡ self.old }
    {
        self.tree.ask_and_keep(
            self.fails,
            cells,
            &mut self.room,
            &mut self.sets,
            &mut self.answered,
            budget,
        )
    }

    /// Completes a partial row of the slice. After `Yes` the other cells are the first of its
    /// completions in preference order that meets every constraint; after `No` and `Spent`, which
    /// come as from `ask`, they are as before. They have to be as long as the partial row. Takes no
    /// memory.
    pub fn complete(&mut self, cells: &Cells, budget: u64, into: &mut Cells) -> Answer
        requires of { IsOfSlice self.old.model self.old.slice cells.now }
        requires long { length into.old ≡ length self.old.model.params }
        ensures answer { result ≡ answer_of (is_extendable self.old.model self.old.slice cells.now) (plain_cost self.old.model self.old.prefs self.old.slice cells.now) budget }
        ensures completed { result ≡ Answer.Yes → Some into.new ≡ first_completion self.old.model self.old.prefs self.old.slice cells.now }
        ensures kept { result ≢ Answer.Yes → into.new ≡ into.old }
        ensures long { length into.new ≡ length into.old }
        ensures same { self.new ≡ self.old }
    {
        match self.tree.search(
            self.fails,
            cells,
            &mut self.room,
            &mut self.sets,
            &self.answered,
            budget,
        ) {
            Answer::Yes => {
                into.copy_from(&self.room);
                self.tree.fill(into);
                Answer::Yes
            }
            Answer::No => Answer::No,
            Answer::Spent => Answer::Spent,
        }
    }
}
