ghost use Rattle.std.specs.Prelude.{if◌then◌else◌, ◌≡◌, ◌≢◌, ◌<◌, ◌≤◌, ◌^◌, Some, Err, true, length, map, IfOk, OnOk, OnErr};
ghost use Rattle.cov_model.specs.Preference.{OrdersValues};
ghost use Rattle.cov_model.specs.believed.Slices.{slice_of};
ghost use Rattle.definitions.specs.believed.Completion.{first_completion, is_extendable};
ghost use Rattle.definitions.specs.believed.Covering.{IsUnserved};
ghost use Rattle.definitions.specs.believed.Demand.{is_among};
ghost use Rattle.cov_model.specs.believed.Tuples.{cells_of};
ghost use Rattle.definitions.specs.believed.Refutation.{is_eager};
ghost use Rattle.definitions.specs.believed.Search.{constrained_params, exceeds, plain_cost};
ghost use Rattle.definitions.specs.SliceRows.{IsOfSlice, IsSliceOf};
ghost use Rattle.definitions.specs.believed.SuiteProof.{HasFewBranches};
ghost use Rattle.feasibility.specs.Refuting.{earlier_tuples};
ghost use Rattle.refutation.specs.believed.Proofs.{format_of};
ghost use Rattle.refutation.specs.Proofs.{meant};
ghost use Rattle.full_search.specs.Questions.{answer_within};

use crate::full::FullSearch;
use crate::search::{Bounded, Search};
use cov_model::{Cells, ParamNo, Prefs, Slice, TestModel, Tuple};
use definitions::Effort;
use feasibility::{Answer, RefuteFault, Solver};
use refutation::{Omissions, TreeBuf};
use std::alloc::Global;
use std::marker::Model;
use value_text::NoMemory;

// The answer of a search that isn't held to a budget.
fn answer_of(found: bool) -> Answer
    ensures { result ≡ (if found then Answer.Yes else Answer.No) }
{
    if found { Answer::Yes } else { Answer::No }
}

/// Tells of partial rows of one slice whether they are extendable, completes them, and refutes tuples
/// that no row serves. What a question may cost decides which search answers (this project's rule).
/// Contracts see the model, the preference orders, the slice and the effort, and no call changes them.
#[derive(Drop)]
pub struct Questions<'a> {
    search: Search<'a>,
}

impl<'a> Model for Questions<'a> {
    ghost use Rattle.std.specs.Coded.{codes};
    ghost use Rattle.cov_model.specs.contracts.model.TestModel as tested;
    ghost use Rattle.full_search.specs.Questions.{QuestionsView, seen};

    ghost Value = { QuestionsView };

    ghost coded = { Prim.hlevel (codes, tested.the_row.coded) };

    ghost view = { λ a. seen a.search };
}

impl<'a> Questions<'a> {
    /// Questions about this slice of the model, which has to be one of the model's; the preferences
    /// have to be the model's too. All room that questions need is taken here.
    ///
    /// # Errors
    ///
    /// `NoMemory` where there is no room.
    pub fn new(
        alloc: Global,
        model: &'a TestModel,
        prefs: &'a Prefs,
        slice: Slice,
        effort: Effort,
    ) -> Result<Questions<'a>, NoMemory>
        requires slice { IsSliceOf model.now slice }
        requires orders { OrdersValues model.now prefs.now }
        ensures { IfOk result (λ questions. questions ≡ record { model = model.now; prefs = prefs.now; slice = slice; effort = effort }) }
    {
        match effort {
            Effort::Within(budget) => {
                let solver = Solver::new(alloc, model, prefs, slice)?;
                Ok(Questions {
                    search: Search::Within(Bounded { solver, budget }),
                })
            }
            Effort::Full => {
                let search = FullSearch::new(alloc, model, prefs, slice)?;
                Ok(Questions {
                    search: Search::Full(search),
                })
            }
        }
    }

    /// What a question may cost. Takes no memory.
    pub fn effort(&self) -> Effort
        ensures { result ≡ self.now.effort }
    {
        match &self.search {
            Search::Within(bounded) => Effort::Within(bounded.budget),
            Search::Full(_) => Effort::Full,
        }
    }

    /// Whether a constraint of the model names a parameter. Takes no memory.
    pub fn is_constrained(&self, p: ParamNo) -> bool
        ensures { result ≡ is_among (constrained_params self.now.model) p }
    {
        match &self.search {
            Search::Within(bounded) => bounded.solver.is_constrained(p),
            Search::Full(search) => search.is_constrained(p),
        }
    }

    /// Whether a partial row of the slice is extendable there. `Spent` exactly where the plain cost of
    /// the question, the number of nodes that plain search visits, is above what a question may cost.
    /// Takes no memory.
    pub fn ask(&mut self, cells: &Cells) -> Answer
        requires { IsOfSlice self.old.model self.old.slice cells.now }
        ensures answer { result ≡ answer_within (is_extendable self.old.model self.old.slice cells.now)
            (plain_cost self.old.model self.old.prefs self.old.slice cells.now) self.old.effort }
        ensures same { self.new ≡ self.old }
    {
        match &mut self.search {
            Search::Within(bounded) => bounded.solver.ask(cells, bounded.budget),
            Search::Full(search) => answer_of(search.decide(cells)),
        }
    }

    /// Completes a partial row of the slice. After `Yes` the other cells are the first of its
    /// completions in preference order that meets every constraint; after `No` and `Spent`, which
    /// come as from `ask`, they are as before. They have to be as long as the partial row. Takes no
    /// memory.
    pub fn complete(&mut self, cells: &Cells, into: &mut Cells) -> Answer
        requires of { IsOfSlice self.old.model self.old.slice cells.now }
        requires long { length into.old ≡ length self.old.model.params }
        ensures answer { result ≡ answer_within (is_extendable self.old.model self.old.slice cells.now)
            (plain_cost self.old.model self.old.prefs self.old.slice cells.now) self.old.effort }
        ensures completed { result ≡ Answer.Yes → Some into.new ≡ first_completion self.old.model self.old.prefs self.old.slice cells.now }
        ensures kept { result ≢ Answer.Yes → into.new ≡ into.old }
        ensures long { length into.new ≡ length into.old }
        ensures same { self.new ≡ self.old }
    {
        match &mut self.search {
            Search::Within(bounded) => bounded.solver.complete(cells, bounded.budget, into),
            Search::Full(search) => answer_of(search.complete(cells, into)),
        }
    }

    /// Refutes a tuple of the slice which no row serves: the tokens become an eager tree after the
    /// tuples of the earlier omissions, in their form. Within a budget it has no more branches than the
    /// plain cost of the tuple. In a negative slice the tuple gives its negative value.
    ///
    /// # Errors
    ///
    /// `Spent` only where the plain cost of the tuple is above what a question may cost, `NoMemory`
    /// where there is no room. The tokens are then as before.
    pub fn refute(
        &mut self,
        tuple: &Tuple,
        earlier: &Omissions,
        into: &mut TreeBuf,
    ) -> Result<(), RefuteFault>
        requires of { IsOfSlice self.old.model self.old.slice (cells_of (length self.old.model.params) tuple.now) }
        requires slice { slice_of self.old.model (cells_of (length self.old.model.params) tuple.now) ≡ self.old.slice }
        requires unserved { IsUnserved self.old.model (cells_of (length self.old.model.params) tuple.now) }
        requires few { length earlier.now.omissions < 2 ^ 32 }
        ensures eager { OnOk result (is_eager self.old.model (format_of earlier.now.form) (earlier_tuples self.old.model earlier.now)
            (cells_of (length self.old.model.params) tuple.now) (map meant into.new) ≡ true) }
        ensures branches { OnOk result (HasFewBranches self.old.effort (map meant into.new)
            (plain_cost self.old.model self.old.prefs self.old.slice (cells_of (length self.old.model.params) tuple.now))) }
        ensures spent { result ≡ Err RefuteFault.Spent → exceeds self.old.effort
            (plain_cost self.old.model self.old.prefs self.old.slice (cells_of (length self.old.model.params) tuple.now)) ≡ true }
        ensures kept { OnErr result (into.new ≡ into.old) }
        ensures same { self.new ≡ self.old }
    {
        match &mut self.search {
            Search::Within(bounded) => bounded.solver.refute(tuple, bounded.budget, earlier, into),
            Search::Full(search) => Ok(search.refute(tuple, earlier, into)?),
        }
    }
}
