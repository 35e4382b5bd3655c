ghost use Rattle.std.specs.Prelude.{◌≡◌, ◌<◌, ◌≤◌, true, false, Err, length, IfOk, OnOk};
ghost use Rattle.cov_model.specs.Fits.{FitsModel};
ghost use Rattle.definitions.specs.believed.Search.{constrained_params, is_failing, visit};
ghost use Rattle.feasibility.specs.KeptTrees.{IsKeptTree, IsTreeFor};
ghost use Rattle.feasibility.specs.Recurring.{AreAnswered};
ghost use Rattle.feasibility.specs.Solving.{IsReady};
ghost use Rattle.feasibility.specs.Tree.{IsListed, no_values};

use crate::answer::{Answer, RefuteFault};
use crate::answer_table::AnswerTable;
use crate::kept_tree::KeptTree;
use crate::refuter::Refuter;
use cov_model::Cells;
use live_sets::LiveSets;
use refutation::{ProofForm, TreeBuf};
use std::alloc::Global;
use value_text::NoMemory;

impl<'t> Refuter<'t> {
    // Makes the tree of the tuple, of which the cells are a copy, and keeps it if it is one in format 1.
    fn make_tree(
        &self,
        alloc: Global,
        fails: bool,
        cells: &mut Cells,
        sets: &mut LiveSets,
        kept: &mut KeptTree,
    ) -> Result<TreeBuf, NoMemory>
        requires tuple { cells.old ≡ self.now.tuple }
        requires fits { FitsModel self.now.model self.now.tuple }
        requires listed { IsListed self.now.lists self.now.tuple }
        requires ready { IsReady self.now.model self.now.lists fails sets.old }
        requires unfound { (visit self.now.model self.now.lists (constrained_params self.now.model) self.now.tuple).found ≡ false }
        requires kept { IsKeptTree self.now.model self.now.lists kept.old }
        ensures tree { IfOk result (IsTreeFor self.now) }
        ensures cells { cells.new ≡ self.now.tuple }
        ensures sets { sets.new ≡ sets.old }
        ensures kept { IsKeptTree self.now.model self.now.lists kept.new }
    {
        let mut tokens = TreeBuf::new(alloc);
        self.close_tuple(fails, cells, sets, &mut tokens)?;
        match self.omissions().form() {
            ProofForm::One => {
                let tree = tokens.shareable(alloc)?;
                kept.keep(alloc, cells, &tree)?;
                Ok(tree)
            }
            ProofForm::Two => Ok(tokens),
        }
    }

    // Whether the tree that is kept refutes the tuple, of which the cells are a copy, in a proof in format 1.
    fn can_reuse_in_form_one(&self, cells: &Cells, kept: &KeptTree) -> bool
        requires tuple { cells.now ≡ self.now.tuple }
        requires fits { FitsModel self.now.model self.now.tuple }
        requires form { self.now.format ≡ 1 }
        requires node { is_failing self.now.model self.now.lists (no_values self.now.model) ≡ false }
        requires kept { IsKeptTree self.now.model self.now.lists kept.now }
        ensures { result ≡ true → IsTreeFor self.now kept.now.tree }
    {
        self.assert_invariant();
        if !kept.known || !self.tree().agree_on_named(&kept.cells, cells) {
            return false;
        }
        kept.branches_freely(cells)
    }

    // The same in a proof of the form asked for: trees are only kept for format 1.
    fn can_reuse(&self, cells: &Cells, kept: &KeptTree) -> bool
        requires tuple { cells.now ≡ self.now.tuple }
        requires fits { FitsModel self.now.model self.now.tuple }
        requires node { is_failing self.now.model self.now.lists (no_values self.now.model) ≡ false }
        requires kept { IsKeptTree self.now.model self.now.lists kept.now }
        ensures { result ≡ true → IsTreeFor self.now kept.now.tree }
    {
        match self.omissions().form() {
            ProofForm::One => self.can_reuse_in_form_one(cells, kept),
            ProofForm::Two => false,
        }
    }

    // A tree of the tuple, if a search of it, which finds nothing, keeps to the budget: that of the tuple
    // before, where it refutes this one too.
    pub(crate) fn tree_of(
        &self,
        alloc: Global,
        fails: bool,
        budget: u64,
        cells: &mut Cells,
        sets: &mut LiveSets,
        table: &AnswerTable,
        kept: &mut KeptTree,
    ) -> Result<TreeBuf, RefuteFault>
        requires long { length cells.old ≡ length self.now.model.params }
        requires fits { FitsModel self.now.model self.now.tuple }
        requires listed { IsListed self.now.lists self.now.tuple }
        requires ready { IsReady self.now.model self.now.lists fails sets.old }
        requires answered { AreAnswered self.now.model self.now.lists table.now }
        requires unfound { (visit self.now.model self.now.lists (constrained_params self.now.model) self.now.tuple).found ≡ false }
        requires kept { IsKeptTree self.now.model self.now.lists kept.old }
        ensures tree { IfOk result (IsTreeFor self.now) }
        ensures within { OnOk result ((visit self.now.model self.now.lists (constrained_params self.now.model) self.now.tuple).cost ≤ budget) }
        ensures spent { result ≡ Err RefuteFault.Spent → budget < (visit self.now.model self.now.lists (constrained_params self.now.model) self.now.tuple).cost }
        ensures long { length cells.new ≡ length cells.old }
        ensures sets { sets.new ≡ sets.old }
        ensures kept { IsKeptTree self.now.model self.now.lists kept.new }
    {
        self.begin(cells);
        if let Answer::Spent = self.tree().search_from(fails, cells, sets, table, budget) {
            return Err(RefuteFault::Spent);
        }
        if !fails && self.can_reuse(cells, kept) {
            return Ok(kept.tree.copy(alloc)?);
        }
        Ok(self.make_tree(alloc, fails, cells, sets, kept)?)
    }
}
