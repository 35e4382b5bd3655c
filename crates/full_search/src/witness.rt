ghost use Rattle.std.specs.Prelude.{◌≡◌, ◌<◌, ◌≤◌, true, false, suc, length, slice_index_or, slice_set, [], All, IfOk};
ghost use Rattle.cov_model.specs.Fits.{FitsModel};
ghost use Rattle.definitions.specs.believed.Completion.{meets_rules};
ghost use Rattle.cov_model.specs.believed.Rows.{with_value};
ghost use Rattle.definitions.specs.believed.Demand.{is_among};
ghost use Rattle.definitions.specs.believed.Search.{constrained_params};
ghost use Rattle.feasibility.specs.Live.{AreRules};
ghost use Rattle.feasibility.specs.Tree.{IsListed, constrained_at};
ghost use Rattle.full_search.specs.Reasons.{IsPart};
ghost use Rattle.full_search.specs.Witnesses.{BreaksOne, IsWitness, ListsEach, MarksAnew, is_broken_on};

use bit_table::BitTable;
use cov_model::{Cells, ParamNo, Truth, ValueNo};
use feasibility::SearchTree;
use std::alloc::Global;
use value_text::NoMemory;

// A row of listed values that a search is at, and the numbers of the constraints that it breaks.
#[derive(Drop)]
pub(crate) struct Witness {
    pub(crate) row: Cells,
    pub(crate) broken: BitTable,
}

impl Witness {
    // The row of the first values, where each parameter has one.
    pub(crate) fn new(alloc: Global, tree: &SearchTree<'_>) -> Result<Witness, NoMemory>
        ensures witness { IfOk result (λ witness. ListsEach tree.now.values → IsWitness tree.now witness) }
        ensures long { IfOk result (λ witness. length witness.row ≡ length tree.now.model.params) }
    {
        tree.assert_invariant();
        let model = tree.model();
        let mut row = Cells::empty(alloc, model.params().len())?;
        tree.fill(&mut row);
        let count = model.rules().len() as u32;
        let broken = BitTable::all_set(alloc, count + 1)?;
        let mut witness = Witness { row, broken };
        // no constraint has this number
        witness.broken.clear(0);
        for rule in 1..count + 1 {
            witness.mark_rule(tree, rule);
        }
        Ok(witness)
    }

    // Whether the row meets every constraint.
    pub(crate) fn meets_all(&self, tree: &SearchTree<'_>) -> bool
        requires { IsWitness tree.now self.now }
        ensures meets { result ≡ true → meets_rules tree.now.model self.now.row ≡ true }
        ensures breaks { result ≡ false → BreaksOne tree.now.model self.now.row }
    {
        self.broken.count() == 0
    }

    // Marks a constraint if the row breaks it, else clears its mark.
    fn mark_rule(&mut self, tree: &SearchTree<'_>, rule: u32)
        requires first { 0 < rule }
        requires last { rule ≤ length tree.now.model.rules }
        requires fits { FitsModel tree.now.model self.old.row }
        requires long { length self.old.broken ≡ suc (length tree.now.model.rules) }
        ensures row { self.new.row ≡ self.old.row }
        ensures broken { self.new.broken ≡ slice_set self.old.broken rule (is_broken_on tree.now.model self.old.row rule) }
    {
        if tree.truth(rule, &self.row) == Truth::Yes {
            self.broken.clear(rule);
        } else {
            self.broken.set(rule);
        }
    }

    // Marks anew these constraints.
    fn mark(&mut self, tree: &SearchTree<'_>, rules: &[u16])
        requires exist { AreRules tree.now.model rules.now }
        requires fits { FitsModel tree.now.model self.old.row }
        requires long { length self.old.broken ≡ suc (length tree.now.model.rules) }
        ensures row { self.new.row ≡ self.old.row }
        ensures marks { MarksAnew rules.now (is_broken_on tree.now.model self.old.row) self.old.broken self.new.broken }
    {
        for rule in rules {
            self.mark_rule(tree, *rule as u32);
        }
    }

    // Clears the marks of these constraints.
    fn unmark(&mut self, rules: &[u16])
        requires within { All (λ k. k < length self.old.broken) rules.now }
        ensures row { self.new.row ≡ self.old.row }
        ensures marks { MarksAnew rules.now (λ _. false) self.old.broken self.new.broken }
    {
        for rule in rules {
            self.broken.clear(*rule as u32);
        }
    }

    // Gives the constrained parameter at a place a listed value.
    pub(crate) fn put(&mut self, tree: &SearchTree<'_>, i: usize, v: ValueNo)
        requires witness { IsWitness tree.now self.old }
        requires place { i < length (constrained_params tree.now.model) }
        requires value { is_among (slice_index_or tree.now.values (constrained_at tree.now.model i) []) v ≡ true }
        ensures witness { IsWitness tree.now self.new }
        ensures row { self.new.row ≡ with_value self.old.row (constrained_at tree.now.model i) v }
    {
        tree.assert_invariant();
        let named = tree.constrained_at(i);
        let before = self.row.get(named.param).unwrap();
        if before == v {
            return;
        }
        self.unmark(named.undecided.list(before as usize));
        self.row.set_cell(named.param, v);
        self.mark(tree, named.undecided.list(v as usize));
    }

    // Gives each parameter the value that the cells give it.
    pub(crate) fn put_all(&mut self, tree: &SearchTree<'_>, cells: &Cells)
        requires witness { IsWitness tree.now self.old }
        requires listed { IsListed tree.now.values cells.now }
        ensures witness { IsWitness tree.now self.new }
        ensures part { IsPart cells.now self.new.row }
    {
        tree.assert_invariant();
        let count = tree.constrained_len();
        for i in 0..count {
            let p = tree.constrained_at(i).param;
            if let Some(v) = cells.get(p) {
                self.put(tree, i, v);
            }
        }
        // those that no constraint names get theirs too
        let places = cells.len() as ParamNo;
        for p in 0..places {
            if let Some(v) = cells.get(p) {
                self.row.set_cell(p, v);
            }
        }
    }
}
