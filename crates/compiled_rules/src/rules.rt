ghost use Rattle.std.specs.Prelude.{◌≡◌, ◌<◌, ◌≤◌, length, IfOk};
ghost use Rattle.cov_model.specs.Fits.{FitsModel};
ghost use Rattle.cov_model.specs.believed.Kleene.{body_truth};
ghost use Rattle.cov_model.specs.believed.Sound.{IsSound};
ghost use Rattle.cov_model.specs.Sound.{rule_at};

use crate::code::{BodyCode, body_truth};
use crate::compile::compile_body;
use crate::table::TruthTable;
use cov_model::{Cells, TestModel, Truth};
use std::alloc::Global;
use std::marker::Model;
use value_text::{NoMemory, OwnedList};

/// The constraints of a model, compiled: what is known of one is told without reading a text, but for
/// comparisons of two parameters with very many pairs of values. Contracts see the model.
#[derive(Drop)]
pub struct CompiledRules<'a> {
    model: &'a TestModel,
    table: TruthTable,
    bodies: OwnedList<BodyCode>,
}

impl<'a> Model for CompiledRules<'a> {
    ghost use Rattle.std.specs.Prelude.{length};
    ghost use Rattle.std.specs.Coded.{codes};
    ghost use Rattle.cov_model.specs.believed.Sound.{ModelView};
    ghost use Rattle.cov_model.specs.contracts.model.TestModel as tested;
    ghost use Rattle.compiled_rules.specs.Codes.{AreBodyCodes};

    ghost Value = { ModelView };

    ghost coded = { Prim.hlevel (codes, tested.the_row.coded) };

    ghost view = { λ a. a.model.now };

    ghost invariant = { λ a. AreBodyCodes a.model.now a.table (length a.model.now.rules) a.bodies };
}

impl<'a> CompiledRules<'a> {
    /// Compiles the constraints of a model.
    ///
    /// # Errors
    ///
    /// `NoMemory` where there is no room, or where the terms have more than 2^32 - 1 truths together, which
    /// those of a model file of 4 MiB don't have.
    pub fn new(alloc: Global, model: &'a TestModel) -> Result<CompiledRules<'a>, NoMemory>
        ensures { IfOk result (λ rules. rules ≡ model.now) }
    {
        let mut room = Cells::empty(alloc, model.params().len())?;
        let mut table = TruthTable::new(alloc)?;
        let mut bodies = OwnedList::new(alloc);
        for rule in model.rules().as_slice() {
            let code = compile_body(alloc, model, &rule.body, &mut room, &mut table)?;
            bodies.push(code)?;
        }
        Ok(CompiledRules {
            model,
            table,
            bodies,
        })
    }

    /// The model whose constraints these are.
    pub fn model(&self) -> &'a TestModel
        ensures value { result.now ≡ self.now }
        ensures sound { IsSound self.now }
    {
        let model = self.model;
        model.assert_invariant();
        model
    }

    /// What is known of the constraint of this number on the cells. Takes no memory.
    pub fn truth(&self, rule: u32, cells: &Cells) -> Truth
        requires first { 0 < rule }
        requires last { rule ≤ length self.now.rules }
        requires fits { FitsModel self.now cells.now }
        ensures { result ≡ body_truth self.now (rule_at self.now rule).body cells.now }
    {
        let code = &self.bodies.as_slice()[rule as usize - 1];
        body_truth(self.model, &self.table, code, cells)
    }
}
