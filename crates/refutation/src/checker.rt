ghost use Rattle.std.specs.Prelude.{◌≡◌, ◌<◌, ◌≤◌, length, IfOk};
ghost use Rattle.cov_model.specs.Fits.{FitsModel};
ghost use Rattle.cov_model.specs.believed.Kleene.{body_truth};
ghost use Rattle.cov_model.specs.Sound.{rule_at};
ghost use Rattle.definitions.specs.believed.Search.{is_no};

use crate::omissions::Omissions;
use crate::table_size::table_size;
use crate::token::TreeToken;
use compiled_rules::CompiledRules;
use cov_model::{Cells, TestModel, Truth};
use std::alloc::Global;
use std::marker::Model;
use value_text::NoMemory;

/// What the trees of a proof are checked with: a model, and its constraints compiled where that pays. Contracts see
/// the model.
#[derive(Drop)]
pub struct TreeChecker<'a> {
    model: &'a TestModel,
    compiled: Option<CompiledRules<'a>>,
}

impl<'a> Model for TreeChecker<'a> {
    ghost use Rattle.std.specs.Prelude.{◌≡◌, IfSome};
    ghost use Rattle.std.specs.Coded.{codes};
    ghost use Rattle.cov_model.specs.believed.Sound.{ModelView};
    ghost use Rattle.cov_model.specs.contracts.model.TestModel as tested;

    ghost Value = { ModelView };

    ghost coded = { Prim.hlevel (codes, tested.the_row.coded) };

    ghost view = { λ a. a.model.now };

    ghost invariant = { λ a. IfSome a.compiled (λ rules. rules ≡ a.model.now) };
}

// Whether a token is a leaf by a constraint.
fn is_by_rule(token: TreeToken) -> bool {
    match token {
        TreeToken::ByRule(_) => true,
        TreeToken::Branch(_) | TreeToken::ByNegative | TreeToken::ByOmission(_) => false,
    }
}

// How many leaves of a tree are by constraints.
fn count_in(tree: &[TreeToken]) -> usize {
    tree.iter().filter(|token| is_by_rule(**token)).count()
}

// Whether the trees of a proof have at least so many leaves by constraints.
fn has_leaves(proof: &Omissions, least: u64) -> bool {
    let mut count: u64 = 0;
    for omission in proof.as_slice() {
        if count >= least {
            return true;
        }
        count = count.saturating_add(count_in(omission.tree.as_slice()) as u64);
    }
    count >= least
}

impl<'a> TreeChecker<'a> {
    // A checker that compiles nothing.
    pub(crate) fn plain(model: &'a TestModel) -> TreeChecker<'a>
        ensures { result ≡ model.now }
    {
        TreeChecker {
            model,
            compiled: None,
        }
    }

    // A checker with the constraints compiled.
    fn with_table(alloc: Global, model: &'a TestModel) -> Result<TreeChecker<'a>, NoMemory>
        ensures { IfOk result (λ checker. checker ≡ model.now) }
    {
        let rules = CompiledRules::new(alloc, model)?;
        Ok(TreeChecker {
            model,
            compiled: Some(rules),
        })
    }

    /// A checker for trees of a model as those of the proof. The constraints are compiled where their table has at
    /// most as many truths as the proof has leaves by constraints: then making it takes about as long at most as the
    /// leaves would without it, and it needs less memory than the tokens. The comparison of two parameters alone may
    /// have 16 million truths.
    ///
    /// # Errors
    ///
    /// `NoMemory` where there is no room for the table.
    pub fn new(
        alloc: Global,
        model: &'a TestModel,
        proof: &Omissions,
    ) -> Result<TreeChecker<'a>, NoMemory>
        ensures { IfOk result (λ checker. checker ≡ model.now) }
    {
        if has_leaves(proof, table_size(model)) {
            TreeChecker::with_table(alloc, model)
        } else {
            Ok(TreeChecker::plain(model))
        }
    }

    // The model.
    pub(crate) fn model(&self) -> &'a TestModel
        ensures { result.now ≡ self.now }
    {
        self.model
    }

    // Whether the constraint of this number is No on the path.
    pub(crate) fn is_no(&self, rule: u32, path: &Cells) -> bool
        requires first { 0 < rule }
        requires last { rule ≤ length self.now.rules }
        requires fits { FitsModel self.now path.now }
        ensures { result ≡ is_no (body_truth self.now (rule_at self.now rule).body path.now) }
    {
        match &self.compiled {
            Some(rules) => rules.truth(rule, path) == Truth::No,
            None => self.model.eval(rule, path) == Truth::No,
        }
    }
}
