ghost use Rattle.std.specs.Prelude.{◌≡◌, ◌<◌, ◌≤◌, true, false, [], ◌∷◌, All, MatchOption, OnSome, length, map, take};
ghost use Rattle.cov_model.specs.Fits.{FitsModel};
ghost use Rattle.cov_model.specs.believed.Meaning.{value_at};
ghost use Rattle.cov_model.specs.believed.Rows.{contains, is_assigned, with_value};
ghost use Rattle.cov_model.specs.believed.Sound.{param_at};
ghost use Rattle.cov_model.specs.believed.Tuples.{cells_of};
ghost use Rattle.definitions.specs.believed.Refutation.{is_negative_leaf, refutes};
ghost use Rattle.refutation.specs.Checking.{AreOfModel, BeginsWithTrees, LacksTrees, tuple_in, tuples_of};
ghost use Rattle.refutation.specs.believed.Proofs.{format_of};
ghost use Rattle.refutation.specs.Proofs.{meant};

use crate::checker::TreeChecker;
use crate::omissions::Omissions;
use crate::token::TreeToken;
use crate::tree_check::TreeCheck;
use cov_model::{Cells, ParamNo, TestModel, Tuple, ValueNo};

// The rest behind a token, where that is a leaf.
fn rest_if(is_leaf: bool, rest: &[TreeToken]) -> Option<&[TreeToken]>
    ensures { MatchOption result (is_leaf ≡ false) (λ behind. (is_leaf ≡ true) × (behind.now ≡ rest.now)) }
{
    if is_leaf { Some(rest) } else { None }
}

impl<'a> TreeCheck<'a> {
    // The cells become the tuple.
    fn begin(&self, path: &mut Cells)
        requires { length path.old ≡ length self.now.model.params }
        ensures tuple { path.new ≡ tuple_in self.now }
        ensures fits { FitsModel self.now.model path.new }
        ensures part { contains path.new (tuple_in self.now) ≡ true }
        ensures outside { is_negative_leaf self.now.model (tuple_in self.now) path.new ≡ false }
    {
        // Only the proof uses them: it hears here that the model is sound.
        let _params = self.model().params();
        path.copy_tuple(self.tuple());
    }

    // What stands behind the tree for a path at the front of the tokens; `None` where there is no such
    // tree. Branches on the path so far gave it negative values exactly if `outside` is set.
    #[cycle(trees)]
    fn after_tree<'t>(
        &self,
        tokens: &'t [TreeToken],
        path: &mut Cells,
        outside: bool,
    ) -> Option<&'t [TreeToken]>
        requires fits { FitsModel self.now.model path.old }
        requires part { contains path.old (tuple_in self.now) ≡ true }
        requires outside { outside ≡ is_negative_leaf self.now.model (tuple_in self.now) path.old }
        ensures rest { MatchOption result (LacksTrees self.now (path.old ∷ []) tokens.now) (λ rest. BeginsWithTrees self.now (path.old ∷ []) tokens.now rest.now) }
        ensures same { OnSome result (path.new ≡ path.old) }
        ensures long { length path.new ≡ length path.old }
    {
        let [token, rest @ ..] = tokens else {
            return None;
        };
        match *token {
            TreeToken::Branch(p) => self.after_branch(p, rest, path, outside),
            TreeToken::ByRule(rule) => rest_if(self.is_rule_leaf(rule, path), rest),
            TreeToken::ByNegative => rest_if(outside, rest),
            TreeToken::ByOmission(number) => rest_if(self.is_omission_leaf(number, path), rest),
        }
    }

    // The same of a tree that begins with a branch on a parameter, given the tokens behind that.
    #[cycle(trees)]
    fn after_branch<'t>(
        &self,
        p: ParamNo,
        tokens: &'t [TreeToken],
        path: &mut Cells,
        outside: bool,
    ) -> Option<&'t [TreeToken]>
        requires fits { FitsModel self.now.model path.old }
        requires part { contains path.old (tuple_in self.now) ≡ true }
        requires outside { outside ≡ is_negative_leaf self.now.model (tuple_in self.now) path.old }
        ensures rest { MatchOption result (LacksTrees self.now (path.old ∷ []) (TreeToken.Branch p ∷ tokens.now))
            (λ rest. BeginsWithTrees self.now (path.old ∷ []) (TreeToken.Branch p ∷ tokens.now) rest.now) }
        ensures same { OnSome result (path.new ≡ path.old) }
        ensures long { length path.new ≡ length path.old }
    {
        if !self.is_branch(p, path) {
            return None;
        }
        let model = self.model();
        let mut rest = tokens;
        for v in 0..model.value_count(p) {
            let negative = model.is_negative(p, v);
            rest = self.after_child(p, v, negative, rest, path, outside)?;
        }
        Some(rest)
    }

    // The same of the tree for a path with one more value, which is negative or not.
    #[cycle(trees)]
    fn after_child<'t>(
        &self,
        p: ParamNo,
        v: ValueNo,
        negative: bool,
        tokens: &'t [TreeToken],
        path: &mut Cells,
        outside: bool,
    ) -> Option<&'t [TreeToken]>
        requires parameter { p < length self.now.model.params }
        requires value { v < length (param_at self.now.model.params p).values }
        requires negative { negative ≡ (value_at self.now.model p v).negative }
        requires free { is_assigned path.old p ≡ false }
        requires fits { FitsModel self.now.model path.old }
        requires part { contains path.old (tuple_in self.now) ≡ true }
        requires outside { outside ≡ is_negative_leaf self.now.model (tuple_in self.now) path.old }
        ensures rest { MatchOption result (LacksTrees self.now (with_value path.old p v ∷ []) tokens.now) (λ rest. BeginsWithTrees self.now (with_value path.old p v ∷ []) tokens.now rest.now) }
        ensures same { OnSome result (path.new ≡ path.old) }
        ensures long { length path.new ≡ length path.old }
    {
        path.set_cell(p, v);
        let rest = self.after_tree(tokens, path, outside | negative)?;
        path.clear_cell(p);
        Some(rest)
    }
}

impl<'a> TreeChecker<'a> {
    /// Whether the tokens of a tree refute a tuple after the first `before` omissions of a proof, in its
    /// format (this project's rule; the trees are those of a search). The tuples have to be of the model,
    /// and the scratch cells as many as its parameters; of the tokens nothing is asked. Takes no memory.
    pub fn refutes(
        &self,
        tuple: &Tuple,
        tree: &[TreeToken],
        earlier: &Omissions,
        before: u32,
        scratch: &mut Cells,
    ) -> bool
        requires within { before ≤ length earlier.now.omissions }
        requires tuple { AreOfModel self.now tuple.now }
        requires earlier { All (λ omission. AreOfModel self.now omission.tuple) earlier.now.omissions }
        requires long { length scratch.old ≡ length self.now.params }
        ensures refutes { result ≡ refutes self.now (format_of earlier.now.form) (tuples_of self.now (take before earlier.now.omissions))
            (cells_of (length self.now.params) tuple.now) (map meant tree.now) }
        ensures long { length scratch.new ≡ length scratch.old }
    {
        let check = TreeCheck::new(self, tuple, earlier, before);
        check.begin(scratch);
        match check.after_tree(tree, scratch, false) {
            Some(rest) => rest.is_empty(),
            None => false,
        }
    }
}

/// Whether the tokens of a tree refute a tuple after the first `before` omissions of a proof, as
/// `TreeChecker::refutes` tells. Takes no memory.
pub fn tree_ok(
    model: &TestModel,
    tuple: &Tuple,
    tree: &[TreeToken],
    earlier: &Omissions,
    before: u32,
    scratch: &mut Cells,
) -> bool
    requires within { before ≤ length earlier.now.omissions }
    requires tuple { AreOfModel model.now tuple.now }
    requires earlier { All (λ omission. AreOfModel model.now omission.tuple) earlier.now.omissions }
    requires long { length scratch.old ≡ length model.now.params }
    ensures refutes { result ≡ refutes model.now (format_of earlier.now.form) (tuples_of model.now (take before earlier.now.omissions))
        (cells_of (length model.now.params) tuple.now) (map meant tree.now) }
    ensures long { length scratch.new ≡ length scratch.old }
{
    TreeChecker::plain(model).refutes(tuple, tree, earlier, before, scratch)
}
