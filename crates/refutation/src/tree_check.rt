ghost use Rattle.std.specs.Prelude.{◌≡◌, ◌<◌, ◌≤◌, ◌||◌, All, IfSome, length, not, option_map, take};
ghost use Rattle.std.specs.List.{list_all};
ghost use Rattle.cov_model.specs.Fits.{FitsModel};
ghost use Rattle.cov_model.specs.believed.Kleene.{body_truth};
ghost use Rattle.cov_model.specs.believed.Meaning.{value_at};
ghost use Rattle.cov_model.specs.believed.Rows.{is_assigned};
ghost use Rattle.cov_model.specs.believed.Sound.{IsSound, ModelView};
ghost use Rattle.cov_model.specs.Sound.{rule_at};
ghost use Rattle.cov_model.specs.believed.Valid.{negatives};
ghost use Rattle.cov_model.specs.believed.Tuples.{cells_of};
ghost use Rattle.definitions.specs.believed.Refutation.{earlier_tuple, is_branch, is_omission_leaf, is_rule_leaf};
ghost use Rattle.definitions.specs.believed.Search.{is_no};
ghost use Rattle.refutation.specs.Checking.{AreOfModel, earlier_in, has_param, has_rule, tuple_in, tuples_of};
ghost use Rattle.refutation.specs.believed.Proofs.{format_of};

use crate::checker::TreeChecker;
use crate::omissions::{Omission, Omissions, ProofForm};
use cov_model::{Cells, ParamNo, TestModel, Tuple, ValueNo};
use std::marker::Model;

/// What a tree is checked against: a model, the form of the proof, the omissions that may be cited,
/// and the tuple that the tree has to refute.
#[derive(Drop)]
pub(crate) struct TreeCheck<'a> {
    checker: &'a TreeChecker<'a>,
    form: ProofForm,
    earlier: &'a [Omission],
    tuple: &'a Tuple,
}

impl<'a> Model for TreeCheck<'a> {
    ghost use Rattle.std.specs.Coded.{codes};
    ghost use Rattle.cov_model.specs.contracts.model.TestModel as tested;
    ghost use Rattle.refutation.specs.Checking.{CheckView, IsCheck};

    ghost Value = { CheckView };

    ghost coded = { Prim.hlevel (codes, tested.the_row.coded) };

    ghost view = { λ a. record { model = a.checker.now; form = a.form; earlier = a.earlier.now; tuple = a.tuple.now } };

    ghost invariant = { λ a. IsCheck (record { model = a.checker.now; form = a.form; earlier = a.earlier.now; tuple = a.tuple.now }) };
}

// Whether there is a constraint of this number.
pub(crate) fn has_rule(model: &TestModel, rule: u32) -> bool
    ensures value { result ≡ has_rule model.now rule }
    ensures sound { IsSound model.now }
{
    let count = model.rules().len();
    rule != 0 && rule as usize <= count
}

// The tuple of the omission of this number, counted from 1.
fn cited(omissions: &[Omission], number: u32) -> Option<&Tuple>
    ensures tuple { (m : ModelView) → option_map (λ tuple. cells_of (length m.params) tuple.now) result ≡ earlier_tuple (tuples_of m omissions.now) number }
    ensures of_model { (m : ModelView) → All (λ omission. AreOfModel m omission.tuple) omissions.now → IfSome result (λ tuple. AreOfModel m tuple.now) }
{
    if number == 0 {
        return None;
    }
    match omissions.get(number as usize - 1) {
        Some(omission) => Some(&omission.tuple),
        None => None,
    }
}

impl<'a> TreeCheck<'a> {
    // What a tree for the tuple is checked against, behind the first `before` of the earlier omissions.
    pub(crate) fn new(
        checker: &'a TreeChecker<'a>,
        tuple: &'a Tuple,
        earlier: &'a Omissions,
        before: u32,
    ) -> TreeCheck<'a>
        requires within { before ≤ length earlier.now.omissions }
        requires tuple { AreOfModel checker.now tuple.now }
        requires earlier { All (λ omission. AreOfModel checker.now omission.tuple) earlier.now.omissions }
        ensures { result ≡ record { model = checker.now; form = earlier.now.form; earlier = take before earlier.now.omissions; tuple = tuple.now } }
    {
        TreeCheck {
            checker,
            form: earlier.form(),
            earlier: &earlier.as_slice()[..before as usize],
            tuple,
        }
    }

    // The model.
    pub(crate) fn model(&self) -> &'a TestModel
        ensures { result.now ≡ self.now.model }
    {
        self.checker.model()
    }

    // The form of the proof.
    fn form(&self) -> ProofForm
        ensures { result ≡ self.now.form }
    {
        self.form
    }

    // The tuple that the tree has to refute.
    pub(crate) fn tuple(&self) -> &'a Tuple
        ensures value { result.now ≡ self.now.tuple }
        ensures of_model { AreOfModel self.now.model self.now.tuple }
    {
        self.tuple
    }

    // The omissions that may be cited, where the form allows it.
    fn earlier(&self) -> &'a [Omission]
        ensures value { result.now ≡ self.now.earlier }
        ensures of_model { All (λ omission. AreOfModel self.now.model omission.tuple) self.now.earlier }
    {
        self.earlier
    }

    // Whether the parameter exists and has no value on the path.
    pub(crate) fn is_branch(&self, p: ParamNo, path: &Cells) -> bool
        requires { length path.now ≡ length self.now.model.params }
        ensures { result ≡ is_branch self.now.model path.now p }
    {
        (p as usize) < self.model().params().len() && path.get(p).is_none()
    }

    // Whether the constraint of this number is No on the path.
    fn is_no(&self, rule: u32, path: &Cells) -> bool
        requires first { 0 < rule }
        requires last { rule ≤ length self.now.model.rules }
        requires fits { FitsModel self.now.model path.now }
        ensures { result ≡ is_no (body_truth self.now.model (rule_at self.now.model rule).body path.now) }
    {
        self.checker.is_no(rule, path)
    }

    // Whether the constraint of this number exists and is No on the path.
    pub(crate) fn is_rule_leaf(&self, rule: u32, path: &Cells) -> bool
        requires { FitsModel self.now.model path.now }
        ensures { result ≡ is_rule_leaf self.now.model path.now rule }
    {
        has_rule(self.model(), rule) && self.is_no(rule, path)
    }

    // Whether each parameter with a negative value in the tuple has a value in the other.
    fn has_negatives(&self, other: &Tuple) -> bool
        requires { AreOfModel self.now.model other.now }
        ensures { result ≡ list_all (is_assigned (cells_of (length self.now.model.params) other.now)) (negatives self.now.model (tuple_in self.now)) }
    {
        self.are_in(self.tuple().as_slice(), other)
    }

    // Whether each of the pairs is positive or has a parameter of the other tuple.
    fn are_in(&self, pairs: &[(ParamNo, ValueNo)], other: &Tuple) -> bool
        requires { AreOfModel self.now.model pairs.now }
        ensures { result ≡ list_all (λ pair. not (value_at self.now.model pair.0 pair.1).negative || has_param other.now pair.0) pairs.now }
    {
        let model = self.model();
        pairs.iter().all(|pair| !model.is_negative(pair.0, pair.1) || other.has_param(pair.0))
    }

    // Whether the path has the earlier tuple of this number, counted from 1, and this tuple each
    // parameter with a negative value.
    pub(crate) fn is_omission_leaf(&self, number: u32, path: &Cells) -> bool
        requires { length path.now ≡ length self.now.model.params }
        ensures { result ≡ is_omission_leaf self.now.model (format_of self.now.form) (earlier_in self.now) (tuple_in self.now) path.now number }
    {
        if !self.form().may_cite() {
            return false;
        }
        match cited(self.earlier(), number) {
            Some(other) => path.contains(other) && self.has_negatives(other),
            None => false,
        }
    }
}
