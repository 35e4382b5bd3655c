ghost use Rattle.std.specs.Prelude.{◌≡◌, ◌<◌, ◌≤◌, true, All, IfSome, is_some, length, if◌then◌else◌};
ghost use Rattle.value_text.specs.believed.Numbers.{is_number, number_of};
ghost use Rattle.cov_model.specs.Views.{body_view, pred_view, preds_in};
ghost use Rattle.cov_model.specs.believed.Sound.{IsLiteralOf, IsSoundBody, IsSoundPred, IsSoundTerm, param_at, first_name};
ghost use Rattle.cov_model.specs.Sound.{rule_at};
ghost use Rattle.cov_model.specs.believed.Rows.{is_assigned};
ghost use Rattle.cov_model.specs.Fits.{FitsModel};
ghost use Rattle.cov_model.specs.believed.Meaning.{given_value, literal_order, number_in, operand_of};
ghost use Rattle.cov_model.specs.believed.Kleene.{term_truth, pred_truth, all_truth, any_truth, body_truth};

use crate::cells::Cells;
use crate::constraint::{Body, Literal, Pred, Rel, Term};
use crate::model::TestModel;
use crate::parameter::{Param, ParamNo, Value};
use crate::truth::Truth;
use std::cmp::Ordering;
use value_text::{Fixed, FixedAnswer, like, order_text, read_fixed};

// The number that the first name of a numeric parameter's value spells.
fn number_at(name: &str) -> Fixed
    requires { is_number name.now ≡ true }
    ensures { result ≡ number_in (number_of name.now) }
{
    match read_fixed(name) {
        FixedAnswer::Number(number) => number,
        FixedAnswer::NotNumber | FixedAnswer::TooWide => unreachable!(),
    }
}

// The order of a value's first name and a literal.
fn order_to_literal(param: &Param, name: &str, literal: &Literal, fold: bool) -> Ordering
    requires number { param.now.numeric ≡ true → is_number name.now ≡ true }
    requires literal { IsLiteralOf param.now literal.now }
    ensures { result ≡ literal_order fold (operand_of param.now.numeric name.now) literal.now }
{
    match literal {
        Literal::Number(number) => number_at(name).cmp(number),
        Literal::Words(words) => order_text(name, words.as_str(), fold),
    }
}

// The order of the first names of two values.
fn order_of_names(numeric: bool, left: &str, right: &str, fold: bool) -> Ordering
    requires left { numeric ≡ true → is_number left.now ≡ true }
    requires right { numeric ≡ true → is_number right.now ≡ true }
    ensures { result ≡ literal_order fold (operand_of numeric left.now) (operand_of numeric right.now) }
{
    if numeric {
        number_at(left).cmp(&number_at(right))
    } else {
        order_text(left, right, fold)
    }
}

// The first name of a value.
fn name_of(value: &Value) -> &str
    requires { 0 < length value.now.names }
    ensures { result.now ≡ first_name value.now }
{
    value.names.as_slice()[0].as_str()
}

impl TestModel {
    // The value that the cells give a parameter.
    pub(crate) fn given(&self, p: ParamNo, cells: &Cells) -> Option<&Value>
        requires parameter { p < length self.now.params }
        requires fits { FitsModel self.now cells.now }
        ensures assigned { is_some result ≡ is_assigned cells.now p }
        ensures value { IfSome result (λ value. value.now ≡ given_value self.now cells.now p) }
        ensures named { IfSome result (λ value. 0 < length value.now.names) }
        ensures number { IfSome result (λ value. (param_at self.now.params p).numeric ≡ true → is_number (first_name value.now) ≡ true) }
    {
        match cells.get(p) {
            Some(v) => Some(self.value(p, v)),
            None => None,
        }
    }

    // What is known of a comparison with a literal.
    fn value_is(&self, p: ParamNo, rel: Rel, literal: &Literal, cells: &Cells) -> Truth
        requires sound { IsSoundTerm self.now.params (Term.ValueIs p rel literal.now) }
        requires fits { FitsModel self.now cells.now }
        ensures { result ≡ term_truth self.now (Term.ValueIs p rel literal.now) cells.now }
    {
        let Some(value) = self.given(p, cells) else {
            return Truth::Unknown;
        };
        let param = self.param(p);
        let order = order_to_literal(param, name_of(value), literal, self.fold());
        Truth::of(rel.holds(order))
    }

    // What is known of a comparison of two parameters.
    fn param_is(&self, p: ParamNo, rel: Rel, q: ParamNo, cells: &Cells) -> Truth
        requires sound { IsSoundTerm self.now.params (Term.ParamIs p rel q) }
        requires fits { FitsModel self.now cells.now }
        ensures { result ≡ term_truth self.now (Term.ParamIs p rel q) cells.now }
    {
        let Some(left) = self.given(p, cells) else {
            return Truth::Unknown;
        };
        let Some(right) = self.given(q, cells) else {
            return Truth::Unknown;
        };
        let numeric = self.param(p).numeric;
        let order = order_of_names(numeric, name_of(left), name_of(right), self.fold());
        Truth::of(rel.holds(order))
    }

    // What is known of a pattern.
    fn matches(&self, p: ParamNo, pattern: &str, cells: &Cells) -> Truth
        requires parameter { p < length self.now.params }
        requires fits { FitsModel self.now cells.now }
        ensures { result ≡ term_truth self.now (Term.Like p pattern.now) cells.now }
    {
        match self.given(p, cells) {
            Some(value) => Truth::of(like(pattern, name_of(value), self.fold())),
            None => Truth::Unknown,
        }
    }

    // What is known of a value's sign: of its being negative, or of its not being so.
    fn sign(&self, p: ParamNo, negative: bool, cells: &Cells) -> Truth
        requires parameter { p < length self.now.params }
        requires fits { FitsModel self.now cells.now }
        ensures { result ≡ term_truth self.now (if negative then Term.Negative p else Term.Positive p) cells.now }
    {
        match self.given(p, cells) {
            Some(value) => Truth::of(value.negative == negative),
            None => Truth::Unknown,
        }
    }

    // What is known of an IN list: Yes where the value equals one of the literals.
    fn one_of(&self, p: ParamNo, literals: &[Literal], cells: &Cells) -> Truth
        requires sound { IsSoundTerm self.now.params (Term.OneOf p literals.now) }
        requires fits { FitsModel self.now cells.now }
        ensures { result ≡ term_truth self.now (Term.OneOf p literals.now) cells.now }
    {
        let Some(value) = self.given(p, cells) else {
            return Truth::Unknown;
        };
        let param = self.param(p);
        let name = name_of(value);
        for literal in literals {
            if order_to_literal(param, name, literal, self.fold()).is_eq() {
                return Truth::Yes;
            }
        }
        Truth::No
    }

    /// What is known of a term. Takes no memory.
    pub fn term_truth(&self, term: &Term, cells: &Cells) -> Truth
        requires sound { IsSoundTerm self.now.params term.now }
        requires fits { FitsModel self.now cells.now }
        ensures { result ≡ term_truth self.now term.now cells.now }
    {
        match term {
            Term::ValueIs(p, rel, literal) => self.value_is(*p, *rel, literal, cells),
            Term::ParamIs(p, rel, q) => self.param_is(*p, *rel, *q, cells),
            Term::OneOf(p, literals) => self.one_of(*p, literals.as_slice(), cells),
            Term::Like(p, pattern) => self.matches(*p, pattern.as_str(), cells),
            Term::Negative(p) => self.sign(*p, true, cells),
            Term::Positive(p) => self.sign(*p, false, cells),
        }
    }

    // What is known of a predicate.
    #[cycle(eval)]
    fn pred_truth(&self, pred: &Pred, cells: &Cells) -> Truth
        requires sound { IsSoundPred self.now.params (pred_view pred.now) }
        requires fits { FitsModel self.now cells.now }
        ensures { result ≡ pred_truth self.now (pred_view pred.now) cells.now }
    {
        match pred {
            Pred::Term(term) => self.term_truth(term, cells),
            Pred::Not(inner) => self.pred_truth(inner, cells).negated(),
            Pred::All(parts) => self.all_truth(parts.as_slice(), cells),
            Pred::Any(parts) => self.any_truth(parts.as_slice(), cells),
        }
    }

    // What is known of a list of predicates: that each holds.
    #[cycle(eval)]
    fn all_truth(&self, parts: &[Pred], cells: &Cells) -> Truth
        requires sound { All (λ part. IsSoundPred self.now.params (pred_view part)) parts.now }
        requires fits { FitsModel self.now cells.now }
        ensures { result ≡ all_truth self.now (preds_in parts.now) cells.now }
    {
        let mut so_far = Truth::Yes;
        for part in parts {
            so_far = so_far.and(self.pred_truth(part, cells));
            if so_far == Truth::No {
                return Truth::No;
            }
        }
        so_far
    }

    // What is known of a list of predicates: that some of them holds.
    #[cycle(eval)]
    fn any_truth(&self, parts: &[Pred], cells: &Cells) -> Truth
        requires sound { All (λ part. IsSoundPred self.now.params (pred_view part)) parts.now }
        requires fits { FitsModel self.now cells.now }
        ensures { result ≡ any_truth self.now (preds_in parts.now) cells.now }
    {
        let mut so_far = Truth::No;
        for part in parts {
            so_far = so_far.or(self.pred_truth(part, cells));
            if so_far == Truth::Yes {
                return Truth::Yes;
            }
        }
        so_far
    }

    // What is known of a constraint.
    pub(crate) fn body_truth(&self, body: &Body, cells: &Cells) -> Truth
        requires sound { IsSoundBody self.now.params (body_view body.now) }
        requires fits { FitsModel self.now cells.now }
        ensures { result ≡ body_truth self.now (body_view body.now) cells.now }
    {
        match body {
            Body::Plain(pred) => self.pred_truth(pred, cells),
            Body::IfThen(premise, pred) => match self.pred_truth(premise, cells) {
                Truth::No => Truth::Yes,
                met => met.negated().or(self.pred_truth(pred, cells)),
            },
            Body::IfElse(premise, pred, other) => match self.pred_truth(premise, cells) {
                Truth::Yes => self.pred_truth(pred, cells),
                Truth::No => self.pred_truth(other, cells),
                Truth::Unknown => {
                    let first = Truth::Unknown.or(self.pred_truth(pred, cells));
                    first.and(Truth::Unknown.or(self.pred_truth(other, cells)))
                }
            },
        }
    }

    /// What is known of the constraint of this number on the cells: Kleene's three values over
    /// terms that are unknown until their parameters are assigned (PICT's guide). Takes no memory.
    pub fn eval(&self, rule: u32, cells: &Cells) -> Truth
        requires first { 0 < rule }
        requires last { rule ≤ length self.now.rules }
        requires fits { FitsModel self.now cells.now }
        ensures { result ≡ body_truth self.now (rule_at self.now rule).body cells.now }
    {
        self.body_truth(&self.rules().as_slice()[rule as usize - 1].body, cells)
    }
}
