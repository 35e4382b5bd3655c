ghost use Rattle.std.specs.Prelude.{◌≡◌, IfOk};
ghost use Rattle.cov_model.specs.believed.Views.{Each, End, More, Negated};
ghost use Rattle.cov_model.specs.Views.{body_view, pred_view, preds_in};
ghost use Rattle.model_lint.specs.Changes.{changed_body};

use crate::change::Change;
use cov_model::{Body, Literal, LiteralList, Pred, PredList, Term};
use std::alloc::Global;
use value_text::{NoMemory, OwnedList, Text};

/// A copy of a literal.
///
/// # Errors
///
/// `NoMemory` where memory is refused.
pub fn copy_literal(alloc: Global, literal: &Literal) -> Result<Literal, NoMemory>
    ensures { IfOk result (λ copy. copy ≡ literal.now) }
{
    match literal {
        Literal::Number(number) => Ok(Literal::Number(*number)),
        Literal::Words(text) => Ok(Literal::Words(Text::copy(alloc, text.as_str())?)),
    }
}

// A copy of a list of literals.
fn copy_literals(alloc: Global, literals: &[Literal]) -> Result<LiteralList, NoMemory>
    ensures { IfOk result (λ copies. copies ≡ literals.now) }
{
    let mut copies = OwnedList::new(alloc);
    for literal in literals {
        copies.push(copy_literal(alloc, literal)?)?;
    }
    Ok(copies)
}

// A copy of a term.
fn copy_term(alloc: Global, term: &Term) -> Result<Term, NoMemory>
    ensures { IfOk result (λ copy. copy ≡ term.now) }
{
    match term {
        Term::ValueIs(p, rel, literal) => {
            Ok(Term::ValueIs(*p, *rel, copy_literal(alloc, literal)?))
        }
        Term::ParamIs(p, rel, q) => Ok(Term::ParamIs(*p, *rel, *q)),
        Term::OneOf(p, literals) => {
            Ok(Term::OneOf(*p, copy_literals(alloc, literals.as_slice())?))
        }
        Term::Like(p, pattern) => Ok(Term::Like(*p, Text::copy(alloc, pattern.as_str())?)),
        Term::Negative(p) => Ok(Term::Negative(*p)),
        Term::Positive(p) => Ok(Term::Positive(*p)),
    }
}

// The negation of a predicate.
fn negated(alloc: Global, pred: Pred) -> Result<Pred, NoMemory>
    ensures { IfOk result (λ inverse. pred_view inverse ≡ Negated (pred_view pred)) }
{
    Ok(Pred::Not(Box::new(alloc, pred)?))
}

// A copy of a predicate.
#[cycle(copy)]
fn copy_pred(alloc: Global, pred: &Pred) -> Result<Pred, NoMemory>
    ensures { IfOk result (λ copy. pred_view copy ≡ pred_view pred.now) }
{
    match pred {
        Pred::Term(term) => Ok(Pred::Term(copy_term(alloc, term)?)),
        Pred::Not(inner) => negated(alloc, copy_pred(alloc, inner)?),
        Pred::All(parts) => Ok(Pred::All(copy_preds(alloc, parts.as_slice())?)),
        Pred::Any(parts) => Ok(Pred::Any(copy_preds(alloc, parts.as_slice())?)),
    }
}

// A copy of a list of predicates.
#[cycle(copy)]
fn copy_preds(alloc: Global, parts: &[Pred]) -> Result<PredList, NoMemory>
    ensures { IfOk result (λ copies. preds_in copies ≡ preds_in parts.now) }
{
    let mut copies = OwnedList::new(alloc);
    for part in parts {
        copies.push(copy_pred(alloc, part)?)?;
    }
    Ok(copies)
}

// That both predicates hold.
fn both(alloc: Global, first: Pred, second: Pred) -> Result<Pred, NoMemory>
    ensures { IfOk result (λ pred. pred_view pred ≡ Each (More (pred_view first) (More (pred_view second) End))) }
{
    let mut parts = OwnedList::new(alloc);
    parts.push(first)?;
    parts.push(second)?;
    Ok(Pred::All(parts))
}

// What holds on every row.
fn always(alloc: Global) -> Pred
    ensures { pred_view result ≡ Each End }
{
    Pred::All(OwnedList::new(alloc))
}

// A copy of what a constraint demands.
fn copy_body(alloc: Global, body: &Body) -> Result<Body, NoMemory>
    ensures { IfOk result (λ copy. body_view copy ≡ body_view body.now) }
{
    match body {
        Body::Plain(pred) => Ok(Body::Plain(copy_pred(alloc, pred)?)),
        Body::IfThen(premise, pred) => {
            let premise = copy_pred(alloc, premise)?;
            Ok(Body::IfThen(premise, copy_pred(alloc, pred)?))
        }
        Body::IfElse(premise, pred, other) => {
            let premise = copy_pred(alloc, premise)?;
            let pred = copy_pred(alloc, pred)?;
            Ok(Body::IfElse(premise, pred, copy_pred(alloc, other)?))
        }
    }
}

// What demands of a row what a constraint forbids.
fn opposite(alloc: Global, body: &Body) -> Result<Body, NoMemory>
    ensures { IfOk result (λ opposite. body_view opposite ≡ changed_body Change.Opposite (body_view body.now)) }
{
    match body {
        Body::Plain(pred) => {
            let pred = copy_pred(alloc, pred)?;
            Ok(Body::Plain(negated(alloc, pred)?))
        }
        Body::IfThen(premise, pred) => {
            let premise = copy_pred(alloc, premise)?;
            let pred = copy_pred(alloc, pred)?;
            let pred = negated(alloc, pred)?;
            Ok(Body::Plain(both(alloc, premise, pred)?))
        }
        Body::IfElse(premise, pred, other) => {
            let premise = copy_pred(alloc, premise)?;
            let pred = copy_pred(alloc, pred)?;
            let pred = negated(alloc, pred)?;
            let other = copy_pred(alloc, other)?;
            Ok(Body::IfElse(premise, pred, negated(alloc, other)?))
        }
    }
}

// A constraint that demands that its condition holds too.
fn with_premise(alloc: Global, body: &Body) -> Result<Body, NoMemory>
    ensures { IfOk result (λ both. body_view both ≡ changed_body Change.WithPremise (body_view body.now)) }
{
    match body {
        Body::Plain(pred) => Ok(Body::Plain(copy_pred(alloc, pred)?)),
        Body::IfThen(premise, pred) | Body::IfElse(premise, pred, _) => {
            let premise = copy_pred(alloc, premise)?;
            let pred = copy_pred(alloc, pred)?;
            Ok(Body::Plain(both(alloc, premise, pred)?))
        }
    }
}

// What a constraint demands once it is changed.
pub(crate) fn changed_body(alloc: Global, body: &Body, change: Change) -> Result<Body, NoMemory>
    ensures { IfOk result (λ changed. body_view changed ≡ changed_body change (body_view body.now)) }
{
    match change {
        Change::LeftOut => Ok(Body::Plain(always(alloc))),
        Change::Kept => copy_body(alloc, body),
        Change::Opposite => opposite(alloc, body),
        Change::WithPremise => with_premise(alloc, body),
    }
}
