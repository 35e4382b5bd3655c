ghost use Rattle.std.specs.Prelude.{◌≡◌, ◌++◌, IfOk, OnOk, map};
ghost use Rattle.cov_model.specs.Views.{body_view, pred_view, preds_in};
ghost use Rattle.model_findings.specs.believed.Terms.{terms_in, terms_in_each, terms_of};

use cov_model::{Body, Pred, Term};
use std::alloc::Global;
use value_text::NoMemory;

// Adds the terms of a predicate.
#[cycle(terms)]
fn add_terms<'a>(pred: &'a Pred, terms: &mut Vec<&'a Term>) -> Result<(), NoMemory>
    ensures { OnOk result (map (λ t. t.now) terms.new.items ≡ map (λ t. t.now) terms.old.items ++ terms_in (pred_view pred.now)) }
{
    match pred {
        Pred::Term(term) => {
            terms.push(term)?;
            Ok(())
        }
        Pred::Not(inner) => add_terms(inner, terms),
        Pred::All(parts) => add_terms_in_each(parts.as_slice(), terms),
        Pred::Any(parts) => add_terms_in_each(parts.as_slice(), terms),
    }
}

// Adds the terms of a list of predicates.
#[cycle(terms)]
fn add_terms_in_each<'a>(parts: &'a [Pred], terms: &mut Vec<&'a Term>) -> Result<(), NoMemory>
    ensures { OnOk result (map (λ t. t.now) terms.new.items ≡ map (λ t. t.now) terms.old.items ++ terms_in_each (preds_in parts.now)) }
{
    for part in parts {
        add_terms(part, terms)?;
    }
    Ok(())
}

/// The terms of what a constraint demands, in the order in which they are written.
///
/// # Errors
///
/// `NoMemory` where memory is refused.
pub fn terms_of(alloc: Global, body: &Body) -> Result<Vec<&Term>, NoMemory>
    ensures { IfOk result (λ terms. map (λ t. t.now) terms.items ≡ terms_of (body_view body.now)) }
{
    let mut terms = Vec::new(alloc);
    match body {
        Body::Plain(pred) => add_terms(pred, &mut terms)?,
        Body::IfThen(premise, pred) => {
            add_terms(premise, &mut terms)?;
            add_terms(pred, &mut terms)?;
        }
        Body::IfElse(premise, pred, other) => {
            add_terms(premise, &mut terms)?;
            add_terms(pred, &mut terms)?;
            add_terms(other, &mut terms)?;
        }
    }
    Ok(terms)
}
