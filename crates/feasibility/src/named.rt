ghost use Rattle.std.specs.Prelude.{◌≡◌};
ghost use Rattle.std.specs.List.{list_any};
ghost use Rattle.cov_model.specs.Views.{body_view, pred_view};
ghost use Rattle.cov_model.specs.believed.Kleene.{term_params};
ghost use Rattle.definitions.specs.believed.Demand.{is_among};
ghost use Rattle.definitions.specs.believed.Search.{body_params, pred_params};

use cov_model::{Body, ParamNo, Pred, Term};

// Whether a term names the parameter.
fn term_names(term: &Term, p: ParamNo) -> bool
    ensures { result ≡ is_among (term_params term.now) p }
{
    match term {
        Term::ParamIs(first, _, second) => *first == p || *second == p,
        Term::ValueIs(q, _, _)
        | Term::OneOf(q, _)
        | Term::Like(q, _)
        | Term::Negative(q)
        | Term::Positive(q) => *q == p,
    }
}

// Whether a predicate names the parameter.
#[cycle(names)]
fn pred_names(pred: &Pred, p: ParamNo) -> bool
    ensures { result ≡ is_among (pred_params (pred_view pred.now)) p }
{
    match pred {
        Pred::Term(term) => term_names(term, p),
        Pred::Not(inner) => pred_names(inner, p),
        Pred::All(parts) => some_names(parts.as_slice(), p),
        Pred::Any(parts) => some_names(parts.as_slice(), p),
    }
}

// Whether one of the predicates names the parameter.
#[cycle(names)]
fn some_names(parts: &[Pred], p: ParamNo) -> bool
    ensures { result ≡ list_any (λ part. is_among (pred_params (pred_view part)) p) parts.now }
{
    for part in parts {
        if pred_names(part, p) {
            return true;
        }
    }
    false
}

// Whether a constraint names the parameter.
pub(crate) fn body_names(body: &Body, p: ParamNo) -> bool
    ensures { result ≡ is_among (body_params (body_view body.now)) p }
{
    match body {
        Body::Plain(pred) => pred_names(pred, p),
        Body::IfThen(premise, pred) => pred_names(premise, p) || pred_names(pred, p),
        Body::IfElse(premise, pred, other) => {
            pred_names(premise, p) || pred_names(pred, p) || pred_names(other, p)
        }
    }
}
