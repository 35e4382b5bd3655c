use cov_model::{Body, ParamNo, Pred, Rule, Term, TestModel};

// How many values a parameter has, or 0 where there is no such parameter.
fn value_count(model: &TestModel, p: ParamNo) -> u64 {
    match model.params().as_slice().get(p as usize) {
        Some(param) => param.values.len() as u64,
        None => 0,
    }
}

// How many truths a table has for a term: one for each value, or for each pair of values.
fn term_size(model: &TestModel, term: &Term) -> u64 {
    match term {
        Term::ParamIs(p, _, q) => value_count(model, *p).saturating_mul(value_count(model, *q)),
        Term::ValueIs(p, _, _)
        | Term::OneOf(p, _)
        | Term::Like(p, _)
        | Term::Negative(p)
        | Term::Positive(p) => value_count(model, *p),
    }
}

// How many truths it has for the terms of a predicate.
#[cycle(sizes)]
fn pred_size(model: &TestModel, pred: &Pred) -> u64 {
    match pred {
        Pred::Term(term) => term_size(model, term),
        Pred::Not(inner) => pred_size(model, inner),
        Pred::All(parts) => parts_size(model, parts.as_slice()),
        Pred::Any(parts) => parts_size(model, parts.as_slice()),
    }
}

// The same of a list of predicates.
#[cycle(sizes)]
fn parts_size(model: &TestModel, parts: &[Pred]) -> u64 {
    let mut size: u64 = 0;
    for part in parts {
        size = size.saturating_add(pred_size(model, part));
    }
    size
}

// The same of a constraint.
fn body_size(model: &TestModel, body: &Body) -> u64 {
    match body {
        Body::Plain(pred) => pred_size(model, pred),
        Body::IfThen(premise, pred) => {
            pred_size(model, premise).saturating_add(pred_size(model, pred))
        }
        Body::IfElse(premise, pred, other) => {
            let first = pred_size(model, premise).saturating_add(pred_size(model, pred));
            first.saturating_add(pred_size(model, other))
        }
    }
}

// How many truths the compiled constraints of a model have at most: a comparison counts also where the
// table has no room for its pairs and it stays as it is.
pub(crate) fn table_size(model: &TestModel) -> u64 {
    let mut size: u64 = 0;
    for rule in model.rules().as_slice() {
        size = size.saturating_add(body_size(model, &rule.body));
    }
    size
}
