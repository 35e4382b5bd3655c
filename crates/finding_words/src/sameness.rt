//! Of a comparison that is the same for every value: which way it is.
use crate::names::first_name;
use cov_model::{Literal, Param, Rel, Term, TestModel};
use std::cmp::Ordering;
use value_text::{FixedAnswer, order_text, read_fixed};

// The first name of a parameter's first value.
fn first_of(param: &Param) -> &str {
    match param.values.get(0) {
        Some(value) => first_name(value),
        None => "",
    }
}

// How a name stands to a literal.
fn order_to(name: &str, literal: &Literal, fold: bool) -> Option<Ordering> {
    match literal {
        Literal::Words(text) => Some(order_text(name, text.as_str(), fold)),
        Literal::Number(number) => match read_fixed(name) {
            FixedAnswer::Number(own) => Some(own.cmp(number)),
            FixedAnswer::NotNumber | FixedAnswer::TooWide => None,
        },
    }
}

// How a name stands to another one.
fn order_between(name: &str, other: &str, numeric: bool, fold: bool) -> Option<Ordering> {
    if !numeric {
        return Some(order_text(name, other, fold));
    }
    match read_fixed(other) {
        FixedAnswer::Number(number) => order_to(name, &Literal::Number(number), fold),
        FixedAnswer::NotNumber | FixedAnswer::TooWide => None,
    }
}

// Whether an order is one of a relation.
fn is_in(rel: Rel, order: Option<Ordering>) -> bool {
    match order {
        Some(order) => rel.holds(order),
        None => false,
    }
}

/// Whether a comparison that is the same for every value is true: it is then so of the first ones.
pub(crate) fn is_true_of_all(model: &TestModel, term: &Term) -> bool {
    match term {
        Term::ValueIs(p, rel, literal) => match model.params().get(*p as usize) {
            Some(param) => is_in(*rel, order_to(first_of(param), literal, model.fold())),
            None => false,
        },
        Term::ParamIs(p, rel, q) => {
            match (
                model.params().get(*p as usize),
                model.params().get(*q as usize),
            ) {
                (Some(one), Some(other)) => is_in(
                    *rel,
                    order_between(first_of(one), first_of(other), one.numeric, model.fold()),
                ),
                _ => false,
            }
        }
        Term::OneOf(_, _) | Term::Like(_, _) => true,
        Term::Negative(_) | Term::Positive(_) => false,
    }
}
