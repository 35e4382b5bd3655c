ghost use Rattle.std.specs.Prelude.{◌≡◌, IfOk, map};
ghost use Rattle.cov_model.specs.Views.{body_view, pred_view, preds_in, rule_view};
ghost use Rattle.constraint_ast.specs.Trees.{body_tree, tree_of, trees_in};
ghost use Rattle.constraint_ast.specs.believed.Trees.{Negated};
ghost use Rattle.model_words.specs.believed.Constraints.{body_spelled, literal_spelled, name_at, pred_spelled, preds_spelled, rel_spelled, rule_words, term_spelled};

use constraint_ast::{
    RawBody, RawLiteral, RawLiteralList, RawPred, RawPredList, RawRel, RawRule, RawTerm, rule_text,
};
use cov_model::{Body, Literal, Param, ParamNo, Pred, Rel, Rule, Term, TestModel};
use std::alloc::Global;
use value_text::{NoMemory, OwnedList, Text};

// The relation as it is written.
fn rel_spelled(rel: Rel) -> RawRel
    ensures { result ≡ rel_spelled rel }
{
    match rel {
        Rel::Eq => RawRel::Eq,
        Rel::Ne => RawRel::Ne,
        Rel::Gt => RawRel::Gt,
        Rel::Ge => RawRel::Ge,
        Rel::Lt => RawRel::Lt,
        Rel::Le => RawRel::Le,
    }
}

// The literal as it is written.
fn literal_spelled(alloc: Global, literal: &Literal) -> Result<RawLiteral, NoMemory>
    ensures { IfOk result (λ copy. copy ≡ literal_spelled literal.now) }
{
    match literal {
        Literal::Number(number) => Ok(RawLiteral::Number(*number)),
        Literal::Words(text) => Ok(RawLiteral::Words(Text::copy(alloc, text.as_str())?)),
    }
}

// The literals as they are written.
fn literals_spelled(alloc: Global, literals: &[Literal]) -> Result<RawLiteralList, NoMemory>
    ensures { IfOk result (λ copies. copies ≡ map literal_spelled literals.now) }
{
    let mut copies = OwnedList::new(alloc);
    for literal in literals {
        copies.push(literal_spelled(alloc, literal)?)?;
    }
    Ok(copies)
}

// The name of a parameter; none where there is no such parameter.
fn name_at(alloc: Global, params: &[Param], p: ParamNo) -> Result<Text, NoMemory>
    ensures { IfOk result (λ name. name ≡ name_at params.now p) }
{
    match params.get(p as usize) {
        Some(param) => Text::copy(alloc, param.name.as_str()),
        None => Text::copy(alloc, ""),
    }
}

// The term as it is written.
fn term_spelled(alloc: Global, params: &[Param], term: &Term) -> Result<RawTerm, NoMemory>
    ensures { IfOk result (λ raw. raw ≡ term_spelled params.now term.now) }
{
    match term {
        Term::ValueIs(p, rel, literal) => {
            let name = name_at(alloc, params, *p)?;
            let literal = literal_spelled(alloc, literal)?;
            Ok(RawTerm::ValueIs(name, rel_spelled(*rel), literal))
        }
        Term::ParamIs(p, rel, q) => {
            let name = name_at(alloc, params, *p)?;
            let other = name_at(alloc, params, *q)?;
            Ok(RawTerm::ParamIs(name, rel_spelled(*rel), other))
        }
        Term::OneOf(p, literals) => {
            let name = name_at(alloc, params, *p)?;
            let literals = literals_spelled(alloc, literals.as_slice())?;
            Ok(RawTerm::OneOf(name, literals))
        }
        Term::Like(p, pattern) => {
            let name = name_at(alloc, params, *p)?;
            let pattern = Text::copy(alloc, pattern.as_str())?;
            Ok(RawTerm::Like(name, pattern))
        }
        Term::Negative(p) => Ok(RawTerm::Negative(name_at(alloc, params, *p)?)),
        Term::Positive(p) => Ok(RawTerm::Positive(name_at(alloc, params, *p)?)),
    }
}

// The negation of a predicate.
fn negated(alloc: Global, pred: RawPred) -> Result<RawPred, NoMemory>
    ensures { IfOk result (λ inverse. tree_of inverse ≡ Negated (tree_of pred)) }
{
    Ok(RawPred::Not(Box::new(alloc, pred)?))
}

// The predicate as it is written.
#[cycle(write)]
fn pred_spelled(alloc: Global, params: &[Param], pred: &Pred) -> Result<RawPred, NoMemory>
    ensures { IfOk result (λ raw. tree_of raw ≡ pred_spelled params.now (pred_view pred.now)) }
{
    match pred {
        Pred::Term(term) => Ok(RawPred::Term(0, term_spelled(alloc, params, term)?)),
        Pred::Not(inner) => {
            let raw = pred_spelled(alloc, params, inner)?;
            negated(alloc, raw)
        }
        Pred::All(parts) => Ok(RawPred::All(preds_spelled(alloc, params, parts.as_slice())?)),
        Pred::Any(parts) => Ok(RawPred::Any(preds_spelled(alloc, params, parts.as_slice())?)),
    }
}

// The predicates as they are written.
#[cycle(write)]
fn preds_spelled(alloc: Global, params: &[Param], parts: &[Pred]) -> Result<RawPredList, NoMemory>
    ensures { IfOk result (λ raw. trees_in raw ≡ preds_spelled params.now (preds_in parts.now)) }
{
    let mut raw = OwnedList::new(alloc);
    for part in parts {
        raw.push(pred_spelled(alloc, params, part)?)?;
    }
    Ok(raw)
}

// What a constraint demands, as it is written.
fn body_spelled(alloc: Global, params: &[Param], body: &Body) -> Result<RawBody, NoMemory>
    ensures { IfOk result (λ raw. body_tree raw ≡ body_spelled params.now (body_view body.now)) }
{
    match body {
        Body::Plain(pred) => Ok(RawBody::Plain(pred_spelled(alloc, params, pred)?)),
        Body::IfThen(premise, pred) => {
            let premise = pred_spelled(alloc, params, premise)?;
            Ok(RawBody::IfThen(premise, pred_spelled(alloc, params, pred)?))
        }
        Body::IfElse(premise, pred, other) => {
            let premise = pred_spelled(alloc, params, premise)?;
            let pred = pred_spelled(alloc, params, pred)?;
            Ok(RawBody::IfElse(premise, pred, pred_spelled(alloc, params, other)?))
        }
    }
}

/// The text of a constraint of a model, with the names of its parameters: one line without its end (PICT's guide; which
/// of the spellings of a constraint it is, is this project's rule).
///
/// # Errors
///
/// `NoMemory` where memory was refused.
pub fn rule_words(alloc: Global, model: &TestModel, rule: &Rule) -> Result<Text, NoMemory>
    ensures { IfOk result (λ text. text ≡ rule_words model.now.params (rule_view rule.now)) }
{
    let body = body_spelled(alloc, model.params().as_slice(), &rule.body)?;
    let raw = RawRule {
        line: rule.line,
        body,
    };
    rule_text(alloc, &raw)
}
