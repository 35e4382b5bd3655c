ghost use Rattle.std.specs.Prelude.{◌≡◌, ◌≤◌, Some, None, IfOk, IfErr, length};
ghost use Rattle.constraint_ast.specs.Reading.{IfRefused};
ghost use Rattle.cov_model.specs.believed.Views.{Negated};
ghost use Rattle.cov_model.specs.Views.{body_view, pred_view, preds_in};
ghost use Rattle.constraint_ast.specs.Trees.{body_tree, tree_of, trees_in};
ghost use Rattle.type_check.specs.believed.Checking.{body_terms, first_refusal, terms_in, terms_of};
ghost use Rattle.type_check.specs.believed.Constraints.{body_of, pred_of, preds_of};

use crate::scope::Scope;
use constraint_ast::{RawBody, RawPred};
use cov_model::{Body, Pred, PredList};
use model_lex::ModelFault;
use std::alloc::Global;
use value_text::{NoMemory, OwnedList};

// The negation of a predicate.
fn negated(alloc: Global, pred: Pred) -> Result<Pred, NoMemory>
    ensures { IfOk result (λ inverse. pred_view inverse ≡ Negated (pred_view pred)) }
{
    Ok(Pred::Not(Box::new(alloc, pred)?))
}

impl Scope<'_> {
    // The predicate that a raw predicate is.
    #[cycle(check)]
    fn pred(&self, alloc: Global, raw: &RawPred) -> Result<Pred, ModelFault>
        requires { length self.now.params.now ≤ 256 }
        ensures ok { IfOk result (λ pred. pred_view pred ≡ pred_of self.now.fold self.now.params.now (tree_of raw.now)) }
        ensures unrefused { IfOk result (λ _. first_refusal self.now.fold self.now.params.now (terms_of (tree_of raw.now)) ≡ None) }
        ensures err { IfErr result (λ fault. IfRefused fault (λ diag. first_refusal self.now.fold self.now.params.now (terms_of (tree_of raw.now)) ≡ Some diag)) }
    {
        match raw {
            RawPred::Term(line, term) => Ok(Pred::Term(self.term(alloc, *line, term)?)),
            RawPred::Not(inner) => {
                let pred = self.pred(alloc, inner)?;
                Ok(negated(alloc, pred)?)
            }
            RawPred::All(parts) => Ok(Pred::All(self.preds(alloc, parts.as_slice())?)),
            RawPred::Any(parts) => Ok(Pred::Any(self.preds(alloc, parts.as_slice())?)),
        }
    }

    // The predicates that raw predicates are.
    #[cycle(check)]
    fn preds(&self, alloc: Global, parts: &[RawPred]) -> Result<PredList, ModelFault>
        requires { length self.now.params.now ≤ 256 }
        ensures ok { IfOk result (λ preds. preds_in preds ≡ preds_of self.now.fold self.now.params.now (trees_in parts.now)) }
        ensures unrefused { IfOk result (λ _. first_refusal self.now.fold self.now.params.now (terms_in (trees_in parts.now)) ≡ None) }
        ensures err { IfErr result (λ fault. IfRefused fault (λ diag. first_refusal self.now.fold self.now.params.now (terms_in (trees_in parts.now)) ≡ Some diag)) }
    {
        let mut preds = OwnedList::new(alloc);
        for part in parts {
            preds.push(self.pred(alloc, part)?)?;
        }
        Ok(preds)
    }

    // What a raw constraint demands.
    pub(crate) fn body(&self, alloc: Global, raw: &RawBody) -> Result<Body, ModelFault>
        requires { length self.now.params.now ≤ 256 }
        ensures ok { IfOk result (λ body. body_view body ≡ body_of self.now.fold self.now.params.now (body_tree raw.now)) }
        ensures unrefused { IfOk result (λ _. first_refusal self.now.fold self.now.params.now (body_terms (body_tree raw.now)) ≡ None) }
        ensures err { IfErr result (λ fault. IfRefused fault (λ diag. first_refusal self.now.fold self.now.params.now (body_terms (body_tree raw.now)) ≡ Some diag)) }
    {
        match raw {
            RawBody::Plain(pred) => Ok(Body::Plain(self.pred(alloc, pred)?)),
            RawBody::IfThen(premise, pred) => {
                let premise = self.pred(alloc, premise)?;
                Ok(Body::IfThen(premise, self.pred(alloc, pred)?))
            }
            RawBody::IfElse(premise, pred, other) => {
                let premise = self.pred(alloc, premise)?;
                let pred = self.pred(alloc, pred)?;
                Ok(Body::IfElse(premise, pred, self.pred(alloc, other)?))
            }
        }
    }
}
