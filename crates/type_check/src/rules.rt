ghost use Rattle.std.specs.Prelude.{◌≡◌, ◌≢◌, ◌≤◌, ◌+◌, [], ◌∷◌, ◌++◌, nat_lt, if◌then◌else◌, Some, None, IfOk, IfErr, OnOk, length, map};
ghost use Rattle.constraint_ast.specs.Reading.{IfRefused};
ghost use Rattle.cov_model.specs.Views.{rule_view};
ghost use Rattle.constraint_ast.specs.Trees.{rule_tree};
ghost use Rattle.type_check.specs.believed.Checking.{first_refusal, rules_terms};
ghost use Rattle.type_check.specs.believed.Constraints.{rules_fault, rules_from};

use crate::scope::Scope;
use constraint_ast::RawRule;
use cov_model::{Body, Rule, RuleList};
use model_lex::{LimitName, ModelFault};
use std::alloc::Global;
use value_text::{NoMemory, OwnedList};

// Adds a constraint with the next number, unless there are as many as a model may have.
fn add_rule(rules: &mut RuleList, line: u32, body: Body) -> Result<(), NoMemory>
    ensures { OnOk result (rules.new ≡ (if nat_lt (length rules.old) 4096 then rules.old ++ record
        { number = length rules.old + 1; line = line; body = body } ∷ [] else rules.old)) }
{
    let count = rules.len();
    if count as u64 >= LimitName::Rules.most() {
        return Ok(());
    }
    let number = count as u32 + 1;
    rules.push(Rule { number, line, body })
}

impl Scope<'_> {
    // The constraints that raw constraints are. All are checked, and as many are kept as a model may
    // have.
    fn checked_rules(&self, alloc: Global, raw: &[RawRule]) -> Result<RuleList, ModelFault>
        requires { length self.now.params.now ≤ 256 }
        ensures ok { IfOk result (λ rules. length raw.now ≤ 4096 → map rule_view rules ≡ rules_from 1 self.now.fold self.now.params.now (map rule_tree raw.now)) }
        ensures unrefused { IfOk result (λ rules. first_refusal self.now.fold self.now.params.now (rules_terms (map rule_tree raw.now)) ≡ None) }
        ensures err { IfErr result (λ fault. IfRefused fault (λ diag. first_refusal self.now.fold self.now.params.now (rules_terms (map rule_tree raw.now)) ≡ Some diag)) }
    {
        let mut rules = OwnedList::new(alloc);
        for rule in raw {
            let body = self.body(alloc, &rule.body)?;
            add_rule(&mut rules, rule.line, body)?;
        }
        Ok(rules)
    }

    // The constraints of a model that raw constraints are.
    pub(crate) fn rules(&self, alloc: Global, raw: &[RawRule]) -> Result<RuleList, ModelFault>
        requires { length self.now.params.now ≤ 256 }
        ensures ok { IfOk result (λ rules. map rule_view rules ≡ rules_from 1 self.now.fold self.now.params.now (map rule_tree raw.now)) }
        ensures unrefused { IfOk result (λ _. rules_fault self.now.fold self.now.params.now (map rule_tree raw.now) ≡ None) }
        ensures err { IfErr result (λ fault. fault ≢ ModelFault.NoMemory → rules_fault self.now.fold self.now.params.now (map rule_tree raw.now) ≡ Some fault) }
    {
        let rules = self.checked_rules(alloc, raw)?;
        let count = raw.len() as u64;
        if count > LimitName::Rules.most() {
            return Err(ModelFault::Limit(LimitName::Rules, count));
        }
        Ok(rules)
    }
}
