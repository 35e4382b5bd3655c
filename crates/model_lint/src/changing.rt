ghost use Rattle.std.specs.Prelude.{◌≡◌, ◌≤◌, IfOk, map};
ghost use Rattle.cov_model.specs.Views.{rule_view};
ghost use Rattle.model_lint.specs.Changes.{change_at, changed, changed_rule, kept_alone, least_demand, one_changed};

use crate::change::Change;
use crate::copying::copy_params;
use crate::trees::changed_body;
use cov_model::{Demand, Rule, RuleList, TestModel};
use std::alloc::Global;
use value_text::{NoMemory, OwnedList};

// The change of the constraint of a number.
fn change_at(changes: &[Change], number: u32) -> Change
    ensures { result ≡ change_at changes.now number }
{
    match changes.get((number as usize).saturating_sub(1)) {
        Some(change) => *change,
        None => Change::LeftOut,
    }
}

// A constraint with its change.
fn changed_rule(alloc: Global, rule: &Rule, changes: &[Change]) -> Result<Rule, NoMemory>
    ensures { IfOk result (λ changed. rule_view changed ≡ changed_rule changes.now (rule_view rule.now)) }
{
    let body = changed_body(alloc, &rule.body, change_at(changes, rule.number))?;
    Ok(Rule {
        number: rule.number,
        line: rule.line,
        body,
    })
}

// The constraints with their changes.
fn changed_rules(alloc: Global, rules: &RuleList, changes: &[Change]) -> Result<RuleList, NoMemory>
    ensures { IfOk result (λ list. map rule_view list ≡ map (changed_rule changes.now) (map rule_view rules.now)) }
{
    let mut list = OwnedList::new(alloc);
    for rule in rules.as_slice() {
        list.push(changed_rule(alloc, rule, changes)?)?;
    }
    Ok(list)
}

// A demand that every model can have.
fn least_demand(alloc: Global) -> Demand
    ensures { result ≡ least_demand }
{
    Demand {
        order: 1,
        subs: OwnedList::new(alloc),
        relations: OwnedList::new(alloc),
    }
}

// A model of its own, with the same parameters and these changes of the constraints.
pub(crate) fn changed_model(
    alloc: Global,
    model: &TestModel,
    changes: &[Change],
) -> Result<TestModel, NoMemory>
    ensures { IfOk result (λ part. part ≡ changed model.now changes.now) }
{
    let params = copy_params(alloc, model.params())?;
    let rules = changed_rules(alloc, model.rules(), changes)?;
    let demand = least_demand(alloc);
    Ok(TestModel::new(params, rules, demand, model.prefix(), model.fold()))
}

// What keeps the marked constraints alone.
pub(crate) fn kept_alone(alloc: Global, marks: &[bool]) -> Result<Vec<Change>, NoMemory>
    ensures { IfOk result (λ changes. changes.items ≡ map kept_alone marks.now) }
{
    let mut changes = Vec::new(alloc);
    for mark in marks {
        let change = if *mark { Change::Kept } else { Change::LeftOut };
        changes.push(change)?;
    }
    Ok(changes)
}

// What keeps all constraints but one, which is changed.
pub(crate) fn one_changed(
    alloc: Global,
    count: usize,
    number: u32,
    change: Change,
) -> Result<Vec<Change>, NoMemory>
    requires least { 1 ≤ number }
    requires most { number ≤ count }
    ensures { IfOk result (λ changes. changes.items ≡ one_changed count number change) }
{
    let mut changes = vec![in alloc; Change::Kept; count]?;
    changes[number as usize - 1] = change;
    Ok(changes)
}
