ghost use Rattle.std.specs.Prelude.{◌≡◌, All, IfOk, map};
ghost use Rattle.model_lint.specs.Unused.{IsExplained as IsUnusedExplained, value_of};
ghost use Rattle.model_findings.specs.Findings.{IsExplained, fact_of};
ghost use Rattle.model_findings.specs.believed.Findings.{ValueInNoTest, facts, value_facts};

use crate::finding::{Finding, FindingList};
use crate::rules::Rules;
use crate::search::{FullAsker, FullCompleter};
use cov_model::{Cells, Prefs, TestModel};
use model_lint::{Asker, Completer, RuleNumbers, UnusedList, UnusedValue, no_test, unused_values};
use std::alloc::Global;
use value_text::{NoMemory, OwnedList};

// A copy of numbers of constraints.
fn copy_numbers(alloc: Global, numbers: &RuleNumbers) -> Result<RuleNumbers, NoMemory>
    ensures { IfOk result (λ copy. copy ≡ numbers.now) }
{
    let mut copy = OwnedList::new(alloc);
    for number in numbers.as_slice() {
        copy.push(*number)?;
    }
    Ok(copy)
}

// A copy of a value that is in no test.
fn copy_unused(alloc: Global, one: &UnusedValue) -> Result<UnusedValue, NoMemory>
    ensures { IfOk result (λ copy. copy ≡ one.now) }
{
    let constraints = copy_numbers(alloc, &one.constraints)?;
    Ok(UnusedValue {
        parameter: one.parameter,
        value: one.value,
        constraints,
    })
}

// The findings that are about values in no test.
fn unused_findings(
    alloc: Global,
    model: &TestModel,
    unused: &UnusedList,
) -> Result<FindingList, NoMemory>
    requires { All (IsUnusedExplained model.now) unused.now }
    ensures facts { IfOk result (λ list. map fact_of list ≡ map ValueInNoTest (map value_of unused.now)) }
    ensures explained { IfOk result (All (IsExplained model.now)) }
{
    let _ = model;
    let mut list = OwnedList::new(alloc);
    for one in unused.as_slice() {
        list.push(Finding::ValueInNoTest(copy_unused(alloc, one)?))?;
    }
    Ok(list)
}

// What is so of the values of a model. The asker has to be of it.
fn value_findings<C: Completer, A: Asker>(
    alloc: Global,
    completer: &C,
    asker: &mut A,
    model: &TestModel,
) -> Result<FindingList, NoMemory>
    requires { A.about asker.old ≡ model.now }
    ensures facts { IfOk result (λ list. map fact_of list ≡ value_facts model.now) }
    ensures explained { IfOk result (All (IsExplained model.now)) }
{
    if let Some(constraints) = no_test(alloc, completer, asker, model)? {
        let mut list = OwnedList::new(alloc);
        list.push(Finding::NoTest(constraints))?;
        return Ok(list);
    }
    let unused = unused_values(alloc, completer, asker, model)?;
    unused_findings(alloc, model, &unused)
}

/// The findings about a model, by a search that is given: those about values in order of declaration, then those about
/// constraints in order; constraints that never exclude where all is asked for. The asker has to be of the model. One
/// question a value is asked of it, and the completer is asked where it says no, for each condition, and, where all is
/// asked for, for each constraint (this project's rule).
///
/// # Errors
///
/// `NoMemory` where memory is refused.
pub fn findings_by<C: Completer, A: Asker>(
    alloc: Global,
    completer: &C,
    asker: &mut A,
    model: &TestModel,
    all: bool,
) -> Result<FindingList, NoMemory>
    requires { A.about asker.old ≡ model.now }
    ensures facts { IfOk result (λ list. map fact_of list ≡ facts model.now all) }
    ensures explained { IfOk result (All (IsExplained model.now)) }
{
    let mut list = value_findings(alloc, completer, asker, model)?;
    let mut room = Cells::empty(alloc, model.params().len())?;
    let rules = Rules {
        alloc,
        completer,
        model,
        all,
    };
    rules.add_rules(&mut room, &mut list)?;
    Ok(list)
}

/// The findings about a model: those about values in order of declaration, then those about constraints in order;
/// constraints that never exclude where all is asked for. Every question is answered (this project's rule).
///
/// # Errors
///
/// `NoMemory` where memory is refused.
pub fn findings(alloc: Global, model: &TestModel, all: bool) -> Result<FindingList, NoMemory>
    ensures facts { IfOk result (λ list. map fact_of list ≡ facts model.now all) }
    ensures explained { IfOk result (All (IsExplained model.now)) }
{
    let prefs = Prefs::new(alloc, model, None)?;
    let mut asker = FullAsker::new(alloc, model, &prefs)?;
    findings_by(alloc, &FullCompleter, &mut asker, model, all)
}
