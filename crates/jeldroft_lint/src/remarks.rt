//! Findings as what is told of them.
ghost use Rattle.std.specs.Prelude.{◌≡◌, ◌∷◌, [], All, IfOk, None, map};
ghost use Rattle.std.specs.List.{AllZip};
ghost use Rattle.model_findings.specs.Findings.{IsExplained, fact_of};
ghost use Rattle.jeldroft_lint.specs.declared.kind.Kind.TheVariants as kinds;
ghost use Rattle.jeldroft_lint.specs.believed.Remarks.{Explains, about_rule, about_value, fact_gist, gist_of};

use crate::kind::Kind;
use crate::remark::Remark;
use cov_model::TestModel;
use finding_words::{finding_column, param_line, param_name, rule_line, value_name, words_of};
use model_findings::{Finding, FindingList};
use model_lint::{RuleNumbers, UnusedValue};
use refusal_places::ModelPlaces;
use std::alloc::Global;
use value_text::{NoMemory, OwnedList, Text};

// The column and the words of a remark.
#[derive(Clone, Copy)]
struct Wording<'a> {
    column: u32,
    words: &'a str,
}

// A copy of numbers of constraints.
fn copy_numbers(alloc: Global, numbers: &RuleNumbers) -> Result<RuleNumbers, NoMemory>
    ensures { IfOk result (λ copy. copy ≡ numbers.now) }
{
    let mut copy = OwnedList::new(alloc);
    for number in numbers.as_slice() {
        copy.push(*number)?;
    }
    Ok(copy)
}

// A list of one number.
fn one_number(alloc: Global, number: u32) -> Result<RuleNumbers, NoMemory>
    ensures { IfOk result (λ list. list ≡ number ∷ []) }
{
    let mut list = OwnedList::new(alloc);
    list.push(number)?;
    Ok(list)
}

// What is told where there is no test.
fn no_test_remark(
    alloc: Global,
    numbers: &RuleNumbers,
    wording: Wording<'_>,
) -> Result<Remark, NoMemory>
    ensures gist { IfOk result (λ remark. gist_of remark ≡ record { kind = kinds.NoTest; line = 0; parameter = None; value = None }) }
    ensures constraints { IfOk result (λ remark. remark.constraints ≡ numbers.now) }
{
    let constraints = copy_numbers(alloc, numbers)?;
    let words = Text::copy(alloc, wording.words)?;
    Ok(Remark {
        kind: Kind::NoTest,
        line: 0,
        column: 0,
        parameter: None,
        value: None,
        constraints,
        words,
    })
}

// What is told of a value in no test.
fn value_remark(
    alloc: Global,
    model: &TestModel,
    one: &UnusedValue,
    wording: Wording<'_>,
) -> Result<Remark, NoMemory>
    ensures gist { IfOk result (λ remark. gist_of remark ≡ about_value model.now (one.now.parameter, one.now.value)) }
    ensures constraints { IfOk result (λ remark. remark.constraints ≡ one.now.constraints) }
{
    let parameter = Text::copy(alloc, param_name(model, one.parameter))?;
    let value = Text::copy(alloc, value_name(model, one.parameter, one.value))?;
    let constraints = copy_numbers(alloc, &one.constraints)?;
    let words = Text::copy(alloc, wording.words)?;
    Ok(Remark {
        kind: Kind::ValueInNoTest,
        line: param_line(model, one.parameter),
        column: wording.column,
        parameter: Some(parameter),
        value: Some(value),
        constraints,
        words,
    })
}

// What is told of a constraint.
fn rule_remark(
    alloc: Global,
    model: &TestModel,
    kind: Kind,
    number: u32,
    wording: Wording<'_>,
) -> Result<Remark, NoMemory>
    ensures gist { IfOk result (λ remark. gist_of remark ≡ about_rule model.now kind number) }
    ensures constraints { IfOk result (λ remark. remark.constraints ≡ number ∷ []) }
{
    let constraints = one_number(alloc, number)?;
    let words = Text::copy(alloc, wording.words)?;
    Ok(Remark {
        kind,
        line: rule_line(model, number),
        column: wording.column,
        parameter: None,
        value: None,
        constraints,
        words,
    })
}

// A finding with this column and these words.
fn remark_with(
    alloc: Global,
    model: &TestModel,
    finding: &Finding,
    wording: Wording<'_>,
) -> Result<Remark, NoMemory>
    requires explained { IsExplained model.now finding.now }
    ensures gist { IfOk result (λ remark. gist_of remark ≡ fact_gist model.now (fact_of finding.now)) }
    ensures explained { IfOk result (λ remark. Explains model.now (fact_of finding.now) remark) }
{
    match finding {
        Finding::NoTest(numbers) => no_test_remark(alloc, numbers, wording),
        Finding::ValueInNoTest(one) => value_remark(alloc, model, one, wording),
        Finding::UnknownValue(number, _) => {
            rule_remark(alloc, model, Kind::UnknownValue, *number, wording)
        }
        Finding::UnknownElement(number, _, _) => {
            rule_remark(alloc, model, Kind::UnknownValue, *number, wording)
        }
        Finding::ConstantComparison(number, _) => {
            rule_remark(alloc, model, Kind::ConstantComparison, *number, wording)
        }
        Finding::NeverExcludes(number) => {
            rule_remark(alloc, model, Kind::NeverExcludes, *number, wording)
        }
        Finding::PremiseNeverHolds(number) => {
            rule_remark(alloc, model, Kind::PremiseNeverHolds, *number, wording)
        }
    }
}

// What is told of a finding.
fn remark_of(
    alloc: Global,
    model: &TestModel,
    places: &ModelPlaces<'_>,
    finding: &Finding,
) -> Result<Remark, NoMemory>
    requires explained { IsExplained model.now finding.now }
    ensures gist { IfOk result (λ remark. gist_of remark ≡ fact_gist model.now (fact_of finding.now)) }
    ensures explained { IfOk result (λ remark. Explains model.now (fact_of finding.now) remark) }
{
    let words = words_of(alloc, model, finding)?;
    let wording = Wording {
        column: finding_column(alloc, places, model, finding)?,
        words: words.as_str(),
    };
    remark_with(alloc, model, finding, wording)
}

/// What is told of findings, in their order.
pub(crate) fn remarks_of(
    alloc: Global,
    model: &TestModel,
    places: &ModelPlaces<'_>,
    found: &FindingList,
) -> Result<Vec<Remark>, NoMemory>
    requires explained { All (IsExplained model.now) found.now }
    ensures gists { IfOk result (λ list. map gist_of list.items ≡ map (fact_gist model.now) (map fact_of found.now)) }
    ensures explained { IfOk result (λ list. AllZip (Explains model.now) (map fact_of found.now) list.items) }
{
    let mut list = Vec::new(alloc);
    for finding in found.as_slice() {
        list.push(remark_of(alloc, model, places, finding)?)?;
    }
    Ok(list)
}
