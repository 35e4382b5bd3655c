use crate::column::finding_column;
use crate::names::{param_line, rule_line};
use crate::words::words_of;
use cov_model::TestModel;
use model_findings::Finding;
use refusal_places::ModelPlaces;
use std::alloc::Global;
use value_text::NoMemory;

// The line of the model file that a finding is about, from 1; 0 where it is about none.
fn finding_line(model: &TestModel, finding: &Finding) -> u32 {
    match finding {
        Finding::NoTest(_) => 0,
        Finding::ValueInNoTest(one) => param_line(model, one.parameter),
        Finding::UnknownValue(number, _)
        | Finding::UnknownElement(number, _, _)
        | Finding::ConstantComparison(number, _)
        | Finding::NeverExcludes(number)
        | Finding::PremiseNeverHolds(number) => rule_line(model, *number),
    }
}

// The name of a finding of this kind.
fn finding_name(finding: &Finding) -> &'static str {
    match finding {
        Finding::NoTest(_) => "no-test",
        Finding::ValueInNoTest(_) => "value-in-no-test",
        Finding::UnknownValue(_, _) | Finding::UnknownElement(_, _, _) => "unknown-value",
        Finding::ConstantComparison(_, _) => "constant-comparison",
        Finding::NeverExcludes(_) => "never-excludes",
        Finding::PremiseNeverHolds(_) => "premise-never-holds",
    }
}

// Where a finding stands: the line, and the column where one is known.
fn place_words(
    alloc: Global,
    places: &ModelPlaces<'_>,
    model: &TestModel,
    finding: &Finding,
) -> Result<String, NoMemory> {
    let line = finding_line(model, finding);
    if line == 0 {
        return Ok(String::new(alloc));
    }
    match finding_column(alloc, places, model, finding)? {
        0 => Ok(format!(in alloc; ":{line}")?),
        column => Ok(format!(in alloc; ":{line}:{column}")?),
    }
}

/// Adds the line of a finding about the model in the file of this name.
///
/// # Errors
///
/// `NoMemory` where memory is refused.
pub fn add_line(
    alloc: Global,
    file: &str,
    places: &ModelPlaces<'_>,
    model: &TestModel,
    finding: &Finding,
    into: &mut Vec<u8>,
) -> Result<(), NoMemory> {
    let place = place_words(alloc, places, model, finding)?;
    let words = words_of(alloc, model, finding)?;
    let name = finding_name(finding);
    let line = format!(in alloc; "{file}{place}: warning: {words} [{name}]\n")?;
    into.extend_from_slice(line.as_str().as_bytes())?;
    Ok(())
}
