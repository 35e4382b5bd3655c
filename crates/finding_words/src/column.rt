use crate::names::first_name;
use cov_model::TestModel;
use model_findings::Finding;
use model_lint::UnusedValue;
use refusal_places::ModelPlaces;
use std::alloc::Global;
use value_text::NoMemory;

// The column of a value that is in no test.
fn value_column(
    alloc: Global,
    places: &ModelPlaces<'_>,
    model: &TestModel,
    one: &UnusedValue,
) -> Result<u32, NoMemory> {
    let Some(param) = model.params().get(one.parameter as usize) else {
        return Ok(0);
    };
    match param.values.get(one.value as usize) {
        Some(value) => places.value_name(alloc, param, first_name(value)),
        None => Ok(0),
    }
}

/// The column of what a finding is about, in the line of the finding; 0 where none is known.
///
/// # Errors
///
/// `NoMemory` where memory is refused.
pub fn finding_column(
    alloc: Global,
    places: &ModelPlaces<'_>,
    model: &TestModel,
    finding: &Finding,
) -> Result<u32, NoMemory> {
    match finding {
        Finding::NoTest(_) => Ok(0),
        Finding::ValueInNoTest(one) => value_column(alloc, places, model, one),
        Finding::UnknownValue(number, place) | Finding::ConstantComparison(number, place) => {
            places.term(alloc, *number, *place)
        }
        Finding::UnknownElement(number, place, element) => {
            places.element(alloc, *number, *place, *element)
        }
        Finding::NeverExcludes(number) | Finding::PremiseNeverHolds(number) => {
            Ok(places.constraint(*number))
        }
    }
}
