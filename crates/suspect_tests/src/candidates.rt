//! Numbers of candidates above the limit.

use crate::results::{model_at, results_of};
use cov_model::TestModel;
use std::alloc::{AllocError, Global};
use suspect_tuples::{SuspectFault, suspects};

// Adds the name of a parameter, and what stands behind it.
fn push_param(alloc: Global, p: u32, end: &str, text: &mut String) -> Result<(), AllocError> {
    let name = format!(in alloc; "P{p}{end}")?;
    text.push_str(name.as_str())
}

// Adds the names of so many parameters, and this behind each.
fn push_params(alloc: Global, params: u32, end: &str, text: &mut String) -> Result<(), AllocError> {
    for p in 0..params {
        push_param(alloc, p, end, text)?;
    }
    Ok(())
}

// Adds a row of so many first values, and its outcome.
fn push_row(params: u32, outcome: &str, text: &mut String) -> Result<(), AllocError> {
    for _ in 0..params {
        text.push_str("1\t")?;
    }
    text.push_str(outcome)?;
    text.push_str("\n")
}

// Adds the header of a file of results, and a row for each of these.
fn push_file(
    alloc: Global,
    params: u32,
    results: &[&str],
    text: &mut String,
) -> Result<(), AllocError> {
    push_params(alloc, params, "\t", text)?;
    text.push_str(":result\n")?;
    for result in results {
        push_row(params, result, text)?;
    }
    Ok(())
}

// Parameters, an order, results, and the number of candidates, where it is above the limit.
const COUNTS: &[(u32, u32, &[&str], Option<u64>)] = &[
    (40, 20, &["fail"], Some(618679078297)),
    (40, 20, &["fail", "pass", "fail"], Some(1237358156594)),
    (40, 20, &["pass", "pass"], None),
    (70, 35, &["fail"], Some(18446744073709551615)),
    (256, 2, &["fail"], None),
];

// The number of candidates of a file of results, where it is above the limit; nothing where the file is refused, or
// memory was.
fn count_of(alloc: Global, model: &TestModel, bytes: &[u8]) -> Option<Option<u64>> {
    let Ok(results) = results_of(alloc, model, bytes) else {
        return None;
    };
    match suspects(alloc, model, &results) {
        Ok(_) => Some(None),
        Err(SuspectFault::TooMany(found)) => Some(Some(found)),
        Err(SuspectFault::NoMemory) => None,
    }
}

// The same for the file of these results under a model.
fn count_of_rows(
    alloc: Global,
    model: &TestModel,
    params: u32,
    results: &[&str],
) -> Option<Option<u64>> {
    let mut file = String::new(alloc);
    match push_file(alloc, params, results, &mut file) {
        Ok(()) => count_of(alloc, model, file.as_str().as_bytes()),
        Err(_) => None,
    }
}

// The model of so many parameters with one value each; nothing where the order is 0, or memory was refused.
fn model_of_count(alloc: Global, params: u32, order: u32) -> Option<TestModel> {
    let mut text = String::new(alloc);
    match push_params(alloc, params, ": 1\n", &mut text) {
        Ok(()) => model_at(alloc, text.as_str(), order, true),
        Err(_) => None,
    }
}

// The number of candidates under that model.
fn count_under(alloc: Global, params: u32, order: u32, results: &[&str]) -> Option<Option<u64>> {
    match model_of_count(alloc, params, order) {
        Some(model) => count_of_rows(alloc, &model, params, results),
        None => None,
    }
}

#[test]
fn counts_candidates(rt: HostRuntime) {
    for (params, order, results, count) in COUNTS {
        let found = count_under(rt.alloc(), *params, *order, results);
        assert!(rt; found == Some(*count), "{found:?}");
    }
}
