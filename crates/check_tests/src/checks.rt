//! Calls of the checker on texts, and what they answer as a text.

ghost use Rattle.std.specs.Prelude.{◌≤◌};

use cov_model::Tuple;
use model_lex::ModelFault;
use proof_check::{CheckFault, Verdict, check_bytes};
use row_text::RowsFault;
use std::alloc::Global;
use std::test::Fail;
use std::thread::Threads;
use test_models::options;
use tuple_index::PlanFault;
use worker_gate::Gate;

// The most bytes of a text.
const MOST_BYTES: usize = 1 << 20;

/// The answer for the texts of a model, a report and a proof, with so many workers.
pub(crate) fn check<R: Threads + Sync, G: Gate + Sync>(
    rt: &R,
    alloc: Global,
    texts: (&str, &str, &str),
    workers: u32,
    gate: &G,
) -> Result<String, Fail>
    requires least { 1 ≤ workers }
    requires most { workers ≤ 64 }
{
    let (model, report, proof) = texts;
    let model = model.as_bytes();
    let report = report.as_bytes();
    let proof = proof.as_bytes();
    if model.len() > MOST_BYTES || report.len() > MOST_BYTES || proof.len() > MOST_BYTES {
        return Err(Fail::from("a text is too long"));
    }
    let opts = options(2);
    match check_bytes(rt, alloc, model, &opts, report, proof, workers, gate) {
        Ok(verdict) => verdict_text(alloc, &verdict),
        Err(fault) => fault_text(alloc, &fault),
    }
}

// A verdict, by its lines and numbers.
fn verdict_text(alloc: Global, verdict: &Verdict) -> Result<String, Fail> {
    match verdict {
        Verdict::Accepted(rows, omissions) => {
            Ok(format!(in alloc; "accepted {rows} {omissions}")?)
        }
        Verdict::BadRow(line) => Ok(format!(in alloc; "row {line}")?),
        Verdict::BadProof(line) => Ok(format!(in alloc; "proof {line}")?),
        Verdict::BadOmission(line) => Ok(format!(in alloc; "tree {line}")?),
        Verdict::Uncovered(tuple) => tuple_text(alloc, tuple),
    }
}

// A tuple that is uncovered, by its pairs.
fn tuple_text(alloc: Global, tuple: &Tuple) -> Result<String, Fail> {
    let mut text = format!(in alloc; "uncovered")?;
    for pair in tuple.as_slice() {
        text = format!(in alloc; "{text} {}={}", pair.0, pair.1)?;
    }
    Ok(text)
}

// Why there is no verdict.
fn fault_text(alloc: Global, fault: &CheckFault) -> Result<String, Fail> {
    match fault {
        CheckFault::BadModel(fault) => model_fault_text(alloc, fault),
        CheckFault::Limits(PlanFault::TooManySets(n)) => Ok(format!(in alloc; "{n} sets")?),
        CheckFault::Limits(PlanFault::TooManyTuples(n)) => Ok(format!(in alloc; "{n} tuples")?),
        CheckFault::Limits(PlanFault::NoMemory) => Ok(format!(in alloc; "no plan")?),
        CheckFault::Report(fault) => rows_fault_text(alloc, fault),
        CheckFault::NoMemory => Ok(format!(in alloc; "no memory")?),
    }
}

// Why a model is refused.
fn model_fault_text(alloc: Global, fault: &ModelFault) -> Result<String, Fail> {
    match fault {
        ModelFault::Bad(diag) => {
            Ok(format!(in alloc; "model {} {}", diag.line, diag.code.code())?)
        }
        ModelFault::BadRule(diag) => {
            Ok(format!(in alloc; "rule {} {}", diag.line, diag.code.code())?)
        }
        ModelFault::Limit(_, n) => Ok(format!(in alloc; "limit {n}")?),
        ModelFault::NoMemory => Ok(format!(in alloc; "no model")?),
    }
}

// Why a report is refused.
fn rows_fault_text(alloc: Global, fault: &RowsFault) -> Result<String, Fail> {
    match fault {
        RowsFault::NoHeader => Ok(format!(in alloc; "no header")?),
        RowsFault::Twice(line) => Ok(format!(in alloc; "twice {line}")?),
        RowsFault::Missing(p) => Ok(format!(in alloc; "missing {p}")?),
        RowsFault::TooManyRows(n) => Ok(format!(in alloc; "{n} rows")?),
        RowsFault::Width(line) => Ok(format!(in alloc; "width {line}")?),
        RowsFault::NoMemory => Ok(format!(in alloc; "no report")?),
    }
}
