//! Runs without a budget leave what the same runs leave within theirs, but for the trees of proofs.

use crate::every_question::{omit_alike, proof_of, run_with};
use crate::proofs::Proof;
use crate::{constraints, given_suites, growth, language, proofs, seeds};
use std::alloc::Global;
use std::thread::Threads;
use test_models::DISK;
use test_runs::{End, Ended, Given, Report, on_model, run};
use value_text::NoMemory;

// Whether a run without a budget left what the same run left within one, or ended with status 0 where that was spent.
fn are_alike(within: &Ended, full: &Ended) -> bool {
    if within.status == 2 {
        return full.status == 0;
    }
    within.status == full.status
        && within.written.bytes() == full.written.bytes()
        && within.told.bytes() == full.told.bytes()
        && omit_alike(proof_of(within), proof_of(full))
}

// Whether this is so of a run within the budget that its words give.
fn ends_alike<R: Threads + Sync>(rt: &R, alloc: Global, given: &Given) -> Result<bool, NoMemory> {
    let within = run(rt, alloc, given)?;
    let full = run_with(rt, alloc, given, "/budget:max")?;
    Ok(are_alike(&within, &full))
}

// The number of the first of these runs, from 0, of which it isn't so.
fn other_report<R: Threads + Sync>(rt: &R, alloc: Global, runs: &[Report]) -> Option<usize> {
    for (i, run) in runs.iter().enumerate() {
        if ends_alike(rt, alloc, &on_model(run.words, run.model)) != Ok(true) {
            return Some(i);
        }
    }
    None
}

// The same where the row file has this name.
fn other_end<R: Threads + Sync>(rt: &R, alloc: Global, name: &str, runs: &[End]) -> Option<usize> {
    for (i, run) in runs.iter().enumerate() {
        let given = Given {
            rows: Some((name, run.rows)),
            ..on_model(run.words, run.model)
        };
        if ends_alike(rt, alloc, &given) != Ok(true) {
            return Some(i);
        }
    }
    None
}

// The same of runs with a proof.
fn other_proof<R: Threads + Sync>(rt: &R, alloc: Global, runs: &[Proof]) -> Option<usize> {
    for (i, run) in runs.iter().enumerate() {
        if ends_alike(rt, alloc, &on_model(run.words, run.model)) != Ok(true) {
            return Some(i);
        }
    }
    None
}

// The same of the disk model with these words, or of the model that they make.
fn other_words<R: Threads + Sync>(rt: &R, alloc: Global, runs: &[&[&str]]) -> Option<usize> {
    for (i, words) in runs.iter().enumerate() {
        if ends_alike(rt, alloc, &on_model(words, DISK.as_bytes())) != Ok(true) {
            return Some(i);
        }
    }
    None
}

const REPORTS: &[&[Report<'static>]] = &[
    growth::REPORTS,
    growth::WORKERS,
    language::REPORTS,
    constraints::REPORTS,
];

const WORDS: &[&[&str]] = &[
    &["m", "/proof:p"],
    &["m", "/o:3", "/r:7", "/proofformat:2", "/proof:p"],
    &["m", "/make:1", "/proof:p"],
    &["m", "/make:7", "/proofformat:2", "/proof:p"],
];

// Whether it is so of the models that other tests print.
fn reports_are_alike<R: Threads + Sync>(rt: &R, alloc: Global) -> bool {
    for reports in REPORTS {
        if other_report(rt, alloc, reports).is_some() {
            return false;
        }
    }
    true
}

// Whether it is so of all runs.
fn all_are_alike<R: Threads + Sync>(rt: &R, alloc: Global) -> bool {
    reports_are_alike(rt, alloc)
        && other_proof(rt, alloc, proofs::PROOFS).is_none()
        && other_end(rt, alloc, "s", seeds::SEEDED).is_none()
        && other_end(rt, alloc, "t", given_suites::MEASURED).is_none()
        && other_words(rt, alloc, WORDS).is_none()
}

#[test]
fn leave_the_same(rt: HostRuntime) {
    assert!(rt; all_are_alike(&rt, rt.alloc()));
}
