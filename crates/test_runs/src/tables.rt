use crate::runs::{Given, ends_as, on_model};
use std::alloc::Global;
use std::thread::Threads;

/// A run on a model that ends with status 0 and tells nothing.
#[derive(Clone, Copy)]
pub struct Report<'a> {
    /// The words behind the program's name.
    pub words: &'a [&'a str],
    /// The bytes of the model file `m`.
    pub model: &'a [u8],
    /// What standard output gets.
    pub report: &'a str,
}

/// The number of the first of these runs, from 0, that ends otherwise.
pub fn other_report<R: Threads + Sync>(rt: &R, alloc: Global, runs: &[Report]) -> Option<usize> {
    for (i, run) in runs.iter().enumerate() {
        let given = on_model(run.words, run.model);
        if !ends_as(rt, alloc, &given, 0, run.report, "") {
            return Some(i);
        }
    }
    None
}

/// A run on a model and a row file.
#[derive(Clone, Copy)]
pub struct End<'a> {
    /// The words behind the program's name.
    pub words: &'a [&'a str],
    /// The bytes of the model file `m`.
    pub model: &'a [u8],
    /// Those of the row file.
    pub rows: &'a [u8],
    /// The status.
    pub status: u8,
    /// What standard output gets.
    pub written: &'a str,
    /// What standard error gets.
    pub told: &'a str,
}

/// The number of the first of these runs, from 0, that ends otherwise. The row file of each has this name.
pub fn other_end<R: Threads + Sync>(
    rt: &R,
    alloc: Global,
    name: &str,
    runs: &[End],
) -> Option<usize> {
    for (i, run) in runs.iter().enumerate() {
        let given = Given {
            rows: Some((name, run.rows)),
            ..on_model(run.words, run.model)
        };
        if !ends_as(rt, alloc, &given, run.status, run.written, run.told) {
            return Some(i);
        }
    }
    None
}
