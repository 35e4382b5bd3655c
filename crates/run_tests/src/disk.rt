//! What the report of a model with constraints covers.

use std::alloc::{AllocError, Global};
use std::collections::BTreeSet;
use std::thread::Threads;
use test_models::DISK;
use test_runs::{on_model, run};
use value_text::NoMemory;

// Adds the pairs of this cell of a row with the cells behind it, each cell with the number of its column.
fn add_pairs_of(
    alloc: Global,
    row: &str,
    i: usize,
    first: &str,
    pairs: &mut BTreeSet<String>,
) -> Result<(), AllocError> {
    for (j, second) in row.split('\t').enumerate() {
        if i < j {
            pairs.insert(format!(in alloc; "{i}={first} {j}={second}")?)?;
        }
    }
    Ok(())
}

fn add_pairs(alloc: Global, row: &str, pairs: &mut BTreeSet<String>) -> Result<(), AllocError> {
    for (i, first) in row.split('\t').enumerate() {
        add_pairs_of(alloc, row, i, first, pairs)?;
    }
    Ok(())
}

// How many pairs of cells the rows of a report have; `None` where a row hasn't six cells.
fn count_pairs(alloc: Global, report: &str) -> Result<Option<usize>, AllocError> {
    let mut pairs = BTreeSet::new(alloc);
    for row in report.lines().skip(1) {
        if row.split('\t').count() != 6 {
            return Ok(None);
        }
        add_pairs(alloc, row, &mut pairs)?;
    }
    Ok(Some(pairs.len()))
}

// Whether the rows of a report have so many pairs.
fn has_pairs(alloc: Global, report: &[u8], count: usize) -> bool {
    match str::from_utf8(report) {
        Ok(text) => matches!(count_pairs(alloc, text), Ok(Some(pairs)) if pairs == count),
        Err(_) => false,
    }
}

// Whether the report of the disk model has so many.
fn covers<R: Threads + Sync>(rt: &R, alloc: Global, count: usize) -> bool {
    match run(rt, alloc, &on_model(&["m"], DISK.as_bytes())) {
        Ok(ended) => ended.status == 0 && has_pairs(alloc, ended.written.bytes(), count),
        Err(NoMemory) => false,
    }
}

// Of the 331 demanded pairs no row can have four: three sizes above 4096 with FAT, and 40000 with FAT32.
#[test]
fn covers_each_pair_that_a_row_can_have(rt: HostRuntime) {
    assert!(rt; covers(&rt, rt.alloc(), 327));
}
