//! Row files that are refused.

use crate::rows::file_of;
use cov_model::TestModel;
use row_text::{RowMode, RowsFault};
use std::alloc::{AllocError, Global};
use test_models::model_of;

const PAIR: &str = "A: 1, 2\nB: x, y\n";

// A row file of two parameters A and B with two values each, the mode, and its fault.
const REFUSALS: &[(&[u8], RowMode, RowsFault)] = &[
    (b"", RowMode::Suite, RowsFault::NoHeader),
    (b"\n\r\n\n", RowMode::Seed, RowsFault::NoHeader),
    (b"A\tB\tA\n", RowMode::Suite, RowsFault::Twice(1)),
    (b"\nb\tB\n1\n", RowMode::Seed, RowsFault::Twice(2)),
    (b"A\tA\n1\t1\t1\n", RowMode::Suite, RowsFault::Twice(1)),
    (b"A\n1\n", RowMode::Suite, RowsFault::Missing(1)),
    (b"Z\n1\t1\n", RowMode::Suite, RowsFault::Missing(0)),
    (b"A\tB\n1\tx\ty\n", RowMode::Suite, RowsFault::Width(2)),
    (b"A\n1\n\n1\tx\n1\tx\n", RowMode::Seed, RowsFault::Width(4)),
];

// How many rows a row file has, or its fault.
fn count_under(
    alloc: Global,
    model: &TestModel,
    bytes: &[u8],
    mode: RowMode,
) -> Result<usize, RowsFault> {
    match file_of(alloc, model, bytes, mode) {
        Ok(file) => Ok(file.rows.len()),
        Err(fault) => Err(fault),
    }
}

// The same under the model of the pair; `NoMemory` too where there is none.
fn count_of(alloc: Global, bytes: &[u8], mode: RowMode) -> Result<usize, RowsFault> {
    match model_of(alloc, PAIR) {
        Ok(model) => count_under(alloc, &model, bytes, mode),
        Err(_) => Err(RowsFault::NoMemory),
    }
}

#[test]
fn refuses_files(rt: HostRuntime) {
    for (bytes, mode, fault) in REFUSALS {
        let found = count_of(rt.alloc(), bytes, *mode);
        assert!(rt; found == Err(*fault), "{found:?}");
    }
}

// A header, and behind it so many lines.
fn long_file(alloc: Global, lines: u32) -> Result<Vec<u8>, AllocError> {
    let mut bytes = Vec::from_slice(alloc, b"A\n")?;
    for _ in 0..lines {
        bytes.extend_from_slice(b"1\n")?;
    }
    Ok(bytes)
}

// The number of rows of this file, or its fault.
fn count_of_lines(alloc: Global, lines: u32) -> Result<usize, RowsFault> {
    match long_file(alloc, lines) {
        Ok(bytes) => count_of(alloc, bytes.as_slice(), RowMode::Seed),
        Err(_) => Err(RowsFault::NoMemory),
    }
}

#[test]
fn counts_rows(rt: HostRuntime) {
    let above = count_of_lines(rt.alloc(), 1_048_577);
    assert!(rt;
        above == Err(RowsFault::TooManyRows(1_048_577)),
        "{above:?}"
    );
    let most = count_of_lines(rt.alloc(), 1_048_576);
    assert!(rt; most == Ok(1_048_576), "{most:?}");
}
