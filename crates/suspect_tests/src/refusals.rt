//! Files of results that are refused, and notes on those that aren't.

use crate::results::{model_at, results_of};
use cov_model::TestModel;
use model_lex::NoteCode;
use row_text::RowsFault;
use std::alloc::Global;
use suspect_tuples::{ResultFile, ResultsFault};
use test_models::model_of;

// Two parameters of two values each.
const PAIR: &str = "A: 1, 2\nB: x, y\n";

// A file of results and its fault.
const REFUSALS: &[(&[u8], ResultsFault)] = &[
    (b"\n", ResultsFault::Rows(RowsFault::NoHeader)),
    (b"A\t:result\n", ResultsFault::Rows(RowsFault::Missing(1))),
    (
        b"A\tB\tB\n1\tx\tx\n",
        ResultsFault::Rows(RowsFault::Twice(1)),
    ),
    (
        b"A\tB\n1\tx\tpass\n",
        ResultsFault::Rows(RowsFault::Width(2)),
    ),
    (b"A\tB\n1\tx\n", ResultsFault::NoResult),
    (b"A\tB\tresult\n1\tx\tmaybe\n", ResultsFault::NoResult),
    (
        b"A\tB\t:result\n1\tx\tpass\n1\ty\tmaybe\n2\tx\t\n",
        ResultsFault::BadResult(3),
    ),
    (b"A\tB\t:result\n\n1\tx\t\n", ResultsFault::BadResult(3)),
    (
        b"A\tB\t:result\n1\tx\tpass\n1\ty\n",
        ResultsFault::BadResult(3),
    ),
    (
        b"A\tB\t:result\t:result\n1\tx\tfailed\tpass\n",
        ResultsFault::BadResult(2),
    ),
];

// Whether a file of results is refused by this fault.
fn is_fault(alloc: Global, model: &TestModel, bytes: &[u8], fault: ResultsFault) -> bool {
    match results_of(alloc, model, bytes) {
        Ok(_) => false,
        Err(found) => found == fault,
    }
}

// The same under the model of the pair; `false` too where memory was refused.
fn refuses(alloc: Global, bytes: &[u8], fault: ResultsFault) -> bool {
    match model_of(alloc, PAIR) {
        Ok(model) => is_fault(alloc, &model, bytes, fault),
        Err(_) => false,
    }
}

#[test]
fn refuses_files(rt: HostRuntime) {
    for (bytes, fault) in REFUSALS {
        assert!(rt; refuses(rt.alloc(), bytes, *fault), "{fault:?}");
    }
}

// Whether the first test of a file of results failed; `false` too where the file is refused.
fn failed_first(alloc: Global, model: &TestModel, bytes: &[u8]) -> bool {
    match results_of(alloc, model, bytes) {
        Ok(results) => results.failed.get(0) == Some(&true),
        Err(_) => false,
    }
}

// Whether case counts in the header alone; `false` too where memory was refused.
fn counts_case_of_header(alloc: Global) -> bool {
    match model_at(alloc, PAIR, 2, false) {
        Some(model) => {
            let other = b"A\tB\t:Result\n1\tx\tpass\n";
            is_fault(alloc, &model, other, ResultsFault::NoResult)
                && failed_first(alloc, &model, b"A\tB\t:result\n1\tx\tFail\n")
        }
        None => false,
    }
}

#[test]
fn counts_case_of_the_header_alone(rt: HostRuntime) {
    assert!(rt; counts_case_of_header(rt.alloc()));
}

// A file of results and the lines of the notes on it, each of an unknown column.
const NOTED: &[(&[u8], &[u32])] = &[
    (b"A\tB\t:result\n1\tx\tpass\n", &[]),
    (b"\nA\t:RESULT\tB\t:result\n1\tpass\tx\tfail\n", &[2]),
    (b"Z\tA\tB\t:result\t\n1\t1\tx\tpass\n", &[1, 1]),
];

// Whether the first test passed, and the notes are of unknown columns on these lines.
fn has_notes(results: &ResultFile, lines: &[u32]) -> bool {
    let notes = results.rows.notes.as_slice();
    if notes.len() != lines.len() {
        return false;
    }
    for (note, line) in notes.iter().zip(lines) {
        if note.line != *line || note.code != NoteCode::UnknownColumn {
            return false;
        }
    }
    results.failed.get(0) == Some(&false)
}

// The same of a file of results under a model.
fn has_notes_under(alloc: Global, model: &TestModel, bytes: &[u8], lines: &[u32]) -> bool {
    match results_of(alloc, model, bytes) {
        Ok(results) => has_notes(&results, lines),
        Err(_) => false,
    }
}

// The same under the model of the pair; `false` too where memory was refused.
fn notes(alloc: Global, bytes: &[u8], lines: &[u32]) -> bool {
    match model_of(alloc, PAIR) {
        Ok(model) => has_notes_under(alloc, &model, bytes, lines),
        Err(_) => false,
    }
}

#[test]
fn notes_other_columns(rt: HostRuntime) {
    for (bytes, lines) in NOTED {
        assert!(rt; notes(rt.alloc(), bytes, lines));
    }
}
