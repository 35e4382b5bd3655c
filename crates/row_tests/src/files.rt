//! Row files that are accepted.

use crate::rows::{Row, has_file};
use model_lex::NoteCode;
use row_text::RowMode;
use std::alloc::Global;
use test_models::model_of;

// Two values each, one of B and one of C negative, and a constraint.
const MIXED: &str = "A: 1, 2\nB: x, ~n\nC: v, ~m\nIF [A] = 2 THEN [C] = \"v\";\n";

// An unknown column, a repeated row, an empty line, and an unknown value.
const SEEDS: &[u8] = b"C\tZ\tA\tB\nv\tq\t2\t\nv\tq\t2\t\n\n~m\tq\t2\t\n~m\tq\t1\t~n\nk\tq\t1\t\n";

// The partial rows of these seeds.
const SEED_ROWS: &[Row<'static>] = &[
    (2, &[Some(1), None, Some(0)]),
    (3, &[Some(1), None, Some(0)]),
    (5, &[Some(1), None, Some(1)]),
    (6, &[Some(0), Some(1), Some(1)]),
    (7, &[Some(0), None, None]),
];

// Whether the bytes are a row file of the model of a text, with these rows and notes; `false` too where memory was
// refused.
fn reads(
    alloc: Global,
    text: &str,
    bytes: &[u8],
    mode: RowMode,
    rows: &[Row<'_>],
    notes: &[(u32, NoteCode)],
) -> bool {
    match model_of(alloc, text) {
        Ok(model) => has_file(alloc, &model, bytes, mode, rows, notes),
        Err(_) => false,
    }
}

#[test]
fn reads_seeds(rt: HostRuntime) {
    let notes = [(1, NoteCode::UnknownColumn), (7, NoteCode::UnknownValue)];
    assert!(rt; reads(rt.alloc(), MIXED, SEEDS, RowMode::Seed, SEED_ROWS, &notes));
}

// Two parameters of two values each.
const PAIR: &str = "A: 1, 2\nB: x, y\n";

// A row file of the pair, its rows, and its notes.
const SUITES: &[(&[u8], &[Row<'static>], &[(u32, NoteCode)])] = &[
    (
        b"A\tB\n1\tx\n1\ty\n2\tx\n2\ty\n",
        &[
            (2, &[Some(0), Some(0)]),
            (3, &[Some(0), Some(1)]),
            (4, &[Some(1), Some(0)]),
            (5, &[Some(1), Some(1)]),
        ],
        &[],
    ),
    (
        b"\xef\xbb\xbfA\tB\r\n1\tx\r\n\r\n2\ty",
        &[(2, &[Some(0), Some(0)]), (4, &[Some(1), Some(1)])],
        &[],
    ),
    (
        b"\n  b\t A \n\n Y \t2\n \nx\n",
        &[
            (4, &[Some(1), Some(1)]),
            (5, &[None, None]),
            (6, &[None, Some(0)]),
        ],
        &[],
    ),
    (
        b"A\t\tB\n#\tq\t\xff\n1\tq\tx\n",
        &[(2, &[None, None]), (3, &[Some(0), Some(0)])],
        &[
            (1, NoteCode::UnknownColumn),
            (2, NoteCode::UnknownValue),
            (2, NoteCode::UnknownValue),
        ],
    ),
];

#[test]
fn reads_suites(rt: HostRuntime) {
    for (bytes, rows, notes) in SUITES {
        assert!(rt; reads(rt.alloc(), PAIR, bytes, RowMode::Suite, rows, notes));
    }
}

// The rows of a file that gives names and aliases.
const ALIAS_ROWS: &[Row<'static>] = &[
    (2, &[Some(0), Some(2)]),
    (3, &[Some(0), Some(0)]),
    (4, &[Some(1), Some(1)]),
    (5, &[None, Some(1)]),
];

#[test]
fn reads_aliases(rt: HostRuntime) {
    let text = "OS: Win8 | Win10, ~Linux | BSD\nB: 1, 2, 3\n";
    let bytes = b"OS\tB\nWin10\t3\nwin8\t1\n~bsd\t2\nLinux\t2\n";
    let notes = [(5, NoteCode::UnknownValue)];
    assert!(rt; reads(rt.alloc(), text, bytes, RowMode::Suite, ALIAS_ROWS, &notes));
}
