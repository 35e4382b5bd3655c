//! The demanded tuples that the rows of a file serve, with different numbers of workers.

use crate::files::RowValues;
use crate::marks::{are_marked, marks_of, marks_of_range};
use std::alloc::Global;
use std::thread::Threads;
use test_models::WORKERS;
use worker_gate::OpenGate;

// A model, the rows of a file, how many tuples are demanded, and the places of those that are served. In the
// first an invalid row and an incomplete one count for nothing. In the second every row has a negative value
// of A, so the tuples of B and C are not served.
const SERVED: &[(&str, &[RowValues<'static>], u32, &[u32])] = &[
    (
        "A: 1, 2\nB: x, y\nIF [A] = 1 THEN [B] = \"x\";\n",
        &[
            &[Some(0), Some(0)],
            &[Some(1), Some(0)],
            &[Some(0), Some(1)],
            &[Some(1), None],
        ],
        4,
        &[0, 2],
    ),
    (
        "A: ~1, ~2\nB: x, y\nC: u, v\n",
        &[&[Some(0), Some(0), Some(0)], &[Some(1), Some(1), Some(0)]],
        12,
        &[0, 3, 4, 6],
    ),
];

#[test]
fn workers_mark_what_is_served(rt: HostRuntime) {
    for (text, rows, count, places) in SERVED {
        for workers in WORKERS {
            let marks = marks_of(&rt, rt.alloc(), text, rows, *workers, &OpenGate);
            assert!(rt; are_marked(marks, *count, places), "{text} {workers}");
        }
    }
}

// Of the second row and the third, the third is invalid; of no row nothing is served.
#[test]
fn a_seat_marks_what_a_range_serves(rt: HostRuntime) {
    let rows: &[RowValues] = &[
        &[Some(0), Some(0)],
        &[Some(1), Some(0)],
        &[Some(0), Some(1)],
        &[Some(1), Some(1)],
    ];
    let text = "A: 1, 2\nB: x, y\nIF [A] = 1 THEN [B] = \"x\";\n";
    assert!(rt; are_marked(marks_of_range(rt.alloc(), text, rows, 1, 3), 4, &[2]));
    assert!(rt; are_marked(marks_of_range(rt.alloc(), text, rows, 4, 4), 4, &[]));
}

// Of the three sets of two, the one of A and B is complete with the first row, and the last of many rows serves
// tuples of the other two that no row before serves.
fn marks_later<R: Threads + Sync>(rt: &R, alloc: Global, workers: u32) -> bool {
    let mut rows = [[Some(0), Some(0), Some(0)].as_slice(); 1030];
    rows[1029] = [Some(0), Some(0), Some(2)].as_slice();
    let text = "A: 1\nB: x\nC: u, v, w\n";
    let marks = marks_of(rt, alloc, text, &rows, workers, &OpenGate);
    are_marked(marks, 7, &[0, 1, 3, 4, 6])
}

#[test]
fn workers_mark_what_a_later_round_serves(rt: HostRuntime) {
    for workers in WORKERS {
        assert!(rt; marks_later(&rt, rt.alloc(), *workers), "{workers}");
    }
}
