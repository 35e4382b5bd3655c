//! Workers, who mark at the same time.

use crate::files::RowValues;
use crate::marks::{are_marked, marks_of};
use test_models::{Counting, Meeting, WORKERS};

const PAIRS: &str = "A: 1, 2\nB: x, y\n";

const ROWS: &[RowValues<'static>] = &[&[Some(0), Some(0)], &[Some(1), Some(1)]];

// Each row is marked by a worker of its own while the other is at work.
#[test]
fn two_workers_meet(rt: HostRuntime) {
    let gate = Meeting::new();
    let marks = marks_of(&rt, rt.alloc(), PAIRS, ROWS, 2, &gate);
    assert!(rt; are_marked(marks, 4, &[0, 3]));
    assert!(rt; gate.has_met());
}

// Of more workers than rows some mark none.
#[test]
fn each_worker_comes_once(rt: HostRuntime) {
    for workers in WORKERS {
        let gate = Counting::new();
        let marks = marks_of(&rt, rt.alloc(), PAIRS, ROWS, *workers, &gate);
        assert!(rt; are_marked(marks, 4, &[0, 3]), "{workers}");
        assert!(rt; gate.has_each_once(*workers), "{workers}");
    }
}
