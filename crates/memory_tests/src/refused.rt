//! Runs from which memory may be withheld at any place.

use std::alloc::Global;
use std::thread::Threads;
use test_runs::{Given, on_model, run};
use value_text::NoMemory;

const PAIRS: &[u8] = b"A: 1, 2\nB: x, y\nIF [A] = 1 THEN [B] = \"x\";\n";

const NEGATIVES: &[u8] = b"A: 1, 2\nB: x, ~n\nC: v, ~m\nIF [A] = 2 THEN [C] = \"v\";\n";

const SEEDS: &[u8] = b"C\tZ\tA\tB\nv\tq\t2\t\nv\tq\t2\t\n\n~m\tq\t2\t\n~m\tq\t1\t~n\nk\tq\t1\t\n";

const FIGURES: &str = "Tests: 2\n\
    Incomplete tests: 1\n\
    Invalid tests: 1\n\
    Demanded sets: 1\n\
    Demanded tuples: 4\n\
    Covered tuples: 2 of 3\n\
    Complete sets: 0 of 1\n\
    Sets at 75 percent: 0 of 1\n\
    Sets at 50 percent: 1 of 1\n\
    Sets at 25 percent: 1 of 1\n";

// Whether a run ends with status 0 and this on standard output, or with 1 and nothing there. Where the folder or a
// sink could not be had, there is no run.
fn ends_well<R: Threads + Sync>(rt: &R, alloc: Global, given: &Given, report: &str) -> bool {
    match run(rt, alloc, given) {
        Ok(ended) => match ended.status {
            0 => ended.written.bytes() == report.as_bytes(),
            1 => ended.written.bytes().is_empty(),
            _ => false,
        },
        Err(NoMemory) => true,
    }
}

#[test]
fn with_a_proof(rt: HostRuntime) {
    let given = on_model(&["m", "/proof:p"], PAIRS);
    assert!(rt; ends_well(&rt, rt.alloc(), &given, "A\tB\n1\tx\n2\tx\n2\ty\n"));
}

#[test]
fn from_seeds(rt: HostRuntime) {
    let given = Given {
        rows: Some(("s", SEEDS)),
        ..on_model(&["m", "/e:s"], NEGATIVES)
    };
    let report = "A\tB\tC\n2\tx\tv\n1\tx\tv\n1\t~n\tv\n2\t~n\tv\n1\tx\t~m\n";
    assert!(rt; ends_well(&rt, rt.alloc(), &given, report));
}

#[test]
fn measuring(rt: HostRuntime) {
    let given = Given {
        rows: Some(("t", b"A\tB\n1\tx\n2\tx\n1\ty\n2\t\n")),
        ..on_model(&["m", "/measure:t", "/workers:2"], PAIRS)
    };
    assert!(rt; ends_well(&rt, rt.alloc(), &given, FIGURES));
}
