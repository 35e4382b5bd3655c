//! The figures of a given table.

use crate::case::{Case, MODEL, ends_as};

// Two tests are valid, one has no value of B, and one is forbidden. Of the four pairs of values no test can have A = 1 with
// B = y; the two valid tests have two of the other three, which is 66 percent.
const FIGURES: &str = "tests: 2\n\
    incomplete tests: 1\n\
    invalid tests: 1\n\
    combinations of parameters: 1\n\
    combinations of parameters covered whole: 0\n\
    combinations of parameters covered to 75 percent: 0\n\
    combinations of parameters covered to 50 percent: 1\n\
    combinations of parameters covered to 25 percent: 1\n\
    combinations of values: 4\n\
    combinations of values that no test can have: 1\n\
    combinations of values that a test can have: 3\n\
    combinations of values covered: 2\n\
    combinations of values not covered: 1\n";

const FILES: &[(&str, &str)] = &[("m", MODEL), ("t", "A\tB\n1\tx\n2\tx\n1\ty\n2\t\n")];

// Words, and what standard output and the output file get.
const CASES: &[Case<'static>] = &[
    Case {
        words: &["measure", "m", "t"],
        files: FILES,
        status: 0,
        out: FIGURES,
        told: "",
        left: FILES,
    },
    Case {
        words: &["measure", "--threads", "2", "m", "t", "-o", "r"],
        files: FILES,
        status: 0,
        out: "",
        told: "",
        left: &[("r", FIGURES)],
    },
];

#[test]
fn measures(rt: HostRuntime) {
    for (number, case) in CASES.iter().enumerate() {
        assert!(rt; ends_as(&rt, rt.alloc(), case) == Ok(true), "case {number}");
    }
}
