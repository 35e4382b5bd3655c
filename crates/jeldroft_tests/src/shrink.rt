//! Fewer tests: whole runs of `shrink`, and of `generate --shrink`.

use crate::case::{Case, MODEL, PROOF, TABLE, ends_as, ends_with};
use memory_io::MemSink;
use std::alloc::Global;
use std::thread::Threads;
use value_text::NoMemory;

const FULL: &str = "A: 1, 2\nB: x, y\n";

// Three parameters of three values, which are the same.
const CUBE: &str = "A: 1, 2, 3\nB: 1, 2, 3\nC: 1, 2, 3\n";

const PAIRS: &str = "A\tB\n1\tx\n1\ty\n2\tx\n2\ty\n";

const CASES: &[Case<'static>] = &[
    // a test that is there twice counts once
    Case {
        words: &["shrink", "m", "t"],
        files: &[("m", FULL), ("t", "A\tB\n1\tx\n1\ty\n1\tx\n2\tx\n2\ty\n")],
        status: 0,
        out: PAIRS,
        told: "",
        left: &[],
    },
    // nothing needs the third test
    Case {
        words: &["shrink", "m", "t", "-t1", "-f", "csv"],
        files: &[("m", FULL), ("t", "A\tB\n1\tx\n2\ty\n1\ty\n")],
        status: 0,
        out: "A,B\r\n1,x\r\n2,y\r\n",
        told: "",
        left: &[],
    },
    // one test, and none
    Case {
        words: &["shrink", "m", "t", "--spread"],
        files: &[("m", FULL), ("t", "A\tB\n1\tx\n")],
        status: 0,
        out: "A\tB\n1\tx\n",
        told: "",
        left: &[],
    },
    Case {
        words: &["shrink", "m", "t", "-o", "r"],
        files: &[("m", FULL), ("t", "A\tB\n"), ("r", "old\n")],
        status: 0,
        out: "",
        told: "",
        left: &[("r", "A\tB\n"), ("t", "A\tB\n")],
    },
    // tests that can't be made fewer
    Case {
        words: &["shrink", "m", "t", "-o", "r"],
        files: &[("m", MODEL), ("t", "A\tB\n2\ty\n1\ty\n"), ("r", "old\n")],
        status: 2,
        out: "",
        told: "t:3: error: constraint 1 (line 3) forbids this test: IF [A] = 1 THEN [B] = \"x\";\n",
        left: &[("r", "old\n")],
    },
    Case {
        words: &["shrink", "m", "t"],
        files: &[("m", FULL), ("t", "A\tB\n1\tx\n2\t\n")],
        status: 2,
        out: "",
        told: "t:3: error: this test has no value of B\n",
        left: &[],
    },
    Case {
        words: &["shrink", "m", "t"],
        files: &[
            ("m", "A: 1, ~2\nB: x, ~y\n"),
            ("t", "A\tB\n~2\tx\n~2\t~y\n"),
        ],
        status: 2,
        out: "",
        told: "t:3: error: more than one value of this test is invalid\n",
        left: &[],
    },
    Case {
        words: &["shrink", "m", "t"],
        files: &[("m", FULL), ("t", "B\nx\n")],
        status: 2,
        out: "",
        told: "t: error: no column for the parameter A [F3]\n",
        left: &[],
    },
    // a seed that no test has
    Case {
        words: &["shrink", "m", "t", "--seeds", "s"],
        files: &[
            ("m", FULL),
            ("t", "A\tB\n1\tx\n2\ty\n"),
            ("s", "A\tB\n2\ty\n1\ty\n"),
        ],
        status: 0,
        out: "A\tB\n1\tx\n2\ty\n",
        told: "s:3: warning: no given test contains this row\n",
        left: &[],
    },
    // tests with an invalid value are for themselves: nothing needs the last of them
    Case {
        words: &["shrink", "m", "t", "--rounds", "0"],
        files: &[
            ("m", "A: 1, ~n\nB: x, y\nC: u, v\n"),
            ("t", "A\tB\tC\n~n\tx\tu\n1\tx\tv\n~n\ty\tv\n~n\tx\tv\n"),
        ],
        status: 0,
        out: "A\tB\tC\n~n\tx\tu\n1\tx\tv\n~n\ty\tv\n",
        told: "",
        left: &[],
    },
    // while a table is generated: there are as many tests as any suite needs
    Case {
        words: &["generate", "m", "--shrink", "-o", "t", "-p", "p"],
        files: &[("m", MODEL)],
        status: 0,
        out: "",
        told: "",
        left: &[("t", TABLE), ("p", PROOF)],
    },
];

#[test]
fn makes_fewer_tests(rt: HostRuntime) {
    for (number, case) in CASES.iter().enumerate() {
        assert!(rt; ends_as(&rt, rt.alloc(), case) == Ok(true), "case {number}");
    }
}

// A table of so many tests of the cube, of which 27 aren't repeated.
fn table_of(alloc: Global, tests: usize) -> Result<String, NoMemory> {
    let mut text = String::from_str(alloc, "A\tB\tC\n")?;
    for test in 0..tests {
        text.push_str(["1\t", "2\t", "3\t"][test % 3])?;
        text.push_str(["1\t", "2\t", "3\t"][test / 3 % 3])?;
        text.push_str(["1\n", "2\n", "3\n"][test / 9 % 3])?;
    }
    Ok(text)
}

// Whether a run on a table of so many tests ends so, and whether it prints the same once more.
fn ends_twice<R: Threads + Sync>(
    rt: &R,
    alloc: Global,
    tests: usize,
    status: u8,
    told: &str,
) -> Result<bool, NoMemory> {
    let text = table_of(alloc, tests)?;
    let case = Case {
        words: &["shrink", "m", "t", "--spread"],
        files: &[("m", CUBE), ("t", text.as_str())],
        status,
        out: "",
        told,
        left: &[],
    };
    let mut first = MemSink::up_to(alloc, 1 << 12)?;
    let mut second = MemSink::up_to(alloc, 1 << 12)?;
    let ended = ends_with(rt, alloc, &case, &mut first)?;
    let again = ends_with(rt, alloc, &case, &mut second)?;
    let is_printed = first.bytes().len() > 0;
    Ok(ended && again && is_printed == (status == 0) && first.bytes() == second.bytes())
}

#[test]
fn prints_the_same_again(rt: HostRuntime) {
    assert!(rt; ends_twice(&rt, rt.alloc(), 270, 0, "") == Ok(true));
}

// A table of so many tests of one parameter.
fn long_table(alloc: Global, tests: usize) -> Result<String, NoMemory> {
    let mut text = String::from_str(alloc, "A\n")?;
    for test in 0..tests {
        text.push_str(["1\n", "2\n"][test % 2])?;
    }
    Ok(text)
}

// Whether a run on so many tests ends so.
fn ends_long<R: Threads + Sync>(
    rt: &R,
    alloc: Global,
    tests: usize,
    status: u8,
    out: &str,
    told: &str,
) -> Result<bool, NoMemory> {
    let text = long_table(alloc, tests)?;
    let case = Case {
        words: &["shrink", "m", "t", "-t1"],
        files: &[("m", "A: 1, 2\n"), ("t", text.as_str())],
        status,
        out,
        told,
        left: &[],
    };
    ends_as(rt, alloc, &case)
}

#[test]
fn takes_as_many_tests_as_may_be(rt: HostRuntime) {
    assert!(rt; ends_long(&rt, rt.alloc(), 65_533, 0, "A\n1\n2\n", "") == Ok(true));
    let told = "t: error: 65534 tests, and at most 65533 can be made fewer\n";
    assert!(rt; ends_long(&rt, rt.alloc(), 65_534, 2, "", told) == Ok(true));
}
