//! What people are told on standard error: warnings, refusals, and the line that sums up.

use crate::case::{Case, MODEL, ends_beside};
use memory_io::MemSink;
use std::alloc::Global;
use std::thread::Threads;
use value_text::NoMemory;

// What a run is given, and what standard error gets.
#[derive(Clone, Copy)]
struct Told<'a> {
    words: &'a [&'a str],
    files: &'a [(&'a str, &'a str)],
    told: &'a str,
}

const GENERATE: &[&str] = &["generate", "m", "-o", "t"];

const FULL: &str = "A: 1, 2\nB: x, y\n";

const REFUSED: &str = "A: 1, 2\nB: x, y\n[A] = ;\n";

const REFUSAL: &str =
    "m:3:7: error: expected a text in quotes, a number or a parameter in brackets after \"=\", found \";\" [C9]\n";

const WARNINGS: &[Told<'static>] = &[
    // a value that a constraint keeps from every test, and one that two keep from it together
    Told {
        words: GENERATE,
        files: &[(
            "m",
            "A: 1, 2\nB: x, y, z\nIF [A] = 1 THEN [B] = \"x\";\n[B] <> \"z\";\n",
        )],
        told: "m:2:10: warning: B = z is in no test: constraint 2 (line 4) forbids it [value-in-no-test]\n",
    },
    Told {
        words: GENERATE,
        files: &[(
            "m",
            "A: 1, 2\nB: x, y\nIF [A] = 1 THEN [B] = \"x\";\nIF [A] = 1 THEN [B] = \"y\";\n",
        )],
        told: "m:1:4: warning: A = 1 is in no test: constraint 1 (line 3) and constraint 2 (line 4) forbid it together [value-in-no-test]\n",
    },
    Told {
        words: GENERATE,
        files: &[("m", "A: 1, ~2\nB: x, y\n[A] = 1;\n")],
        told: "m:1:7: warning: A = ~2 is in no test: constraint 1 (line 3) forbids it [value-in-no-test]\n",
    },
    // no test at all
    Told {
        words: GENERATE,
        files: &[("m", "A: 1, 2\nB: x, y\n[A] = 1;\n[A] = 2;\n")],
        told: "m: warning: the model has no test: constraint 1 (line 3) and constraint 2 (line 4) are never true together [no-test]\n",
    },
    // comparisons with what is no value
    Told {
        words: GENERATE,
        files: &[("m", "A: 1, 2\nB: x, y\nIF [B] = \"q\" THEN [A] = 1;\n")],
        told: "m:3:4: warning: \"q\" is no value of B (x, y); the comparison is never true [unknown-value]\n",
    },
    Told {
        words: GENERATE,
        files: &[("m", "A: 1, 2\nB: x, y\n[B] <> \"q\";\n")],
        told: "m:3:1: warning: \"q\" is no value of B (x, y); the comparison is always true [unknown-value]\n",
    },
    Told {
        words: GENERATE,
        files: &[("m", "A: 1, 2\nB: x, y\nIF [A] = 2.5 THEN [B] = \"x\";\n")],
        told: "m:3:4: warning: 2.5 is no value of A (1, 2); the comparison is never true [unknown-value]\n",
    },
    Told {
        words: GENERATE,
        files: &[(
            "m",
            "A: 1, 2\nB: x, y\nIF [A] = 1 THEN [B] IN {\"x\", \"q\"};\n",
        )],
        told: "m:3:30: warning: \"q\" is no value of B (x, y); in the list it changes nothing [unknown-value]\n",
    },
    Told {
        words: GENERATE,
        files: &[("m", "A: 1, 2\nB: x, y\nIF [B] LIKE \"q*\" THEN [A] = 1;\n")],
        told: "m:3:4: warning: no value of B (x, y) matches \"q*\"; the comparison is never true [unknown-value]\n",
    },
    // a seed that a constraint forbids
    Told {
        words: &["generate", "m", "--seeds", "s", "-o", "t"],
        files: &[("m", MODEL), ("s", "A\tB\n2\ty\n1\ty\n")],
        told: "s:3: warning: constraint 1 (line 3) forbids this row; it is left out [V4]\n",
    },
    // warnings are left out, and with a budget these aren't sought
    Told {
        words: &["generate", "m", "-o", "t", "--no-warnings"],
        files: &[("m", "A: 1, 2\nB: x, y\n[B] = \"x\";\n")],
        told: "",
    },
    Told {
        words: &["generate", "m", "-o", "t", "--budget", "1000"],
        files: &[("m", "A: 1, 2\nB: x, y\n[B] = \"x\";\n")],
        told: "",
    },
    // a column and a cell that name nothing, of tests that are made fewer and of seeds
    Told {
        words: &["shrink", "m", "t", "--seeds", "s.csv", "-o", "r"],
        files: &[
            ("m", FULL),
            ("t", "A\tB\tC\n1\tx\t7\n2\ty\t7\n"),
            ("s.csv", "A,B\n1,q\n1,y\n"),
        ],
        told: "t:1:5: warning: no parameter is named \"C\"; the column is ignored [V2]\n\
            s.csv:2:3: warning: column B: \"q\" is no value of it; the cell is ignored [V3]\n\
            s.csv:3: warning: no given test contains this row\n",
    },
    Told {
        words: &["shrink", "m", "t", "-o", "r", "--no-warnings"],
        files: &[("m", FULL), ("t", "A\tB\tC\n1\tx\t7\n")],
        told: "",
    },
    // cells of a table, with tabs and with commas; in a line with quotes the column isn't told
    Told {
        words: &["measure", "m", "t", "-o", "r"],
        files: &[("m", FULL), ("t", "A\tB\tC\n1\tq\t7\n2\tx\t7\n")],
        told: "t:1:5: warning: no parameter is named \"C\"; the column is ignored [V2]\n\
            t:2:3: warning: column B: \"q\" is no value of it; the cell is ignored [V3]\n",
    },
    Told {
        words: &["measure", "m", "t.csv", "-o", "r"],
        files: &[("m", FULL), ("t.csv", "A,B\n1,\"q\"\n2, q\n")],
        told: "t.csv:2: warning: column B: \"q\" is no value of it; the cell is ignored [V3]\n\
            t.csv:3:4: warning: column B: \"q\" is no value of it; the cell is ignored [V3]\n",
    },
];

const REFUSALS: &[Told<'static>] = &[
    Told {
        words: &["check", "m", "t"],
        files: &[("m", REFUSED), ("t", "A\tB\n")],
        told: REFUSAL,
    },
    Told {
        words: &["measure", "m", "t"],
        files: &[("m", REFUSED), ("t", "A\tB\n")],
        told: REFUSAL,
    },
    Told {
        words: &["measure", "m", "t"],
        files: &[("m", FULL), ("t", "B\nx\n")],
        told: "t: error: no column for the parameter A [F3]\n",
    },
    // a table without a header
    Told {
        words: &["measure", "m", "t"],
        files: &[("m", FULL), ("t", "\n\n")],
        told: "t: error: no line with the names of the parameters [F1]\n",
    },
    // a second column of a parameter: with tabs, with commas, with quotes, in a table that is checked, and of seeds
    Told {
        words: &["measure", "m", "t"],
        files: &[("m", FULL), ("t", "\nA\tB\t a\n1\tx\t1\n")],
        told: "t:2:6: error: expected one column for the parameter A, found a second [F2]\n",
    },
    Told {
        words: &["measure", "m", "t.csv"],
        files: &[("m", FULL), ("t.csv", "\u{e4},A,A,B\n1,1,1,x\n")],
        told: "t.csv:1:5: error: expected one column for the parameter A, found a second [F2]\n",
    },
    Told {
        words: &["measure", "m", "t.csv"],
        files: &[("m", FULL), ("t.csv", "\"A\",A,B\n1,1,x\n")],
        told: "t.csv:1: error: expected one column for the parameter A, found a second [F2]\n",
    },
    Told {
        words: &["check", "m", "t"],
        files: &[("m", FULL), ("t", "A\tB\tB\n1\tx\tx\n")],
        told: "t:1:5: error: expected one column for the parameter B, found a second [F2]\n",
    },
    Told {
        words: &["generate", "m", "--seeds", "s", "-o", "t"],
        files: &[("m", FULL), ("s", "A\tA\n1\t1\n")],
        told: "s:1:3: error: expected one column for the parameter A, found a second [F2]\n",
    },
    // more cells than the header has
    Told {
        words: &["measure", "m", "t"],
        files: &[("m", FULL), ("t", "A\tB\n1\tx\n2\ty\tz\tz\n")],
        told: "t:3:5: error: expected the end of the line behind the cell of column B, found another cell, \"z\" [F4]\n",
    },
    Told {
        words: &["measure", "m", "t.csv"],
        files: &[("m", FULL), ("t.csv", "A,B\n1,x,\n")],
        told: "t.csv:2:5: error: expected the end of the line behind the cell of column B, found another cell, \"\" [F4]\n",
    },
    Told {
        words: &["check", "m", "t"],
        files: &[("m", FULL), ("t", "A\tB\n\n2\ty\t7\n")],
        told: "t:3:5: error: expected the end of the line behind the cell of column B, found another cell, \"7\" [F4]\n",
    },
    // what is refused, and what there is to warn of
    Told {
        words: &["shrink", "m", "t"],
        files: &[("m", FULL), ("t", "A\tB\n1\tx\n2\tq\n")],
        told: "t:3:3: warning: column B: \"q\" is no value of it; the cell is ignored [V3]\n\
            t:3: error: this test has no value of B\n",
    },
    Told {
        words: &["shrink", "m", "t", "--seeds", "s"],
        files: &[
            ("m", FULL),
            ("t", "A\tB\tC\n1\tx\t7\n"),
            ("s", "A\tA\n1\t1\n"),
        ],
        told: "t:1:5: warning: no parameter is named \"C\"; the column is ignored [V2]\n\
            s:1: error: two columns are of one parameter [F2]\n",
    },
];

const SUMS: &[Told<'static>] = &[
    Told {
        words: GENERATE,
        files: &[("m", MODEL)],
        told: "3 tests cover 3 of 4 combinations of 2 parameters; no test can have the other 1 (--proof lists them)\n",
    },
    Told {
        words: &["generate", "m", "-t1", "-o", "t"],
        files: &[("m", FULL)],
        told: "2 tests cover 4 of 4 combinations of 1 parameter\n",
    },
    // fewer tests
    Told {
        words: &["generate", "m", "--shrink", "-o", "t"],
        files: &[("m", MODEL)],
        told: "3 tests cover 3 of 4 combinations of 2 parameters; no test can have the other 1 (--proof lists them)\n\
            3 tests in place of 3; no suite with this coverage is shorter\n",
    },
    Told {
        words: &["shrink", "m", "t", "-o", "r"],
        files: &[("m", FULL), ("t", "A\tB\n1\tx\n1\ty\n1\tx\n2\tx\n")],
        told: "3 tests in place of 4; no suite with this coverage is shorter\n",
    },
    Told {
        words: &["generate", "m", "-q", "--shrink", "-o", "t"],
        files: &[("m", FULL)],
        told: "",
    },
    Told {
        words: &["generate", "m", "-q", "-o", "t"],
        files: &[("m", FULL)],
        told: "",
    },
];

// Whether a run ends with this status, prints nothing, and tells what it should.
fn tells<R: Threads + Sync>(
    rt: &R,
    alloc: Global,
    run: &Told<'_>,
    status: u8,
    terminal: bool,
) -> Result<bool, NoMemory> {
    let case = Case {
        words: run.words,
        files: run.files,
        status,
        out: "",
        told: run.told,
        left: &[],
    };
    let mut out = MemSink::up_to(alloc, 1 << 12)?;
    let ended = ends_beside(rt, alloc, &case, &mut out, terminal)?;
    Ok(ended && out.bytes().is_empty())
}

#[test]
fn warns(rt: HostRuntime) {
    for (number, run) in WARNINGS.iter().enumerate() {
        assert!(rt;
            tells(&rt, rt.alloc(), run, 0, false) == Ok(true),
            "case {number}"
        );
    }
}

#[test]
fn says_why(rt: HostRuntime) {
    for (number, run) in REFUSALS.iter().enumerate() {
        assert!(rt;
            tells(&rt, rt.alloc(), run, 2, false) == Ok(true),
            "case {number}"
        );
    }
}

#[test]
fn sums_up_on_a_terminal(rt: HostRuntime) {
    for (number, run) in SUMS.iter().enumerate() {
        assert!(rt;
            tells(&rt, rt.alloc(), run, 0, true) == Ok(true),
            "case {number}"
        );
    }
}
