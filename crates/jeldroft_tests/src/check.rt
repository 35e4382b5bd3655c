//! Verdicts, and their exit statuses.

use crate::case::{Case, MODEL, PROOF, TABLE, ends_as};

const ACCEPTED: &str = "accepted: 3 rows, 1 omissions\n";

const UNCOVERED: &str = "refused: uncovered 0=1 1=1\n";

const CASES: &[Case<'static>] = &[
    Case {
        words: &["check", "m", "t", "p"],
        files: &[("m", MODEL), ("t", TABLE), ("p", PROOF)],
        status: 0,
        out: ACCEPTED,
        told: "",
        left: &[("m", MODEL), ("t", TABLE), ("p", PROOF)],
    },
    Case {
        words: &["check", "--threads", "2", "m", "t", "p"],
        files: &[("m", MODEL), ("t", TABLE), ("p", PROOF)],
        status: 0,
        out: ACCEPTED,
        told: "",
        left: &[],
    },
    // a test is missing
    Case {
        words: &["check", "m", "t", "p"],
        files: &[("m", MODEL), ("t", "A\tB\n1\tx\n2\tx\n"), ("p", PROOF)],
        status: 1,
        out: UNCOVERED,
        told: "t: error: no test covers A = 2 and B = y, and the proof doesn't list this combination\n",
        left: &[],
    },
    // without a proof each combination that no test has is uncovered
    Case {
        words: &["check", "m", "t"],
        files: &[("m", MODEL), ("t", TABLE)],
        status: 1,
        out: "refused: uncovered 0=0 1=1\n",
        told: "t: error: no test covers A = 1 and B = y, and no proof was given\n",
        left: &[],
    },
    Case {
        words: &["check", "m", "t"],
        files: &[
            ("m", "A: 1, 2\nB: x, y\n"),
            ("t", "A\tB\n1\tx\n1\ty\n2\tx\n2\ty\n"),
        ],
        status: 0,
        out: "accepted: 4 rows, 0 omissions\n",
        told: "",
        left: &[],
    },
    // a table with commas, whose lines are those of the file
    Case {
        words: &["check", "m", "t.csv", "p"],
        files: &[
            ("m", MODEL),
            ("t.csv", "A,B\r\n1,\"x\"\r\n2,x\r\n\"2\",y\r\n"),
            ("p", PROOF),
        ],
        status: 0,
        out: ACCEPTED,
        told: "",
        left: &[],
    },
    Case {
        words: &["check", "m", "t.csv", "p"],
        files: &[
            ("m", MODEL),
            ("t.csv", "A,B\n\n1,x\n2,x\n1,y\n2,y\n"),
            ("p", PROOF),
        ],
        status: 1,
        out: "refused: report line 5: not a valid row\n",
        told: "t.csv:5: error: constraint 1 (line 3) forbids this test\n",
        left: &[],
    },
    Case {
        words: &["check", "m", "t.csv", "p"],
        files: &[("m", MODEL), ("t.csv", "A,B\n1,x\"\n"), ("p", PROOF)],
        status: 2,
        out: "",
        told: "t.csv:2:4: error: a quote inside a cell that doesn't begin with one; put the cell in quotes and write the quote twice\n",
        left: &[],
    },
    Case {
        words: &["check", "m", "t", "p"],
        files: &[("m", MODEL), ("t", "A\n1\n"), ("p", PROOF)],
        status: 2,
        out: "",
        told: "t: error: no column for the parameter B [F3]\n",
        left: &[],
    },
    // what is no value in a cell
    Case {
        words: &["check", "m", "t"],
        files: &[
            ("m", "A: 1, 2\nB: x, y\n"),
            ("t", "A\tB\n1\tx\n1\tq\n2\tx\n2\ty\n"),
        ],
        status: 1,
        out: "refused: report line 3: not a valid row\n",
        told: "t:3:3: warning: column B: \"q\" is no value of it; the cell is ignored [V3]\n\
            t:3: error: this test has no value of B\n",
        left: &[],
    },
    Case {
        words: &["check", "m", "t", "p"],
        files: &[("m", MODEL), ("t", TABLE)],
        status: 3,
        out: "",
        told: "p: error: cannot read the file\n",
        left: &[],
    },
];

#[test]
fn says_the_verdict(rt: HostRuntime) {
    for (number, case) in CASES.iter().enumerate() {
        assert!(rt; ends_as(&rt, rt.alloc(), case) == Ok(true), "case {number}");
    }
}
