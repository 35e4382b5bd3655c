//! Tables in each form, with a proof, from seed tests, and what is refused.

use crate::case::{Case, MODEL, PROOF, TABLE, ends_as};

const FULL: &str = "A: 1, 2\nB: x, y\n";

const CASES: &[Case<'static>] = &[
    Case {
        words: &["generate", "m"],
        files: &[("m", FULL)],
        status: 0,
        out: "A\tB\n1\tx\n1\ty\n2\tx\n2\ty\n",
        told: "",
        left: &[("m", FULL)],
    },
    Case {
        words: &["generate", "m", "-f", "csv"],
        files: &[("m", FULL)],
        status: 0,
        out: "A,B\r\n1,x\r\n1,y\r\n2,x\r\n2,y\r\n",
        told: "",
        left: &[],
    },
    Case {
        words: &["generate", "--format=json", "m"],
        files: &[("m", FULL)],
        status: 0,
        out: "[\n{\"A\":\"1\",\"B\":\"x\"},\n{\"A\":\"1\",\"B\":\"y\"},\n{\"A\":\"2\",\"B\":\"x\"},\n{\"A\":\"2\",\"B\":\"y\"}\n]\n",
        told: "",
        left: &[],
    },
    Case {
        words: &["generate", "-f", "markdown", "m"],
        files: &[("m", FULL)],
        status: 0,
        out: "| A | B |\n| --- | --- |\n| 1 | x |\n| 1 | y |\n| 2 | x |\n| 2 | y |\n",
        told: "",
        left: &[],
    },
    Case {
        words: &["generate", "m", "-o", "t", "-p", "p"],
        files: &[("m", MODEL)],
        status: 0,
        out: "",
        told: "",
        left: &[("t", TABLE), ("p", PROOF)],
    },
    Case {
        words: &["generate", "m", "-t1"],
        files: &[("m", FULL)],
        status: 0,
        out: "A\tB\n1\tx\n2\ty\n",
        told: "",
        left: &[],
    },
    // an output file that is there is replaced
    Case {
        words: &["generate", "m", "-o", "t"],
        files: &[("m", MODEL), ("t", "old\n")],
        status: 0,
        out: "",
        told: "",
        left: &[("t", TABLE)],
    },
    // a model that is refused leaves it as it was
    Case {
        words: &["generate", "m", "-o", "t"],
        files: &[("m", "A: 1, 2\nB: x, y\n[A] = ;\n"), ("t", "old\n")],
        status: 2,
        out: "",
        told: "m:3:7: error: expected a text in quotes, a number or a parameter in brackets after \"=\", found \";\" [C9]\n",
        left: &[("t", "old\n")],
    },
    Case {
        words: &["generate", "m", "-t3"],
        files: &[("m", FULL)],
        status: 2,
        out: "",
        told: "m:2:1: error: 3 parameters are to be combined, and the model has 2 [M18]\n",
        left: &[],
    },
    Case {
        words: &["generate", "n"],
        files: &[("m", FULL)],
        status: 3,
        out: "",
        told: "n: error: cannot read the file\n",
        left: &[],
    },
    // seed tests, in a table with commas
    Case {
        words: &["generate", "m", "--seeds", "s.csv"],
        files: &[("m", FULL), ("s.csv", "B,A\r\ny,2\r\n")],
        status: 0,
        out: "A\tB\n2\ty\n1\tx\n1\ty\n2\tx\n",
        told: "",
        left: &[],
    },
    Case {
        words: &["generate", "m", "--seeds", "s", "--delimiter", "comma"],
        files: &[("m", FULL), ("s", "A,\"B\r\n2,y\r\n")],
        status: 2,
        out: "",
        told: "s:1:3: error: the quote that opens here is never closed\n",
        left: &[],
    },
    Case {
        words: &["generate", "m", "--seeds", "s"],
        files: &[("m", FULL), ("s", "A\tC\n3\tx\n2\tx\n")],
        status: 0,
        out: "A\tB\n2\tx\n1\tx\n1\ty\n2\ty\n",
        told: "s:1:3: warning: no parameter is named \"C\"; the column is ignored [V2]\n\
            s:2:1: warning: column A: \"3\" is no value of it; the cell is ignored [V3]\n",
        left: &[],
    },
    Case {
        words: &["generate", "m", "--seeds", "s", "--no-warnings"],
        files: &[("m", FULL), ("s", "A\tC\n3\tx\n2\tx\n")],
        status: 0,
        out: "A\tB\n2\tx\n1\tx\n1\ty\n2\ty\n",
        told: "",
        left: &[],
    },
];

#[test]
fn generates(rt: HostRuntime) {
    for (number, case) in CASES.iter().enumerate() {
        assert!(rt; ends_as(&rt, rt.alloc(), case) == Ok(true), "case {number}");
    }
}
