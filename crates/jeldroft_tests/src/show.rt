//! Suites in words, and why combinations are left out: whole runs of `show`.

use crate::case::{Case, MODEL, PROOF, TABLE, ends_as};

const FORMAT: &str =
    "File system: FAT, NTFS\nSize: 100, 5000\n\nIF [File system] = \"FAT\" THEN [Size] <= 4096;\n";

const TRIPLES: &str = "A: 1, 2\nB: x, y\nC: u, v\nif [a]=1 then [b]=\"x\";\n";

const INVALID: &str = "A: 1, 2\nB: x, y\nC: u, ~v\nIF [A] = 1 AND [C] = \"u\" THEN [B] = \"x\";\n";

const CASES: &[Case<'static>] = &[
    // a constraint, with its line
    Case {
        words: &["show", "m", "t", "p"],
        files: &[
            ("m", FORMAT),
            ("t", "File system\tSize\nFAT\t100\nNTFS\t100\nNTFS\t5000\n"),
            ("p", PROOF),
        ],
        status: 0,
        out: "3 tests of 2 parameters. 3 of 4 combinations of 1 set are covered; 1 are left out with a proof.\n\
              accepted: 3 rows, 1 omissions\n\
              Rows: every suite needs at least 3 tests, one for each possible combination of File system, Size.\n\
              Left out\n\
              \x20 File system = FAT, Size = 5000\n\
              \x20   constraint 1, line 4: IF [File system] = \"FAT\" THEN [Size] <= 4096;\n\
              Covered after\n\
              \x20 1 test: 1 combination, 25 percent\n\
              \x20 2 tests: 2 combinations, 50 percent\n\
              \x20 3 tests: 3 combinations, 75 percent\n",
        told: "",
        left: &[],
    },
    // an earlier omission; the constraint is spelled in another way
    Case {
        words: &["show", "m", "t", "p", "-t3"],
        files: &[
            ("m", TRIPLES),
            (
                "t",
                "A\tB\tC\n1\tx\tu\n1\tx\tv\n2\tx\tu\n2\tx\tv\n2\ty\tu\n2\ty\tv\n",
            ),
            (
                "p",
                "pict-proof 2\nomit 0=0 1=1 : L1\nomit 0=0 1=1 2=0 : O1\nomit 0=0 1=1 2=1 : O1\n",
            ),
        ],
        status: 0,
        out: "6 tests of 3 parameters. 6 of 8 combinations of 1 set are covered; 2 are left out with a proof.\n\
              accepted: 6 rows, 3 omissions\n\
              Rows: every suite needs at least 6 tests, one for each possible combination of A, B, C.\n\
              Left out\n\
              \x20 A = 1, B = y\n\
              \x20   constraint 1, line 4: IF [A] = 1 THEN [B] = \"x\";\n\
              \x20 A = 1, B = y, C = u\n\
              \x20   left out above: A = 1, B = y\n\
              \x20 A = 1, B = y, C = v\n\
              \x20   left out above: A = 1, B = y\n\
              Covered after\n\
              \x20 1 test: 1 combination, 12 percent\n\
              \x20 2 tests: 2 combinations, 25 percent\n\
              \x20 5 tests: 5 combinations, 62 percent\n\
              \x20 6 tests: 6 combinations, 75 percent\n",
        told: "",
        left: &[],
    },
    // two cases, one by an invalid value
    Case {
        words: &["show", "m", "t", "p"],
        files: &[
            ("m", INVALID),
            (
                "t",
                "A\tB\tC\n1\tx\tu\n2\tx\tu\n2\ty\tu\n1\tx\t~v\n2\ty\t~v\n",
            ),
            ("p", "pict-proof 1\nomit 0=0 1=1 : B2 L1 N\n"),
        ],
        status: 0,
        out: "5 tests of 3 parameters. 11 of 12 combinations of 3 sets are covered; 1 are left out with a proof.\n\
              accepted: 5 rows, 1 omissions\n\
              Rows: every suite needs at least 4 tests, one for each possible combination of A, C.\n\
              Left out\n\
              \x20 A = 1, B = y\n\
              \x20   2 cases, each by one of these:\n\
              \x20   constraint 1, line 4: IF [A] = 1 AND [C] = \"u\" THEN [B] = \"x\";\n\
              \x20   one invalid value at most\n\
              Covered after\n\
              \x20 1 test: 3 combinations, 25 percent\n\
              \x20 2 tests: 5 combinations, 41 percent\n\
              \x20 5 tests: 11 combinations, 91 percent\n",
        told: "",
        left: &[],
    },
    // a test is missing, and the proof is good
    Case {
        words: &["show", "m", "t", "p"],
        files: &[("m", MODEL), ("t", "A\tB\n1\tx\n2\tx\n"), ("p", PROOF)],
        status: 1,
        out: "2 tests of 2 parameters. 2 of 4 combinations of 1 set are covered; 2 are not covered.\n\
              refused: no test covers A = 2, B = y\n\
              Left out\n\
              \x20 A = 1, B = y\n\
              \x20   constraint 1, line 3: IF [A] = 1 THEN [B] = \"x\";\n\
              Covered after\n\
              \x20 1 test: 1 combination, 25 percent\n\
              \x20 2 tests: 2 combinations, 50 percent\n",
        told: "",
        left: &[],
    },
    // a tree doesn't refute its combination, so nothing is known to be left out
    Case {
        words: &["show", "m", "t", "p"],
        files: &[
            ("m", MODEL),
            ("t", TABLE),
            ("p", "pict-proof 1\nomit 0=0 1=0 : L1\n"),
        ],
        status: 1,
        out: "3 tests of 2 parameters. 3 of 4 combinations of 1 set are covered; 1 are not covered.\n\
              refused: proof line 2: the tree does not refute the combination\n\
              Covered after\n\
              \x20 1 test: 1 combination, 25 percent\n\
              \x20 2 tests: 2 combinations, 50 percent\n\
              \x20 3 tests: 3 combinations, 75 percent\n",
        told: "",
        left: &[],
    },
];

#[test]
fn explains_what_is_left_out(rt: HostRuntime) {
    for (number, case) in CASES.iter().enumerate() {
        assert!(rt; ends_as(&rt, rt.alloc(), case) == Ok(true), "case {number}");
    }
}
