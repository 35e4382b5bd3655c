//! Combinations that only failing tests have, and results that are refused.

use crate::case::{Case, ends_as};

const MODEL: &str = "A: 1, 2\nB: x, y\n";

// A table of results, and what the words make of it.
#[derive(Clone, Copy)]
struct Suspected<'a> {
    words: &'a [&'a str],
    results: (&'a str, &'a str),
    status: u8,
    out: &'a str,
    told: &'a str,
}

const USUAL: &[&str] = &["suspect", "m", "r"];

// One test fails, and one is skipped that has the same value.
const STATUS: (&str, &str) = (
    "r",
    "A\tB\tStatus\n1\tx\tPassed\n2\tx\tOK\n2\ty\tFAILED\n1\ty\tskipped\n",
);

const LISTED: &[Suspected<'static>] = &[
    Suspected {
        words: &["suspect", "m", "r", "--result", "Status"],
        results: STATUS,
        status: 0,
        out: "1 failing test: B = y\n",
        told: "",
    },
    // The name is compared as those of parameters are.
    Suspected {
        words: &["suspect", "m", "r", "--result=STATUS"],
        results: STATUS,
        status: 0,
        out: "1 failing test: B = y\n",
        told: "",
    },
    // Without a name it is `:result`; a skipped line may have no other cell.
    Suspected {
        words: USUAL,
        results: ("r", ":Result\tA\tB\nok\t1\tx\nfail\t2\ty\nSKIP\n"),
        status: 0,
        out: "1 failing test: A = 2\n1 failing test: B = y\n",
        told: "",
    },
    Suspected {
        words: &["suspect", "m", "r.csv", "--result", "Last run, today"],
        results: (
            "r.csv",
            "A,B,\"Last run, today\"\r\n1,x,pass\r\n2,x,fail\r\n2,y,fail\r\n",
        ),
        status: 0,
        out: "2 failing tests: A = 2\n1 failing test: B = y\n",
        told: "",
    },
    // All are skipped.
    Suspected {
        words: USUAL,
        results: ("r", "A\tB\t:result\n1\tx\tskip\n2\ty\tskipped\n"),
        status: 0,
        out: "",
        told: "",
    },
];

const REFUSED: &[Suspected<'static>] = &[
    Suspected {
        words: &["suspect", "m", "r", "--result=STATUS", "--case-sensitive"],
        results: STATUS,
        status: 2,
        out: "",
        told: "r:1: error: no column is named \"STATUS\"; the columns are A, B, Status [F5]\n",
    },
    Suspected {
        words: USUAL,
        results: STATUS,
        status: 2,
        out: "",
        told: "r:1: error: no column is named \":result\"; the columns are A, B, Status [F5]\n",
    },
    Suspected {
        words: USUAL,
        results: ("r", "A\t:result\n1\tpass\n"),
        status: 2,
        out: "",
        told: "r: error: no column for the parameter B [F3]\n",
    },
    // A word that is none for a result, or none at all.
    Suspected {
        words: USUAL,
        results: ("r", "A\tB\t:result\n1\tx\tpass\n\n2\ty\tflaky\n"),
        status: 2,
        out: "",
        told: "r:4: error: column :result: \"flaky\" is no result; expected pass, passed, ok, fail, failed, skip or skipped [F6]\n",
    },
    Suspected {
        words: USUAL,
        results: ("r", "A\tB\t:result\n1\tx\tpass\n2\ty\n"),
        status: 2,
        out: "",
        told: "r:3: error: column :result: the cell is empty; expected pass, passed, ok, fail, failed, skip or skipped [F6]\n",
    },
];

#[test]
fn lists_what_only_failing_tests_have(rt: HostRuntime) {
    for (number, run) in LISTED.iter().chain(REFUSED).enumerate() {
        let files = [("m", MODEL), run.results];
        let case = Case {
            words: run.words,
            files: &files,
            status: run.status,
            out: run.out,
            told: run.told,
            left: &files,
        };
        assert!(rt;
            ends_as(&rt, rt.alloc(), &case) == Ok(true),
            "case {number}"
        );
    }
}
