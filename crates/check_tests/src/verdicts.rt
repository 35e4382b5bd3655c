//! Verdicts and refusals, with different numbers of workers.

use crate::checks::check;
use crate::disk::{REPORT, ROWS};
use std::test::Fail;
use test_models::{DISK, OVERLAPPING, WORKERS};
use worker_gate::OpenGate;

// The second value of B doesn't go with the first of A.
const PAIR: &str = "A: 1, 2\nB: x, y\nIF [A] = 1 THEN [B] = \"x\";\n";

const PAIR_PROOF: &str = "pict-proof 1\nomit 0=0 1=1 : L1\n";

// With the first value of A, B and C have to be equal and not equal.
const TWIN: &str = "A: 1, 2\nB: 1, 2\nC: 1, 2\nD: 1, 2\nIF [A] = 1 THEN [B] = [C];\n\
    IF [A] = 1 THEN [B] <> [C];\n";

const TWIN_REPORT: &str =
    "A\tB\tC\tD\n2\t1\t1\t1\n2\t2\t2\t2\n2\t1\t2\t1\n2\t2\t1\t1\n2\t1\t1\t2\n";

// What is checked, and the answer.
struct Case<'a> {
    model: &'a str,
    report: &'a str,
    proof: &'a str,
    answer: &'a str,
}

const ANSWERS: &[Case<'static>] = &[
    Case {
        model: PAIR,
        report: "A\tB\n1\tx\n2\tx\n2\ty\n",
        proof: PAIR_PROOF,
        answer: "accepted 3 1",
    },
    Case {
        model: PAIR,
        report: "A\tB\n1\tx\n2\tx\n",
        proof: PAIR_PROOF,
        answer: "uncovered 0=1 1=1",
    },
    Case {
        model: PAIR,
        report: "A\tB\n1\ty\n2\tx\n2\ty\n",
        proof: PAIR_PROOF,
        answer: "row 2",
    },
    Case {
        model: PAIR,
        report: "A\n1\n2\n2\n",
        proof: PAIR_PROOF,
        answer: "missing 1",
    },
    // an incomplete row is no row of a suite, though it serves nothing
    Case {
        model: PAIR,
        report: "A\tB\n1\tx\n2\tx\n2\ty\n2\n",
        proof: PAIR_PROOF,
        answer: "row 5",
    },
    // a listed tuple isn't another of the same parameters
    Case {
        model: PAIR,
        report: "A\tB\n1\tx\n2\tx\n2\ty\n",
        proof: "pict-proof 1\nomit 0=0 : B1 L1 L1\n",
        answer: "tree 2",
    },
    Case {
        model: PAIR,
        report: "A\tB\n1\tx\n2\tx\n2\ty\n",
        proof: "pict-proof 1\n",
        answer: "uncovered 0=0 1=1",
    },
    // repeated rows and lines count each
    Case {
        model: PAIR,
        report: "A\tB\n1\tx\n1\tx\n2\tx\n2\ty\n",
        proof: "pict-proof 1\nomit 0=0 1=1 : L1\nomit 0=0 1=1 : L1\n",
        answer: "accepted 4 2",
    },
    // a bad row comes before a bad proof, and a line that is no spelling before a bad tree
    Case {
        model: PAIR,
        report: "A\tB\n1\ty\n",
        proof: "",
        answer: "row 2",
    },
    Case {
        model: PAIR,
        report: "A\tB\n1\tx\n",
        proof: "",
        answer: "proof 1",
    },
    Case {
        model: PAIR,
        report: "A\tB\n1\tx\n",
        proof: "pict-proof 1\nomit 0=1 1=1 : L1\nomit\n",
        answer: "proof 3",
    },
    Case {
        model: PAIR,
        report: "A\tB\n1\tx\n",
        proof: "pict-proof 1\nomit 0=1 1=1 : L1\n",
        answer: "tree 2",
    },
    Case {
        model: "A: 1, 2\n",
        report: "A\n",
        proof: "pict-proof 1\n",
        answer: "model 1 M18",
    },
    Case {
        model: "A 1\n",
        report: "",
        proof: "",
        answer: "model 1 M3",
    },
    Case {
        model: OVERLAPPING,
        report: "",
        proof: "",
        answer: "11778624 sets",
    },
    Case {
        model: PAIR,
        report: "",
        proof: "pict-proof 1\n",
        answer: "no header",
    },
    Case {
        model: PAIR,
        report: "A\tB\tA\n",
        proof: "pict-proof 1\n",
        answer: "twice 1",
    },
    Case {
        model: PAIR,
        report: "A\tB\n1\tx\t\n",
        proof: "pict-proof 1\n",
        answer: "width 2",
    },
    Case {
        model: TWIN,
        report: TWIN_REPORT,
        proof: "pict-proof 2\nomit 0=0 1=0 : B2 L2 L1\nomit 0=0 1=1 : B2 L1 L2\nomit 0=0 2=0 : B1 L2 L1\n\
         omit 0=0 2=1 : B1 L1 L2\nomit 0=0 3=0 : B1 O1 O2\nomit 0=0 3=1 : B1 O1 O2\n",
        answer: "accepted 5 6",
    },
    // a line that cites itself
    Case {
        model: TWIN,
        report: TWIN_REPORT,
        proof: "pict-proof 2\nomit 0=0 1=0 : B2 L2 L1\nomit 0=0 1=1 : B2 L1 L2\nomit 0=0 2=0 : B1 L2 L1\n\
         omit 0=0 2=1 : B1 L1 L2\nomit 0=0 3=0 : B1 O5 O2\nomit 0=0 3=1 : B1 O1 O2\n",
        answer: "tree 6",
    },
    // format 1 has no citations
    Case {
        model: TWIN,
        report: TWIN_REPORT,
        proof: "pict-proof 1\nomit 0=0 1=0 : B2 L2 L1\nomit 0=0 1=1 : B2 L1 L2\nomit 0=0 2=0 : B1 L2 L1\n\
         omit 0=0 2=1 : B1 L1 L2\nomit 0=0 3=0 : B1 O1 O2\nomit 0=0 3=1 : B1 O1 O2\n",
        answer: "proof 6",
    },
];

#[test]
fn answers_are_those_of_the_definition(rt: HostRuntime) -> Result<(), Fail> {
    for case in ANSWERS {
        for workers in WORKERS {
            let texts = (case.model, case.report, case.proof);
            let answer = check(&rt, rt.alloc(), texts, *workers, &OpenGate)?;
            assert!(rt; answer.as_str() == case.answer, "{}: {answer}", case.answer);
        }
    }
    Ok(())
}

// The proof of the model of disks, a change of its second line, and one without its last byte.
const DISK_PROOFS: &[(&str, &str)] = &[
    (
        "pict-proof 1\nomit 1=4 3=0 : L1\nomit 1=5 3=0 : L1\nomit 1=6 3=0 : L1\nomit 1=6 3=1 : L2\n",
        "accepted",
    ),
    (
        "pict-proof 1\nomit 1=4 3=0 : L2\nomit 1=5 3=0 : L1\nomit 1=6 3=0 : L1\nomit 1=6 3=1 : L2\n",
        "tree 2",
    ),
    (
        "pict-proof 1\nomit 1=4 3=0 : L1\nomit 1=5 3=0 : L1\nomit 1=6 3=0 : L1\nomit 1=6 3=1 : L2",
        "proof 5",
    ),
];

#[test]
fn a_suite_of_disks_is_checked(rt: HostRuntime) -> Result<(), Fail> {
    let accepted = format!(in rt.alloc(); "accepted {ROWS} 4")?;
    for (proof, wanted) in DISK_PROOFS {
        for workers in WORKERS {
            let answer = check(&rt, rt.alloc(), (DISK, REPORT, proof), *workers, &OpenGate)?;
            let is_wanted = if *wanted == "accepted" {
                answer.as_str() == accepted.as_str()
            } else {
                answer.as_str() == *wanted
            };
            assert!(rt; is_wanted, "{wanted}: {answer}");
        }
    }
    Ok(())
}
