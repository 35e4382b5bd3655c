//! Files that have no reading.

use crate::runs::{MODEL, PROOF, REPORT, ends_on};
use test_models::OVERLAPPING;

const PAIRS: &[u8] = b"A: 1, 2\nB: x, y\n";

// A model and a report, of which one has no reading.
struct Refusal<'a> {
    model: &'a [u8],
    report: &'a [u8],
    status: u8,
    // The line on standard error.
    line: &'a str,
}

const REFUSALS: &[Refusal<'static>] = &[
    Refusal {
        model: MODEL,
        report: b"A\n1\n",
        status: 6,
        line: "error: row file: F3 no column for parameter 1\n",
    },
    Refusal {
        model: PAIRS,
        report: b"",
        status: 6,
        line: "error: row file: F1 no header\n",
    },
    Refusal {
        model: PAIRS,
        report: b"A\tB\tA\n",
        status: 6,
        line: "error: row file line 1: F2 parameter in two columns\n",
    },
    Refusal {
        model: PAIRS,
        report: b"A\tB\n1\tx\ty\n",
        status: 6,
        line: "error: row file line 2: F4 more cells than the header\n",
    },
    Refusal {
        model: b"A 1\n",
        report: REPORT,
        status: 4,
        line: "error: model line 1: M3 no colon\n",
    },
    Refusal {
        model: b"A: 1, 2\nB: x, y\n[A] = \"1\";\n",
        report: REPORT,
        status: 5,
        line: "error: model line 3: C13 types differ\n",
    },
    Refusal {
        model: b"",
        report: b"",
        status: 4,
        line: "error: model line 1: M17 no parameters\n",
    },
];

#[test]
fn tells_the_first_cause(rt: HostRuntime) {
    for refusal in REFUSALS {
        let end = (refusal.status, "", refusal.line);
        let is_told = ends_on(&rt, rt.alloc(), refusal.model, refusal.report, PROOF, end);
        assert!(rt; is_told, "{}", refusal.line);
    }
}

// Choices of demanded sets are counted before the report is looked at.
#[test]
fn choices_of_sets_have_a_limit(rt: HostRuntime) {
    let line = "error: limit: demanded sets 11778624 above 1048576\n";
    let model = OVERLAPPING.as_bytes();
    assert!(rt; ends_on(&rt, rt.alloc(), model, b"", PROOF, (9, "", line)));
}

// Notes aren't told: a value name that is dropped, and a column that no parameter has.
#[test]
fn tells_no_notes(rt: HostRuntime) {
    let model = b"A: 1, 2, 1\nB: x, y\nIF [A] = 1 THEN [B] = \"x\";\n";
    let report = b"A\tB\tZ\n1\tx\tq\n2\tx\tq\n2\ty\tq\n";
    let end = (0, "accepted: 3 rows, 1 omissions\n", "");
    assert!(rt; ends_on(&rt, rt.alloc(), model, report, PROOF, end));
}
