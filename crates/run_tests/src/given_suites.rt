//! Runs on a suite that is given: its figures, and the suspicious tuples in its results.

use test_runs::{End, other_end};

const GUARDED: &[u8] = b"A: 1, 2\nB: x, y\nIF [A] = 1 THEN [B] = \"x\";\n";

// Four rows, of which one is invalid and one is incomplete.
const SUITE: &[u8] = b"A\tB\n1\tx\n2\tx\n1\ty\n2\t\n";

const FIGURES: &str =
    "Tests: 2\nIncomplete tests: 1\nInvalid tests: 1\nDemanded sets: 1\nDemanded tuples: 4\n\
    Covered tuples: 2 of 3\nComplete sets: 0 of 1\nSets at 75 percent: 0 of 1\nSets at 50 percent: 1 of 1\n\
    Sets at 25 percent: 1 of 1\n";

/// Runs on a suite in the file t.
pub const MEASURED: &[End<'static>] = &[
    End {
        words: &["m", "/measure:t"],
        model: GUARDED,
        rows: SUITE,
        status: 0,
        written: FIGURES,
        told: "",
    },
    // The number of workers doesn't matter.
    End {
        words: &["m", "/measure:t", "/workers:2"],
        model: GUARDED,
        rows: SUITE,
        status: 0,
        written: FIGURES,
        told: "",
    },
    End {
        words: &["m", "/measure:t", "/workers:7"],
        model: GUARDED,
        rows: SUITE,
        status: 0,
        written: FIGURES,
        told: "",
    },
    End {
        words: &["m", "/measure:t", "/workers:64"],
        model: GUARDED,
        rows: SUITE,
        status: 0,
        written: FIGURES,
        told: "",
    },
    // The first demanded tuple that costs too much, and what is told of the file before it.
    End {
        words: &["m", "/measure:t", "/o:1", "/budget:1"],
        model: GUARDED,
        rows: b"A\tB\tQ\n1\tz\t\n",
        status: 2,
        written: "",
        told: "warning: row file line 1: V2 unknown column\nwarning: row file line 2: V3 unknown value\n\
        error: search budget 1 spent on 0=0\n",
    },
    // A suite has a column for each parameter.
    End {
        words: &["m", "/measure:t"],
        model: GUARDED,
        rows: b"A\n1\n",
        status: 6,
        written: "",
        told: "error: row file: F3 no column for parameter 1\n",
    },
    End {
        words: &["m", "/measure:u"],
        model: GUARDED,
        rows: SUITE,
        status: 7,
        written: "",
        told: "error: cannot read u\n",
    },
];

#[test]
fn measures_a_suite(rt: HostRuntime) {
    assert_eq!(rt; other_end(&rt, rt.alloc(), "t", MEASURED), None);
}

const TRIPLES: &[u8] = b"A: 1, 2\nB: x, y\nC: u, v\n";

const RESULTS: &[u8] =
    b"A\tB\tC\t:result\n1\tx\tu\tpass\n1\ty\tv\tfail\n2\tx\tv\tpass\n2\ty\tu\tpass\n";

const SUSPECTS: &str =
    "Passing tests: 3\nFailing tests: 1\nIncomplete tests: 0\nSuspicious tuples: 3\n\
    suspect 0=0 1=1 : 1 failing\nsuspect 0=0 2=1 : 1 failing\nsuspect 1=1 2=1 : 1 failing\n";

// Runs on results in the file t.
const SUSPECTED: &[End<'static>] = &[
    End {
        words: &["m", "/suspect:t"],
        model: TRIPLES,
        rows: RESULTS,
        status: 0,
        written: SUSPECTS,
        told: "",
    },
    // One more passing test takes the last tuple out.
    End {
        words: &["m", "/suspect:t"],
        model: TRIPLES,
        rows: b"A\tB\tC\t:result\n1\tx\tu\tpass\n1\ty\tv\tfail\n2\tx\tv\tpass\n2\ty\tu\tpass\n2\ty\tv\tpass\n",
        status: 0,
        written: "Passing tests: 4\nFailing tests: 1\nIncomplete tests: 0\nSuspicious tuples: 2\n\
        suspect 0=0 1=1 : 1 failing\nsuspect 0=0 2=1 : 1 failing\n",
        told: "",
    },
    // The result column is told by no note, other unknown columns are; the case of results doesn't count.
    End {
        words: &["m", "/suspect:t", "/o:1"],
        model: TRIPLES,
        rows: b"A\tB\tQ\tC\t:RESULT\n1\tx\tq\tu\tPASS\n2\tx\t\tz\tfail\n",
        status: 0,
        written: "Passing tests: 1\nFailing tests: 0\nIncomplete tests: 1\nSuspicious tuples: 0\n",
        told: "warning: row file line 1: V2 unknown column\nwarning: row file line 3: V3 unknown value\n",
    },
    // Results that are refused, of which no note is told.
    End {
        words: &["m", "/suspect:t"],
        model: TRIPLES,
        rows: b"A\tB\tC\t:result\n1\tx\tu\tpass\n1\ty\tv\tmaybe\n2\tx\tv\tpass\n2\ty\tu\tpass\n",
        status: 6,
        written: "",
        told: "error: row file line 3: F6 neither pass nor fail\n",
    },
    End {
        words: &["m", "/suspect:t"],
        model: TRIPLES,
        rows: b"A\tB\tC\tQ\t:result\n1\tx\tu\t\tpass\n1\ty\tv\t\tmaybe\n",
        status: 6,
        written: "",
        told: "error: row file line 3: F6 neither pass nor fail\n",
    },
    End {
        words: &["m", "/suspect:t"],
        model: TRIPLES,
        rows: b"A\tB\tC\n1\tx\tu\n",
        status: 6,
        written: "",
        told: "error: row file: F5 no result column\n",
    },
    End {
        words: &["m", "/suspect:t"],
        model: TRIPLES,
        rows: b"A\tB\t:result\n1\tx\tmaybe\n",
        status: 6,
        written: "",
        told: "error: row file: F3 no column for parameter 2\n",
    },
    End {
        words: &["m", "/suspect:u"],
        model: TRIPLES,
        rows: RESULTS,
        status: 7,
        written: "",
        told: "error: cannot read u\n",
    },
];

#[test]
fn finds_suspicious_tuples(rt: HostRuntime) {
    assert_eq!(rt; other_end(&rt, rt.alloc(), "t", SUSPECTED), None);
}
