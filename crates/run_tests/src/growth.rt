//! The reports of models.

use test_runs::{Report, other_report};

/// A model in which the first value of A goes with no row.
pub const TWIN: &[u8] = b"A: 1, 2\nB: 1, 2\nC: 1, 2\n\
    IF [A] = 1 THEN [B] = [C];\nIF [A] = 1 THEN [B] <> [C];\n";

/// A model in which no value of C goes with the first value of A.
pub const NONE_LIVE: &[u8] = b"A: 1, 2\nB: x, y\nC: p, q, r\nIF [A] = 1 THEN [C] <> \"p\";\n\
    IF [A] = 1 THEN [C] <> \"q\";\nIF [A] = 1 THEN [C] <> \"r\";\n";

/// Its report.
pub const NONE_LIVE_REPORT: &str =
    "A\tB\tC\n2\tx\tp\n2\ty\tq\n2\tx\tr\n2\tx\tq\n2\ty\tp\n2\ty\tr\n";

/// Models, with their reports.
pub const REPORTS: &[Report<'static>] = &[
    Report {
        words: &["m"],
        model: b"A: 1, 2\nB: x, y\n",
        report: "A\tB\n1\tx\n1\ty\n2\tx\n2\ty\n",
    },
    Report {
        words: &["m"],
        model: b"A: 1, 2\nB: x, y\nIF [A] = 1 THEN [B] = \"x\";\n",
        report: "A\tB\n1\tx\n2\tx\n2\ty\n",
    },
    Report {
        words: &["m"],
        model: b"A: ~-1, 0, 1\nB: 0, 1\n[A] < 2;\n",
        report: "A\tB\n0\t0\n0\t1\n1\t0\n1\t1\n~-1\t0\n~-1\t1\n",
    },
    Report {
        words: &["m"],
        model: b"A: ~1, ~2\nB: x, y\nC: u, v\n",
        report: "A\tB\tC\n~1\tx\tu\n~1\ty\tv\n~2\tx\tu\n~2\ty\tv\n",
    },
    Report {
        words: &["m"],
        model: b"A: ~1, 2\nB: x, ~y\nNOT ISNEGATIVE([A]);\n",
        report: "A\tB\n2\tx\n2\t~y\n",
    },
    Report {
        words: &["m"],
        model: b"OS: Win8 | Win10, Linux\nB: 1, 2, 3\n",
        report: "OS\tB\nWin8\t1\nWin10\t2\nWin8\t3\nLinux\t1\nLinux\t2\nLinux\t3\n",
    },
    Report {
        words: &["m"],
        model: b"A: 1, 2\nB: 1, 2\nC: 1, 2\nD: 1, 2\n\
            IF [A] = 1 THEN [B] = [C];\nIF [A] = 1 THEN [B] <> [C];\n",
        report: "A\tB\tC\tD\n2\t1\t1\t1\n2\t2\t2\t2\n2\t1\t2\t1\n2\t2\t1\t1\n2\t1\t1\t2\n",
    },
    Report {
        words: &["m", "/o:1"],
        model: b"A: 1, 2\n",
        report: "A\n1\n2\n",
    },
    Report {
        words: &["m", "/o:max"],
        model: b"A: 1, 2\n",
        report: "A\n1\n2\n",
    },
    Report {
        words: &["m", "/o:1"],
        model: b"A: 1, 2 (5)\nB: x, y, Foo (bar)\n",
        report: "A\tB\n2\tx\n1\ty\n2\tFoo (bar)\n",
    },
    Report {
        words: &["m", "/o:1"],
        model: b"A: 1, 2\n[A] > 5;\n",
        report: "A\n",
    },
    Report {
        words: &["m", "/o:1"],
        model: b"A: 1, 2\nB: <A>, 3\n",
        report: "A\tB\n1\t1\n2\t2\n1\t3\n",
    },
    // Other orders of the values, by words of PCG and by weights.
    Report {
        words: &["m", "/o:1", "/r:7"],
        model: b"A: 1, 2, 3\nB: 1, 2\nC: 1, 2 (2), 3, 4 (2)\n",
        report: "A\tB\tC\n2\t2\t1\n1\t1\t2\n3\t2\t3\n2\t2\t4\n",
    },
];

#[test]
fn covers_what_can_be_covered(rt: HostRuntime) {
    assert_eq!(rt; other_report(&rt, rt.alloc(), REPORTS), None);
}

const TRIPLES: &[u8] = b"A: 1, 2\nB: x, y\nC: u, v\n";

const TRIPLES_REPORT: &str = "A\tB\tC\n1\tx\tu\n1\ty\tv\n2\tx\tv\n2\ty\tu\n";

/// Models by numbers of workers. Columns of so few sets are scored by one worker, however many are allowed.
pub const WORKERS: &[Report<'static>] = &[
    Report {
        words: &["m", "/workers:1"],
        model: TRIPLES,
        report: TRIPLES_REPORT,
    },
    Report {
        words: &["m", "/workers:2"],
        model: TRIPLES,
        report: TRIPLES_REPORT,
    },
    Report {
        words: &["m", "/workers:7"],
        model: TRIPLES,
        report: TRIPLES_REPORT,
    },
    Report {
        words: &["m", "/workers:64"],
        model: TRIPLES,
        report: TRIPLES_REPORT,
    },
    Report {
        words: &["m", "/workers:1"],
        model: NONE_LIVE,
        report: NONE_LIVE_REPORT,
    },
    Report {
        words: &["m", "/workers:2"],
        model: NONE_LIVE,
        report: NONE_LIVE_REPORT,
    },
    Report {
        words: &["m", "/workers:7"],
        model: NONE_LIVE,
        report: NONE_LIVE_REPORT,
    },
    Report {
        words: &["m", "/workers:64"],
        model: NONE_LIVE,
        report: NONE_LIVE_REPORT,
    },
];

#[test]
fn rows_are_the_same_for_any_number_of_workers(rt: HostRuntime) {
    assert_eq!(rt; other_report(&rt, rt.alloc(), WORKERS), None);
}
