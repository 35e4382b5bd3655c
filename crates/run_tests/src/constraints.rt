//! What constraints mean, by the rows of two parameters on which they hold.

use test_runs::{Report, other_report};

/// Models of one constraint, with their reports. A row with the negative values of both parameters is never valid.
pub const REPORTS: &[Report<'static>] = &[
    Report {
        words: &["m"],
        model: b"A: 1, 2.50, ~-3\nB: red, ~Green\n[A] > 1.5;\n",
        report: "A\tB\n2.50\tred\n2.50\t~Green\n",
    },
    Report {
        words: &["m"],
        model: b"A: 1, 2.50, ~-3\nB: red, ~Green\n[A] = 2.5 OR [A] = -3.0;\n",
        report: "A\tB\n2.50\tred\n~-3\tred\n2.50\t~Green\n",
    },
    Report {
        words: &["m"],
        model: b"A: 1, 2.50, ~-3\nB: red, ~Green\n[B] = \"RED\";\n",
        report: "A\tB\n1\tred\n2.50\tred\n~-3\tred\n",
    },
    Report {
        words: &["m"],
        model: b"A: 1, 2.50, ~-3\nB: red, ~Green\n[A] = [A];\n",
        report: "A\tB\n1\tred\n2.50\tred\n~-3\tred\n1\t~Green\n2.50\t~Green\n",
    },
    // Only the first name of a value counts.
    Report {
        words: &["m"],
        model: b"A: 1, 2.50, ~-3\nB: red | rot, ~Green\n[B] IN {\"rot\", \"GREEN\"};\n",
        report: "A\tB\n1\t~Green\n2.50\t~Green\n",
    },
    Report {
        words: &["m"],
        model: b"A: 1, 2.50, ~-3\nB: red, ~Green\n[B] LIKE \"r?d\";\n",
        report: "A\tB\n1\tred\n2.50\tred\n~-3\tred\n",
    },
    Report {
        words: &["m"],
        model: b"A: 1, 2.50, ~-3\nB: red, ~Green\nIF ISNEGATIVE([A]) THEN [B] = \"green\";\n",
        report: "A\tB\n1\tred\n2.50\tred\n1\t~Green\n2.50\t~Green\n",
    },
    Report {
        words: &["m"],
        model: b"A: 1, 2.50, ~-3\nB: red, ~Green\n\
            IF ISPOSITIVE([A]) THEN [B] = \"red\" ELSE [B] = \"green\";\n",
        report: "A\tB\n1\tred\n2.50\tred\n",
    },
    Report {
        words: &["m"],
        model: b"A: 1, 2.50, ~-3\nB: red, ~Green\n\
            NOT (ISPOSITIVE([A]) AND ([B] = \"red\" OR [A] > 1.5));\n",
        report: "A\tB\n~-3\tred\n1\t~Green\n",
    },
];

#[test]
fn prints_the_rows_on_which_constraints_hold(rt: HostRuntime) {
    assert_eq!(rt; other_report(&rt, rt.alloc(), REPORTS), None);
}
