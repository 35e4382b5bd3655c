//! What is read of a model file.

use test_runs::{Report, other_report};

const PAIRS: &str = "A\tB\n1\tx\n1\ty\n2\tx\n2\ty\n";

/// Model files, with their reports.
pub const REPORTS: &[Report<'static>] = &[
    Report {
        words: &["m"],
        model: b"\xef\xbb\xbfA: 1, 2\r\nB: x, y",
        report: PAIRS,
    },
    Report {
        words: &["m"],
        model: b"# a comment \xff\n\nA: 1, 2\n \t\nB: x, y\n#\n",
        report: PAIRS,
    },
    Report {
        words: &["m"],
        model: b" File system :FAT,  NTFS \nSize: 10,1.5 ,-1\n",
        report: "File system\tSize\nFAT\t10\nFAT\t1.5\nFAT\t-1\nNTFS\t10\nNTFS\t1.5\nNTFS\t-1\n",
    },
    // A name may stand as a parameter and as a value, and as a value of both.
    Report {
        words: &["m"],
        model: b"a_1: a_1, b\nb: b\n",
        report: "a_1\tb\na_1\tb\nb\tb\n",
    },
    Report {
        words: &["m"],
        model: b"A: 1, 2\nB: x, y\n# c\nIF [A] = 3\n  THEN [B] = \"x\";\n",
        report: PAIRS,
    },
    Report {
        words: &["m", "/o:1", "/d:;"],
        model: b"A: 1; 2,5\n",
        report: "A\n1\n2,5\n",
    },
    Report {
        words: &["m", "/o:1", "/a:/"],
        model: b"A: a/b, c\nB: 1, 2, 3\n",
        report: "A\tB\na\t1\nc\t2\nb\t3\n",
    },
    Report {
        words: &["m", "/o:1", "/N:!"],
        model: b"A: !a, ~b\n",
        report: "A\n~b\n!a\n",
    },
    // What `pictacts` makes of a file with a section that is ignored.
    Report {
        words: &["m"],
        model: b"\n\n\nA: 1, 2\nB: x, y\n\nIF [A] = 1 THEN [B] = \"x\";\n",
        report: "A\tB\n1\tx\n2\tx\n2\ty\n",
    },
];

#[test]
fn reads_every_kind_of_line(rt: HostRuntime) {
    assert_eq!(rt; other_report(&rt, rt.alloc(), REPORTS), None);
}
