//! Verdicts on reports of orders.

use crate::events::read;
use seq_check::{Events, OrderVerdict, check_orders};
use std::alloc::Global;
use value_text::NoMemory;

// What is said of a report.
enum Said {
    Accepted(u32, u32),
    BadLine(u32),
    Uncovered(&'static [u16]),
}

// Whether a verdict says this.
fn says(verdict: &OrderVerdict, said: &Said) -> bool {
    match (verdict, said) {
        (OrderVerdict::Accepted(rows, omissions), Said::Accepted(r, k)) => {
            *rows == *r && *omissions == *k
        }
        (OrderVerdict::BadLine(line), Said::BadLine(n)) => *line == *n,
        (OrderVerdict::Uncovered(sequence), Said::Uncovered(events)) => {
            sequence.as_slice() == *events
        }
        _ => false,
    }
}

// Whether the verdict on a report for these events says this.
fn is_said(alloc: Global, events: &Events, report: &str, said: &Said) -> bool {
    let lines = report.as_bytes();
    if lines.len() > 1000 {
        return false;
    }
    match check_orders(alloc, events, lines) {
        Ok(verdict) => says(&verdict, said),
        Err(NoMemory) => false,
    }
}

// The same for a file of events and sequences of two of them.
fn is_said_of(alloc: Global, file: &str, report: &str, said: &Said) -> bool {
    match read(alloc, file, 2) {
        Ok(events) => is_said(alloc, &events, report, said),
        Err(_) => false,
    }
}

// The events a, b and c, a before b.
const THREE: &str = "a\nb\nc\na < b\n";

// The events a and b, a before itself.
const LOOP: &str = "a\nb\na < a\n";

// Files of events, reports, and what is said of them.
const VERDICTS: &[(&str, &str, Said)] = &[
    (
        THREE,
        "a\tb\tc\nc\ta\tb\nnever b a : a b a\n",
        Said::Accepted(2, 1),
    ),
    (
        THREE,
        "a\tb\tc\nc\ta\tb\nnever b a : b a b",
        Said::Accepted(2, 1),
    ),
    (
        THREE,
        "never b a : a b a\nc\ta\tb\na\tb\tc\na\tb\tc\n",
        Said::Accepted(3, 1),
    ),
    (
        THREE,
        "never b a : a b a b a\na\tb\tc\nc\ta\tb\nnever b a : a b a\n",
        Said::Accepted(2, 2),
    ),
    (
        THREE,
        "a\tb\tc\nnever b a : a b a\n",
        Said::Uncovered(&[2, 0]),
    ),
    (THREE, "a\tb\tc\nc\ta\tb\n", Said::Uncovered(&[1, 0])),
    (THREE, "", Said::Uncovered(&[0, 1])),
    (
        LOOP,
        "never a b : a a\nnever b a : a a\n",
        Said::Accepted(0, 2),
    ),
    (
        LOOP,
        "never a b : a b a\nnever b a : a a\n",
        Said::BadLine(1),
    ),
    // No line of a permitted order.
    (THREE, "b\ta\tc\n", Said::BadLine(1)),
    (THREE, "a\tb\n", Said::BadLine(1)),
    (THREE, "a\tb\tb\n", Said::BadLine(1)),
    (THREE, "a\tb\tc\tc\n", Said::BadLine(1)),
    (THREE, "a b c\n", Said::BadLine(1)),
    (THREE, "a\tb\tc\t\n", Said::BadLine(1)),
    (THREE, "a\tb\td\n", Said::BadLine(1)),
    (LOOP, "a\tb\n", Said::BadLine(1)),
    // None of a sequence with a cycle.
    (THREE, "a\tb\tc\nnever b a : a b\n", Said::BadLine(2)),
    (THREE, "never b a : a\n", Said::BadLine(1)),
    (THREE, "never b a : c b c\n", Said::BadLine(1)),
    (THREE, "never a b : a b a\n", Said::BadLine(1)),
    (THREE, "never b b : b b\n", Said::BadLine(1)),
    (THREE, "never b a c : a b a\n", Said::BadLine(1)),
    (THREE, "never b a: a b a\n", Said::BadLine(1)),
    (THREE, "never b a :  a b a\n", Said::BadLine(1)),
    (THREE, "never b a :\n", Said::BadLine(1)),
    (THREE, "Never b a : a b a\n", Said::BadLine(1)),
    // No line is left out, and neither a carriage return nor a byte-order mark means anything.
    (THREE, "a\tb\tc\n\nc\ta\tb\n", Said::BadLine(2)),
    (THREE, "# c\n", Said::BadLine(1)),
    (THREE, "a\tb\tc\r\n", Said::BadLine(1)),
    (THREE, "\u{feff}a\tb\tc\n", Said::BadLine(1)),
    // An event of the name of the mark.
    ("never\na\n", "never\ta\na\tnever\n", Said::Accepted(2, 0)),
];

#[test]
fn gives_verdicts(rt: HostRuntime) {
    for (file, report, said) in VERDICTS {
        assert!(rt; is_said_of(rt.alloc(), file, report, said), "{report}");
    }
}
