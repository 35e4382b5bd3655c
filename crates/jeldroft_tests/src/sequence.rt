//! `sequence`: orders of events, the verdict on a report of them, and what is told of files that are refused.

use crate::case::{Case, ends_as};
use std::alloc::Global;
use std::thread::Threads;
use value_text::NoMemory;

// The words, the file of events, the report that is checked, and what comes of them.
#[derive(Clone, Copy)]
struct Run<'a> {
    words: &'a [&'a str],
    events: &'a str,
    report: &'a str,
    status: u8,
    out: &'a str,
    told: &'a str,
}

const ORDERS: &[&str] = &["sequence", "e"];

const TRIPLES: &[&str] = &["sequence", "-t", "3", "e"];

const CHECK: &[&str] = &["sequence", "e", "--check", "q"];

// Of the six pairs of these events one is in no order, since it stands against the precedence.
const EVENTS: &str = "a\nb\nc\na < b\n";

const REPORT: &str = "a\tb\tc\nc\ta\tb\nnever b a : a b a\n";

const RUNS: &[Run<'static>] = &[
    Run {
        words: ORDERS,
        events: EVENTS,
        report: "",
        status: 0,
        out: REPORT,
        told: "",
    },
    // an event before itself: no order is left
    Run {
        words: ORDERS,
        events: "a\nb\na < a\n",
        report: "",
        status: 0,
        out: "never a b : a a\nnever b a : a a\n",
        told: "",
    },
    // an order of three events has one sequence of three, so there are all six
    Run {
        words: TRIPLES,
        events: "a\nb\nc\n",
        report: "",
        status: 0,
        out: "a\tb\tc\na\tc\tb\nb\ta\tc\nb\tc\ta\nc\ta\tb\nc\tb\ta\n",
        told: "",
    },
    // a report that is accepted; one without its second line; one whose second line is no permitted order
    Run {
        words: CHECK,
        events: EVENTS,
        report: REPORT,
        status: 0,
        out: "accepted: 2 rows, 1 omissions\n",
        told: "",
    },
    Run {
        words: CHECK,
        events: EVENTS,
        report: "a\tb\tc\nnever b a : a b a\n",
        status: 1,
        out: "refused: uncovered c a\n",
        told: "",
    },
    Run {
        words: CHECK,
        events: EVENTS,
        report: "a\tb\tc\nb\ta\tc\n",
        status: 1,
        out: "refused: report line 2\n",
        told: "",
    },
];

// Words, a file of events that is refused, and what is told.
const REFUSED: &[(&[&str], &str, &str)] = &[
    // no name and no precedence: by its first character, behind a name, and behind each part of a precedence
    (
        ORDERS,
        "a\n b\n",
        "e:2:1: error: expected the name of an event, of ASCII letters, digits and \"_\", found \" b\" [Q1]\n",
    ),
    (
        ORDERS,
        "\u{feff}\u{e4}b\n",
        "e:1:1: error: expected the name of an event, of ASCII letters, digits and \"_\", found \"\u{e4}b\" [Q1]\n",
    ),
    (
        ORDERS,
        "a\nopen file\r\n",
        "e:2:5: error: expected \" < \" and the name of an event, or the end of the line, found \" file\" [Q1]\n",
    ),
    (
        ORDERS,
        "a\nb\na <b\n",
        "e:3:2: error: expected \" < \" and the name of an event, or the end of the line, found \" <b\" [Q1]\n",
    ),
    (
        ORDERS,
        "a\na < \n",
        "e:2:5: error: expected the name of an event, of ASCII letters, digits and \"_\", found the end of the line [Q1]\n",
    ),
    (
        ORDERS,
        "a\nb\na < b c\n",
        "e:3:6: error: expected the end of the line, found \" c\" [Q1]\n",
    ),
    // an event twice
    (
        CHECK,
        "# events\nopen\nclose\n\nopen\n",
        "e:5:1: error: expected the name of another event, found \"open\", which line 2 declares [Q2]\n",
    ),
    // an event of a precedence that a later line declares, or none
    (
        ORDERS,
        "open\nopen < close\nclose\n",
        "e:2:8: error: expected an event that a line above declares, found \"close\" [Q3]\n",
    ),
    (
        ORDERS,
        "open\nshut < open\n",
        "e:2:1: error: expected an event that a line above declares, found \"shut\" [Q3]\n",
    ),
    // no event, or too few
    (
        ORDERS,
        "# none\n\n",
        "e:1:1: error: expected a line that declares an event, found none [Q4]\n",
    ),
    (
        ORDERS,
        "a\n# no more\n",
        "e:1:1: error: expected at least 2 events for sequences of 2, found \"a\" alone [Q5]\n",
    ),
    (
        TRIPLES,
        "\na\nb\na < b\n",
        "e:3:1: error: expected at least 3 events for sequences of 3, found \"a\" and \"b\" alone [Q5]\n",
    ),
    // more events than there may be
    (
        ORDERS,
        MANY,
        "e: error: the file has 65 events, and may have 64\n",
    ),
];

// 65 events.
const MANY: &str = "\
    e0\ne1\ne2\ne3\ne4\ne5\ne6\ne7\ne8\ne9\ne10\ne11\ne12\n\
    e13\ne14\ne15\ne16\ne17\ne18\ne19\ne20\ne21\ne22\ne23\ne24\ne25\n\
    e26\ne27\ne28\ne29\ne30\ne31\ne32\ne33\ne34\ne35\ne36\ne37\ne38\n\
    e39\ne40\ne41\ne42\ne43\ne44\ne45\ne46\ne47\ne48\ne49\ne50\ne51\n\
    e52\ne53\ne54\ne55\ne56\ne57\ne58\ne59\ne60\ne61\ne62\ne63\ne64\n";

// Whether a run ends as it should, and leaves its files.
fn ends<R: Threads + Sync>(rt: &R, alloc: Global, run: &Run<'_>) -> Result<bool, NoMemory> {
    let files = [("e", run.events), ("q", run.report)];
    let case = Case {
        words: run.words,
        files: &files,
        status: run.status,
        out: run.out,
        told: run.told,
        left: &files,
    };
    ends_as(rt, alloc, &case)
}

#[test]
fn orders_and_judges(rt: HostRuntime) {
    for (number, run) in RUNS.iter().enumerate() {
        assert!(rt; ends(&rt, rt.alloc(), run) == Ok(true), "case {number}");
    }
}

#[test]
fn says_what_is_refused(rt: HostRuntime) {
    for (number, (words, events, told)) in REFUSED.iter().enumerate() {
        let run = Run {
            words,
            events,
            report: "",
            status: 2,
            out: "",
            told,
        };
        assert!(rt; ends(&rt, rt.alloc(), &run) == Ok(true), "case {number}");
    }
}
