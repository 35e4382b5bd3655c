//! Files and streams that can't be written, limits that are passed, and a budget that is spent.

use crate::case::{Case, MODEL, TABLE, ends_with};
use memory_io::MemSink;
use std::alloc::Global;
use std::thread::Threads;
use value_text::NoMemory;

// A run, and how many bytes standard output takes.
#[derive(Clone, Copy)]
struct Stopped<'a> {
    words: &'a [&'a str],
    files: &'a [(&'a str, &'a str)],
    room: usize,
    status: u8,
    told: &'a str,
}

const MODEL_AND_TABLE: &[(&str, &str)] = &[("m", MODEL), ("t", TABLE)];

const EVENTS: &[(&str, &str)] = &[("e", "a\nb\n"), ("q", "a\tb\nb\ta\n")];

const FULL_OUTPUT: &str = "jeldroft: error: cannot write to standard output\n";

// The two constraints leave A no first value. The query whether a test has B = 2 visits four nodes, since A = 1 is tried
// first; no other query of single values visits more than three.
const TWINS: &str =
    "A: 1, 2\nB: 1, 2\nC: 1, 2\nIF [A] = 1 THEN [B] = [C];\nIF [A] = 1 THEN [B] <> [C];\n";

// A name of a file for which there is no room, and standard output without room for all.
const UNWRITTEN: &[Stopped<'static>] = &[
    Stopped {
        words: &["generate", "m", "-o", "x"],
        files: MODEL_AND_TABLE,
        room: 4096,
        status: 3,
        told: "x: error: cannot write the file\n",
    },
    Stopped {
        words: &["generate", "m"],
        files: MODEL_AND_TABLE,
        room: 3,
        status: 3,
        told: FULL_OUTPUT,
    },
    Stopped {
        words: &["generate", "m", "-p", "x", "-o", "r"],
        files: MODEL_AND_TABLE,
        room: 4096,
        status: 3,
        told: "x: error: cannot write the file\n",
    },
    Stopped {
        words: &["measure", "m", "t", "-o", "x"],
        files: MODEL_AND_TABLE,
        room: 4096,
        status: 3,
        told: "x: error: cannot write the file\n",
    },
    Stopped {
        words: &["measure", "m", "t"],
        files: MODEL_AND_TABLE,
        room: 0,
        status: 3,
        told: FULL_OUTPUT,
    },
    Stopped {
        words: &["sequence", "e", "-o", "x"],
        files: EVENTS,
        room: 4096,
        status: 3,
        told: "x: error: cannot write the file\n",
    },
    Stopped {
        words: &["sequence", "e"],
        files: EVENTS,
        room: 0,
        status: 3,
        told: FULL_OUTPUT,
    },
    Stopped {
        words: &["sequence", "e", "--check", "q"],
        files: EVENTS,
        room: 0,
        status: 3,
        told: FULL_OUTPUT,
    },
];

// A file that isn't there, a limit of the model, and a budget.
const STOPPED: &[Stopped<'static>] = &[
    Stopped {
        words: &["sequence", "e", "--check", "x"],
        files: EVENTS,
        room: 4096,
        status: 3,
        told: "x: error: cannot read the file\n",
    },
    Stopped {
        words: &["generate", "m"],
        files: &[("m", MANY_NAMES)],
        room: 4096,
        status: 2,
        told: "m: error: limit: names 65 above 64\n",
    },
    Stopped {
        words: &["generate", "m", "-t", "1", "--budget", "3"],
        files: &[("m", TWINS)],
        room: 4096,
        status: 2,
        told: "m: error: a query of the search needs more than the budget of 3; without --budget every query is answered\n",
    },
];

// A value of 65 names.
const MANY_NAMES: &str = "A: \
    n0|n1|n2|n3|n4|n5|n6|n7|n8|n9|n10|n11|n12|\
    n13|n14|n15|n16|n17|n18|n19|n20|n21|n22|n23|n24|n25|\
    n26|n27|n28|n29|n30|n31|n32|n33|n34|n35|n36|n37|n38|\
    n39|n40|n41|n42|n43|n44|n45|n46|n47|n48|n49|n50|n51|\
    n52|n53|n54|n55|n56|n57|n58|n59|n60|n61|n62|n63|n64\n";

// Whether a run ends as it should, with a start of what it has to print.
fn ends<R: Threads + Sync>(rt: &R, alloc: Global, run: &Stopped<'_>) -> Result<bool, NoMemory> {
    let case = Case {
        words: run.words,
        files: run.files,
        status: run.status,
        out: "",
        told: run.told,
        left: run.files,
    };
    let mut out = MemSink::up_to(alloc, run.room)?;
    ends_with(rt, alloc, &case, &mut out)
}

#[test]
fn stops(rt: HostRuntime) {
    for (number, run) in UNWRITTEN.iter().chain(STOPPED).enumerate() {
        assert!(rt; ends(&rt, rt.alloc(), run) == Ok(true), "case {number}");
    }
}
