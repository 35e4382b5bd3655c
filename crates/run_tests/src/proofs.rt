//! The proof files of models.

use crate::growth::{NONE_LIVE, NONE_LIVE_REPORT, TWIN};
use std::alloc::Global;
use std::thread::Threads;
use test_models::DISK;
use test_runs::{Given, on_model, run, writes};
use value_text::NoMemory;

// A model in which the first value of A goes with no row, and a parameter that no constraint names.
const TWIN_AND_ONE: &[u8] = b"A: 1, 2\nB: 1, 2\nC: 1, 2\nD: 1, 2\n\
    IF [A] = 1 THEN [B] = [C];\nIF [A] = 1 THEN [B] <> [C];\n";

const TWIN_AND_ONE_REPORT: &str =
    "A\tB\tC\tD\n2\t1\t1\t1\n2\t2\t2\t2\n2\t1\t2\t1\n2\t2\t1\t1\n2\t1\t1\t2\n";

const TWIN_REPORT: &str = "A\tB\tC\n2\t1\t1\n2\t2\t2\n";

const TWIN_PROOF: &str = "pict-proof 1\nomit 0=0 : B1 B2 L2 L1 B2 L1 L2\n";

// A parameter with negative values alone.
const NO_POSITIVE: &[u8] = b"A: ~1, ~2\nB: x, y\nC: u, v\n";

const NO_POSITIVE_REPORT: &str = "A\tB\tC\n~1\tx\tu\n~1\ty\tv\n~2\tx\tu\n~2\ty\tv\n";

const NO_POSITIVE_PROOF: &str =
    "pict-proof 1\nomit 1=0 2=0 : B0 N N\nomit 1=0 2=1 : B0 N N\nomit 1=1 2=0 : B0 N N\nomit 1=1 2=1 : B0 N N\n";

const NONE_LIVE_PROOF: &str =
    "pict-proof 1\nomit 0=0 2=0 : L1\nomit 0=0 2=1 : L2\nomit 0=0 2=2 : L3\n\
    omit 0=0 1=0 : B2 L1 L2 L3\nomit 0=0 1=1 : B2 L1 L2 L3\n";

/// A run with a proof.
pub struct Proof<'a> {
    /// The words behind the program's name.
    pub words: &'a [&'a str],
    /// The bytes of the model file `m`.
    pub model: &'a [u8],
    /// What standard output gets.
    pub report: &'a str,
    /// What the file `p` gets.
    pub proof: &'a str,
}

/// Models, with their reports and proofs.
pub const PROOFS: &[Proof<'static>] = &[
    Proof {
        words: &["m", "/proof:p"],
        model: b"A: 1, 2\nB: x, y\n",
        report: "A\tB\n1\tx\n1\ty\n2\tx\n2\ty\n",
        proof: "pict-proof 1\n",
    },
    Proof {
        words: &["m", "/proof:p"],
        model: b"A: 1, 2\nB: x, y\nIF [A] = 1 THEN [B] = \"x\";\n",
        report: "A\tB\n1\tx\n2\tx\n2\ty\n",
        proof: "pict-proof 1\nomit 0=0 1=1 : L1\n",
    },
    Proof {
        words: &["m", "/proof:p"],
        model: NO_POSITIVE,
        report: NO_POSITIVE_REPORT,
        proof: NO_POSITIVE_PROOF,
    },
    // Without a positive value of A each question visits one node.
    Proof {
        words: &["m", "/budget:1", "/proof:p"],
        model: NO_POSITIVE,
        report: NO_POSITIVE_REPORT,
        proof: NO_POSITIVE_PROOF,
    },
    Proof {
        words: &["m", "/proof:p"],
        model: NONE_LIVE,
        report: NONE_LIVE_REPORT,
        proof: NONE_LIVE_PROOF,
    },
    Proof {
        words: &["m", "/budget:3", "/Proof:p"],
        model: NONE_LIVE,
        report: NONE_LIVE_REPORT,
        proof: NONE_LIVE_PROOF,
    },
    Proof {
        words: &["m", "/o:1", "/proof:p"],
        model: b"A: 1, 2\n[A] > 5;\n",
        report: "A\n",
        proof: "pict-proof 1\nomit 0=0 : L1\nomit 0=1 : L1\n",
    },
    Proof {
        words: &["m", "/proof:p"],
        model: b"A: ~1, 2\nB: x, ~y\nNOT ISNEGATIVE([A]);\n",
        report: "A\tB\n2\tx\n2\t~y\n",
        proof: "pict-proof 1\nomit 0=0 1=0 : L1\n",
    },
    Proof {
        words: &["m", "/o:1", "/proof:p", "/budget:4"],
        model: TWIN,
        report: TWIN_REPORT,
        proof: TWIN_PROOF,
    },
    Proof {
        words: &["m", "/o:1", "/proof:p", "/budget:5"],
        model: TWIN,
        report: TWIN_REPORT,
        proof: TWIN_PROOF,
    },
    Proof {
        words: &["m", "/o:1", "/proof:p"],
        model: TWIN,
        report: TWIN_REPORT,
        proof: TWIN_PROOF,
    },
    Proof {
        words: &["m", "/proofformat:2", "/proof:p"],
        model: TWIN_AND_ONE,
        report: TWIN_AND_ONE_REPORT,
        proof: "pict-proof 2\nomit 0=0 1=0 : B2 L2 L1\nomit 0=0 1=1 : B2 L1 L2\nomit 0=0 2=0 : B1 L2 L1\n\
        omit 0=0 2=1 : B1 L1 L2\nomit 0=0 3=0 : B1 O1 O2\nomit 0=0 3=1 : B1 O1 O2\n",
    },
];

#[test]
fn lists_what_no_row_serves(rt: HostRuntime) {
    for run in PROOFS {
        let given = on_model(run.words, run.model);
        let writes = writes(&rt, rt.alloc(), &given, run.report, run.proof);
        assert!(rt; writes, "{:?}: {}", run.words, run.proof);
    }
}

// Whether a run ends with status 0, tells nothing, and leaves these bytes under this name.
fn leaves<R: Threads + Sync>(
    rt: &R,
    alloc: Global,
    given: &Given,
    name: &str,
    bytes: &[u8],
) -> bool {
    match run(rt, alloc, given) {
        Ok(ended) => {
            ended.status == 0 && ended.told.bytes().is_empty() && ended.holds(name, bytes)
        }
        Err(NoMemory) => false,
    }
}

#[test]
fn lists_four_pairs_of_the_disk_model(rt: HostRuntime) {
    let proof =
        b"pict-proof 1\nomit 1=4 3=0 : L1\nomit 1=5 3=0 : L1\nomit 1=6 3=0 : L1\nomit 1=6 3=1 : L2\n";
    let given = on_model(&["m", "/proof:p"], DISK.as_bytes());
    assert!(rt; leaves(&rt, rt.alloc(), &given, "p", proof));
}

// Words with which the growth of the twin rules ends early, and the line.
const ENDED: &[(&[&str], &str)] = &[
    (
        &["m", "/o:1", "/proof:p", "/budget:3"],
        "error: search budget 3 spent on 1=1\n",
    ),
    (
        &["m", "/o:1", "/proof:p", "/budget:2"],
        "error: search budget 2 spent on 0=0\n",
    ),
];

// Whether a run ends with status 2 and this line, and leaves neither report nor proof.
fn ends_early<R: Threads + Sync>(rt: &R, alloc: Global, given: &Given, line: &str) -> bool {
    match run(rt, alloc, given) {
        Ok(ended) => ended.is(2, "", line) && ended.files.held("p").is_none(),
        Err(NoMemory) => false,
    }
}

// Then no proof is written.
#[test]
fn writes_no_proof_without_a_suite(rt: HostRuntime) {
    for (words, line) in ENDED {
        let given = on_model(words, TWIN);
        assert!(rt; ends_early(&rt, rt.alloc(), &given, line), "{line}");
    }
}

// The model file was read before.
#[test]
fn the_proof_may_take_the_place_of_the_model(rt: HostRuntime) {
    let model = b"A: 1, 2\nB: x, y\nIF [A] = 1 THEN [B] = \"x\";\n";
    let given = on_model(&["m", "/proof:m"], model);
    let proof = b"pict-proof 1\nomit 0=0 1=1 : L1\n";
    assert!(rt; leaves(&rt, rt.alloc(), &given, "m", proof));
}
