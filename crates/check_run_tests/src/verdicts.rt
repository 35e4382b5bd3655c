//! Verdicts on reports and proofs.

use crate::runs::{
    ACCEPTED, FILES, Given, MODEL, PROOF, REPORT, ends_as, ends_on, folder_of, on_files,
};
use memory_io::{MemFolder, MemSink};
use runs_in_memory::run_check_in_memory;
use std::alloc::Global;
use std::thread::Threads;
use test_runs::words_of;
use value_text::NoMemory;

// A model in which the first value of A goes with no row, and a parameter that no constraint names.
const TWIN: &[u8] = b"A: 1, 2\nB: 1, 2\nC: 1, 2\nD: 1, 2\n\
    IF [A] = 1 THEN [B] = [C];\nIF [A] = 1 THEN [B] <> [C];\n";

const TWIN_REPORT: &[u8] =
    b"A\tB\tC\tD\n2\t1\t1\t1\n2\t2\t2\t2\n2\t1\t2\t1\n2\t2\t1\t1\n2\t1\t1\t2\n";

// A report without the last row of the model's.
const SHORT_REPORT: &[u8] = b"A\tB\n1\tx\n2\tx\n";

const UNCOVERED: &str = "refused: uncovered 0=1 1=1\n";

// A model, a report, a proof, and the verdict.
const VERDICTS: &[(&[u8], &[u8], &[u8], u8, &str)] = &[
    (MODEL, REPORT, PROOF, 0, ACCEPTED),
    (MODEL, SHORT_REPORT, PROOF, 10, UNCOVERED),
    (
        MODEL,
        b"A\tB\n1\ty\n2\tx\n2\ty\n",
        PROOF,
        10,
        "refused: report line 2: not a valid row\n",
    ),
    (
        MODEL,
        REPORT,
        b"",
        10,
        "refused: proof line 1: not a proof line\n",
    ),
    (
        MODEL,
        REPORT,
        b"pict-proof 1\n",
        10,
        "refused: uncovered 0=0 1=1\n",
    ),
    (
        MODEL,
        b"B\tA\n\nx\t2\ny\t2\nx\t1\nx\t1\n",
        b"pict-proof 2\nomit 0=0 1=1 : L1\nomit 0=0 1=1 : O1\n",
        0,
        "accepted: 4 rows, 2 omissions\n",
    ),
    (
        b"A: 1, 2\nB: x, y\n",
        b"A\tB\n1\tx\n1\ty\n2\tx\n2\ty\n",
        b"",
        10,
        "refused: proof line 1: not a proof line\n",
    ),
    (
        TWIN,
        TWIN_REPORT,
        b"pict-proof 2\nomit 0=0 1=0 : B2 L2 L1\nomit 0=0 1=1 : B2 L1 L2\nomit 0=0 2=0 : B1 L2 L1\n\
        omit 0=0 2=1 : B1 L1 L2\nomit 0=0 3=0 : B1 O1 O2\nomit 0=0 3=1 : B1 O1 O2\n",
        0,
        "accepted: 5 rows, 6 omissions\n",
    ),
    (
        TWIN,
        TWIN_REPORT,
        b"pict-proof 1\nomit 0=0 1=0 : B2 L2 L1\nomit 0=0 1=1 : B2 L1 L2\nomit 0=0 2=0 : B1 L2 L1\n\
        omit 0=0 2=1 : B1 L1 L2\nomit 0=0 3=0 : B1 O1 O2\nomit 0=0 3=1 : B1 O1 O2\n",
        10,
        "refused: proof line 6: not a proof line\n",
    ),
    // A line cites none behind it.
    (
        TWIN,
        TWIN_REPORT,
        b"pict-proof 2\nomit 0=0 1=0 : B2 L2 L1\nomit 0=0 1=1 : B2 L1 L2\nomit 0=0 2=0 : B1 L2 L1\n\
        omit 0=0 2=1 : B1 L1 L2\nomit 0=0 3=0 : B1 O5 O2\nomit 0=0 3=1 : B1 O1 O2\n",
        10,
        "refused: proof line 6: the tree does not refute the tuple\n",
    ),
];

#[test]
fn says_what_is_wrong(rt: HostRuntime) {
    for (model, report, proof, status, line) in VERDICTS {
        let end = (*status, *line, "");
        let is_said = ends_on(&rt, rt.alloc(), model, report, proof, end);
        assert!(rt; is_said, "{line}");
    }
}

// A report, its verdict, and the number of workers.
const WORKERS: &[(&[u8], u8, &str, &str)] = &[
    (REPORT, 0, ACCEPTED, "/workers:1"),
    (REPORT, 0, ACCEPTED, "/workers:2"),
    (REPORT, 0, ACCEPTED, "/WORKERS:7"),
    (REPORT, 0, ACCEPTED, "/workers:64"),
    (SHORT_REPORT, 10, UNCOVERED, "/workers:1"),
    (SHORT_REPORT, 10, UNCOVERED, "/workers:2"),
    (SHORT_REPORT, 10, UNCOVERED, "/WORKERS:7"),
    (SHORT_REPORT, 10, UNCOVERED, "/workers:64"),
];

#[test]
fn is_the_same_for_any_number_of_workers(rt: HostRuntime) {
    for (report, status, line, word) in WORKERS {
        let files = [("m", MODEL), ("r", *report), ("p", PROOF)];
        let given = Given {
            words: &["m", "r", "p", word],
            ..on_files(&files)
        };
        assert!(rt;
            ends_as(&rt, rt.alloc(), &given, *status, line, ""),
            "{word}"
        );
    }
}

// Whether a run of the call for files in memory accepts, and tells nothing.
fn accepts_in<R: Threads + Sync>(
    rt: &R,
    alloc: Global,
    words: &[String],
    files: &mut MemFolder,
) -> Result<bool, NoMemory> {
    let mut out = MemSink::up_to(alloc, 100)?;
    let mut diag = MemSink::up_to(alloc, 100)?;
    let status = run_check_in_memory(rt, alloc, words, files, &mut out, &mut diag);
    let is_written = out.bytes() == ACCEPTED.as_bytes();
    Ok(status == 0 && is_written && diag.bytes().is_empty())
}

fn accepts_in_memory<R: Threads + Sync>(rt: &R, alloc: Global) -> Result<bool, NoMemory> {
    let words = words_of(alloc, &["m", "r", "p"])?;
    let mut files = folder_of(alloc, &on_files(FILES))?;
    accepts_in(rt, alloc, words.as_slice(), &mut files)
}

#[test]
fn accepts_from_memory_to_memory(rt: HostRuntime) {
    assert!(rt; accepts_in_memory(&rt, rt.alloc()) == Ok(true));
}
