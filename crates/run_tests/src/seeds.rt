//! Runs from seed rows, and statistics.

use crate::growth::TWIN;
use std::alloc::Global;
use std::thread::Threads;
use test_models::DISK;
use test_runs::{End, on_model, other_end, run};
use value_text::NoMemory;

const PAIRS: &[u8] = b"A: 1, 2\nB: x, y\n";

const SYSTEMS: &[u8] = b"OS: Win8 | Win10, Linux\nB: 1, 2, 3\n";

const NEGATIVES: &[u8] = b"A: 1, 2\nB: x, ~n\nC: v, ~m\nIF [A] = 2 THEN [C] = \"v\";\n";

const NEGATIVE_SEEDS: &[u8] =
    b"C\tZ\tA\tB\nv\tq\t2\t\nv\tq\t2\t\n\n~m\tq\t2\t\n~m\tq\t1\t~n\nk\tq\t1\t\n";

const NEGATIVE_REPORT: &str = "A\tB\tC\n2\tx\tv\n1\tx\tv\n1\t~n\tv\n2\t~n\tv\n1\tx\t~m\n";

const NEGATIVE_NOTES: &str = "warning: row file line 1: V2 unknown column\n\
    warning: row file line 7: V3 unknown value\n\
    warning: row file line 5: V4 no valid row serves this row\n\
    warning: row file line 6: V4 no valid row serves this row\n";

/// Runs with the row file s.
pub const SEEDED: &[End<'static>] = &[
    End {
        words: &["m", "/e:s"],
        model: SYSTEMS,
        rows: b"OS\tB\nWin10\t3\n",
        status: 0,
        written: "OS\tB\nWin8\t3\nWin10\t1\nWin8\t2\nLinux\t1\nLinux\t2\nLinux\t3\n",
        told: "",
    },
    End {
        words: &["m", "/e:s"],
        model: NEGATIVES,
        rows: NEGATIVE_SEEDS,
        status: 0,
        written: NEGATIVE_REPORT,
        told: NEGATIVE_NOTES,
    },
    // The number of workers that may score doesn't matter.
    End {
        words: &["m", "/e:s", "/workers:2"],
        model: NEGATIVES,
        rows: NEGATIVE_SEEDS,
        status: 0,
        written: NEGATIVE_REPORT,
        told: NEGATIVE_NOTES,
    },
    End {
        words: &["m", "/e:s", "/workers:7"],
        model: NEGATIVES,
        rows: NEGATIVE_SEEDS,
        status: 0,
        written: NEGATIVE_REPORT,
        told: NEGATIVE_NOTES,
    },
    End {
        words: &["m", "/e:s", "/workers:64"],
        model: NEGATIVES,
        rows: NEGATIVE_SEEDS,
        status: 0,
        written: NEGATIVE_REPORT,
        told: NEGATIVE_NOTES,
    },
    // What is told of the row file once it is read, and once there is a suite.
    End {
        words: &["m", "/e:s", "/budget:1"],
        model: NEGATIVES,
        rows: b"A\tQ\n2\t\n",
        status: 2,
        written: "",
        told: "warning: row file line 1: V2 unknown column\nerror: search budget 1 spent on 0=1\n",
    },
    End {
        words: &["m", "/e:s", "/proof:q"],
        model: NEGATIVES,
        rows: NEGATIVE_SEEDS,
        status: 8,
        written: "",
        told: "warning: row file line 1: V2 unknown column\n\
        warning: row file line 7: V3 unknown value\n\
        warning: row file line 5: V4 no valid row serves this row\n\
        warning: row file line 6: V4 no valid row serves this row\n\
        error: cannot write q\n",
    },
    // Row files that are refused.
    End {
        words: &["m", "/e:s"],
        model: PAIRS,
        rows: b"\n\n",
        status: 6,
        written: "",
        told: "error: row file: F1 no header\n",
    },
    End {
        words: &["m", "/e:s"],
        model: PAIRS,
        rows: b"A\tB\tA\n",
        status: 6,
        written: "",
        told: "error: row file line 1: F2 parameter in two columns\n",
    },
    End {
        words: &["m", "/e:s"],
        model: PAIRS,
        rows: b"Q\n1\tx\n",
        status: 6,
        written: "",
        told: "error: row file line 2: F4 more cells than the header\n",
    },
    End {
        words: &["m", "/e:t"],
        model: PAIRS,
        rows: b"A\n",
        status: 7,
        written: "",
        told: "error: cannot read t\n",
    },
    // A row file is looked at once the model has its reading.
    End {
        words: &["m", "/e:t"],
        model: b"A 1\n",
        rows: b"",
        status: 4,
        written: "",
        told: "error: model line 1: M3 no colon\n",
    },
    End {
        words: &["m", "/e:t"],
        model: b"A: a, A, b\nB: x\n",
        rows: b"",
        status: 7,
        written: "",
        told: "warning: model line 1: V1 repeated value name dropped\nerror: cannot read t\n",
    },
    // Seed rows that are left out are told once there is a suite.
    End {
        words: &["m", "/o:1", "/e:s", "/budget:3"],
        model: TWIN,
        rows: b"A\n1\n",
        status: 2,
        written: "",
        told: "error: search budget 3 spent on 1=1\n",
    },
    End {
        words: &["m", "/o:1", "/e:s", "/budget:4"],
        model: TWIN,
        rows: b"A\n1\n",
        status: 0,
        written: "A\tB\tC\n2\t1\t1\n2\t2\t2\n",
        told: "warning: row file line 2: V4 no valid row serves this row\n",
    },
    // Statistics in place of rows.
    End {
        words: &["m", "/s"],
        model: PAIRS,
        rows: b"",
        status: 0,
        written: "Demanded sets: 1\nDemanded tuples: 4\nOmitted tuples: 0\nKept seeds: 0\nGenerated tests: 4\n",
        told: "",
    },
    End {
        words: &["m", "/S", "/e:s"],
        model: NEGATIVES,
        rows: b"C\tA\nv\t2\nv\t2\n\t1\n",
        status: 0,
        written: "Demanded sets: 3\nDemanded tuples: 11\nOmitted tuples: 1\nKept seeds: 2\nGenerated tests: 5\n",
        told: "",
    },
];

#[test]
fn grows_from_seed_rows(rt: HostRuntime) {
    assert_eq!(rt; other_end(&rt, rt.alloc(), "s", SEEDED), None);
}

// The statistics of the disk model, but for the number of tests.
const DISK_NUMBERS: &str =
    "Demanded sets: 15\nDemanded tuples: 331\nOmitted tuples: 4\nKept seeds: 0\n";

const DISK_PROOF: &[u8] =
    b"pict-proof 1\nomit 1=4 3=0 : L1\nomit 1=5 3=0 : L1\nomit 1=6 3=0 : L1\nomit 1=6 3=1 : L2\n";

// Whether a report is the statistics of the disk model.
fn are_disk_statistics(report: &[u8]) -> bool {
    match str::from_utf8(report) {
        Ok(text) => text.starts_with(DISK_NUMBERS) && text.lines().count() == 5,
        Err(_) => false,
    }
}

// Whether a run on the disk model prints them, and leaves its proof.
fn counts_disk<R: Threads + Sync>(rt: &R, alloc: Global) -> bool {
    match run(
        rt,
        alloc,
        &on_model(&["m", "/proof:p", "/s"], DISK.as_bytes()),
    ) {
        Ok(ended) => {
            ended.status == 0
                && are_disk_statistics(ended.written.bytes())
                && ended.told.bytes().is_empty()
                && ended.holds("p", DISK_PROOF)
        }
        Err(NoMemory) => false,
    }
}

#[test]
fn counts_what_is_generated(rt: HostRuntime) {
    assert!(rt; counts_disk(&rt, rt.alloc()));
}
