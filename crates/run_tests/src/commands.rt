//! Runs that end otherwise than with a report, and what standard error gets.

use crate::growth::{NONE_LIVE, NONE_LIVE_REPORT, TWIN};
use memory_io::{MemFolder, MemSink};
use runs_in_memory::run_pict_in_memory;
use std::alloc::Global;
use std::thread::Threads;
use test_models::OVERLAPPING;
use test_runs::{End, Given, calls_of, ends_as, on_model, other_end, words_of};
use value_text::NoMemory;

const PAIRS: &[u8] = b"A: 1, 2\nB: x, y\n";

const PAIRS_REPORT: &str = "A\tB\n1\tx\n1\ty\n2\tx\n2\ty\n";

const ONE_ROW: &[u8] = b"A: 1\nB: x\n";

const REPEATED: &[u8] = b"A: a, A, b\n";

const TWIN_REPORT: &str = "A\tB\tC\n2\t1\t1\n2\t2\t2\n";

const ENDS: &[End<'static>] = &[
    // The first word that is not understood.
    End {
        words: &[],
        model: PAIRS,
        rows: b"",
        status: 3,
        written: "",
        told: "error: word 1 is not understood\n",
    },
    End {
        words: &["", "/q"],
        model: PAIRS,
        rows: b"",
        status: 3,
        written: "",
        told: "error: word 1 is not understood\n",
    },
    End {
        words: &["m", "/q"],
        model: PAIRS,
        rows: b"",
        status: 3,
        written: "",
        told: "error: word 2 is not understood\n",
    },
    End {
        words: &["m", "/d:~"],
        model: PAIRS,
        rows: b"",
        status: 3,
        written: "",
        told: "error: word 2 is not understood\n",
    },
    End {
        words: &["m", "/n:!", "/d:!"],
        model: PAIRS,
        rows: b"",
        status: 3,
        written: "",
        told: "error: word 3 is not understood\n",
    },
    End {
        words: &["m", "/measure:t", "/s"],
        model: PAIRS,
        rows: b"",
        status: 3,
        written: "",
        told: "error: word 3 is not understood\n",
    },
    End {
        words: &["m", "/s", "/measure:t"],
        model: PAIRS,
        rows: b"",
        status: 3,
        written: "",
        told: "error: word 3 is not understood\n",
    },
    // The last of a repeated option counts.
    End {
        words: &["m", "/o:1", "/O:3"],
        model: PAIRS,
        rows: b"",
        status: 4,
        written: "",
        told: "error: model line 2: M18 order above the number of parameters\n",
    },
    End {
        words: &["m", "/o:3", "/O:1"],
        model: PAIRS,
        rows: b"",
        status: 0,
        written: "A\tB\n1\tx\n2\ty\n",
        told: "",
    },
    // The greatest plain cost of a question, and the first question that costs more.
    End {
        words: &["m", "/budget:3"],
        model: NONE_LIVE,
        rows: b"",
        status: 0,
        written: NONE_LIVE_REPORT,
        told: "",
    },
    End {
        words: &["m", "/budget:2"],
        model: NONE_LIVE,
        rows: b"",
        status: 2,
        written: "",
        told: "error: search budget 2 spent on 1=0 2=1\n",
    },
    End {
        words: &["m", "/o:1", "/budget:4"],
        model: TWIN,
        rows: b"",
        status: 0,
        written: TWIN_REPORT,
        told: "",
    },
    End {
        words: &["m", "/o:1", "/budget:3"],
        model: TWIN,
        rows: b"",
        status: 2,
        written: "",
        told: "error: search budget 3 spent on 1=1\n",
    },
    End {
        words: &["m", "/o:1", "/budget:2"],
        model: TWIN,
        rows: b"",
        status: 2,
        written: "",
        told: "error: search budget 2 spent on 0=0\n",
    },
    End {
        words: &["m", "/o:1", "/budget:max", "/budget:3"],
        model: TWIN,
        rows: b"",
        status: 2,
        written: "",
        told: "error: search budget 3 spent on 1=1\n",
    },
    End {
        words: &["m", "/budget:"],
        model: TWIN,
        rows: b"",
        status: 3,
        written: "",
        told: "error: word 2 is not understood\n",
    },
    End {
        words: &["m", "/budget:maximum"],
        model: TWIN,
        rows: b"",
        status: 3,
        written: "",
        told: "error: word 2 is not understood\n",
    },
    // The seed of a shuffle is told where no word gave it.
    End {
        words: &["m", "/r:7"],
        model: ONE_ROW,
        rows: b"",
        status: 0,
        written: "A\tB\n1\tx\n",
        told: "",
    },
    End {
        words: &["m", "/r"],
        model: ONE_ROW,
        rows: b"",
        status: 0,
        written: "A\tB\n1\tx\n",
        told: "Used seed: 5\n",
    },
    End {
        words: &["m", "/r", "/o:3"],
        model: PAIRS,
        rows: b"",
        status: 4,
        written: "",
        told: "Used seed: 5\nerror: model line 2: M18 order above the number of parameters\n",
    },
    // A repeated value name is dropped with a note.
    End {
        words: &["m"],
        model: b"A: a, A, b\nB: x\n",
        rows: b"",
        status: 0,
        written: "A\tB\na\tx\nb\tx\n",
        told: "warning: model line 1: V1 repeated value name dropped\n",
    },
    End {
        words: &["m", "/o:1"],
        model: REPEATED,
        rows: b"",
        status: 0,
        written: "A\na\nb\n",
        told: "warning: model line 1: V1 repeated value name dropped\n",
    },
    End {
        words: &["m", "/o:1", "/c"],
        model: REPEATED,
        rows: b"",
        status: 0,
        written: "A\na\nA\nb\n",
        told: "",
    },
    // A weight that is none.
    End {
        words: &["m", "/o:1"],
        model: b"A: 1, 2 (5)\nB: x (0), y\n",
        rows: b"",
        status: 4,
        written: "",
        told: "error: model line 2: M9 weight out of range\n",
    },
];

#[test]
fn ends_with_a_status_and_a_line(rt: HostRuntime) {
    assert_eq!(rt; other_end(&rt, rt.alloc(), "t", ENDS), None);
}

// Choices of demanded sets are counted before equal sets are joined.
#[test]
fn choices_of_sets_have_a_limit(rt: HostRuntime) {
    let given = on_model(&["m"], OVERLAPPING.as_bytes());
    let line = "error: limit: demanded sets 11778624 above 1048576\n";
    assert!(rt; ends_as(&rt, rt.alloc(), &given, 9, "", line));
}

// The first word is a name, whatever its first character.
#[test]
fn a_name_may_look_like_an_option(rt: HostRuntime) {
    let given = Given {
        name: "/s",
        ..on_model(&["/s"], PAIRS)
    };
    assert!(rt; ends_as(&rt, rt.alloc(), &given, 0, PAIRS_REPORT, ""));
}

// Whether a run of the call for files in memory ends with status 0, prints the report and tells nothing.
fn runs_in<R: Threads + Sync>(
    rt: &R,
    alloc: Global,
    words: &[String],
    files: &mut MemFolder,
) -> Result<bool, NoMemory> {
    let mut out = MemSink::up_to(alloc, 100)?;
    let mut diag = MemSink::up_to(alloc, 100)?;
    let status = run_pict_in_memory(rt, alloc, words, files, &mut out, &mut diag, 5);
    let is_written = out.bytes() == PAIRS_REPORT.as_bytes();
    Ok(status == 0 && is_written && diag.bytes().is_empty())
}

fn runs_in_memory<R: Threads + Sync>(rt: &R, alloc: Global) -> Result<bool, NoMemory> {
    let words = words_of(alloc, &["m"])?;
    let mut files = MemFolder::new(alloc, calls_of(alloc, &[])?);
    files.add("m", PAIRS)?;
    runs_in(rt, alloc, words.as_slice(), &mut files)
}

#[test]
fn prints_the_report_from_memory_to_memory(rt: HostRuntime) {
    assert!(rt; runs_in_memory(&rt, rt.alloc()) == Ok(true));
}
