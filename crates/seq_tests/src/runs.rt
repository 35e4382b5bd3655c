//! Whole runs of `pictseq`, over a folder and sinks in memory.

use memory_io::{Calls, MemFolder, MemSink};
use runs_in_memory::run_seq_in_memory;
use seq_cli::run_seq;
use std::alloc::Global;
use value_text::NoMemory;

fn push_words(alloc: Global, text: &str, words: &mut Vec<String>) -> Result<(), NoMemory> {
    for word in text.split(' ') {
        words.push(String::from_str(alloc, word)?)?;
    }
    Ok(())
}

// The words of a text, parted by spaces; none of no text.
fn words_of(alloc: Global, text: Option<&str>) -> Result<Vec<String>, NoMemory> {
    let mut words = Vec::new(alloc);
    if let Some(text) = text {
        push_words(alloc, text, &mut words)?;
    }
    Ok(words)
}

fn calls_of(alloc: Global, numbers: &[u64]) -> Result<Calls, NoMemory> {
    let mut calls = Calls::new(alloc);
    for number in numbers {
        calls.push(*number)?;
    }
    Ok(calls)
}

/// What a run is given.
#[derive(Clone, Copy)]
pub(crate) struct Given<'a> {
    /// The words behind the program's name, parted by spaces, where there are any.
    pub words: Option<&'a str>,
    /// The bytes of the file `f`.
    pub file: &'a [u8],
    /// Those of the file `r`, where there are any.
    pub report: &'a [u8],
    /// The numbers of the calls of the folder that fail, from 1.
    pub fail: &'a [u64],
    /// How many bytes fit into standard output, and into standard error.
    pub room: (usize, usize),
}

fn folder_of(alloc: Global, given: &Given) -> Result<MemFolder, NoMemory> {
    let mut folder = MemFolder::new(alloc, calls_of(alloc, given.fail)?);
    folder.add("f", given.file)?;
    if !given.report.is_empty() {
        folder.add("r", given.report)?;
    }
    Ok(folder)
}

/// A status, and what the two streams get.
type End<'a> = (u8, &'a str, &'a str);

// Whether a run of these words in this folder ends so.
fn ends_in(
    alloc: Global,
    words: &[String],
    files: &mut MemFolder,
    room: (usize, usize),
    end: End,
) -> Result<bool, NoMemory> {
    let mut out = MemSink::up_to(alloc, room.0)?;
    let mut diag = MemSink::up_to(alloc, room.1)?;
    let status = run_seq(alloc, words, files, &mut out, &mut diag);
    let is_written = out.bytes() == end.1.as_bytes();
    let is_told = diag.bytes() == end.2.as_bytes();
    Ok(status == end.0 && is_written && is_told)
}

fn ends(alloc: Global, given: &Given, end: End) -> Result<bool, NoMemory> {
    let words = words_of(alloc, given.words)?;
    let mut files = folder_of(alloc, given)?;
    ends_in(alloc, words.as_slice(), &mut files, given.room, end)
}

/// Whether a run ends with this status, and the two streams get these texts. `false` too where memory was refused.
pub(crate) fn ends_as(alloc: Global, given: &Given, end: End) -> bool {
    match ends(alloc, given, end) {
        Ok(is_so) => is_so,
        Err(NoMemory) => false,
    }
}

/// The events a, b and c, a before b.
pub(crate) const THREE: &str = "a\nb\nc\na < b\n";
/// Their report.
pub(crate) const REPORT: &str = "a\tb\tc\nc\ta\tb\nnever b a : a b a\n";

// A run on a file, and on a report, where it has a byte.
struct Run<'a> {
    words: &'a str,
    file: &'a str,
    report: &'a str,
    // The status, and what the two streams get.
    status: u8,
    written: &'a str,
    told: &'a str,
}

const RUNS: &[Run<'static>] = &[
    // Reports.
    Run {
        words: "f",
        file: THREE,
        report: "",
        status: 0,
        written: REPORT,
        told: "",
    },
    Run {
        words: "f",
        file: "a\nb\na < a\n",
        report: "",
        status: 0,
        written: "never a b : a a\nnever b a : a a\n",
        told: "",
    },
    Run {
        words: "f",
        file: "a\nb\nc\nd\n",
        report: "",
        status: 0,
        written: "a\tb\tc\td\nb\ta\tc\td\nb\tc\ta\td\na\tc\tb\td\nb\tc\td\ta\na\tc\td\tb\na\tb\td\tc\n",
        told: "",
    },
    Run {
        words: "f",
        file: "a\nb\nc\nd\nd < c\nc < b\n",
        report: "",
        status: 0,
        written: "a\td\tc\tb\nd\tc\tb\ta\nnever b c : b c b\nnever b d : b d c b\nnever c d : c d c\n",
        told: "",
    },
    Run {
        words: "f /t:3",
        file: "a\nb\nc\n",
        report: "",
        status: 0,
        written: "a\tb\tc\na\tc\tb\nb\ta\tc\nb\tc\ta\nc\ta\tb\nc\tb\ta\n",
        told: "",
    },
    Run {
        words: "f /t:3",
        file: "a\nb\nc\nd\na < b\nb < c\n",
        report: "",
        status: 0,
        written: "a\tb\tc\td\n\
        a\td\tb\tc\n\
        a\tb\td\tc\n\
        d\ta\tb\tc\n\
        never a c b : b c b\n\
        never b a c : a b a\n\
        never b a d : a b a\n\
        never b c a : a b a\n\
        never b d a : a b a\n\
        never c a b : a b c a\n\
        never c a d : a b c a\n\
        never c b a : a b a\n\
        never c b d : b c b\n\
        never c d a : a b c a\n\
        never c d b : b c b\n\
        never d b a : a b a\n\
        never d c a : a b c a\n\
        never d c b : b c b\n",
        told: "",
    },
    // Verdicts.
    Run {
        words: "f /check:r",
        file: THREE,
        report: REPORT,
        status: 0,
        written: "accepted: 2 rows, 1 omissions\n",
        told: "",
    },
    Run {
        words: "f /check:r",
        file: THREE,
        report: "a\tb\tc\nnever b a : a b a\n",
        status: 10,
        written: "refused: uncovered c a\n",
        told: "",
    },
    Run {
        words: "f /check:r",
        file: THREE,
        report: "a\tb\tc\na\n",
        status: 10,
        written: "refused: report line 2\n",
        told: "",
    },
    // Words.
    Run {
        words: "",
        file: THREE,
        report: "",
        status: 3,
        written: "",
        told: "error: word 1 is not understood\n",
    },
    Run {
        words: " /t:2",
        file: THREE,
        report: "",
        status: 3,
        written: "",
        told: "error: word 1 is not understood\n",
    },
    Run {
        words: "f /t:4",
        file: THREE,
        report: "",
        status: 3,
        written: "",
        told: "error: word 2 is not understood\n",
    },
    Run {
        words: "f /t:1",
        file: THREE,
        report: "",
        status: 3,
        written: "",
        told: "error: word 2 is not understood\n",
    },
    Run {
        words: "f /t:",
        file: THREE,
        report: "",
        status: 3,
        written: "",
        told: "error: word 2 is not understood\n",
    },
    Run {
        words: "f /t",
        file: THREE,
        report: "",
        status: 3,
        written: "",
        told: "error: word 2 is not understood\n",
    },
    Run {
        words: "f f",
        file: THREE,
        report: "",
        status: 3,
        written: "",
        told: "error: word 2 is not understood\n",
    },
    Run {
        words: "f /check:",
        file: THREE,
        report: "",
        status: 3,
        written: "",
        told: "error: word 2 is not understood\n",
    },
    Run {
        words: "f /t:3 /o:2",
        file: THREE,
        report: "",
        status: 3,
        written: "",
        told: "error: word 3 is not understood\n",
    },
    Run {
        words: "f /t:3 /T:02",
        file: THREE,
        report: "",
        status: 0,
        written: REPORT,
        told: "",
    },
    Run {
        words: "f /check:q /Check:r",
        file: THREE,
        report: REPORT,
        status: 0,
        written: "accepted: 2 rows, 1 omissions\n",
        told: "",
    },
    Run {
        words: "/t:2",
        file: THREE,
        report: "",
        status: 7,
        written: "",
        told: "error: cannot read /t:2\n",
    },
    // Refused files.
    Run {
        words: "f",
        file: "a b\n",
        report: "",
        status: 4,
        written: "",
        told: "error: model line 1: Q1 not an event line\n",
    },
    Run {
        words: "f",
        file: "a\na\n",
        report: "",
        status: 4,
        written: "",
        told: "error: model line 2: Q2 repeated event\n",
    },
    Run {
        words: "f",
        file: "a\na < b\n",
        report: "",
        status: 4,
        written: "",
        told: "error: model line 2: Q3 unknown event\n",
    },
    Run {
        words: "f",
        file: "\n",
        report: "",
        status: 4,
        written: "",
        told: "error: model line 1: Q4 no events\n",
    },
    Run {
        words: "f /t:3",
        file: "a\nb\n\n",
        report: "",
        status: 4,
        written: "",
        told: "error: model line 2: Q5 fewer events than the length\n",
    },
    // A refused file comes before the report is read.
    Run {
        words: "f /check:q",
        file: "a\na\n",
        report: "",
        status: 4,
        written: "",
        told: "error: model line 2: Q2 repeated event\n",
    },
    Run {
        words: "f /check:q",
        file: THREE,
        report: "",
        status: 7,
        written: "",
        told: "error: cannot read q\n",
    },
    Run {
        words: "g",
        file: THREE,
        report: "",
        status: 7,
        written: "",
        told: "error: cannot read g\n",
    },
];

fn ends_so(alloc: Global, run: &Run) -> bool {
    let given = Given {
        words: Some(run.words),
        file: run.file.as_bytes(),
        report: run.report.as_bytes(),
        fail: &[],
        room: (1 << 12, 1 << 8),
    };
    ends_as(alloc, &given, (run.status, run.written, run.told))
}

#[test]
fn runs(rt: HostRuntime) {
    for run in RUNS {
        assert!(rt; ends_so(rt.alloc(), run), "{} {}", run.words, run.file);
    }
}

#[test]
fn runs_without_words(rt: HostRuntime) {
    let none = Given {
        words: None,
        file: &[],
        report: &[],
        fail: &[],
        room: (1 << 8, 1 << 8),
    };
    let end = (3, "", "error: word 1 is not understood\n");
    assert!(rt; ends_as(rt.alloc(), &none, end));
}

// Whether a run of the call for files in memory ends with status 0, prints the report and tells nothing.
fn runs_in_memory(alloc: Global) -> Result<bool, NoMemory> {
    let words = words_of(alloc, Some("f"))?;
    let mut files = MemFolder::new(alloc, calls_of(alloc, &[])?);
    files.add("f", THREE.as_bytes())?;
    let mut out = MemSink::up_to(alloc, 100)?;
    let mut diag = MemSink::up_to(alloc, 100)?;
    let status = run_seq_in_memory(alloc, words.as_slice(), &mut files, &mut out, &mut diag);
    let is_written = out.bytes() == REPORT.as_bytes();
    Ok(status == 0 && is_written && diag.bytes().is_empty())
}

#[test]
fn prints_the_report_from_memory_to_memory(rt: HostRuntime) {
    assert!(rt; runs_in_memory(rt.alloc()) == Ok(true));
}
