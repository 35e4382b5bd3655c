//! Whole runs of `pictacts`, over a folder and a sink in memory.

use acts_cli::run_acts;
use memory_io::{Calls, MemFolder, MemSink};
use std::alloc::Global;
use std::test::Fail;
use value_text::NoMemory;

const DEMO: &str =
    "[System]\nName: demo\n[Parameter]\nA (int): 1, 2\nB (enum): x, y\n[Constraint]\nA = 1 => B = \"x\"\n";

// A run of `pictacts`. The file `out` holds `old` before, and has room for 100 bytes.
struct Run<'a> {
    words: &'a [&'a str],
    // The bytes of the file `in`.
    file: &'a str,
    // The number of the call of the folder that fails, from 1, or 0 where none does.
    fail: u64,
    // What it leaves: its status, the file `out`, and standard error.
    status: u8,
    out: &'a str,
    line: &'a str,
}

const RUNS: &[Run<'static>] = &[
    Run {
        words: &["in", "out"],
        file: DEMO,
        fail: 0,
        status: 0,
        out: "\n\n\nA: 1, 2\nB: x, y\n\nIF [A] = 1 THEN [B] = \"x\";\n",
        line: "",
    },
    Run {
        words: &[],
        file: DEMO,
        fail: 0,
        status: 3,
        out: "old",
        line: "error: word 1 is not understood\n",
    },
    Run {
        words: &["", "out"],
        file: DEMO,
        fail: 0,
        status: 3,
        out: "old",
        line: "error: word 1 is not understood\n",
    },
    Run {
        words: &["in"],
        file: DEMO,
        fail: 0,
        status: 3,
        out: "old",
        line: "error: word 2 is not understood\n",
    },
    Run {
        words: &["in", ""],
        file: DEMO,
        fail: 0,
        status: 3,
        out: "old",
        line: "error: word 2 is not understood\n",
    },
    Run {
        words: &["in", "out", "/C", "/s"],
        file: DEMO,
        fail: 0,
        status: 3,
        out: "old",
        line: "error: word 4 is not understood\n",
    },
    Run {
        words: &["in", "out", "/c"],
        file: "[Parameter]\nA (enum): x, X\n",
        fail: 0,
        status: 0,
        out: "\nA: x, X\n",
        line: "",
    },
    Run {
        words: &["in", "out"],
        file: "[Parameter]\nA (enum): x, X\n",
        fail: 0,
        status: 4,
        out: "old",
        line: "error: model line 2: A4 repeated name\n",
    },
    Run {
        words: &["in", "out"],
        file: "[System]\nName: demo\n[Parameter]\nA (int): 1, 2\nB (enum): x, y\n[Constraint]\nA = 1 => B = 2\n",
        fail: 0,
        status: 5,
        out: "old",
        line: "error: model line 7: A11 types differ\n",
    },
    Run {
        words: &["in", "out"],
        file: "",
        fail: 0,
        status: 4,
        out: "old",
        line: "error: model line 1: A8 no parameters\n",
    },
    Run {
        words: &["none", "out"],
        file: DEMO,
        fail: 0,
        status: 7,
        out: "old",
        line: "error: cannot read none\n",
    },
    Run {
        words: &["in", "out"],
        file: DEMO,
        fail: 1,
        status: 7,
        out: "old",
        line: "error: cannot read in\n",
    },
    Run {
        words: &["in", "out"],
        file: DEMO,
        fail: 2,
        status: 8,
        out: "old",
        line: "error: cannot write out\n",
    },
    Run {
        words: &["in", "/c"],
        file: DEMO,
        fail: 0,
        status: 8,
        out: "old",
        line: "error: cannot write /c\n",
    },
    // What the other codes say.
    Run {
        words: &["in", "out"],
        file: "[Parameter]\nA (int): 1 -- \u{7}\n",
        fail: 0,
        status: 4,
        out: "old",
        line: "error: model line 2: A1 bad byte\n",
    },
    Run {
        words: &["in", "out"],
        file: "A (int): 1\n",
        fail: 0,
        status: 4,
        out: "old",
        line: "error: model line 1: A2 section out of place\n",
    },
    Run {
        words: &["in", "out"],
        file: "[Parameter]\nA int: 1\n",
        fail: 0,
        status: 4,
        out: "old",
        line: "error: model line 2: A3 not a parameter line\n",
    },
    Run {
        words: &["in", "out"],
        file: "[Parameter]\nA (int): 1\n[Relation]\nR: (2)\n",
        fail: 0,
        status: 4,
        out: "old",
        line: "error: model line 4: A5 not a relation line\n",
    },
    Run {
        words: &["in", "out"],
        file: "[Parameter]\nA (int): 1\n[Relation]\nR: (B, 1)\n",
        fail: 0,
        status: 4,
        out: "old",
        line: "error: model line 4: A6 bad member\n",
    },
    Run {
        words: &["in", "out"],
        file: "[Parameter]\nA (int): 1\n[Relation]\nR: (A, 2)\n",
        fail: 0,
        status: 4,
        out: "old",
        line: "error: model line 4: A7 strength out of range\n",
    },
    Run {
        words: &["in", "out"],
        file: "[Parameter]\nA (int): 1\n[Constraint]\nA = \n",
        fail: 0,
        status: 5,
        out: "old",
        line: "error: model line 4: A9 not a constraint\n",
    },
    Run {
        words: &["in", "out"],
        file: "[Parameter]\nA (int): 1\n[Constraint]\nZ = 1\n",
        fail: 0,
        status: 5,
        out: "old",
        line: "error: model line 4: A10 unknown parameter\n",
    },
    // The first two words are names, whatever their first character.
    Run {
        words: &["/c", "out"],
        file: DEMO,
        fail: 0,
        status: 7,
        out: "old",
        line: "error: cannot read /c\n",
    },
];

fn words_of(alloc: Global, words: &[&str]) -> Result<Vec<String>, NoMemory> {
    let mut all = Vec::new(alloc);
    for word in words {
        all.push(String::from_str(alloc, word)?)?;
    }
    Ok(all)
}

fn folder_of(alloc: Global, file: &[u8], call: u64) -> Result<MemFolder, NoMemory> {
    let mut fail = Calls::new(alloc);
    if call > 0 {
        fail.push(call)?;
    }
    let mut folder = MemFolder::new(alloc, fail);
    folder.add("in", file)?;
    folder.add("out", b"old")?;
    folder.room_for("out", 100)?;
    Ok(folder)
}

// Whether a run leaves what it says.
fn leaves(alloc: Global, run: &Run) -> Result<bool, NoMemory> {
    let words = words_of(alloc, run.words)?;
    let mut files = folder_of(alloc, run.file.as_bytes(), run.fail)?;
    let mut told = MemSink::up_to(alloc, 100)?;
    let ended = run_acts(alloc, words.as_slice(), &mut files, &mut told);
    let is_written = files.held("out") == Some(run.out.as_bytes());
    let is_told = told.bytes() == run.line.as_bytes();
    Ok(ended == run.status && is_written && is_told)
}

#[test]
fn runs_leave_what_they_say(rt: HostRuntime) -> Result<(), Fail> {
    for (place, run) in RUNS.iter().enumerate() {
        assert!(rt; leaves(rt.alloc(), run)?, "run {place}");
    }
    Ok(())
}

// Whether a run on so many line feeds ends at the limit of a model file, and leaves the file `out` as it was.
fn is_too_long(alloc: Global, count: usize) -> Result<bool, NoMemory> {
    let feeds = vec![in alloc; b'\n'; count]?;
    let words = words_of(alloc, &["in", "out"])?;
    let mut files = folder_of(alloc, feeds.as_slice(), 0)?;
    let mut told = MemSink::up_to(alloc, 100)?;
    let ended = run_acts(alloc, words.as_slice(), &mut files, &mut told);
    let line = b"error: limit: model bytes above 4194304\n";
    let is_left = files.held("out") == Some(b"old".as_slice());
    Ok(ended == 9 && is_left && told.bytes() == line.as_slice())
}

#[test]
fn a_file_has_at_most_4194304_bytes(rt: HostRuntime) -> Result<(), Fail> {
    assert!(rt; is_too_long(rt.alloc(), 4_194_305)?);
    Ok(())
}
