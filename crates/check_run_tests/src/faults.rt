//! Folders and sinks that fail.

use crate::runs::{ACCEPTED, FILES, Given, MODEL, PROOF, REPORT, ends_as, on_files};
use memory_io::{SureFolder, SureSink};
use runs_in_memory::run_check_without_faults;
use std::alloc::Global;
use std::thread::Threads;
use test_runs::{sure_folder, words_of};
use value_text::NoMemory;

// The calls of the folder that fail, and the line.
const READS: &[(&[u64], &str)] = &[
    (&[1], "error: cannot read m\n"),
    (&[2], "error: cannot read r\n"),
    (&[3], "error: cannot read p\n"),
];

// Whether a run on the three files, where these calls fail, ends with status 7, and tells this.
fn is_named<R: Threads + Sync>(rt: &R, alloc: Global, fail: &[u64], line: &str) -> bool {
    let given = Given {
        fail,
        ..on_files(FILES)
    };
    ends_as(rt, alloc, &given, 7, "", line)
}

#[test]
fn names_the_file_that_cannot_be_read(rt: HostRuntime) {
    for (fail, line) in READS {
        assert!(rt; is_named(&rt, rt.alloc(), fail, line), "{line}");
    }
}

// The files that there are, and the line. All three are read before one is parsed.
const ABSENT: &[(&[(&str, &[u8])], &str)] = &[
    (&[("m", MODEL), ("r", REPORT)], "error: cannot read p\n"),
    (&[("r", REPORT), ("p", PROOF)], "error: cannot read m\n"),
    (&[("m", b"A 1\n"), ("r", b"")], "error: cannot read p\n"),
];

#[test]
fn names_the_file_that_is_absent(rt: HostRuntime) {
    for (files, line) in ABSENT {
        assert!(rt;
            ends_as(&rt, rt.alloc(), &on_files(files), 7, "", line),
            "{line}"
        );
    }
}

// Whether a run with room for so many bytes of the verdict keeps them, and tells that it can't write the rest.
fn keeps<R: Threads + Sync>(rt: &R, alloc: Global, room: usize) -> bool {
    let given = Given {
        room: (room, 1 << 10),
        ..on_files(FILES)
    };
    match ACCEPTED.get(..room) {
        Some(kept) => ends_as(
            rt,
            alloc,
            &given,
            8,
            kept,
            "error: cannot write the report\n",
        ),
        None => false,
    }
}

#[test]
fn keeps_what_fits_of_the_verdict(rt: HostRuntime) {
    for room in 0..ACCEPTED.len() {
        assert!(rt; keeps(&rt, rt.alloc(), room), "{room}");
    }
}

#[test]
fn a_fault_of_standard_error_changes_nothing(rt: HostRuntime) {
    let given = Given {
        room: (1 << 10, 11),
        fail: &[2],
        ..on_files(FILES)
    };
    assert!(rt; ends_as(&rt, rt.alloc(), &given, 7, "", "error: cann"));
}

// Whether a run of these words in this folder ends with status 6, prints nothing and tells something.
fn is_refused_in<R: Threads + Sync>(
    rt: &R,
    alloc: Global,
    words: &[String],
    folder: &mut SureFolder,
) -> bool {
    let mut out = SureSink::new();
    let mut told = SureSink::new();
    let status = run_check_without_faults(rt, alloc, words, folder, &mut out, &mut told);
    status == 6 && out.taken() == 0 && told.taken() > 0
}

fn is_refused<R: Threads + Sync>(rt: &R, alloc: Global) -> Result<bool, NoMemory> {
    let words = words_of(alloc, &["m", "r", "p"])?;
    let mut folder = sure_folder(alloc, MODEL)?;
    Ok(is_refused_in(rt, alloc, words.as_slice(), &mut folder))
}

#[test]
fn refuses_an_empty_report_where_nothing_fails(rt: HostRuntime) {
    assert!(rt; is_refused(&rt, rt.alloc()) == Ok(true));
}
