//! Runs of `pictseq` over a folder and sinks that fail, and on files at their limits.

use crate::events::add_times;
use crate::runs::{Given, REPORT, THREE, ends_as};
use std::alloc::{AllocError, Global};

// The words, the numbers of the calls that fail, the room of standard error, and the status and what that gets.
type Read<'a> = (&'a str, &'a [u64], usize, u8, &'a str);

const READS: &[Read<'static>] = &[
    ("f", &[1], 1 << 8, 7, "error: cannot read f\n"),
    ("f /check:r", &[1], 1 << 8, 7, "error: cannot read f\n"),
    ("f /check:r", &[2], 1 << 8, 7, "error: cannot read r\n"),
    ("f /check:r", &[2], 5, 7, "error"),
    ("f /q", &[1], 0, 3, ""),
];

fn ends_so(alloc: Global, read: &Read) -> bool {
    let (text, fail, room, status, told) = read;
    let given = Given {
        words: Some(text),
        file: THREE.as_bytes(),
        report: REPORT.as_bytes(),
        fail,
        room: (1 << 8, *room),
    };
    ends_as(alloc, &given, (*status, "", told))
}

#[test]
fn tells_faults_of_reading(rt: HostRuntime) {
    for read in READS {
        assert!(rt; ends_so(rt.alloc(), read), "{}", read.0);
    }
}

// The words, and what is to be written.
const WRITES: &[(&str, &str)] = &[
    ("f", REPORT),
    ("f /check:r", "accepted: 2 rows, 1 omissions\n"),
];

// Whether a run with room for so many bytes of the whole keeps them, and tells that it can't write the rest.
fn keeps(alloc: Global, text: &str, whole: &str, room: usize) -> bool {
    let given = Given {
        words: Some(text),
        file: THREE.as_bytes(),
        report: REPORT.as_bytes(),
        fail: &[],
        room: (room, 1 << 8),
    };
    match whole.get(..room) {
        Some(part) => ends_as(alloc, &given, (8, part, "error: cannot write the report\n")),
        None => false,
    }
}

#[test]
fn tells_faults_of_writing(rt: HostRuntime) {
    for (text, whole) in WRITES {
        for room in 0..whole.len() {
            assert!(rt; keeps(rt.alloc(), text, whole, room), "{text} {room}");
        }
    }
}

// Whether a run on these files ends at a limit, and tells this.
fn ends_at_limit(alloc: Global, text: &str, file: &[u8], report: &[u8], told: &str) -> bool {
    let given = Given {
        words: Some(text),
        file,
        report,
        fail: &[],
        room: (1 << 8, 1 << 8),
    };
    ends_as(alloc, &given, (9, "", told))
}

// How many line feeds the file has behind its text, how many the report has, and what is told.
const SIZES: &[(usize, usize, &str)] = &[
    (
        (1 << 22) - 11,
        1,
        "error: limit: model bytes above 4194304\n",
    ),
    (
        0,
        (1 << 26) + 1,
        "error: limit: row file bytes above 67108864\n",
    ),
];

// The file with so many line feeds behind its text.
fn file_of(alloc: Global, behind: usize) -> Result<Vec<u8>, AllocError> {
    let feeds = vec![in alloc; b'\n'; behind]?;
    let mut file = Vec::from_slice(alloc, THREE.as_bytes())?;
    file.extend_from_slice(feeds.as_slice())?;
    Ok(file)
}

// Whether a check of so many line feeds ends at a limit, and tells this.
fn check_ends(alloc: Global, file: &[u8], report: usize, told: &str) -> bool {
    match vec![in alloc; b'\n'; report] {
        Ok(feeds) => ends_at_limit(alloc, "f /check:r", file, feeds.as_slice(), told),
        Err(AllocError) => false,
    }
}

fn is_too_long(alloc: Global, behind: usize, report: usize, told: &str) -> bool {
    match file_of(alloc, behind) {
        Ok(file) => check_ends(alloc, file.as_slice(), report, told),
        Err(AllocError) => false,
    }
}

#[test]
fn tells_files_that_are_too_long(rt: HostRuntime) {
    for (behind, report, told) in SIZES {
        assert!(rt; is_too_long(rt.alloc(), *behind, *report, told), "{told}");
    }
}

// Lines of a file, how often they stand there, and what is told.
const COUNTS: &[(&str, u32, &str)] = &[(
    "a < b\n",
    4097,
    "error: limit: precedences 4097 above 4096\n",
)];

// Two events, and a line so many times.
fn lines_of(alloc: Global, line: &str, count: u32) -> Result<String, AllocError> {
    let mut file = String::from_str(alloc, "a\nb\n")?;
    add_times(&mut file, line, count)?;
    Ok(file)
}

fn has_too_many(alloc: Global, line: &str, count: u32, told: &str) -> bool {
    match lines_of(alloc, line, count) {
        Ok(file) => ends_at_limit(alloc, "f", file.as_bytes(), &[], told),
        Err(AllocError) => false,
    }
}

#[test]
fn tells_counts(rt: HostRuntime) {
    for (line, count, told) in COUNTS {
        assert!(rt; has_too_many(rt.alloc(), line, *count, told), "{told}");
    }
}
