//! Files of events: those that are read, and those that are refused.

use seq_check::{EventCode, EventLimit, Events, EventsFault, read_events};
use std::alloc::{AllocError, Global};
use value_text::TextList;

/// What is read of a file, for sequences of two or three events.
pub(crate) fn read(alloc: Global, file: &str, length: u32) -> Result<Events, EventsFault> {
    let bytes = file.as_bytes();
    if bytes.len() > 100_000 {
        return Err(EventsFault::NoMemory);
    }
    match length {
        2 => read_events(alloc, bytes, 2),
        3 => read_events(alloc, bytes, 3),
        _ => Err(EventsFault::NoMemory),
    }
}

// Why a file is refused, if it is.
fn refusal(alloc: Global, file: &str, length: u32) -> Option<EventsFault> {
    match read(alloc, file, length) {
        Ok(_) => None,
        Err(fault) => Some(fault),
    }
}

// Files, the length of the sequences, and the line and the code of the refusal.
const REFUSED: &[(&str, u32, u32, EventCode)] = &[
    // No event line: blanks stand only round the sign, one on each side.
    ("a b\nb\n", 2, 1, EventCode::Q1),
    ("a\nb\na<b\n", 2, 3, EventCode::Q1),
    ("a\nb\na <b\n", 2, 3, EventCode::Q1),
    ("a\nb\na  < b\n", 2, 3, EventCode::Q1),
    ("a\nb\na\t<\tb\n", 2, 3, EventCode::Q1),
    ("a\nb\na < b \n", 2, 3, EventCode::Q1),
    ("a\n b\n", 2, 2, EventCode::Q1),
    ("a\nb \n", 2, 2, EventCode::Q1),
    ("a\nb\n < b\n", 2, 3, EventCode::Q1),
    ("a\nb\na < \n", 2, 3, EventCode::Q1),
    ("a\nb\na < b < a\n", 2, 3, EventCode::Q1),
    ("a\nb-c\n", 2, 2, EventCode::Q1),
    ("a\n\u{e9}\n", 2, 2, EventCode::Q1),
    ("a\nb # c\n", 2, 2, EventCode::Q1),
    ("a\rb\nc\n", 2, 1, EventCode::Q1),
    ("a\r\r\nb\n", 2, 1, EventCode::Q1),
    // A repeated event, and an unknown one.
    ("a\nb\n\na\n", 2, 4, EventCode::Q2),
    ("a\na\n?\n", 2, 2, EventCode::Q2),
    ("a\na < b\nb\n", 2, 2, EventCode::Q3),
    ("a < b\na\nb\n", 2, 1, EventCode::Q3),
    ("a\nB\na < b\n", 2, 3, EventCode::Q3),
    ("a\nb < a\n-\n", 2, 2, EventCode::Q3),
    // No events, and too few.
    ("", 2, 1, EventCode::Q4),
    ("\n# a\n \t \n", 3, 1, EventCode::Q4),
    ("a", 2, 1, EventCode::Q5),
    ("\n# a\nb\nb < b\n\n", 2, 3, EventCode::Q5),
    ("\na\n\nb\n#\n", 3, 4, EventCode::Q5),
];

#[test]
fn refuses_lines(rt: HostRuntime) {
    for (file, length, line, code) in REFUSED {
        let refused = refusal(rt.alloc(), file, *length);
        assert!(rt; refused == Some(EventsFault::Bad(*line, *code)), "{file}");
    }
}

/// Adds a text so many times.
pub(crate) fn add_times(into: &mut String, text: &str, count: u32) -> Result<(), AllocError> {
    for _ in 0..count {
        into.push_str(text)?;
    }
    Ok(())
}

// Adds so many events `a`, `aa` and so on.
fn add_events(into: &mut String, events: u32) -> Result<(), AllocError> {
    for turn in 0..events {
        add_times(into, "a", turn)?;
        into.push_str("a\n")?;
    }
    Ok(())
}

// A file with so many events and precedences, and a text behind them.
fn large(alloc: Global, events: u32, precedences: u32, behind: &str) -> Result<String, AllocError> {
    let mut text = String::new(alloc);
    add_events(&mut text, events)?;
    add_times(&mut text, "a < a\n", precedences)?;
    text.push_str(behind)?;
    Ok(text)
}

// Why such a file is refused, if it is.
fn refusal_of_large(
    alloc: Global,
    events: u32,
    precedences: u32,
    behind: &str,
) -> Option<EventsFault> {
    match large(alloc, events, precedences, behind) {
        Ok(file) => refusal(alloc, file.as_str(), 2),
        Err(AllocError) => Some(EventsFault::NoMemory),
    }
}

// Numbers of events and of precedences, the limit that is passed, and the number of the line behind them.
const LIMITS: &[(u32, u32, Option<EventsFault>, u32)] = &[
    (64, 4096, None, 4161),
    (
        65,
        0,
        Some(EventsFault::TooMany(EventLimit::Events, 65)),
        66,
    ),
    (
        2,
        4097,
        Some(EventsFault::TooMany(EventLimit::Precedences, 4097)),
        4100,
    ),
    (
        65,
        4097,
        Some(EventsFault::TooMany(EventLimit::Events, 65)),
        4163,
    ),
    // A limit comes before too few events, and behind a refused line.
    (
        1,
        4097,
        Some(EventsFault::TooMany(EventLimit::Precedences, 4097)),
        4099,
    ),
];

#[test]
fn tells_limits(rt: HostRuntime) {
    for (events, precedences, passed, line) in LIMITS {
        let whole = refusal_of_large(rt.alloc(), *events, *precedences, "");
        assert!(rt; whole == *passed, "{line}");
        let behind = refusal_of_large(rt.alloc(), *events, *precedences, "-\n");
        assert!(rt;
            behind == Some(EventsFault::Bad(*line, EventCode::Q1)),
            "{line}"
        );
    }
}

fn are_names(names: &TextList, wanted: &[&str]) -> bool {
    if names.len() != wanted.len() {
        return false;
    }
    for (name, text) in names.iter().zip(wanted) {
        if name.as_str() != *text {
            return false;
        }
    }
    true
}

// Whether a file has these names and precedences.
fn has_read(events: &Events, names: &[&str], precedences: &[(u16, u16)]) -> bool {
    are_names(events.names(), names)
        && events.precedences().as_slice() == precedences
        && events.length() == 2
}

// Whether they are read of a file, for sequences of two events.
fn is_read(alloc: Global, file: &str, names: &[&str], precedences: &[(u16, u16)]) -> bool {
    match read(alloc, file, 2) {
        Ok(events) => has_read(&events, names, precedences),
        Err(_) => false,
    }
}

// Files, their names and their precedences.
const READ: &[(&str, &[&str], &[(u16, u16)])] = &[
    ("a\nb\nc\na < b\n", &["a", "b", "c"], &[(0, 1)]),
    ("\u{feff}a\r\nb\r\n", &["a", "b"], &[]),
    (
        "# events\n\n  # more\nb\n\t\na\nb < a\na < b",
        &["b", "a"],
        &[(0, 1), (1, 0)],
    ),
    (
        "A_1\na_1\n1\n_\na_1 < A_1\n_ < _\n",
        &["A_1", "a_1", "1", "_"],
        &[(1, 0), (3, 3)],
    ),
    ("a\nb\na < b\na < b\n", &["a", "b"], &[(0, 1), (0, 1)]),
    ("a\na < a\nb\n", &["a", "b"], &[(0, 0)]),
];

#[test]
fn reads_files(rt: HostRuntime) {
    for (file, names, precedences) in READ {
        assert!(rt; is_read(rt.alloc(), file, names, precedences), "{file}");
    }
}
