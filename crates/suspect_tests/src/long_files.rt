//! Suspicious tuples of more rows than a word has bits.

use crate::lists::is_text_under;
use std::alloc::{AllocError, Global};

// Lines of a file of results, and how often each comes. Only one row that passed has the second value of A. The
// first value of B and the second one of C come with rows of different words.
const LINES: &[(&str, u32)] = &[
    ("A\tB\tC\t:result\n", 1),
    ("1\tx\tu\tpass\n", 64),
    ("1\ty\tv\tpass\n", 64),
    ("2\ty\tu\tpass\n", 1),
    ("2\tx\tu\tfail\n", 1),
    ("1\tx\tv\tfail\n", 1),
];

const EXPECTED: &str =
    "Passing tests: 129\nFailing tests: 2\nIncomplete tests: 0\nSuspicious tuples: 2\n\
    suspect 0=1 1=0 : 1 failing\nsuspect 1=0 2=1 : 1 failing\n";

// The text of all lines.
fn file_text(alloc: Global) -> Result<String, AllocError> {
    let mut text = String::new(alloc);
    for (line, times) in LINES {
        for _ in 0..*times {
            text.push_str(line)?;
        }
    }
    Ok(text)
}

// Whether that file has this text; `false` too where memory was refused.
fn is_listed(alloc: Global, expected: &str) -> bool {
    let model = "A: 1, 2\nB: x, y\nC: u, v\n";
    match file_text(alloc) {
        Ok(file) => is_text_under(alloc, model, 2, file.as_str().as_bytes(), expected),
        Err(_) => false,
    }
}

#[test]
fn lists_suspicious_tuples_of_long_files(rt: HostRuntime) {
    assert!(rt; is_listed(rt.alloc(), EXPECTED));
}
