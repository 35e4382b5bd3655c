//! Files at their limits and above, and constraints that are nested deeply.

use crate::refusals::end_of;
use std::alloc::{AllocError, Global};

// Adds so many numbers, each between two others.
fn push_numbers(
    alloc: Global,
    around: (&str, &str),
    count: u32,
    into: &mut String,
) -> Result<(), AllocError> {
    for number in 0..count {
        let piece = format!(in alloc; "{}{number}{}", around.0, around.1)?;
        into.push_str(piece.as_str())?;
    }
    Ok(())
}

// What a file is made of, and how its reading ends.
struct Numbered<'a> {
    first: &'a str,
    // What stands before and behind each of so many numbers from 0.
    around: (&'a str, &'a str),
    count: u32,
    last: &'a str,
    end: (&'a str, u64),
}

fn numbered_file(alloc: Global, parts: &Numbered) -> Result<String, AllocError> {
    let mut text = String::from_str(alloc, parts.first)?;
    push_numbers(alloc, parts.around, parts.count, &mut text)?;
    text.push_str(parts.last)?;
    Ok(text)
}

// Whether the reading of such a file ends so.
fn ends_so(alloc: Global, parts: &Numbered) -> bool {
    match numbered_file(alloc, parts) {
        Ok(file) => end_of(alloc, file.as_str()) == parts.end,
        Err(AllocError) => false,
    }
}

const COUNTS: &[Numbered<'static>] = &[
    Numbered {
        first: "B: b\nA: a",
        around: (",", ""),
        count: 4094,
        last: "",
        end: ("a model", 0),
    },
    Numbered {
        first: "B: b\nA: a",
        around: (",", ""),
        count: 4095,
        last: "",
        end: ("values", 4096),
    },
    Numbered {
        first: "B: b\nA: a",
        around: ("|", ""),
        count: 63,
        last: "",
        end: ("a model", 0),
    },
    Numbered {
        first: "B: b\nA: a",
        around: ("|", ""),
        count: 64,
        last: "",
        end: ("names", 65),
    },
    // The names that are kept are counted, and each name is looked at before they are.
    Numbered {
        first: "B: b\nA: a",
        around: ("|", ""),
        count: 63,
        last: "|A",
        end: ("a model", 0),
    },
    Numbered {
        first: "B: b\nA: a",
        around: ("|", ""),
        count: 70,
        last: "",
        end: ("names", 71),
    },
    Numbered {
        first: "B: b\nA: a",
        around: ("|", ""),
        count: 64,
        last: "|",
        end: ("M7", 2),
    },
    Numbered {
        first: "B: b\nA: a",
        around: ("|", ""),
        count: 64,
        last: "|~~x",
        end: ("M8", 2),
    },
    Numbered {
        first: "A: a\n",
        around: ("P", ": 1\n"),
        count: 255,
        last: "",
        end: ("a model", 0),
    },
    Numbered {
        first: "A: a\n",
        around: ("P", ": 1\n"),
        count: 256,
        last: "",
        end: ("parameters", 257),
    },
    Numbered {
        first: "A: 1\nB: b\n",
        around: ("[A] = ", ";\n"),
        count: 4096,
        last: "",
        end: ("a model", 0),
    },
    Numbered {
        first: "A: 1\nB: b\n",
        around: ("[A] = ", ";\n"),
        count: 4097,
        last: "",
        end: ("constraints", 4097),
    },
    Numbered {
        first: "A: 1\nB: b\n",
        around: ("[A] = ", ";\n"),
        count: 4097,
        last: "[Z] = 1;",
        end: ("C12", 4100),
    },
    Numbered {
        first: "A: 1\nB: b\n",
        around: ("[A] = ", ";\n"),
        count: 4097,
        last: "[A] = ;",
        end: ("C9", 4100),
    },
];

#[test]
fn keeps_limits(rt: HostRuntime) {
    for parts in COUNTS {
        assert!(rt;
            ends_so(rt.alloc(), parts),
            "{}: {}",
            parts.count,
            parts.last
        );
    }
}

// A word so many times behind two parameters, and a text.
fn nested_file(alloc: Global, word: &str, times: u32, text: &str) -> Result<String, AllocError> {
    let mut out = String::from_str(alloc, "A: 1\nB: b\n")?;
    for _ in 0..times {
        out.push_str(word)?;
    }
    out.push_str(text)?;
    Ok(out)
}

// A word so many times, a text, and how the reading ends.
struct Nested<'a> {
    word: &'a str,
    times: u32,
    text: &'a str,
    end: (&'a str, u64),
}

// Whether the reading of such a file ends so.
fn nests(alloc: Global, parts: &Nested) -> bool {
    match nested_file(alloc, parts.word, parts.times, parts.text) {
        Ok(file) => end_of(alloc, file.as_str()) == parts.end,
        Err(AllocError) => false,
    }
}

const NESTED: &[Nested<'static>] = &[
    Nested {
        word: "NOT ",
        times: 65,
        text: "[A] = 1;",
        end: ("C11", 3),
    },
    Nested {
        word: "(",
        times: 65,
        text: "[A] = 1;",
        end: ("C11", 3),
    },
    Nested {
        word: "(",
        times: 64,
        text: "[A] = 1;",
        end: ("C10", 3),
    },
    Nested {
        word: "NOT ",
        times: 64,
        text: "[A] NOT IN {1};",
        end: ("C11", 3),
    },
    Nested {
        word: "NOT ",
        times: 63,
        text: "[A] NOT IN {1};",
        end: ("a model", 0),
    },
    Nested {
        word: "NOT ",
        times: 64,
        text: "[B] NOT LIKE \"x\";",
        end: ("C11", 3),
    },
    Nested {
        word: "NOT ",
        times: 64,
        text: "[A] = ;",
        end: ("C9", 3),
    },
    Nested {
        word: "NOT ",
        times: 64,
        text: "ISNEGATIVE([A]) OR;",
        end: ("C7", 3),
    },
];

#[test]
fn counts_depth(rt: HostRuntime) {
    for parts in NESTED {
        assert!(rt; nests(rt.alloc(), parts), "{}{}", parts.word, parts.text);
    }
}
