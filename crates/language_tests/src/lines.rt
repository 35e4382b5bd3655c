//! The lines and the tokens of a file.

use model_lex::{DiagCode, Lexed, NumLine, Sections, Token, TokenKind, next_token, split_model};
use std::alloc::Global;

// Lines with their numbers.
type Expected = &'static [(u32, &'static str)];

fn are_lines(lines: &[NumLine<'_>], expected: &[(u32, &str)]) -> bool {
    if lines.len() != expected.len() {
        return false;
    }
    for (line, (number, text)) in lines.iter().zip(expected) {
        if line.line != *number || line.text != *text {
            return false;
        }
    }
    true
}

// A file, and its lines of parameters, of groups and of constraints.
type Sorted = (&'static [u8], Expected, Expected, Expected);

const FILES: &[Sorted] = &[
    (b"", &[], &[], &[]),
    (
        b"A: 1, 2\nB: x, y\n",
        &[(1, "A: 1, 2"), (2, "B: x, y")],
        &[],
        &[],
    ),
    (
        b"\xef\xbb\xbfA: 1\r\nB: x\r",
        &[(1, "A: 1"), (2, "B: x")],
        &[],
        &[],
    ),
    (b"A: \xef\xbb\xbf\r\r\n", &[(1, "A: \u{feff}\r")], &[], &[]),
    (
        b" \t\n# \xff\n\t# [A]\nA: 1\r\n \r\n",
        &[(4, "A: 1")],
        &[],
        &[],
    ),
    (
        b"A: 1\n { A } @ 1\n\t@ 1 { A }\n#\n[A] = 1;\nA: 1\n# \xff\n{\n",
        &[(1, "A: 1")],
        &[(2, " { A } @ 1"), (3, "\t@ 1 { A }")],
        &[(5, "[A] = 1;"), (6, "A: 1"), (8, "{")],
    ),
    (
        b"ISNEGATIVE: 1\nTHEN [: 2\nNOT NOT: 1\nIF_ [A: 1\nIFNOT [: 3\n(A): 1",
        &[
            (1, "ISNEGATIVE: 1"),
            (2, "THEN [: 2"),
            (3, "NOT NOT: 1"),
            (4, "IF_ [A: 1"),
            (5, "IFNOT [: 3"),
        ],
        &[],
        &[(6, "(A): 1")],
    ),
    (b"IsNegative (x): 1", &[], &[], &[(1, "IsNegative (x): 1")]),
    (
        b" if NOT\tisPositive",
        &[],
        &[],
        &[(1, " if NOT\tisPositive")],
    ),
    (b"NOT NOT(", &[], &[], &[(1, "NOT NOT(")]),
];

fn are_sections(sections: &Sections<'_>, sorted: &Sorted) -> bool {
    let (_, params, groups, rules) = sorted;
    are_lines(sections.params.as_slice(), params)
        && are_lines(sections.groups.as_slice(), groups)
        && are_lines(sections.rules.as_slice(), rules)
}

// Whether the lines of a file are these.
fn is_sorted(alloc: Global, sorted: &Sorted) -> bool {
    let bytes = sorted.0;
    if bytes.len() >= 1000 {
        return false;
    }
    match split_model(alloc, bytes) {
        Ok(sections) => are_sections(&sections, sorted),
        Err(_) => false,
    }
}

#[test]
fn sorts_lines(rt: HostRuntime) {
    for sorted in FILES {
        assert!(rt; is_sorted(rt.alloc(), sorted), "{:?}", sorted.0);
    }
}

// A line, and the kind, the start and the end of its first token.
const TOKENS: &[(&str, TokenKind, usize, usize)] = &[
    (" IF [A]", TokenKind::Word, 1, 3),
    ("iN{", TokenKind::Word, 0, 2),
    ("[ a b ]>=-1.5", TokenKind::Name, 0, 7),
    ("[a\\]b\\\\](", TokenKind::Name, 0, 8),
    ("[Gr\u{f6}\u{df}e]=", TokenKind::Name, 0, 9),
    ("\t\"x\"; ", TokenKind::Words, 1, 4),
    ("\"\\\"\\]\\\\\\x\")", TokenKind::Words, 0, 10),
    ("-1.5<", TokenKind::Number, 0, 4),
    ("+7,0", TokenKind::Number, 0, 2),
    ("<=<>", TokenKind::Relation, 0, 2),
    ("<>=", TokenKind::Relation, 0, 2),
    ("=>=", TokenKind::Relation, 0, 1),
    ("}Like", TokenKind::Mark, 0, 1),
];

#[test]
fn reads_the_longest_token(rt: HostRuntime) {
    for (line, kind, start, end) in TOKENS {
        let token = Token {
            kind: *kind,
            start: *start,
            end: *end,
        };
        assert!(rt; next_token(line, 0) == Lexed::Token(token), "{line}");
    }
    assert!(rt; next_token(" \t", 0) == Lexed::End);
}

// A line that begins with no token, and why.
const NO_TOKENS: &[(&str, DiagCode)] = &[
    ("$", DiagCode::StrayCharacter),
    (" \u{a0}", DiagCode::StrayCharacter),
    ("]", DiagCode::StrayCharacter),
    ("_A", DiagCode::StrayCharacter),
    (".5", DiagCode::StrayCharacter),
    ("[A\\]", DiagCode::NameNotClosed),
    ("\"x\\\\\\\"", DiagCode::TextNotClosed),
    ("1e3", DiagCode::BadNumber),
    ("1-1", DiagCode::BadNumber),
    ("1_", DiagCode::BadNumber),
    ("+", DiagCode::BadNumber),
    ("99999999999999999999999999999", DiagCode::NumberTooWide),
    ("1.1234567890", DiagCode::NumberTooWide),
    ("IF1", DiagCode::UnknownWord),
    ("NOT_", DiagCode::UnknownWord),
    ("ISNEGATIVES", DiagCode::UnknownWord),
];

#[test]
fn refuses_what_begins_no_token(rt: HostRuntime) {
    for (line, code) in NO_TOKENS {
        assert!(rt; next_token(line, 0) == Lexed::Bad(*code), "{line}");
    }
}
