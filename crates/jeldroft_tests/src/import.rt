//! Files in the form of ACTS: which part of a line isn't taken, and why.

use crate::case::{Case, ends_as};

// A file that is refused, and what is told.
const REFUSED: &[(&str, &str)] = &[
    (
        "[System]\nName: \u{e4}\n",
        "a:2:7: error: expected a tab or a character from the space to \"~\", found the byte 0xc3 [A1]\n  Name: ??\n",
    ),
    (
        "[Parameters]\n",
        "a:1:1: error: expected one of the headers [System], [Parameter], [Relation] and [Constraint], in this order, found \"[Parameters]\" [A2]\n  [Parameters]\n",
    ),
    (
        "[Parameter]\n Size (integer): 1\n",
        "a:2:8: error: expected the type int, enum or boolean, found \"integer\" [A3]\n   Size (integer): 1\n",
    ),
    (
        "[Parameter]\nSize (int): 1, two, 3\n",
        "a:2:16: error: expected a whole number of 1 to 9 digits, found \"two\" [A3]\n  Size (int): 1, two, 3\n",
    ),
    (
        "[Parameter]\nSize (int): 1,, 3 -- sizes\n",
        "a:2:15: error: expected a whole number of 1 to 9 digits, found \",\" [A3]\n  Size (int): 1,, 3 -- sizes\n",
    ),
    (
        "[Parameter]\nSize: 1, 2\n",
        "a:2:5: error: expected the type in parentheses, as \"(enum)\", found \": 1, 2\" [A3]\n  Size: 1, 2\n",
    ),
    (
        "[Parameter]\nSize (int): 1, 2\nsize (int): 3\n",
        "a:3:1: error: \"size\" is the name of a parameter that a line above declares [A4]\n  size (int): 3\n",
    ),
    (
        "[Parameter]\nKind (enum): red, green, RED\n",
        "a:2:26: error: \"RED\" is a value that stands before in this line [A4]\n  Kind (enum): red, green, RED\n",
    ),
    (
        "[Parameter]\nSize (int): 1, 2\nKind (enum): red\n[Relation]\nPairs: (Size, Kind)\n",
        "a:5:15: error: expected the strength, a number of 1 to 9 digits, found \"Kind\" [A5]\n  Pairs: (Size, Kind)\n",
    ),
    (
        "[Parameter]\nSize (int): 1, 2\nKind (enum): red\n[Relation]\nPairs: (Size, Kolor, 2)\n",
        "a:5:15: error: \"Kolor\" is no parameter that a line above declares [A6]\n  Pairs: (Size, Kolor, 2)\n",
    ),
    (
        "[Parameter]\nSize (int): 1, 2\nKind (enum): red\n[Relation]\nPairs: (Size, Kind, 3)\n",
        "a:5:21: error: \"3\" is no strength from 1 to the number of the members [A7]\n  Pairs: (Size, Kind, 3)\n",
    ),
    (
        "[System]\nName: empty\n",
        "a: error: no line declares a parameter [A8]\n",
    ),
    (
        "[Parameter]\nSize (int): 1, 2\nKind (enum): red\n[Constraint]\nSize > 1 Kind = \"red\"\n",
        "a:5:10: error: expected \"&&\", \"||\", \"=>\" or the end of the line, found \"Kind\" [A9]\n  Size > 1 Kind = \"red\"\n",
    ),
    (
        "[Parameter]\nSize (int): 1, 2\nKind (enum): red\n[Constraint]\nSize > 1 => (Kind = \"red\"\n",
        "a:5:26: error: expected \"&&\", \"||\" or \")\", found the end of the line [A9]\n  Size > 1 => (Kind = \"red\"\n",
    ),
    (
        "[Parameter]\nSize (int): 1, 2\n[Constraint]\nSize > 1 && Colour = \"red\"\n",
        "a:4:13: error: \"Colour\" is no parameter that a line above declares [A10]\n  Size > 1 && Colour = \"red\"\n",
    ),
    (
        "[Parameter]\nSize (int): 1, 2\n[Constraint]\nSize = \"red\"\n",
        "a:4:8: error: \"red\" is of another type than the parameter before it [A11]\n  Size = \"red\"\n",
    ),
    (
        "[Parameter]\nKind (enum): red\n[Constraint]\nKind > \"red\"\n",
        "a:4:6: error: \">\" orders values of a parameter that is not of the type int [A11]\n  Kind > \"red\"\n",
    ),
];

#[test]
fn says_what_a_line_has(rt: HostRuntime) {
    for (number, (text, told)) in REFUSED.iter().enumerate() {
        let case = Case {
            words: &["import", "a"],
            files: &[("a", text)],
            status: 2,
            out: "",
            told,
            left: &[],
        };
        assert!(rt;
            ends_as(&rt, rt.alloc(), &case) == Ok(true),
            "case {number}"
        );
    }
}
