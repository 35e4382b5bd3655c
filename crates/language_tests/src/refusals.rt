//! Files that are refused, each at its first cause.

use model_lex::{LimitName, ModelFault};
use std::alloc::Global;
use test_models::{options, read};

// The code and the line of a refusal, or a limit that is passed and the count.
pub fn told(fault: ModelFault) -> (&'static str, u64) {
    match fault {
        ModelFault::Bad(diag) | ModelFault::BadRule(diag) => {
            (diag.code.code(), u64::from(diag.line))
        }
        ModelFault::Limit(LimitName::Params, count) => ("parameters", count),
        ModelFault::Limit(LimitName::Values, count) => ("values", count),
        ModelFault::Limit(LimitName::Names, count) => ("names", count),
        ModelFault::Limit(LimitName::Rules, count) => ("constraints", count),
        ModelFault::NoMemory => ("no memory", 0),
    }
}

// How the reading of a file ends: with the code and the line of a refusal, with a limit that is passed and the count,
// or with a model.
pub fn end_of(alloc: Global, file: &str) -> (&'static str, u64) {
    match read(alloc, file, &options(2)) {
        Ok(_) => ("a model", 0),
        Err(fault) => told(fault),
    }
}

// A file, and the code and the line of its refusal.
const REFUSALS: &[(&str, &str, u64)] = &[
    // Lines.
    ("", "M17", 1),
    ("A: 1, 2\nB: x, y\n\u{a0}[A] = 1;", "M3", 3),
    ("@ 1 { A }\nC 1", "M2", 2),
    (" \r\r\n", "M3", 1),
    (" \u{feff}# A", "M3", 1),
    // Parameters, by the earlier line, and in a line by the earlier piece.
    ("\n[A] = 1;", "M17", 1),
    ("\n@ { Z", "M17", 1),
    (" \t: 1", "M4", 1),
    (": ,\nA: <Z>", "M4", 1),
    ("A: 1\nB\u{1}: <Z>", "M5", 2),
    ("A\u{feff}: ,", "M5", 1),
    ("a: 1\nA\t: <A>,", "M6", 2),
    ("A: 1\n\n# x\nB: 2\nA: 3\nB: 4", "M6", 5),
    ("A: 1,\nA: 2", "M7", 1),
    ("A: x|", "M7", 1),
    ("A: ~", "M7", 1),
    ("A: |\u{7f}", "M7", 1),
    ("A: , <Z>", "M7", 1),
    ("A: x||~~y", "M7", 1),
    ("A: x|, y (0)", "M7", 1),
    ("A: 1,\n{ A, A }", "M7", 1),
    ("A: ~ ~x,", "M8", 1),
    ("A: x\u{7f}", "M8", 1),
    ("A: \u{7f}|", "M8", 1),
    ("A: x|~~y|", "M8", 1),
    ("A: 1\nB: ~~x, <Z>", "M8", 2),
    ("A: ~~x, y (0)", "M8", 1),
    ("A: ~~a (00)", "M9", 1),
    ("A: |a (4294967296)", "M9", 1),
    ("A: a (99999999999999999999999999999999999999999)", "M9", 1),
    ("A: x (0), ~~y", "M9", 1),
    ("A: x|\u{feff}y|z (00)", "M9", 1),
    ("A: <A>", "M10", 1),
    ("A: <>", "M10", 1),
    ("A: <Z>,", "M10", 1),
    ("A: 1\nB: <A>, <C>,\nC: 1", "M10", 2),
    // Groups, by the earlier line, and in a line by the order of the codes.
    ("A: 1\n@ Z x", "M16", 2),
    ("A: 1\nB: 2\n@ { A }\n{ Z", "M16", 3),
    ("A: 1\n@ 9 Z } x", "M11", 2),
    ("A: 1\n{ Z x", "M11", 2),
    ("A: 1\nB: 2\n{ A, Z\n@ { A }", "M11", 3),
    ("A: 1\n@ 9 { Z } x", "M15", 2),
    ("A: 1\n{ Z } x", "M15", 2),
    ("A: 1\nB: 2\n@ 1 { A, B } @ 1", "M15", 3),
    ("A: 1\nB: 2\n{ A }\n\n{ B } B", "M15", 5),
    ("A: 1\nB: 2\n@ 0 {}", "M12", 3),
    ("A: 1\n@ 9 { Z, A, A }", "M12", 2),
    ("A: 1\n@ 9 { A, A, Z }", "M13", 2),
    ("A: 1\n{ A, a, Z } @ 0", "M13", 2),
    ("A: 1\n@ 9 { A }", "M14", 2),
    ("A: 1\nB: 2\n{ A, B } @", "M14", 3),
    ("A: 1\nB: 2\n@ 000000000000000000001 { A }", "M14", 3),
    ("A: 1\nB: 2\n{ A } @ 2\n{ Z", "M14", 3),
    ("\nA: 1\n#\n@ 1 { A }", "M18", 2),
    ("A: 1\n[A] = ;", "M18", 1),
    // Tokens of constraints, before their grammar.
    ("A: 1\nB: x\n[A] = 1; $", "C1", 3),
    ("A: 1\nB: x\n[Z] 1;\n[A] = $;", "C1", 4),
    ("A: 1\nB: x\n[A] = 1;\n[B", "C2", 4),
    ("A: 1\nB: x\n[A] = 1x;", "C4", 3),
    // Their grammar, before names and types.
    ("A: 1\nB: x\n(;", "C7", 3),
    ("A: 1\nB: x\n[A] = 1;\n\n;", "C7", 5),
    ("A: 1\nB: x\nIF [Z] = 1 THEN", "C7", 3),
    (
        "A: 1\nB: x\nIF [A] = 1 THEN IF [A] = 2 THEN [A] = 3;",
        "C7",
        3,
    ),
    ("A: 1\nB: x\n[A] NOT = 1;", "C8", 3),
    ("A: 1\nB: x\n[A]", "C8", 3),
    ("A: 1\nB: x\n[A] LIKE 1;", "C9", 3),
    ("A: 1\nB: x\n[A] IN {1, };", "C9", 3),
    ("A: 1\nB: x\n[A] IN {};", "C9", 3),
    ("A: 1\nB: x\nISNEGATIVE(\"A\");", "C9", 3),
    ("A: 1\nB: x\n[A] IN 1;", "C10", 3),
    ("A: 1\nB: x\n[A] IN {1;", "C10", 3),
    ("A: 1\nB: x\n([A] = 1;", "C10", 3),
    ("A: 1\nB: x\nIF [A] = 1;", "C10", 3),
    (
        "A: 1\nB: x\nIF [A] = 1 THEN [A] = 2 ELSE [A] = 3 ELSE [A] = 4;",
        "C10",
        3,
    ),
    ("A: 1\nB: x\n[A] = 1)", "C10", 3),
    ("A: 1\nB: x\n[A] = 1\n\n", "C10", 3),
    // Names and types, term by term.
    ("A: 1\nB: x\n[A] = [Z];", "C12", 3),
    ("A: 1\nB: x\nISNEGATIVE([C]);", "C12", 3),
    ("A: 1\nB: x\n[A] = 1 OR [Z] = 1 AND [A] = \"1\";", "C12", 3),
    ("A: 1\nB: x\n[A] = 1;\n[A]\n= [Z]; [B] = 1;", "C12", 4),
    ("A: 1\nB: x\n[B] = 1;", "C13", 3),
    ("A: 1\nB: x\n[A] <> [B];", "C13", 3),
    ("A: 1\nB: x\n[A] IN {1, \"x\"};", "C13", 3),
    ("A: 1\nB: x\n[B] NOT IN {\"x\", 1};", "C13", 3),
    (
        "A: 1\nB: x\nIF [B] = 1 THEN [Z] = 1 ELSE [A] LIKE \"\";",
        "C13",
        3,
    ),
    (
        "A: 1\nB: x\nIF [B] = \"x\"\nTHEN [A] = 1\nELSE [A]\n= \"1\";",
        "C13",
        5,
    ),
    ("A: 1\nB: x\nNOT ([A] NOT LIKE \"x\");", "C14", 3),
    (
        "A: 1\nB: x\n[A] = 1 AND [A] LIKE \"1\" OR [Z] = 1;",
        "C14",
        3,
    ),
];

#[test]
fn refuses_files(rt: HostRuntime) {
    for (file, code, line) in REFUSALS {
        assert!(rt; end_of(rt.alloc(), file) == (*code, *line), "{file}");
    }
}
