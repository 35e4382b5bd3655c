//! Constraints that are read from a file and written again.

use crate::refusals::told;
use constraint_ast::{RawRule, RawRuleList, parse_rules, rule_text};
use model_lex::{ModelFault, split_model};
use std::alloc::Global;
use value_text::NoMemory;

// The constraints of a file.
fn rules_of(alloc: Global, file: &str) -> Result<RawRuleList, ModelFault> {
    let bytes = file.as_bytes();
    if bytes.len() > 1000 {
        return Err(ModelFault::NoMemory);
    }
    let sections = split_model(alloc, bytes)?;
    parse_rules(alloc, &sections)
}

// Adds the line of a constraint, ended by a line feed.
fn push_line(alloc: Global, rule: &RawRule, lines: &mut String) -> Result<(), NoMemory> {
    let text = rule_text(alloc, rule)?;
    lines.push_str(text.as_str())?;
    lines.push_str("\n")?;
    Ok(())
}

// Whether constraints are written as these lines.
fn are_written(alloc: Global, rules: &[RawRule], lines: &str) -> bool {
    let mut written = String::new(alloc);
    for rule in rules {
        match push_line(alloc, rule, &mut written) {
            Ok(()) => {}
            Err(NoMemory) => return false,
        }
    }
    written.as_str() == lines
}

// Whether the constraints of a file are written as these lines.
fn is_rewritten(alloc: Global, file: &str, lines: &str) -> bool {
    match rules_of(alloc, file) {
        Ok(rules) => are_written(alloc, rules.as_slice(), lines),
        Err(_) => false,
    }
}

// Constraints whose lines are themselves.
const LINES: &[&str] = &[
    "IF [A] = 1 THEN [B] = \"x\";\n",
    "NOT ([A] = 1 OR [A] = 2) AND [B] LIKE \"x*\";\n",
    "NOT [A] = 1 OR [A] = 2 AND [B] LIKE \"x*\";\n",
    "([A] = 1 OR [B] = 2) AND [C] = 3;\n",
    "[A] = 1 OR ([B] = 2 OR [C] = 3);\n",
    "[A] = 1 AND ([B] = 2 AND [C] = 3);\n",
    "NOT ([A] = 1 AND NOT ([B] = 2 OR [C] = 3));\n",
    "[A] = 9999999999999999999999999999.999999999;\n",
    "[A] = -0.000000001;\n",
    "[a\\]b] = \"x\";\n",
];

// Constraints, and how their lines are written.
const REWRITTEN: &[(&str, &str)] = &[
    ("A: 1\n{ A }\n", ""),
    ("(([A] = 1));", "[A] = 1;\n"),
    (
        "[A] = 1 OR ([B] = 2 AND [C] = 3);",
        "[A] = 1 OR [B] = 2 AND [C] = 3;\n",
    ),
    (
        "(([A]=1 and [B]=2)or [C]=3);",
        "[A] = 1 AND [B] = 2 OR [C] = 3;\n",
    ),
    ("NOT (NOT ([A] = 1));", "NOT NOT [A] = 1;\n"),
    ("(NOT [A] = 1) AND [B] = 2;", "NOT [A] = 1 AND [B] = 2;\n"),
    (
        "if([A]=1 or[A]=2)then([B]=\"x\")\n# note\nelse([C]=3) ;",
        "IF [A] = 1 OR [A] = 2 THEN [B] = \"x\" ELSE [C] = 3;\n",
    ),
    ("[A] = 1 ; [B]\n= 2;", "[A] = 1;\n[B] = 2;\n"),
    ("[A] NOT IN {1,\"x\" , 2};", "NOT [A] IN {1, \"x\", 2};\n"),
    ("[A]IN{ \"a\" };", "[A] IN {\"a\"};\n"),
    ("[B] not like \"?\";", "NOT [B] LIKE \"?\";\n"),
    (
        "ISNEGATIVE([A]) OR NOT IsPositive ( [B] );",
        "ISNEGATIVE ([A]) OR NOT ISPOSITIVE ([B]);\n",
    ),
    (
        "[A]<[B] AND [A]<=[B] AND [A]>[B];",
        "[A] < [B] AND [A] <= [B] AND [A] > [B];\n",
    ),
    ("[A]>=1 OR [A]<>2;", "[A] >= 1 OR [A] <> 2;\n"),
    ("[A] = -000.50;", "[A] = -0.5;\n"),
    ("[A] = +007;", "[A] = 7;\n"),
    (
        "[A] IN {100, 0.0, -0, -20.30};",
        "[A] IN {100, 0, 0, -20.3};\n",
    ),
    ("[ a b\t] = \" a \";", "[a b] = \" a \";\n"),
    ("[a\"b] = \"c]d\";", "[a\\\"b] = \"c\\]d\";\n"),
    ("[a\\x] = \"\\\\\";", "[a\\\\x] = \"\\\\\";\n"),
    ("[a\\ ] = [b\\\\];", "[a\\\\] = [b\\\\];\n"),
    (
        "[\u{e9}] LIKE \"\u{e9}*\"; [ ] = \"\";",
        "[\u{e9}] LIKE \"\u{e9}*\";\n[] = \"\";\n",
    ),
];

// Whether a file is refused whose third line ends where a constraint goes on.
fn is_cut_refused(alloc: Global) -> bool {
    match rules_of(alloc, "A: 1, 2\nB: x, y\nIF [A] = 1 THEN\n") {
        Ok(_) => false,
        Err(fault) => told(fault) == ("C7", 3),
    }
}

#[test]
fn refuses_a_constraint(rt: HostRuntime) {
    assert!(rt; is_cut_refused(rt.alloc()));
}

#[test]
fn writes_constraints(rt: HostRuntime) {
    for line in LINES {
        assert!(rt; is_rewritten(rt.alloc(), line, line), "{line}");
    }
    for (file, lines) in REWRITTEN {
        assert!(rt; is_rewritten(rt.alloc(), file, lines), "{file}");
    }
}
