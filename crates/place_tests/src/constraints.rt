//! Refusals of constraints.

use crate::written::tells;
use std::test::Fail;

// A file, and what is written of its refusal.
const REFUSALS: &[(&str, &str)] = &[
    // Tokens.
    (
        "A: 1, 2\nB: x, y\n[A] = 1 & [B]",
        "m.txt:3:9: error: expected a name in brackets, a text in quotes, a number, a keyword, a comparison or one of \"(){},;\", found \"&\" [C1]\n",
    ),
    (
        "A: 1, 2\nB: x, y\n[A] = 1;\n[A] = 2 é",
        "m.txt:4:9: error: expected a name in brackets, a text in quotes, a number, a keyword, a comparison or one of \"(){},;\", found \"é\" [C1]\n",
    ),
    (
        "A: 1, 2\nB: x, y\n[A] = 1;\n  [B = 2;",
        "m.txt:4:3: error: expected \"]\" at the end of the name, found [B = 2; [C2]\n",
    ),
    (
        "A: 1, 2\nB: x, y\n[B] = \"x;",
        "m.txt:3:7: error: expected a quote at the end of the text, found \"x; [C3]\n",
    ),
    (
        "A: 1, 2\nB: x, y\n[A] = 1x;",
        "m.txt:3:7: error: expected a number, found \"1x\" [C4]\n",
    ),
    (
        "A: 1, 2\nB: x, y\n[A] = 1234567890123456789012345678901234567890;",
        "m.txt:3:7: error: expected a number with fewer digits, found 1234567890123456789012345678901234567890 [C5]\n",
    ),
    (
        "A: 1, 2\nB: x, y\nIF [A] = 1 THAN [B] = \"x\";",
        "m.txt:3:12: error: \"THAN\" is no keyword; did you mean THEN? [C6]\n",
    ),
    (
        "A: 1, 2\nB: x, y\n[B] = on;",
        "m.txt:3:7: error: \"on\" is no keyword; texts stand in quotes [C6]\n",
    ),
    (
        "A: 1, 2\nB: x, y\n[B] = \"x\" adn [A] = 1;",
        "m.txt:3:11: error: \"adn\" is no keyword; did you mean AND? [C6]\n",
    ),
    // Grammar.
    (
        "A: 1, 2\nB: x, y\n[A] = 1 AND THEN;",
        "m.txt:3:13: error: expected a parameter in brackets, NOT, ISNEGATIVE, ISPOSITIVE or \"(\" after \"AND\", found \"THEN\" [C7]\n",
    ),
    (
        "A: 1, 2\nB: x, y\n[A] = 1;\n;",
        "m.txt:4:1: error: expected a parameter in brackets, IF, NOT, ISNEGATIVE, ISPOSITIVE or \"(\" after \";\", found \";\" [C7]\n",
    ),
    (
        "A: 1, 2\nB: x, y\nIF",
        "m.txt:3:3: error: expected a parameter in brackets, NOT, ISNEGATIVE, ISPOSITIVE or \"(\" after \"IF\", found the end of the constraint [C7]\n",
    ),
    (
        "A: 1, 2\nB: x, y\n[A] THEN [B] = \"x\";",
        "m.txt:3:5: error: expected a comparison (=, <>, <, <=, >, >=), IN, LIKE or NOT after [A], found \"THEN\" [C8]\n",
    ),
    (
        "A: 1, 2\nB: x, y\n[A] NOT = 1;",
        "m.txt:3:9: error: expected IN or LIKE after \"NOT\", found \"=\" [C8]\n",
    ),
    (
        "A: 1, 2\nB: x, y\n[A] = ;",
        "m.txt:3:7: error: expected a text in quotes, a number or a parameter in brackets after \"=\", found \";\" [C9]\n",
    ),
    (
        "A: 1, 2\nB: x, y\n[A] IN { [B] };",
        "m.txt:3:10: error: expected a text in quotes or a number after \"{\", found [B] [C9]\n",
    ),
    (
        "A: 1, 2\nB: x, y\n[B] LIKE 1;",
        "m.txt:3:10: error: expected a text in quotes after \"LIKE\", found 1 [C9]\n",
    ),
    (
        "A: 1, 2\nB: x, y\nISNEGATIVE (1);",
        "m.txt:3:13: error: expected a parameter in brackets after \"(\", found 1 [C9]\n",
    ),
    (
        "A: 1, 2\nB: x, y\nIF [A] = 1;",
        "m.txt:3:11: error: expected THEN, AND or OR after 1, found \";\" [C10]\n",
    ),
    (
        "A: 1, 2\nB: x, y\n[A] = 1",
        "m.txt:3:8: error: expected AND, OR or \";\" after 1, found the end of the constraint [C10]\n",
    ),
    (
        "A: 1, 2\nB: x, y\n[A] IN 1;",
        "m.txt:3:8: error: expected \"{\" after \"IN\", found 1 [C10]\n",
    ),
    (
        "A: 1, 2\nB: x, y\n[A] IN { 1 2 };",
        "m.txt:3:12: error: expected \",\" or \"}\" after 1, found 2 [C10]\n",
    ),
    (
        "A: 1, 2\nB: x, y\n([A] = 1;",
        "m.txt:3:9: error: expected AND, OR or \")\" after 1, found \";\" [C10]\n",
    ),
    (
        "A: 1, 2\nB: x, y\nISPOSITIVE [A];",
        "m.txt:3:12: error: expected \"(\" after \"ISPOSITIVE\", found [A] [C10]\n",
    ),
    (
        "A: 1, 2\nB: x, y\nIF [A] = 1\n  # why\n\n  THEN [B] = \"x\"\n[A] = 2;\n[A] = ;",
        "m.txt:7:1: error: expected ELSE, AND, OR or \";\" after \"x\", found [A] [C10]\n",
    ),
    (
        "A: 1, 2\nB: x, y\n((((((((((((((((((((((((((((((((((((((((((((((((((((((((((((((((([A] = 1",
        "m.txt:3:65: error: expected at most 64 of \"(\" and NOT inside one another, found \"(\" [C11]\n",
    ),
    // Terms.
    (
        "Size: 1, 2\nType: a, b\n[Size] = 1 OR [Sze] = 2;",
        "m.txt:3:15: error: no parameter is named [Sze]; did you mean [Size]? [C12]\n",
    ),
    (
        "Size: 1, 2\nType: a, b\n[Type] = [Tipe];",
        "m.txt:3:10: error: no parameter is named [Tipe]; did you mean [Type]? [C12]\n",
    ),
    (
        "Size: 1, 2\nType: a, b\nISNEGATIVE ( [Nothing] );",
        "m.txt:3:14: error: no parameter is named [Nothing] [C12]\n",
    ),
    (
        "Size: 1, 2\nType: a, b\n[Type] = \"a\"; [Size] = [Type] OR [x] = 1;",
        "m.txt:3:15: error: [Size] has numbers, [Type] has texts [C13]\n",
    ),
    (
        "Size: 1, 2\nType: a, b\n[Size] = \"big\";",
        "m.txt:3:1: error: [Size] has numbers, \"big\" is a text [C13]\n",
    ),
    (
        "Size: 1, 2\nType: a, b\nIF [Size] = 1 THEN NOT [Type] IN { \"a\", 5 };",
        "m.txt:3:24: error: [Type] has texts, 5 is a number [C13]\n",
    ),
    (
        "Size: 1, 2\nType: a, b\n[Size] = 1 AND\n[Size] NOT LIKE \"a*\";",
        "m.txt:4:1: error: LIKE needs a parameter with texts, [Size] has numbers [C14]\n",
    ),
];

#[test]
fn places_in_constraints(rt: HostRuntime) -> Result<(), Fail> {
    for (file, line) in REFUSALS {
        assert!(rt; tells(rt.alloc(), file.as_bytes(), 2, line)?, "{file:?}");
    }
    Ok(())
}
