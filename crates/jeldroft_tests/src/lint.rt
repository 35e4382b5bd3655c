//! What is wrong or odd about models: whole runs of `lint`.

use crate::case::{Case, ends_as};

// A model, and what is told of it.
#[derive(Clone, Copy)]
struct Linted<'a> {
    words: &'a [&'a str],
    model: &'a str,
    status: u8,
    out: &'a str,
}

const LINT: &[&str] = &["lint", "m"];

const SAID_TWICE: &str =
    "A: 1, 2\nB: x, y\n[A] = 1 OR [B] = \"x\";\nIF [A] = 2 THEN [B] = \"x\";\n";

const FINDINGS: &[Linted<'static>] = &[
    Linted {
        words: LINT,
        model: "A: 1, 2\nB: x, y\nIF [A] = 1 THEN [B] = \"x\";\n",
        status: 0,
        out: "",
    },
    Linted {
        words: LINT,
        model: "A: 5, 20, ~-1\nB: x, y\nIF ISPOSITIVE([A]) THEN [A] > 6 OR [B] = \"x\";\n",
        status: 0,
        out: "",
    },
    // no test
    Linted {
        words: LINT,
        model: "A: 1, 2\nB: x, y\n[A] = 1;\n[A] = 2;\n",
        status: 1,
        out: "m: warning: the model has no test: constraint 1 (line 3) and constraint 2 (line 4) are never true together [no-test]\n",
    },
    // a value in no test
    Linted {
        words: LINT,
        model: "A: 1, 2\nB: x, y\n[A] = 1;\n",
        status: 1,
        out: "m:1:7: warning: A = 2 is in no test: constraint 1 (line 3) forbids it [value-in-no-test]\n",
    },
    // a mistyped value takes a method of a web interface away
    Linted {
        words: LINT,
        model: "Method: GET, PATCH\nChunked: yes, no\nIF [Method] = \"PATCH\" THEN [Chunked] = \"true\";\n",
        status: 1,
        out: "m:1:14: warning: Method = PATCH is in no test: constraint 1 (line 3) forbids it [value-in-no-test]
m:3:28: warning: \"true\" is no value of Chunked (yes, no); the comparison is never true [unknown-value]
m:3:1: warning: the condition of constraint 1 is true of no test [premise-never-holds]\n",
    },
    // comparisons with what no value is
    Linted {
        words: LINT,
        model: "A: x, y\nB: 1, 2\n[A] <> \"z\" OR [B] = 1;\n",
        status: 1,
        out: "m:3:1: warning: \"z\" is no value of A (x, y); the comparison is always true [unknown-value]\n",
    },
    Linted {
        words: LINT,
        model: "A: cat, cow\nB: 1, 2\nIF [B] = 1 THEN NOT [A] LIKE \"d*\";\n",
        status: 1,
        out: "m:3:21: warning: no value of A (cat, cow) matches \"d*\"; the comparison is never true [unknown-value]\n",
    },
    Linted {
        words: LINT,
        model: "Color: red, green\nB: 1, 2\nIF [B] = 1 THEN [Color] IN {\"red\", \"grean\"};\n",
        status: 1,
        out: "m:3:36: warning: \"grean\" is no value of Color (red, green); in the list it changes nothing; did you mean \"green\"? [unknown-value]\n",
    },
    Linted {
        words: LINT,
        model: "Size: 10, 100\nB: 1, 2\nIF [B] = 1 THEN [Size] <> 20.50 AND [Size] <> -7;\n",
        status: 1,
        out: "m:3:17: warning: 20.5 is no value of Size (10, 100); the comparison is always true [unknown-value]
m:3:37: warning: -7 is no value of Size (10, 100); the comparison is always true [unknown-value]\n",
    },
    // other comparisons that are the same for every value
    Linted {
        words: LINT,
        model: "A: 1, 2\nB: 3, 4\nIF [A] < [B] THEN NOT [A] > 9;\n",
        status: 1,
        out: "m:3:4: warning: [A] < [B] is always true, whatever the values [constant-comparison]
m:3:23: warning: [A] > 9 is never true, whatever the values [constant-comparison]\n",
    },
    // constraints that say nothing new are told where all is asked for
    Linted {
        words: LINT,
        model: SAID_TWICE,
        status: 0,
        out: "",
    },
    Linted {
        words: &["lint", "--all", "m"],
        model: SAID_TWICE,
        status: 1,
        out: "m:3:1: warning: constraint 1 excludes no test that meets the other constraints [never-excludes]
m:4:1: warning: constraint 2 excludes no test that meets the other constraints [never-excludes]\n",
    },
    // a condition that is true of no test
    Linted {
        words: LINT,
        model: "A: 1, 2\nB: x, y\nNOT ([A] = 1 AND [B] = \"x\");\nIF [A] = 1 AND [B] = \"x\" THEN [A] = 2;\n",
        status: 1,
        out: "m:4:1: warning: the condition of constraint 2 is true of no test [premise-never-holds]\n",
    },
    // two constraints on a line: by kinds
    Linted {
        words: LINT,
        model: "A: 1, 2\nB: x, y\n[A] <= 5; [B] <> \"z\";\n",
        status: 1,
        out: "m:3:11: warning: \"z\" is no value of B (x, y); the comparison is always true [unknown-value]
m:3:1: warning: [A] <= 5 is always true, whatever the values [constant-comparison]\n",
    },
    // columns are in characters; a value that comes by a reference stands there
    Linted {
        words: LINT,
        model: "Größe: groß, klein\nB: <Größe>, 3\n[Größe] = \"groß\" OR [Größe] <> \"mittel\";\n[B] <> \"klein\";\n",
        status: 1,
        out: "m:2:4: warning: B = klein is in no test: constraint 2 (line 4) forbids it [value-in-no-test]
m:3:21: warning: \"mittel\" is no value of Größe (groß, klein); the comparison is always true [unknown-value]\n",
    },
    // of a comparison in a later line the constraint
    Linted {
        words: LINT,
        model: "A: x, y\nB: 1, 2\n  IF [B] = 1\nTHEN [A] <> \"z\";\n",
        status: 1,
        out: "m:3:3: warning: \"z\" is no value of A (x, y); the comparison is always true [unknown-value]\n",
    },
];

const HINTS: &[Linted<'static>] = &[
    Linted {
        words: LINT,
        model: "Age: 5, 20, ~-1\nB: x, y\n[Age] > 0;\n",
        status: 1,
        out: "m:1:13: warning: Age = ~-1 is in no test: constraint 1 (line 3) forbids it [value-in-no-test]
m:3:1: warning: constraint 1 keeps the invalid value ~-1 of Age from every test; IF ISPOSITIVE([Age]) THEN before each constraint that compares Age would let it pass [constraint-on-invalid]\n",
    },
    // without the comparison the test of the sign still keeps it out
    Linted {
        words: LINT,
        model: "Age: 5, 20, ~-1\nB: x, y\n[Age] > 0;\nISPOSITIVE([Age]);\n",
        status: 1,
        out: "m:1:13: warning: Age = ~-1 is in no test: constraint 1 (line 3) forbids it [value-in-no-test]\n",
    },
    Linted {
        words: LINT,
        model: "A: 1, 2, 1\nB: x, y\n",
        status: 1,
        out: "m:1:10: warning: a name of a value stands here a second time, and is dropped [same-value-twice]\n",
    },
    Linted {
        words: LINT,
        model: "A: 1, 2\nIF A = 1 THEN B: 2, 3\n",
        status: 1,
        out: "m:2:1: warning: \"IF A = 1 THEN B\" is a parameter; the line of a constraint has names in brackets, as IF [Name] = .. [looks-like-constraint]\n",
    },
    Linted {
        words: LINT,
        model: "A: 1, 2 (0.5)\nB: x, y\n",
        status: 1,
        out: "m:1:7: warning: \"2 (0.5)\" is the whole name of a value; a weight is a whole number from 1 on [looks-like-weight]\n",
    },
    Linted {
        words: LINT,
        model: "A: 1\nB: x, y\n",
        status: 1,
        out: "m:1:1: warning: A has one value, which each test has [single-value]\n",
    },
    Linted {
        words: LINT,
        model: "A: iOS | iPadOS, Linux\nB: 1, 2\nIF [B] = 1 THEN [A] <> \"iPadOS\";\n",
        status: 1,
        out: "m:3:17: warning: \"iPadOS\" is no value of A (iOS, Linux); the comparison is always true [unknown-value]
m:3:1: warning: \"iPadOS\" is a later name of the value iOS of A; constraints see the first [unused-alias-in-constraint]\n",
    },
];

const OBJECTS: &[Linted<'static>] = &[
    Linted {
        words: &["lint", "-f", "json", "m"],
        model: "A: 1, 2\nB: x, y\n",
        status: 0,
        out: "[]\n",
    },
    Linted {
        words: &["lint", "-f", "json", "m"],
        model: "A: 1, 2\nB: x, y\n[A] = 1;\n[A] <> 7;\n",
        status: 1,
        out: "[{\"name\":\"value-in-no-test\",\"file\":\"m\",\"line\":1,\"column\":7,\"parameter\":\"A\",\"value\":\"2\",\"constraints\":[1],\"text\":\"A = 2 is in no test: constraint 1 (line 3) forbids it\"},{\"name\":\"unknown-value\",\"file\":\"m\",\"line\":4,\"column\":1,\"parameter\":null,\"value\":null,\"constraints\":[2],\"text\":\"7 is no value of A (1, 2); the comparison is always true\"}]\n",
    },
];

#[test]
fn tells_what_is_odd(rt: HostRuntime) {
    for (number, linted) in FINDINGS.iter().chain(HINTS).chain(OBJECTS).enumerate() {
        let files = [("m", linted.model)];
        let case = Case {
            words: linted.words,
            files: &files,
            status: linted.status,
            out: linted.out,
            told: "",
            left: &files,
        };
        assert!(rt;
            ends_as(&rt, rt.alloc(), &case) == Ok(true),
            "case {number}"
        );
    }
}
