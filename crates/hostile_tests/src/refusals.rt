//! Model files that are refused, each by one line.

use crate::limits::push_times;
use std::alloc::{AllocError, Global};
use std::thread::Threads;
use test_runs::{ends_as, on_model};

// A model file, and the status and the line by which it is refused.
struct Refusal<'a> {
    model: &'a [u8],
    status: u8,
    line: &'a str,
}

const REFUSALS: &[Refusal<'static>] = &[
    Refusal {
        model: b"",
        status: 4,
        line: "error: model line 1: M17 no parameters\n",
    },
    Refusal {
        model: b"A: 1, 2\xff\nB: x, y\n",
        status: 4,
        line: "error: model line 1: M1 not UTF-8\n",
    },
    Refusal {
        model: b"A: 1\n{ A }\nB: x\n",
        status: 4,
        line: "error: model line 3: M2 parameter after a group\n",
    },
    Refusal {
        model: b"A 1\n",
        status: 4,
        line: "error: model line 1: M3 no colon\n",
    },
    Refusal {
        model: b"A: 1\n : x\n",
        status: 4,
        line: "error: model line 2: M4 empty parameter name\n",
    },
    Refusal {
        model: b"A: 1\nB\x01C: x\n",
        status: 4,
        line: "error: model line 2: M5 parameter name not allowed\n",
    },
    Refusal {
        model: b"A: 1\na: 2\n",
        status: 4,
        line: "error: model line 2: M6 repeated parameter name\n",
    },
    Refusal {
        model: b"A: 1,\nB: x\n",
        status: 4,
        line: "error: model line 1: M7 empty value name\n",
    },
    Refusal {
        model: b"A:\nB: x\n",
        status: 4,
        line: "error: model line 1: M7 empty value name\n",
    },
    Refusal {
        model: b"A: ~~1\nB: x\n",
        status: 4,
        line: "error: model line 1: M8 value name not allowed\n",
    },
    Refusal {
        model: b"A: 1\nB: x (0), y\n",
        status: 4,
        line: "error: model line 2: M9 weight out of range\n",
    },
    // The weight comes before the names.
    Refusal {
        model: b"A: ~~a (0)\nB: x\n",
        status: 4,
        line: "error: model line 1: M9 weight out of range\n",
    },
    Refusal {
        model: b"A: 1\nB: |a (0)\n",
        status: 4,
        line: "error: model line 2: M9 weight out of range\n",
    },
    Refusal {
        model: b"A: <Z>\nB: x\n",
        status: 4,
        line: "error: model line 1: M10 unknown parameter in angle brackets\n",
    },
    Refusal {
        model: b"A: 1, 2\n",
        status: 4,
        line: "error: model line 1: M18 order above the number of parameters\n",
    },
    // 65 names of one value.
    Refusal {
        model: b"B: x\nA: a0|a1|a2|a3|a4|a5|a6|a7|a8|a9|a10|a11|a12|a13|a14|a15|a16|a17|a18|a19|a20|a21|a22|a23|a24|a25|a26|a27|a28|a29|a30|a31|a32|\
        a33|a34|a35|a36|a37|a38|a39|a40|a41|a42|a43|a44|a45|a46|a47|a48|a49|a50|a51|a52|a53|a54|a55|a56|a57|a58|a59|a60|a61|a62|a63|a64\n",
        status: 9,
        line: "error: limit: names 65 above 64\n",
    },
    // The earlier pass comes first.
    Refusal {
        model: b"A: ,\nB 1\n",
        status: 4,
        line: "error: model line 2: M3 no colon\n",
    },
    // The earlier line comes first.
    Refusal {
        model: b"A: <Z>\n: x\n",
        status: 4,
        line: "error: model line 1: M10 unknown parameter in angle brackets\n",
    },
    // Groups.
    Refusal {
        model: b"A: 1, 2\nB: x, y\n{ A, B }\nC: 1\n",
        status: 4,
        line: "error: model line 4: M2 parameter after a group\n",
    },
    Refusal {
        model: b"A: 1, 2\nB: x, y\n{ A, B\n",
        status: 4,
        line: "error: model line 3: M11 braces missing\n",
    },
    Refusal {
        model: b"A: 1, 2\nB: x, y\n@ 2 A, B }\n",
        status: 4,
        line: "error: model line 3: M11 braces missing\n",
    },
    Refusal {
        model: b"A: 1, 2\nB: x, y\n{ A, Z }\n",
        status: 4,
        line: "error: model line 3: M12 unknown parameter in a group\n",
    },
    Refusal {
        model: b"A: 1, 2\nB: x, y\n{ A, A }\n",
        status: 4,
        line: "error: model line 3: M13 repeated parameter in a group\n",
    },
    Refusal {
        model: b"A: 1, 2\nB: x, y\n@ 3 { A, B }\n",
        status: 4,
        line: "error: model line 3: M14 group order out of range\n",
    },
    Refusal {
        model: b"A: 1, 2\nB: x, y\n{ A, B } @ 2 x\n",
        status: 4,
        line: "error: model line 3: M14 group order out of range\n",
    },
    Refusal {
        model: b"A: 1, 2\nB: x, y\n{ A, B } x\n",
        status: 4,
        line: "error: model line 3: M15 text after a group\n",
    },
    Refusal {
        model: b"A: 1, 2\nB: x, y\n@ { A, B }\n",
        status: 4,
        line: "error: model line 3: M16 relation without a strength\n",
    },
    // Constraints.
    Refusal {
        model: b"A: 1, 2\nB: x, y\n[A] = 1 $;\n",
        status: 5,
        line: "error: model line 3: C1 character not allowed here\n",
    },
    Refusal {
        model: b"A: 1, 2\nB: x, y\n[A\n",
        status: 5,
        line: "error: model line 3: C2 name not closed\n",
    },
    Refusal {
        model: b"A: 1, 2\nB: x, y\n[B] = \"x\n",
        status: 5,
        line: "error: model line 3: C3 text not closed\n",
    },
    Refusal {
        model: b"A: 1, 2\nB: x, y\n[A] = 1e3;\n",
        status: 5,
        line: "error: model line 3: C4 not a number\n",
    },
    Refusal {
        model: b"A: 1, 2\nB: x, y\n[A] = 99999999999999999999999999999;\n",
        status: 5,
        line: "error: model line 3: C5 number too wide\n",
    },
    Refusal {
        model: b"A: 1, 2\nB: x, y\n[A] = 1;\nwhat\n",
        status: 5,
        line: "error: model line 4: C6 unknown word\n",
    },
    Refusal {
        model: b"A: 1, 2\nB: x, y\nIsNegative (x): 1\n",
        status: 5,
        line: "error: model line 3: C6 unknown word\n",
    },
    Refusal {
        model: b"A: 1, 2\nB: x, y\nIF [A] = 1 THEN\n",
        status: 5,
        line: "error: model line 3: C7 predicate expected\n",
    },
    Refusal {
        model: b"A: 1, 2\nB: x, y\n[A] 1;\n",
        status: 5,
        line: "error: model line 3: C8 relation expected\n",
    },
    Refusal {
        model: b"A: 1, 2\nB: x, y\n[A] = ;\n",
        status: 5,
        line: "error: model line 3: C9 value expected\n",
    },
    Refusal {
        model: b"A: 1, 2\nB: x, y\n[A] = 1\n",
        status: 5,
        line: "error: model line 3: C10 mark or keyword expected\n",
    },
    Refusal {
        model: b"A: 1, 2\nB: x, y\nNOT ISPOSITIVE [A];\n",
        status: 5,
        line: "error: model line 3: C10 mark or keyword expected\n",
    },
    Refusal {
        model: b"A: 1, 2\nB: x, y\n[Z] = 1;\n",
        status: 5,
        line: "error: model line 3: C12 unknown parameter\n",
    },
    Refusal {
        model: b"A: 1, 2\nB: x, y\n[A] = \"1\";\n",
        status: 5,
        line: "error: model line 3: C13 types differ\n",
    },
    Refusal {
        model: b"A: 1, 2\nB: x, y\n[A] LIKE \"1\";\n",
        status: 5,
        line: "error: model line 3: C14 LIKE needs a text parameter\n",
    },
    // A bad token of a later line comes before the grammar.
    Refusal {
        model: b"A: 1, 2\nB: x, y\n[A] 1;\n[A] = 1 $;\n",
        status: 5,
        line: "error: model line 4: C1 character not allowed here\n",
    },
    // The grammar of a later line comes before types.
    Refusal {
        model: b"A: 1, 2\nB: x, y\n[Z] = 1;\n[A] = ;\n",
        status: 5,
        line: "error: model line 4: C9 value expected\n",
    },
];

// Whether a run on a model ends with this status, and tells this alone.
fn is_refused<R: Threads + Sync>(
    rt: &R,
    alloc: Global,
    model: &[u8],
    status: u8,
    line: &str,
) -> bool {
    ends_as(rt, alloc, &on_model(&["m"], model), status, "", line)
}

#[test]
fn refuses_model_files(rt: HostRuntime) {
    for refusal in REFUSALS {
        let is_refused = is_refused(&rt, rt.alloc(), refusal.model, refusal.status, refusal.line);
        assert!(rt; is_refused, "{}", refusal.line);
    }
}

// A text so many times behind two parameters, and then another one.
struct Repeated<'a> {
    text: &'a str,
    times: usize,
    last: &'a str,
    status: u8,
    line: &'a str,
}

const REPEATED: &[Repeated<'static>] = &[
    Repeated {
        text: "NOT ",
        times: 64,
        last: "NOT [A] = 1;\n",
        status: 5,
        line: "error: model line 3: C11 nested too deeply\n",
    },
    Repeated {
        text: "NOT ",
        times: 64,
        last: "[A] NOT IN {1};\n",
        status: 5,
        line: "error: model line 3: C11 nested too deeply\n",
    },
    Repeated {
        text: "[A] = 1;\n",
        times: 4097,
        last: "",
        status: 9,
        line: "error: limit: constraints 4097 above 4096\n",
    },
];

fn repeat(alloc: Global, repeated: &Repeated) -> Result<String, AllocError> {
    let mut model = String::from_str(alloc, "A: 1, 2\nB: x, y\n")?;
    push_times(&mut model, repeated.text, repeated.times)?;
    model.push_str(repeated.last)?;
    Ok(model)
}

// Whether such a model is refused.
fn is_too_much<R: Threads + Sync>(rt: &R, alloc: Global, repeated: &Repeated) -> bool {
    match repeat(alloc, repeated) {
        Ok(model) => is_refused(rt, alloc, model.as_bytes(), repeated.status, repeated.line),
        Err(AllocError) => false,
    }
}

#[test]
fn refuses_what_is_nested_too_deeply_or_too_often(rt: HostRuntime) {
    for repeated in REPEATED {
        let is_too_much = is_too_much(&rt, rt.alloc(), repeated);
        assert!(rt; is_too_much, "{}{}", repeated.text, repeated.last);
    }
}
