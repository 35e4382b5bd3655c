//! A model with every form of the language, cut off and with bytes replaced: no run may fail on it.

use std::alloc::Global;
use std::thread::Threads;
use test_runs::{Ended, on_model, run};
use value_text::NoMemory;

// One parameter of each kind, each form of a group and each form of a constraint.
const MODEL: &[u8] = b"\xef\xbb\xbf# every form of the language\n\
    \n\
    A: 1, 2, +3\r\n\
    Size: 10, 1.5 (3), ~-1, 10\n\
    OS: Win 10 | W, Linux (2), ~None\n\
    B: <OS>, x (y), os\n\
    \x20\t\n\
    Q]: a\"b, c\\d, e] (7)\n\
    # what is on and what is off\n\
    T: on, off\n\
    U: 01, 2\n\
    V: u, v\n\
    \n\
    { A, Size }\n\
    { OS, t } @ 1\n\
    @ 2 { T, U, Q] }\n\
    # the first constraint\n\
    IF [A] = 1 THEN [T] = \"on\";\n\
    \n\
    IF [Size] > +1.50 OR [U] <> 1 AND NOT [t] = \"on\"\n\
    # a comment inside a constraint\n\
    \x20 THEN [OS] IN { \"Linux\", \"win 10\", \"none\" }\n\
    \x20 ELSE [OS] NOT IN {\"Linux\"};\n\
    [Q\\]] <> \"a\\\"b\" OR [ Q\\]] = \"a\\\"b\";\n\
    [Q\\]] <> \"c\\\\d\" OR\n\
    \n\
    \t[V] = \"u\";\n\
    [B] LIKE \"*n*\" OR [B] NOT LIKE \"W?n*\"\n\
    \x20 OR NOT NOT [B] = [OS];\n\
    ([A] < 3 AND ([U] <= 2)) OR [A] >= -2.5 OR [A] > [U];\n\
    [Size] = -1 OR [A] <= [Size]\n\
    \x20 OR [Size] <> 99;\n\
    IF isnegative ([Size]) THEN IsPositive([OS]);\n\
    ISPOSITIVE([B]) OR (\n\
    \x20 NOT (ISPOSITIVE([Size])\n\
    \x20   OR [V] = [T])\n\
    \x20 OR [V] <> \"v\"\n\
    );\n\
    NOT ISNEGATIVE([B]) OR [OS] < [B];\n\
    # the end\n";

// Whether these lines are what a run with this status has to tell: warnings, and behind them one error
// exactly where the status isn't 0.
fn are_told(status: u8, lines: &str) -> bool {
    let mut has_error = false;
    for line in lines.lines() {
        if has_error {
            return false;
        }
        if !line.starts_with("warning: ") {
            has_error = true;
            if !line.starts_with("error: ") {
                return false;
            }
        }
    }
    has_error == (status != 0) && (lines.is_empty() || lines.ends_with("\n"))
}

// The status of a run, if it ended in a way in which a run over a broken model may.
fn allowed_end(ended: &Ended) -> Option<u8> {
    let Ok(lines) = str::from_utf8(ended.told.bytes()) else {
        return None;
    };
    let status = ended.status;
    let is_allowed = matches!(status, 0 | 4 | 5 | 9)
        && ended.written.bytes().is_empty() == (status != 0)
        && are_told(status, lines);
    if is_allowed { Some(status) } else { None }
}

// The status of a run over this model, if it ends in such a way.
fn allowed_status<R: Threads + Sync>(rt: &R, alloc: Global, model: &[u8]) -> Option<u8> {
    match run(rt, alloc, &on_model(&["m", "/o:1"], model)) {
        Ok(ended) => allowed_end(&ended),
        Err(NoMemory) => None,
    }
}

#[test]
fn no_prefix_makes_a_run_fail(rt: HostRuntime) {
    for length in 0..MODEL.len() {
        let status = allowed_status(&rt, rt.alloc(), &MODEL[..length]);
        assert!(rt; status.is_some(), "the first {length} bytes");
    }
}

#[test]
fn the_whole_model_has_a_report(rt: HostRuntime) {
    assert!(rt; allowed_status(&rt, rt.alloc(), MODEL) == Some(0));
}

// Whether a run over the model with the byte at this place replaced by this ends in such a way.
fn is_allowed_at<R: Threads + Sync>(rt: &R, alloc: Global, place: usize, byte: u8) -> bool {
    let Ok(mut model) = Vec::from_slice(alloc, MODEL) else {
        return false;
    };
    if place >= model.len() {
        return false;
    }
    model[place] = byte;
    allowed_status(rt, alloc, model.as_slice()).is_some()
}

// Whether no run fails on the model with any one byte replaced by this.
fn is_allowed_with<R: Threads + Sync>(rt: &R, alloc: Global, byte: u8) -> bool {
    for place in 0..MODEL.len() {
        if !is_allowed_at(rt, alloc, place, byte) {
            return false;
        }
    }
    true
}

// A test for each byte, since each makes a run for each place of the model.
#[test]
fn no_zero_byte_makes_a_run_fail(rt: HostRuntime) {
    assert!(rt; is_allowed_with(&rt, rt.alloc(), b'\0'));
}

#[test]
fn no_line_feed_makes_a_run_fail(rt: HostRuntime) {
    assert!(rt; is_allowed_with(&rt, rt.alloc(), b'\n'));
}

#[test]
fn no_byte_outside_utf8_makes_a_run_fail(rt: HostRuntime) {
    assert!(rt; is_allowed_with(&rt, rt.alloc(), b'\xff'));
}

#[test]
fn no_tilde_makes_a_run_fail(rt: HostRuntime) {
    assert!(rt; is_allowed_with(&rt, rt.alloc(), b'~'));
}

#[test]
fn no_quote_makes_a_run_fail(rt: HostRuntime) {
    assert!(rt; is_allowed_with(&rt, rt.alloc(), b'"'));
}

#[test]
fn no_bracket_makes_a_run_fail(rt: HostRuntime) {
    assert!(rt; is_allowed_with(&rt, rt.alloc(), b'['));
}
