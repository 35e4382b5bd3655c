//! The words of `pictcheck`.

use crate::runs::{ACCEPTED, Given, MODEL, PROOF, REPORT, ends_as, ends_on_model, on_files};

// Words that have no reading, and the line on the first that has none.
const FAULTS: &[(&[&str], &str)] = &[
    (&[], "error: word 1 is not understood\n"),
    (&["m"], "error: word 2 is not understood\n"),
    (&["m", "r"], "error: word 3 is not understood\n"),
    (&["m", "", "p"], "error: word 2 is not understood\n"),
    (&["", "r"], "error: word 1 is not understood\n"),
    (&["m", "r", "p", "x"], "error: word 4 is not understood\n"),
    (&["m", "r", "p", "/s"], "error: word 4 is not understood\n"),
    (
        &["m", "r", "p", "/c", "/r:7"],
        "error: word 5 is not understood\n",
    ),
    (
        &["m", "r", "p", "/proof:q"],
        "error: word 4 is not understood\n",
    ),
    (
        &["m", "r", "p", "/budget:9"],
        "error: word 4 is not understood\n",
    ),
    (
        &["m", "r", "p", "/budget:max"],
        "error: word 4 is not understood\n",
    ),
    (
        &["m", "r", "p", "/o:0"],
        "error: word 4 is not understood\n",
    ),
    (
        &["m", "r", "p", "/workers:65"],
        "error: word 4 is not understood\n",
    ),
    (
        &["m", "r", "p", "/d:~"],
        "error: word 4 is not understood\n",
    ),
    (
        &["m", "r", "p", "/d:~", "/n:zz"],
        "error: word 5 is not understood\n",
    ),
    (
        &["m", "r", "p", "/d:~", "/q", "/n:!"],
        "error: word 5 is not understood\n",
    ),
    (&["m", "r", "p", "/d"], "error: word 4 is not understood\n"),
];

#[test]
fn tells_the_first_word_without_a_reading(rt: HostRuntime) {
    for (words, line) in FAULTS {
        assert!(rt;
            ends_on_model(&rt, rt.alloc(), words, 3, "", line),
            "{words:?}"
        );
    }
}

// Words that have a reading.
const WORDS: &[&[&str]] = &[
    &["m", "r", "p", "/c"],
    &["m", "r", "p", "/O:2", "/workers:64"],
    &["m", "r", "p", "/o:1", "/o:max"],
    &["m", "r", "p", "/d:~", "/n:!", "/d:,"],
];

#[test]
fn reads_options(rt: HostRuntime) {
    for words in WORDS {
        assert!(rt;
            ends_on_model(&rt, rt.alloc(), words, 0, ACCEPTED, ""),
            "{words:?}"
        );
    }
}

// The first three words are names, whatever their first character.
#[test]
fn a_name_may_look_like_an_option(rt: HostRuntime) {
    let files = [("/c", MODEL), ("/s", REPORT), ("--help", PROOF)];
    let given = Given {
        words: &["/c", "/s", "--help"],
        ..on_files(&files)
    };
    assert!(rt; ends_as(&rt, rt.alloc(), &given, 0, ACCEPTED, ""));
}
