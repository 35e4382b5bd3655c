//! No file that is read is overwritten.

use crate::case::{Case, MODEL, TABLE, ends_as};

// A command whose output has a name that it has already.
const fn refused<'a>(words: &'a [&'a str], told: &'a str) -> Case<'a> {
    Case {
        words,
        files: &[("m", MODEL), ("t", TABLE)],
        status: 2,
        out: "",
        told,
        left: &[("m", MODEL), ("t", TABLE)],
    }
}

#[test]
fn overwrites_nothing(rt: HostRuntime) {
    let model = "jeldroft: error: 'm' is written, and is read too or written twice\n";
    let table = "jeldroft: error: 't' is written, and is read too or written twice\n";
    let proof = "jeldroft: error: 'p' is written, and is read too or written twice\n";
    let cases = [
        refused(&["generate", "m", "-o", "m"], model),
        refused(&["generate", "./m", "--output", "m"], model),
        refused(&["generate", "m", "-p", "m"], model),
        refused(&["generate", "m", "--seeds", "t", "-o", "t"], table),
        refused(&["generate", "m", "-p", "p", "-o", "p"], proof),
        refused(&["shrink", "m", "t", "-o", "t"], table),
        refused(&["measure", "m", "t", "-o", "t"], table),
    ];
    for (number, case) in cases.iter().enumerate() {
        assert!(rt; ends_as(&rt, rt.alloc(), case) == Ok(true), "case {number}");
    }
}
