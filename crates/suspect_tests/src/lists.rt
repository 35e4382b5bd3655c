//! The texts of suspicious tuples.

use crate::results::{model_at, results_of};
use cov_model::TestModel;
use memory_io::MemSink;
use outside_io::WriteAnswer;
use std::alloc::Global;
use suspect_tuples::{Suspects, put_suspects, suspects};

// Three parameters of two values each.
const TRIPLE: &str = "A: 1, 2\nB: x, y\nC: u, v\n";

// A model, an order, a file of results, and the text of its suspicious tuples.
const TEXTS: &[(&str, u32, &[u8], &str)] = &[
    (
        TRIPLE,
        2,
        b"A\tB\tC\t:result\n1\tx\tu\tpass\n1\ty\tv\tfail\n2\tx\tv\tpass\n2\ty\tu\tpass\n",
        "Passing tests: 3\nFailing tests: 1\nIncomplete tests: 0\nSuspicious tuples: 3\nsuspect 0=0 1=1 : 1 failing\nsuspect 0=0 2=1 : 1 failing\nsuspect 1=1 2=1 : 1 failing\n",
    ),
    // one row more that passed
    (
        TRIPLE,
        2,
        b"A\tB\tC\t:result\n1\tx\tu\tpass\n1\ty\tv\tfail\n2\tx\tv\tpass\n2\ty\tu\tpass\n2\ty\tv\tpass\n",
        "Passing tests: 4\nFailing tests: 1\nIncomplete tests: 0\nSuspicious tuples: 2\nsuspect 0=0 1=1 : 1 failing\nsuspect 0=0 2=1 : 1 failing\n",
    ),
    // order 1 is too low, and order 3 tells no more
    (
        TRIPLE,
        1,
        b"A\tB\tC\t:result\n1\tx\tu\tpass\n1\ty\tv\tfail\n2\tx\tv\tpass\n2\ty\tu\tpass\n",
        "Passing tests: 3\nFailing tests: 1\nIncomplete tests: 0\nSuspicious tuples: 0\n",
    ),
    (
        TRIPLE,
        3,
        b"A\tB\tC\t:result\n1\tx\tu\tpass\n1\ty\tv\tfail\n2\tx\tv\tpass\n2\ty\tu\tpass\n",
        "Passing tests: 3\nFailing tests: 1\nIncomplete tests: 0\nSuspicious tuples: 3\nsuspect 0=0 1=1 : 1 failing\nsuspect 0=0 2=1 : 1 failing\nsuspect 1=1 2=1 : 1 failing\n",
    ),
    // order 2 is too low
    (
        TRIPLE,
        2,
        b"A\tB\tC\t:result\n1\ty\tu\tpass\n1\tx\tv\tpass\n2\ty\tv\tpass\n1\ty\tv\tfail\n",
        "Passing tests: 3\nFailing tests: 1\nIncomplete tests: 0\nSuspicious tuples: 0\n",
    ),
    (
        TRIPLE,
        3,
        b"A\tB\tC\t:result\n1\ty\tu\tpass\n1\tx\tv\tpass\n2\ty\tv\tpass\n1\ty\tv\tfail\n",
        "Passing tests: 3\nFailing tests: 1\nIncomplete tests: 0\nSuspicious tuples: 1\nsuspect 0=0 1=1 2=1 : 1 failing\n",
    ),
    // a tuple that only the first failing row has, and one that only the last has
    (
        TRIPLE,
        2,
        b"A\tB\tC\t:result\n1\tx\tu\tfail\n2\ty\tu\tpass\n2\tx\tv\tpass\n1\ty\tv\tfail\n",
        "Passing tests: 2\nFailing tests: 2\nIncomplete tests: 0\nSuspicious tuples: 3\nsuspect 0=0 : 2 failing\nsuspect 1=0 2=0 : 1 failing\nsuspect 1=1 2=1 : 1 failing\n",
    ),
    // repeats, an empty cell, and an unknown value
    (
        TRIPLE,
        2,
        b"A\tB\tC\t:result\n1\tx\tu\tpass\n2\tx\tu\tfail\n2\tx\tu\tfail\n2\t\tv\tpass\n2\ty\tw\tfail\n",
        "Passing tests: 1\nFailing tests: 2\nIncomplete tests: 2\nSuspicious tuples: 1\nsuspect 0=1 : 2 failing\n",
    ),
    // nothing failed, and no row at all
    (
        TRIPLE,
        2,
        b"A\tB\tC\t:result\n1\tx\tu\tpass\n2\ty\tv\tpass\n",
        "Passing tests: 2\nFailing tests: 0\nIncomplete tests: 0\nSuspicious tuples: 0\n",
    ),
    (
        TRIPLE,
        2,
        b"A\tB\tC\t:result\n",
        "Passing tests: 0\nFailing tests: 0\nIncomplete tests: 0\nSuspicious tuples: 0\n",
    ),
    // a byte-order mark, carriage returns, another order of columns, and results in any case with spaces
    (
        TRIPLE,
        2,
        b"\xef\xbb\xbf:Result\tC\tB\tA\r\npass\tu\tx\t1\r\n\r\n FAIL\tv\ty\t1\r\nPass \tv\tx\t2\r\npaSS\tu\ty\t2",
        "Passing tests: 3\nFailing tests: 1\nIncomplete tests: 0\nSuspicious tuples: 3\nsuspect 0=0 1=1 : 1 failing\nsuspect 0=0 2=1 : 1 failing\nsuspect 1=1 2=1 : 1 failing\n",
    ),
    // invalid rows count
    (
        "A: 1, 2\nB: x, y\nIF [A] = 1 THEN [B] = \"x\";\n",
        2,
        b"A\tB\t:result\n1\tx\tpass\n1\ty\tfail\n2\ty\tpass\n",
        "Passing tests: 2\nFailing tests: 1\nIncomplete tests: 0\nSuspicious tuples: 1\nsuspect 0=0 1=1 : 1 failing\n",
    ),
];

// The suspicious tuples of a file of results; nothing where it is refused, or memory was.
fn suspects_of(alloc: Global, model: &TestModel, file: &[u8]) -> Option<Suspects> {
    let Ok(results) = results_of(alloc, model, file) else {
        return None;
    };
    match suspects(alloc, model, &results) {
        Ok(found) => Some(found),
        Err(_) => None,
    }
}

// Whether suspicious tuples are written as this text; `false` too where memory was refused.
fn are_written(alloc: Global, found: &Suspects, text: &str) -> bool {
    match MemSink::up_to(alloc, 1000) {
        Ok(mut out) => {
            put_suspects(found, &mut out) == WriteAnswer::Done && out.bytes() == text.as_bytes()
        }
        Err(_) => false,
    }
}

// Whether this is the text of the suspicious tuples of a file of results.
fn is_text(alloc: Global, model: &TestModel, file: &[u8], text: &str) -> bool {
    match suspects_of(alloc, model, file) {
        Some(found) => are_written(alloc, &found, text),
        None => false,
    }
}

// The same under the model of a text.
pub(crate) fn is_text_under(
    alloc: Global,
    model: &str,
    order: u32,
    file: &[u8],
    text: &str,
) -> bool {
    match model_at(alloc, model, order, true) {
        Some(model) => is_text(alloc, &model, file, text),
        None => false,
    }
}

#[test]
fn lists_suspicious_tuples(rt: HostRuntime) {
    for (model, order, file, text) in TEXTS {
        let is_text = is_text_under(rt.alloc(), model, *order, file, text);
        assert!(rt; is_text, "{text}");
    }
}
