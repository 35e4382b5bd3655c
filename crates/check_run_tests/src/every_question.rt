//! The reports and the proofs of runs that answer every question. The numbers of rows are those of another program;
//! the pairs that no row serves were counted by brute force.

use crate::runs::ends_on;
use std::alloc::Global;
use std::thread::Threads;
use test_models::DISK;
use test_runs::{on_model, run};
use value_text::NoMemory;

// A model, and what the checker says of its report and its proof.
struct Proved<'a> {
    model: &'a str,
    verdict: &'a str,
}

const PROVED: &[Proved<'static>] = &[
    Proved {
        model: DISK,
        verdict: "accepted: 60 rows, 4 omissions\n",
    },
    // With the first value of A a cycle of eleven parameters has two colours.
    Proved {
        model: "A: 1, 2\nB: 1, 2, 3\nD: 1, 2, 3\nF: 1, 2, 3\nH: 1, 2, 3\nJ: 1, 2, 3\nL: 1, 2, 3\nC: 1, 2, 3\nE: 1, 2, 3\n\
        G: 1, 2, 3\nI: 1, 2, 3\nK: 1, 2, 3\n[B] <> [C];\n[C] <> [D];\n[D] <> [E];\n[E] <> [F];\n[F] <> [G];\n\
        [G] <> [H];\n[H] <> [I];\n[I] <> [J];\n[J] <> [K];\n[K] <> [L];\nIF [A] = 1 THEN [L] <> [B];\n\
        IF [A] = 1 THEN [B] < 3;\nIF [A] = 1 THEN [C] < 3;\nIF [A] = 1 THEN [D] < 3;\nIF [A] = 1 THEN [E] < 3;\n\
        IF [A] = 1 THEN [F] < 3;\nIF [A] = 1 THEN [G] < 3;\nIF [A] = 1 THEN [H] < 3;\nIF [A] = 1 THEN [I] < 3;\n\
        IF [A] = 1 THEN [J] < 3;\nIF [A] = 1 THEN [K] < 3;\nIF [A] = 1 THEN [L] < 3;\n",
        verdict: "accepted: 19 rows, 63 omissions\n",
    },
    // With the first value of A four parameters of three values and an invalid one have to differ.
    Proved {
        model: "A: 1, 2\nB: 0, ~1\nW: 1, 2, 3, ~4\nX: 1, 2, 3, ~4\nY: 1, 2, 3, ~4\nZ: 1, 2, 3, ~4\n\
        IF [A] = 1 THEN [W] <> [X];\nIF [A] = 1 THEN [W] <> [Y];\nIF [A] = 1 THEN [W] <> [Z];\n\
        IF [A] = 1 THEN [X] <> [Y];\nIF [A] = 1 THEN [X] <> [Z];\nIF [A] = 1 THEN [Y] <> [Z];\n\
        IF [B] = 1 THEN [A] = 1;\n",
        verdict: "accepted: 22 rows, 27 omissions\n",
    },
    // A sub-model and a relation, and twenty parameters before those for which the first value of A has no row.
    Proved {
        model: "A: 1, 2\nB: 0, 1\nC: 0, 1\nD: 0, 1\nE: 0, 1\nF: 0, 1\nG: 0, 1\nH: 0, 1\nI: 0, 1\nJ: 0, 1\nK: 0, 1\nL: 0, 1\n\
        M: 0, 1\nN: 0, 1\nO: 0, 1\nP: 0, 1\nQ: 0, 1\nR: 0, 1\nS: 0, 1\nT: 0, 1\nU: 0, 1\nY: 1, 2\nZ: 1, 2\n\
        { A, Y, Z } @ 2\n@ 3 { A, B, U }\n[B] = 0 OR [C] = 0 OR [D] = 0 OR [E] = 0 OR [F] = 0 OR [G] = 0 OR \
        [H] = 0 OR [I] = 0 OR [J] = 0 OR [K] = 0 OR [L] = 0 OR [M] = 0 OR [N] = 0 OR [O] = 0 OR [P] = 0 OR \
        [Q] = 0 OR [R] = 0 OR [S] = 0 OR [T] = 0 OR [U] = 0;\nIF [A] = 1 THEN [Y] = [Z];\n\
        IF [A] = 1 THEN [Y] <> [Z];\n",
        verdict: "accepted: 15 rows, 164 omissions\n",
    },
    // No row at all.
    Proved {
        model: "W: 1, 2, 3\nX: 1, 2, 3\nY: 1, 2, 3\nZ: 1, 2, 3\n[W] <> [X];\n[W] <> [Y];\n[W] <> [Z];\n[X] <> [Y];\n\
        [X] <> [Z];\n[Y] <> [Z];\n",
        verdict: "accepted: 0 rows, 54 omissions\n",
    },
];

// Whether the checker says so of what a run leaves with a proof of this form.
fn is_accepted<'a, R: Threads + Sync>(
    rt: &R,
    alloc: Global,
    proved: &Proved<'a>,
    form: &'a str,
) -> Result<bool, NoMemory> {
    let model = proved.model.as_bytes();
    let words = ["m", "/budget:max", form, "/proof:p"];
    let ended = run(rt, alloc, &on_model(&words, model))?;
    let report = ended.written.bytes();
    let proof = ended.files.held("p").unwrap_or(b"");
    let end = (0, proved.verdict, "");
    Ok(ended.status == 0 && ends_on(rt, alloc, model, report, proof, end))
}

#[test]
fn accepts_answers_to_every_question(rt: HostRuntime) {
    for proved in PROVED {
        for form in ["/proofformat:1", "/proofformat:2"] {
            let accepted = is_accepted(&rt, rt.alloc(), proved, form);
            assert!(rt; accepted == Ok(true), "{} {form}", proved.verdict);
        }
    }
}
