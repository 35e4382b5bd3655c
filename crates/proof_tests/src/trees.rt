//! Which trees refute a tuple.
ghost use Rattle.std.specs.Prelude.{◌≤◌, ◌^◌, All, length};
ghost use Rattle.refutation.specs.Checking.{AreOfModel};

use crate::proofs::proof_of;
use cov_model::{Cells, TestModel};
use refutation::{Omissions, ProofForm, TreeChecker, tree_ok};
use std::alloc::Global;
use test_models::model_of;

/// A model in which no value of C goes with the first value of A.
pub const BARRED: &str = "A: 1, 2\nB: x, y\nC: p, q, r\nIF [A] = 1 THEN [C] <> \"p\";\n\
    IF [A] = 1 THEN [C] <> \"q\";\nIF [A] = 1 THEN [C] <> \"r\";\n";

// With the first value of A, B and C have to be equal and not equal.
const TWIN: &str = "A: 1, 2\nB: 1, 2\nC: 1, 2\nIF [A] = 1 THEN [B] = [C];\n\
    IF [A] = 1 THEN [B] <> [C];\n";

// The same with one more parameter.
const TWIN_AND_ONE: &str = "A: 1, 2\nB: 1, 2\nC: 1, 2\nD: 1, 2\nIF [A] = 1 THEN [B] = [C];\n\
    IF [A] = 1 THEN [B] <> [C];\n";

// A has negative values alone.
const NEGATIVE: &str = "A: ~1, ~2\nB: x, y\nC: u, v\n";

// B and C have a negative value.
const MIXED: &str = "A: 1, 2\nB: x, ~n\nC: v, ~m\nIF [A] = 2 THEN [C] = \"v\";\n";

// A proof file in format 2, each of whose tuples is refuted after those before.
const CITING: &str =
    "pict-proof 2\nomit 0=0 1=0 : B2 L2 L1\nomit 0=0 1=1 : B2 L1 L2\nomit 0=0 2=0 : B1 L2 L1\n\
    omit 0=0 2=1 : B1 L1 L2\nomit 0=0 3=0 : B1 O1 O2\n";

// A model, the lines of some omissions, and whether the tree of the last refutes its tuple after those
// before it.
const TREES: &[(&str, &str, bool)] = &[
    (BARRED, "omit 0=0 1=0 : B2 L1 L2 L3\n", true),
    (BARRED, "omit 0=0 1=0 : L1\n", false),
    (BARRED, "omit 0=0 1=0 : B2 L1 L2\n", false),
    (BARRED, "omit 0=0 1=0 : B2 L1 L3 L3\n", false),
    (BARRED, "omit 0=0 1=0 : B2 L1 L2 L3 L1\n", false),
    (BARRED, "omit 0=0 1=0 : B0 L1 L1\n", false),
    (BARRED, "omit 0=0 1=0 : B2\n", false),
    (BARRED, "omit 0=0 2=1 : L2\n", true),
    (BARRED, "omit 0=1 2=1 : L2\n", false),
    (BARRED, "omit 0=0 2=0 : B1 L1 L1\n", true),
    (BARRED, "omit 0=0 2=0 : N\n", false),
    (TWIN, "omit 0=0 : B1 B2 L2 L1 B2 L1 L2\n", true),
    (TWIN, "omit 0=0 : B2 B1 L2 L1 B1 L1 L2\n", true),
    (TWIN, "omit 0=0 : B1 B2 L2 L1 B2 L2 L1\n", false),
    (TWIN, "omit 0=0 : B1 B2 L2 L1 B1 L1 L2\n", false),
    (NEGATIVE, "omit 1=0 2=0 : B0 N N\n", true),
    (NEGATIVE, "omit 1=0 2=0 : B0 N\n", false),
    (NEGATIVE, "omit 0=0 1=0 : N\n", false),
    (MIXED, "omit 0=1 2=1 : L1\n", true),
    (MIXED, "omit 0=1 2=1 : B1 L1 L1\n", true),
    (MIXED, "omit 0=1 2=1 : B1 L1 N\n", true),
    (MIXED, "omit 0=1 2=1 : B1 N L1\n", false),
    (MIXED, "omit 0=1 2=1 : B1 L1\n", false),
];

// The same of lines behind those that cite, in format 2.
const CITED: &[(&str, bool)] = &[
    ("", true),
    ("omit 0=0 3=1 : B1 O1 O2\n", true),
    ("omit 0=0 3=1 : B2 O3 O4\n", true),
    ("omit 0=0 3=1 : B1 O2 O1\n", false),
    ("omit 0=0 3=1 : O1\n", false),
    ("omit 0=0 3=1 : B1 O5 O2\n", false),
    ("omit 0=0 3=1 : B1 O6 O2\n", false),
    ("omit 0=0 3=1 : O6\n", false),
    ("omit 0=0 3=1 : O7\n", false),
];

// Whether the tree of the last omission refutes its tuple after those before it; false where there is
// no omission, or memory was refused.
fn last_refutes(alloc: Global, model: &TestModel, proof: &Omissions) -> bool
    requires of_model { All (λ omission. AreOfModel model.now omission.tuple) proof.now.omissions }
    requires few { length proof.now.omissions ≤ 2 ^ 20 }
{
    let [front @ .., last] = proof.as_slice() else {
        return false;
    };
    let Ok(mut scratch) = Cells::empty(alloc, model.params().len()) else {
        return false;
    };
    let before = front.len() as u32;
    tree_ok(
        model,
        &last.tuple,
        last.tree.as_slice(),
        proof,
        before,
        &mut scratch,
    )
}

// Whether a checker says that the tree of the last omission refutes its tuple after those before it; nothing where
// there is no omission, or memory was refused.
fn checker_says(alloc: Global, model: &TestModel, proof: &Omissions) -> Option<bool>
    requires of_model { All (λ omission. AreOfModel model.now omission.tuple) proof.now.omissions }
    requires few { length proof.now.omissions ≤ 2 ^ 20 }
{
    let [front @ .., last] = proof.as_slice() else {
        return None;
    };
    let before = front.len() as u32;
    let Ok(mut scratch) = Cells::empty(alloc, model.params().len()) else {
        return None;
    };
    let Ok(checker) = TreeChecker::new(alloc, model, proof) else {
        return None;
    };
    Some(checker.refutes(
        &last.tuple,
        last.tree.as_slice(),
        proof,
        before,
        &mut scratch,
    ))
}

// Whether the tree of the only omission refutes its tuple after none; nothing where there isn't one, or memory was
// refused.
fn refutes_alone(alloc: Global, model: &TestModel, proof: &Omissions) -> Option<bool>
    requires { All (λ omission. AreOfModel model.now omission.tuple) proof.now.omissions }
{
    let [only] = proof.as_slice() else {
        return None;
    };
    let Ok(mut scratch) = Cells::empty(alloc, model.params().len()) else {
        return None;
    };
    let none = Omissions::empty(alloc, ProofForm::One);
    let tree = only.tree.as_slice();
    Some(tree_ok(model, &only.tuple, tree, &none, 0, &mut scratch))
}

// What says whether a tree refutes a tuple: the plain check, the same after no omission at all, or a checker.
#[derive(Clone, Copy)]
enum Judge {
    Plain,
    Alone,
    Checker,
}

// What it says of the last omission; nothing where a checker says nothing.
fn judged(alloc: Global, judge: Judge, model: &TestModel, proof: &Omissions) -> Option<bool>
    requires of_model { All (λ omission. AreOfModel model.now omission.tuple) proof.now.omissions }
    requires few { length proof.now.omissions ≤ 2 ^ 20 }
{
    match judge {
        Judge::Plain => Some(last_refutes(alloc, model, proof)),
        Judge::Alone => refutes_alone(alloc, model, proof),
        Judge::Checker => checker_says(alloc, model, proof),
    }
}

// The same for the proof of a text with this line at its end; nothing where there is no proof.
fn line_refutes(
    alloc: Global,
    judge: Judge,
    model: &TestModel,
    text: &str,
    line: &str,
) -> Option<bool> {
    let Ok(file) = format!(in alloc; "{text}{line}") else {
        return None;
    };
    match proof_of(alloc, model, file.as_str()) {
        Ok(proof) => judged(alloc, judge, model, &proof),
        Err(_) => None,
    }
}

// The same for the model of a text.
fn refutes(alloc: Global, judge: Judge, model: &str, text: &str, line: &str) -> Option<bool> {
    match model_of(alloc, model) {
        Ok(model) => line_refutes(alloc, judge, &model, text, line),
        Err(_) => None,
    }
}

#[test]
fn trees_refute_their_tuples(rt: HostRuntime) {
    for (model, lines, expected) in TREES {
        for judge in [Judge::Plain, Judge::Alone] {
            let refutes = refutes(rt.alloc(), judge, model, "pict-proof 1\n", lines);
            assert!(rt; refutes == Some(*expected), "{lines}");
        }
    }
}

#[test]
fn trees_cite_earlier_tuples(rt: HostRuntime) {
    for (line, expected) in CITED {
        let refutes = refutes(rt.alloc(), Judge::Plain, TWIN_AND_ONE, CITING, line);
        assert!(rt; refutes == Some(*expected), "{line}");
    }
}

// Lines in format 2. A tuple with a negative value may be omitted where one without it isn't, so it takes more to
// cite.
const CITED_NEGATIVES: &[(&str, bool)] = &[
    ("omit 1=0 2=0 : B0 N N\nomit 0=0 1=0 2=0 : O1\n", false),
    ("omit 2=0 : N\nomit 1=0 2=0 : B0 O1 O1\n", true),
];

#[test]
fn negative_values_have_to_be_cited(rt: HostRuntime) {
    for (lines, expected) in CITED_NEGATIVES {
        let refutes = refutes(rt.alloc(), Judge::Plain, NEGATIVE, "pict-proof 2\n", lines);
        assert!(rt; refutes == Some(*expected), "{lines}");
    }
}

// Lines for the first model with fifteen leaves by constraints. Its terms have as many truths at their values, so a
// checker has the constraints compiled.
const FIFTEEN_LEAVES: &str =
    "pict-proof 1\nomit 0=0 1=0 : B2 L1 L2 L3\nomit 0=0 1=0 : B2 L1 L2 L3\n\
    omit 0=0 1=0 : B2 L1 L2 L3\nomit 0=0 1=1 : B2 L1 L2 L3\nomit 0=0 1=1 : B2 L1 L2 L3\n";

#[test]
fn a_checker_says_the_same(rt: HostRuntime) {
    for (model, line, expected) in TREES {
        if *model == BARRED {
            let plain = refutes(rt.alloc(), Judge::Checker, BARRED, "pict-proof 1\n", line);
            assert!(rt; plain == Some(*expected), "{line}");
            let compiled = refutes(rt.alloc(), Judge::Checker, BARRED, FIFTEEN_LEAVES, line);
            assert!(rt; compiled == Some(*expected), "{line}");
        }
    }
}
