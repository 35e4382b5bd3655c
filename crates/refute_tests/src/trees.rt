//! The trees of single tuples, and a proof whose trees cite earlier tuples.

ghost use Rattle.std.specs.Prelude.{◌<◌, ◌^◌, length};

use crate::refuted::{refuted, tuple_of};
use cov_model::{ParamNo, TestModel, ValueNo};
use feasibility::RefuteFault;
use refutation::{Omission, Omissions, ProofForm, TreeBuf, TreeToken};
use std::alloc::Global;
use test_models::{model_of, options, read};

// With the first value of A, B and C have to be equal and to differ.
const TWINS: &str = "A: 1, 2\nB: 1, 2\nC: 1, 2\n\
    IF [A] = 1 THEN [B] = [C];\nIF [A] = 1 THEN [B] <> [C];\n";

// Models, a tuple of each, and the tuple's tree in a proof of the first format.
const TREES: &[(&str, &[(ParamNo, ValueNo)], &[TreeToken])] = &[
    // no value of C goes with the first value of A
    (
        "A: 1, 2\nB: x, y\nC: p, q, r\nIF [A] = 1 THEN [C] <> \"p\";\n\
            IF [A] = 1 THEN [C] <> \"q\";\nIF [A] = 1 THEN [C] <> \"r\";\n",
        &[(0, 0), (1, 0)],
        &[
            TreeToken::Branch(2),
            TreeToken::ByRule(1),
            TreeToken::ByRule(2),
            TreeToken::ByRule(3),
        ],
    ),
    (
        TWINS,
        &[(0, 0)],
        &[
            TreeToken::Branch(1),
            TreeToken::Branch(2),
            TreeToken::ByRule(2),
            TreeToken::ByRule(1),
            TreeToken::Branch(2),
            TreeToken::ByRule(1),
            TreeToken::ByRule(2),
        ],
    ),
    // A has negative values alone, and no constraint names it
    (
        "A: ~1, ~2\nB: x, y\nC: u, v\n",
        &[(1, 0), (2, 0)],
        &[
            TreeToken::Branch(0),
            TreeToken::ByNegative,
            TreeToken::ByNegative,
        ],
    ),
    ("A: 1, 2\n[A] > 5;\n", &[(0, 0)], &[TreeToken::ByRule(1)]),
    // two constraints are No
    (
        "A: 1, 2\nB: x, y\n[B] IN { \"x\", \"y\" };\n[A] > 1;\n[A] > 5;\n",
        &[(0, 0)],
        &[TreeToken::ByRule(2)],
    ),
    // a negative value between others, of which the last one is tried first
    (
        "A: 1, 2\nB: x, ~n, y (5)\nIF [A] = 1 THEN [B] <> \"x\";\n\
            IF [A] = 1 THEN [B] <> \"y\";\n",
        &[(0, 0)],
        &[
            TreeToken::Branch(1),
            TreeToken::ByRule(1),
            TreeToken::ByNegative,
            TreeToken::ByRule(2),
        ],
    ),
];

// No omissions, for a proof of the first format. Callers know no more of them than that they are few.
fn no_omissions(alloc: Global) -> Omissions
    ensures { length result.omissions < 2 ^ 32 }
{
    Omissions::empty(alloc, ProofForm::One)
}

// The model of a text at order 1; nothing where there is none, or memory was refused.
fn model_at_one(alloc: Global, text: &str) -> Option<TestModel> {
    match read(alloc, text, &options(1)) {
        Ok((model, _)) => Some(model),
        Err(_) => None,
    }
}

// The tree of a tuple of the model of a text, within a budget.
fn tree_of(
    alloc: Global,
    text: &str,
    pairs: &[(ParamNo, ValueNo)],
    budget: u64,
) -> Result<TreeBuf, RefuteFault> {
    let Some(model) = model_at_one(alloc, text) else {
        return Err(RefuteFault::NoMemory);
    };
    let tuple = tuple_of(alloc, pairs)?;
    refuted(alloc, &model, &tuple, budget, &no_omissions(alloc))
}

// Whether that is this tree.
fn is_tree(
    alloc: Global,
    text: &str,
    pairs: &[(ParamNo, ValueNo)],
    budget: u64,
    tree: &[TreeToken],
) -> bool {
    match tree_of(alloc, text, pairs, budget) {
        Ok(made) => made.as_slice() == tree,
        Err(_) => false,
    }
}

#[test]
fn refutes_by_constraints_and_negative_values(rt: HostRuntime) {
    for (text, pairs, tree) in TREES {
        assert!(rt; is_tree(rt.alloc(), text, pairs, 3, tree), "{text}");
    }
}

// Whether the tree of a tuple costs more than this budget.
fn is_spent(alloc: Global, text: &str, pairs: &[(ParamNo, ValueNo)], budget: u64) -> bool {
    match tree_of(alloc, text, pairs, budget) {
        Ok(_) => false,
        Err(fault) => fault == RefuteFault::Spent,
    }
}

// The plain cost of the first value of A is 3.
#[test]
fn refutes_within_the_budget(rt: HostRuntime) {
    assert!(rt; is_spent(rt.alloc(), TWINS, &[(0, 0)], 2));
}

// The tuples that are omitted with a further parameter D, in order, and their trees in a proof of the
// second format.
const CITING: &[(&[(ParamNo, ValueNo)], &[TreeToken])] = &[
    (
        &[(0, 0), (1, 0)],
        &[
            TreeToken::Branch(2),
            TreeToken::ByRule(2),
            TreeToken::ByRule(1),
        ],
    ),
    (
        &[(0, 0), (1, 1)],
        &[
            TreeToken::Branch(2),
            TreeToken::ByRule(1),
            TreeToken::ByRule(2),
        ],
    ),
    (
        &[(0, 0), (2, 0)],
        &[
            TreeToken::Branch(1),
            TreeToken::ByRule(2),
            TreeToken::ByRule(1),
        ],
    ),
    (
        &[(0, 0), (2, 1)],
        &[
            TreeToken::Branch(1),
            TreeToken::ByRule(1),
            TreeToken::ByRule(2),
        ],
    ),
    (
        &[(0, 0), (3, 0)],
        &[
            TreeToken::Branch(1),
            TreeToken::ByOmission(1),
            TreeToken::ByOmission(2),
        ],
    ),
    (
        &[(0, 0), (3, 1)],
        &[
            TreeToken::Branch(1),
            TreeToken::ByOmission(1),
            TreeToken::ByOmission(2),
        ],
    ),
];

// Whether the tree of a tuple behind these omissions is this one. It joins them.
fn joins(
    alloc: Global,
    model: &TestModel,
    omissions: &mut Omissions,
    pairs: &[(ParamNo, ValueNo)],
    tree: &[TreeToken],
) -> bool {
    if omissions.len() >= 6 {
        return false;
    }
    let Ok(tuple) = tuple_of(alloc, pairs) else {
        return false;
    };
    let Ok(made) = refuted(alloc, model, &tuple, 3, omissions) else {
        return false;
    };
    let is_tree = made.as_slice() == tree;
    match omissions.push(Omission { tuple, tree: made }) {
        Ok(()) => is_tree,
        Err(_) => false,
    }
}

// Whether all of them have their trees.
fn cite(alloc: Global, text: &str) -> bool {
    let Ok(model) = model_of(alloc, text) else {
        return false;
    };
    let mut omissions = Omissions::empty(alloc, ProofForm::Two);
    for (pairs, tree) in CITING {
        if !joins(alloc, &model, &mut omissions, pairs, tree) {
            return false;
        }
    }
    true
}

#[test]
fn cites_earlier_tuples(rt: HostRuntime) {
    let text = "A: 1, 2\nB: 1, 2\nC: 1, 2\nD: 1, 2\n\
        IF [A] = 1 THEN [B] = [C];\nIF [A] = 1 THEN [B] <> [C];\n";
    assert!(rt; cite(rt.alloc(), text));
}

// Whether a fault is told as this.
fn is_told_as(alloc: Global, fault: RefuteFault, text: &str) -> bool {
    match format!(in alloc; "{fault}") {
        Ok(told) => told.as_str() == text,
        Err(_) => false,
    }
}

#[test]
fn faults_say_what_they_are(rt: HostRuntime) {
    assert!(rt;
        is_told_as(
            rt.alloc(),
            RefuteFault::Spent,
            "the plain cost exceeds the budget"
        )
    );
    assert!(rt; is_told_as(rt.alloc(), RefuteFault::NoMemory, "memory was refused"));
}
