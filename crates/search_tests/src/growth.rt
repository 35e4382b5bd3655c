//! Suites that are grown, with and without seeds and proofs.

ghost use Rattle.std.specs.Prelude.{◌≡◌, ◌≤◌, ◌^◌, All, IfSome, length};
ghost use Rattle.cov_model.specs.Fits.{FitsModel};
ghost use Rattle.cov_model.specs.Preference.{OrdersValues};
ghost use Rattle.tuple_index.specs.Plan.{plan_of};

use crate::search::NONE_LIVE;
use cov_model::{ParamNo, Prefs, Rows, TestModel, ValueNo};
use definitions::Effort;
use ipog_grow::{GrowOpts, Suite, generate};
use refutation::{Omissions, ProofForm, TreeToken};
use row_text::{RowFile, RowMode, read_rows};
use std::alloc::Global;
use std::thread::Threads;
use test_models::{Counting, model_of};
use tuple_index::Plan;

// A tuple that is omitted, and its tree; no tokens where no proof is asked for.
struct Omitted<'a> {
    tuple: &'a [(ParamNo, ValueNo)],
    tree: &'a [TreeToken],
}

// A model of three parameters, the file of its seed rows, and the suite that is grown.
struct Grown<'a> {
    model: &'a str,
    seeds: &'a str,
    proof: Option<ProofForm>,
    // What a question may cost.
    effort: Effort,
    rows: &'a [[ValueNo; 3]],
    omitted: &'a [Omitted<'a>],
    // How many seed rows are kept, and the lines of those that aren't.
    kept: u32,
    dropped: &'a [u32],
}

// Each value of C is barred with the first of A by a constraint of its own, so the values of B are too.
const NONE_LIVE_ROWS: &[[ValueNo; 3]] = &[
    [1, 0, 0],
    [1, 1, 1],
    [1, 0, 2],
    [1, 0, 1],
    [1, 1, 0],
    [1, 1, 2],
];

const GROWN: &[Grown<'static>] = &[
    Grown {
        model: "A: 1, 2\nB: x, y\nC: u, v\n",
        seeds: "A\n",
        proof: None,
        effort: Effort::Within(1000),
        rows: &[[0, 0, 0], [0, 1, 1], [1, 0, 1], [1, 1, 0]],
        omitted: &[],
        kept: 0,
        dropped: &[],
    },
    // The omitted tuples stand in the order in which they are asked for.
    Grown {
        model: NONE_LIVE,
        seeds: "A\n",
        proof: None,
        effort: Effort::Within(1000),
        rows: NONE_LIVE_ROWS,
        omitted: &[
            Omitted {
                tuple: &[(0, 0), (2, 0)],
                tree: &[],
            },
            Omitted {
                tuple: &[(0, 0), (2, 1)],
                tree: &[],
            },
            Omitted {
                tuple: &[(0, 0), (2, 2)],
                tree: &[],
            },
            Omitted {
                tuple: &[(0, 0), (1, 0)],
                tree: &[],
            },
            Omitted {
                tuple: &[(0, 0), (1, 1)],
                tree: &[],
            },
        ],
        kept: 0,
        dropped: &[],
    },
    Grown {
        model: NONE_LIVE,
        seeds: "A\n",
        proof: Some(ProofForm::One),
        effort: Effort::Within(1000),
        rows: NONE_LIVE_ROWS,
        omitted: NONE_LIVE_OMITTED,
        kept: 0,
        dropped: &[],
    },
    // The same trees, since C alone is left to branch on.
    Grown {
        model: NONE_LIVE,
        seeds: "A\n",
        proof: Some(ProofForm::One),
        effort: Effort::Full,
        rows: NONE_LIVE_ROWS,
        omitted: NONE_LIVE_OMITTED,
        kept: 0,
        dropped: &[],
    },
    // Of the seed rows one is repeated, and two go with no row.
    Grown {
        model: "A: 1, 2\nB: x, ~n\nC: v, ~m\nIF [A] = 2 THEN [C] = \"v\";\n",
        seeds: "C\tZ\tA\tB\nv\tq\t2\t\nv\tq\t2\t\n\n~m\tq\t2\t\n~m\tq\t1\t~n\nk\tq\t1\t\n",
        proof: None,
        effort: Effort::Within(1000),
        rows: &[[1, 0, 0], [0, 0, 0], [0, 1, 0], [1, 1, 0], [0, 0, 1]],
        omitted: &[Omitted {
            tuple: &[(0, 1), (2, 1)],
            tree: &[],
        }],
        kept: 2,
        dropped: &[5, 6],
    },
    Grown {
        model: "A: 1, 2\nB: x, ~n\nC: v, ~m\nIF [A] = 2 THEN [C] = \"v\";\n",
        seeds: "C\tZ\tA\tB\nv\tq\t2\t\nv\tq\t2\t\n\n~m\tq\t2\t\n~m\tq\t1\t~n\nk\tq\t1\t\n",
        proof: None,
        effort: Effort::Full,
        rows: &[[1, 0, 0], [0, 0, 0], [0, 1, 0], [1, 1, 0], [0, 0, 1]],
        omitted: &[Omitted {
            tuple: &[(0, 1), (2, 1)],
            tree: &[],
        }],
        kept: 2,
        dropped: &[5, 6],
    },
];

// Its omitted pairs, with their trees.
const NONE_LIVE_OMITTED: &[Omitted<'static>] = &[
    Omitted {
        tuple: &[(0, 0), (2, 0)],
        tree: &[TreeToken::ByRule(1)],
    },
    Omitted {
        tuple: &[(0, 0), (2, 1)],
        tree: &[TreeToken::ByRule(2)],
    },
    Omitted {
        tuple: &[(0, 0), (2, 2)],
        tree: &[TreeToken::ByRule(3)],
    },
    Omitted {
        tuple: &[(0, 0), (1, 0)],
        tree: THREE_LEAVES,
    },
    Omitted {
        tuple: &[(0, 0), (1, 1)],
        tree: THREE_LEAVES,
    },
];

const THREE_LEAVES: &[TreeToken] = &[
    TreeToken::Branch(2),
    TreeToken::ByRule(1),
    TreeToken::ByRule(2),
    TreeToken::ByRule(3),
];

// Whether the rows have these values.
fn are_rows(rows: &Rows, wanted: &[[ValueNo; 3]]) -> bool {
    if rows.len() != wanted.len() {
        return false;
    }
    for i in 0..rows.len() {
        let [a, b, c] = wanted[i];
        if rows.row(i) != [Some(a), Some(b), Some(c)].as_slice() {
            return false;
        }
    }
    true
}

// Whether these are the omissions, with their trees.
fn are_omitted(omissions: &Omissions, wanted: &[Omitted]) -> bool {
    if omissions.len() != wanted.len() {
        return false;
    }
    for (omission, omitted) in omissions.as_slice().iter().zip(wanted) {
        if omission.tuple.as_slice() != omitted.tuple || omission.tree.as_slice() != omitted.tree {
            return false;
        }
    }
    true
}

// Whether the suite is this one, with omissions of the first form.
fn is_suite(suite: &Suite, grown: &Grown) -> bool {
    are_rows(&suite.rows, grown.rows)
        && suite.omitted.form() == ProofForm::One
        && are_omitted(&suite.omitted, grown.omitted)
        && suite.kept == grown.kept
        && suite.dropped.as_slice() == grown.dropped
}

// The seed rows of a file; nothing where it is refused. Callers know no more of them than that they are of the model.
fn seeds_of(alloc: Global, model: &TestModel, text: &str) -> Option<RowFile>
    ensures { IfSome result (λ file. All (λ seed. FitsModel model.now seed.cells) file.rows × (length file.rows ≤ 2 ^ 20)) }
{
    if text.len() > 1000 {
        return None;
    }
    match read_rows(alloc, text.as_bytes(), model, RowMode::Seed) {
        Ok(file) => Some(file),
        Err(_) => None,
    }
}

// Whether the suite that two workers may grow is this one, and the first of them comes alone: there are few values to
// score.
fn grows_from<R: Threads + Sync>(
    rt: &R,
    alloc: Global,
    model: &TestModel,
    plan: &Plan,
    prefs: &Prefs,
    seeds: &RowFile,
    grown: &Grown,
) -> bool
    requires plan { plan.now ≡ plan_of model.now }
    requires orders { OrdersValues model.now prefs.now }
    requires seeds { All (λ seed. FitsModel model.now seed.cells) seeds.now.rows }
    requires few { length seeds.now.rows ≤ 2 ^ 20 }
{
    let opts = GrowOpts {
        effort: grown.effort,
        workers: 2,
        proof: grown.proof,
    };
    let gate = Counting::new();
    match generate(rt, alloc, model, plan, prefs, seeds, &opts, &gate) {
        Ok(suite) => is_suite(&suite, grown) && gate.has_all(1),
        Err(_) => false,
    }
}

// The same by the order of the values in the model; false too where the seed rows are refused, or memory is.
fn grows_by<R: Threads + Sync>(
    rt: &R,
    alloc: Global,
    model: &TestModel,
    plan: &Plan,
    grown: &Grown,
) -> bool
    requires { plan.now ≡ plan_of model.now }
{
    let Some(seeds) = seeds_of(alloc, model, grown.seeds) else {
        return false;
    };
    match Prefs::new(alloc, model, None) {
        Ok(prefs) => grows_from(rt, alloc, model, plan, &prefs, &seeds, grown),
        Err(_) => false,
    }
}

// The same; false too where there is no plan.
fn grows<R: Threads + Sync>(rt: &R, alloc: Global, model: &TestModel, grown: &Grown) -> bool {
    match Plan::new(alloc, model) {
        Ok(plan) => grows_by(rt, alloc, model, &plan, grown),
        Err(_) => false,
    }
}

// The same under the model of its text.
fn is_grown<R: Threads + Sync>(rt: &R, alloc: Global, grown: &Grown) -> bool {
    match model_of(alloc, grown.model) {
        Ok(model) => grows(rt, alloc, &model, grown),
        Err(_) => false,
    }
}

#[test]
fn grows_suites(rt: HostRuntime) {
    for (place, grown) in GROWN.iter().enumerate() {
        assert!(rt; is_grown(&rt, rt.alloc(), grown), "{place}");
    }
}

// Each eight of the first eighteen parameters are combined with the last one, whose column so has 43,758 sets in play:
// more than one worker is to score where there are others.
const WIDE: &str = "\
    A: 1\nB: 1\nC: 1\nD: 1\nE: 1\nF: 1\nG: 1\nH: 1\nI: 1\n\
    J: 1\nK: 1\nL: 1\nM: 1\nN: 1\nO: 1\nP: 1\nQ: 1\nR: 1\nZ: 1\n\
    { A, B, C, D, E, F, G, H, I, J, K, L, M, N, O, P, Q, R } @ 8\n";

// A row of the first eighteen.
const WIDE_SEED: &str = "A\tB\tC\tD\tE\tF\tG\tH\tI\tJ\tK\tL\tM\tN\tO\tP\tQ\tR\n\
    1\t1\t1\t1\t1\t1\t1\t1\t1\t1\t1\t1\t1\t1\t1\t1\t1\t1\n";

// Whether both of two workers come where the suite of the wide model is grown.
fn come_to<R: Threads + Sync>(
    rt: &R,
    alloc: Global,
    model: &TestModel,
    plan: &Plan,
    prefs: &Prefs,
) -> bool
    requires plan { plan.now ≡ plan_of model.now }
    requires orders { OrdersValues model.now prefs.now }
{
    let Some(seeds) = seeds_of(alloc, model, WIDE_SEED) else {
        return false;
    };
    let opts = GrowOpts {
        effort: Effort::Within(1000),
        workers: 2,
        proof: None,
    };
    let gate = Counting::new();
    match generate(rt, alloc, model, plan, prefs, &seeds, &opts, &gate) {
        Ok(suite) => suite.rows.len() == 1 && gate.has_all(2),
        Err(_) => false,
    }
}

// The same by its plan and the order of its values.
fn both_come_to<R: Threads + Sync>(rt: &R, alloc: Global, model: &TestModel) -> bool {
    let Ok(plan) = Plan::new(alloc, model) else {
        return false;
    };
    match Prefs::new(alloc, model, None) {
        Ok(prefs) => come_to(rt, alloc, model, &plan, &prefs),
        Err(_) => false,
    }
}

fn both_come<R: Threads + Sync>(rt: &R, alloc: Global) -> bool {
    match model_of(alloc, WIDE) {
        Ok(model) => both_come_to(rt, alloc, &model),
        Err(_) => false,
    }
}

#[test]
fn two_workers_score_a_wide_column(rt: HostRuntime) {
    assert!(rt; both_come(&rt, rt.alloc()));
}
