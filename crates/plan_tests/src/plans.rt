//! The demanded sets of models, and the ranks of their tuples.

ghost use Rattle.std.specs.Prelude.{◌≡◌, ◌≤◌};
ghost use Rattle.tuple_index.specs.Plan.{plan_of};

use cov_model::{ParamNo, TestModel, ValueNo};
use std::alloc::{AllocError, Global};
use test_models::{OVERLAPPING, model_of, options, read};
use tuple_index::{Plan, PlanFault};

// A demanded set.
struct Set<'a> {
    members: &'a [ParamNo],
    // How many tuples it has.
    size: u32,
    // How many the sets before it have.
    base: u32,
}

// Whether the plan's sets are these.
fn are_sets(plan: &Plan, sets: &[Set]) -> bool {
    if plan.set_count() as usize != sets.len() {
        return false;
    }
    for set in 0..plan.set_count() {
        let wanted = &sets[set as usize];
        if plan.members(set) != wanted.members
            || plan.size(set) != wanted.size
            || plan.base(set) != wanted.base
        {
            return false;
        }
    }
    true
}

// A model, and its demanded sets.
struct Planned<'a> {
    model: &'a str,
    sets: &'a [Set<'a>],
}

const PLANS: &[Planned<'static>] = &[
    Planned {
        model: "A: 1, 2\nB: 1, 2\nC: 1, 2\nD: 1, 2\nE: 1, 2\n{ A, B, C } @ 2\n",
        sets: &[
            Set {
                members: &[0, 1, 3],
                size: 8,
                base: 0,
            },
            Set {
                members: &[0, 1, 4],
                size: 8,
                base: 8,
            },
            Set {
                members: &[0, 2, 3],
                size: 8,
                base: 16,
            },
            Set {
                members: &[0, 2, 4],
                size: 8,
                base: 24,
            },
            Set {
                members: &[1, 2, 3],
                size: 8,
                base: 32,
            },
            Set {
                members: &[1, 2, 4],
                size: 8,
                base: 40,
            },
            Set {
                members: &[3, 4],
                size: 4,
                base: 48,
            },
        ],
    },
    Planned {
        model: "A: 1, 2\nB: 1, 2\nC: 1, 2\nD: 1, 2\n@ 3 { A, B, C }\n",
        sets: &[
            Set {
                members: &[0, 1],
                size: 4,
                base: 0,
            },
            Set {
                members: &[0, 1, 2],
                size: 8,
                base: 4,
            },
            Set {
                members: &[0, 2],
                size: 4,
                base: 12,
            },
            Set {
                members: &[0, 3],
                size: 4,
                base: 16,
            },
            Set {
                members: &[1, 2],
                size: 4,
                base: 20,
            },
            Set {
                members: &[1, 3],
                size: 4,
                base: 24,
            },
            Set {
                members: &[2, 3],
                size: 4,
                base: 28,
            },
        ],
    },
    Planned {
        model: "A: 1, 2\nB: 1, 2\nC: 1, 2\nD: 1, 2\n\
            @ 3 { A, B, C }\n{ A, B, C } @ 3\n@ 3 { C, B, A }\n",
        sets: &[
            Set {
                members: &[0, 1, 2],
                size: 8,
                base: 0,
            },
            Set {
                members: &[0, 1, 2, 3],
                size: 16,
                base: 8,
            },
        ],
    },
    // Sub-models that share a parameter, which alone is the union of one choice.
    Planned {
        model: "A: 1, 2\nB: 1, 2\nC: 1, 2\n{ A, B } @ 1\n{ B, C } @ 1\n",
        sets: &[
            Set {
                members: &[0, 1],
                size: 4,
                base: 0,
            },
            Set {
                members: &[0, 2],
                size: 4,
                base: 4,
            },
            Set {
                members: &[1],
                size: 2,
                base: 8,
            },
            Set {
                members: &[1, 2],
                size: 4,
                base: 10,
            },
        ],
    },
];

// Whether the demanded sets of a model are these; `false` too where there is no plan.
fn are_planned(alloc: Global, model: &TestModel, sets: &[Set]) -> bool {
    match Plan::new(alloc, model) {
        Ok(plan) => are_sets(&plan, sets),
        Err(_) => false,
    }
}

// The same for the model of a text.
fn plans_sets(alloc: Global, text: &str, sets: &[Set]) -> bool {
    match model_of(alloc, text) {
        Ok(model) => are_planned(alloc, &model, sets),
        Err(_) => false,
    }
}

#[test]
fn plans_sub_models_and_relations(rt: HostRuntime) {
    for planned in PLANS {
        let are_planned = plans_sets(rt.alloc(), planned.model, planned.sets);
        assert!(rt; are_planned, "{}", planned.model);
    }
}

// Whether the tuple of this rank of the first set has these values, and they this rank.
fn has_rank(plan: &Plan, model: &TestModel, rank: u32, expected: [ValueNo; 2]) -> bool
    requires { plan.now ≡ plan_of model.now }
{
    if plan.set_count() == 0 || rank >= plan.size(0) || plan.members(0).len() != 2 {
        return false;
    }
    if plan.size(0) as usize != TUPLES.len() {
        return false;
    }
    let mut values = [0; 2];
    plan.unrank(0, rank, &mut values);
    values == expected && plan.rank(0, &values) == rank
}

// The same in the plan of the model.
fn is_ranked_in(alloc: Global, model: &TestModel, rank: u32, expected: [ValueNo; 2]) -> bool {
    match Plan::new(alloc, model) {
        Ok(plan) => has_rank(&plan, model, rank, expected),
        Err(_) => false,
    }
}

// The same for a model with a negative value.
fn is_ranked(alloc: Global, rank: u32, expected: [ValueNo; 2]) -> bool {
    match model_of(alloc, "A: ~-1, 0, 1\nB: 0, 1\n[A] < 2;\n") {
        Ok(model) => is_ranked_in(alloc, &model, rank, expected),
        Err(_) => false,
    }
}

// The tuples of the positive slice come first, then that of the negative value.
const TUPLES: &[[ValueNo; 2]] = &[[1, 0], [1, 1], [2, 0], [2, 1], [0, 0], [0, 1]];

#[test]
fn ranks_go_slice_by_slice(rt: HostRuntime) {
    for (rank, tuple) in TUPLES.iter().enumerate() {
        assert!(rt; is_ranked(rt.alloc(), rank as u32, *tuple), "{tuple:?}");
    }
}

// Adds a parameter of this number with the values 0 to count - 1.
fn push_param(alloc: Global, name: u32, count: u32, into: &mut String) -> Result<(), AllocError> {
    let first = format!(in alloc; "P{name}: 0")?;
    into.push_str(first.as_str())?;
    for value in 1..count {
        let next = format!(in alloc; ", {value}")?;
        into.push_str(next.as_str())?;
    }
    into.push_str("\n")
}

// A model of so many parameters with so many values each.
fn text_of(alloc: Global, params: u32, values: u32) -> Result<String, AllocError> {
    let mut text = String::new(alloc);
    for name in 0..params {
        push_param(alloc, name, values, &mut text)?;
    }
    Ok(text)
}

// Why the model of a text has no plan at this order; nothing where it has one, or isn't read.
fn fault_at(alloc: Global, text: &str, order: u32) -> Option<PlanFault>
    requires { 1 ≤ order }
{
    let Ok((model, _)) = read(alloc, text, &options(order)) else {
        return None;
    };
    match Plan::new(alloc, &model) {
        Ok(_) => None,
        Err(fault) => Some(fault),
    }
}

// The same for so many parameters with so many values each.
fn fault_of(alloc: Global, params: u32, values: u32, order: u32) -> Option<PlanFault>
    requires { 1 ≤ order }
{
    match text_of(alloc, params, values) {
        Ok(text) => fault_at(alloc, text.as_str(), order),
        Err(AllocError) => None,
    }
}

// The choices of sets are counted before equal sets are joined, and before a set is listed.
#[test]
fn refuses_what_is_above_the_limits(rt: HostRuntime) {
    let alloc = rt.alloc();
    let sets = PlanFault::TooManySets(2_763_520);
    assert!(rt; fault_of(alloc, 256, 2, 3) == Some(sets));
    let tuples = PlanFault::TooManyTuples(100_614_150);
    assert!(rt; fault_of(alloc, 4, 4095, 2) == Some(tuples));
    let overlapping = PlanFault::TooManySets(11_778_624);
    assert!(rt; fault_at(alloc, OVERLAPPING, 2) == Some(overlapping));
}
