//! Questions to the search, with budgets, and the values that it looks at.

ghost use Rattle.std.specs.Prelude.{◌≡◌, IfSome, length};
ghost use Rattle.cov_model.specs.Preference.{OrdersValues};
ghost use Rattle.definitions.specs.SliceRows.{IsOfSlice};

use cov_model::{Cells, ParamNo, Prefs, Slice, TestModel, ValueNo};
use feasibility::{Answer, SearchFault, Solver, over_budget, slice_lists, tuple_of};
use std::alloc::Global;
use test_models::{is_positive_row, model_of};
use value_text::NoMemory;

/// A model in which no value of C goes with the first value of A.
pub const NONE_LIVE: &str = "A: 1, 2\nB: x, y\nC: p, q, r\nIF [A] = 1 THEN [C] <> \"p\";\n\
    IF [A] = 1 THEN [C] <> \"q\";\nIF [A] = 1 THEN [C] <> \"r\";\n";

// The partial row of these pairs; nothing where it isn't one of the positive slice, or memory was refused. Callers
// know no more of it.
fn row_of(alloc: Global, model: &TestModel, pairs: &[(ParamNo, ValueNo)]) -> Option<Cells>
    ensures { IfSome result (λ row. IsOfSlice model.now Slice.Positive row) }
{
    let Ok(mut row) = Cells::empty(alloc, model.params().len()) else {
        return None;
    };
    for (p, v) in pairs {
        if (*p as usize) < row.len() {
            row.set_cell(*p, *v);
        }
    }
    if is_positive_row(model, &row) {
        Some(row)
    } else {
        None
    }
}

// A question to the search about a row, and what it is to say.
#[derive(Drop, Clone, Copy)]
enum Question {
    // The answers within a budget, and then within another one.
    Extends((u64, Answer), (u64, Answer)),
    // The values of the row that it completes within a budget.
    Completes(u64, [ValueNo; 3]),
}

// Whether a row has these values.
fn has_values(row: &Cells, values: [ValueNo; 3]) -> bool {
    row.len() == 3
        && row.get(0) == Some(values[0])
        && row.get(1) == Some(values[1])
        && row.get(2) == Some(values[2])
}

// Whether the row that the search completes within a budget has these values; `false` too where memory was refused.
fn completes_to(
    alloc: Global,
    solver: &mut Solver<'_>,
    model: &TestModel,
    row: &Cells,
    budget: u64,
    values: [ValueNo; 3],
) -> bool
    requires model { solver.old.model ≡ model.now }
    requires slice { solver.old.slice ≡ Slice.Positive }
    requires row { IsOfSlice model.now Slice.Positive row.now }
{
    match Cells::empty(alloc, model.params().len()) {
        Ok(mut into) => {
            solver.complete(row, budget, &mut into) == Answer::Yes && has_values(&into, values)
        }
        Err(NoMemory) => false,
    }
}

// Whether the search says on a row what it is to say.
fn says_by(
    alloc: Global,
    solver: &mut Solver<'_>,
    model: &TestModel,
    row: &Cells,
    question: Question,
) -> bool
    requires model { solver.old.model ≡ model.now }
    requires slice { solver.old.slice ≡ Slice.Positive }
    requires row { IsOfSlice model.now Slice.Positive row.now }
{
    match question {
        Question::Extends(first, second) => {
            let before = solver.ask(row, first.0);
            let after = solver.ask(row, second.0);
            before == first.1 && after == second.1
        }
        Question::Completes(budget, values) => {
            completes_to(alloc, solver, model, row, budget, values)
        }
    }
}

// The same for a new search.
fn says_on(alloc: Global, model: &TestModel, prefs: &Prefs, row: &Cells, question: Question) -> bool
    requires orders { OrdersValues model.now prefs.now }
    requires row { IsOfSlice model.now Slice.Positive row.now }
{
    match Solver::new(alloc, model, prefs, Slice::Positive) {
        Ok(mut solver) => says_by(alloc, &mut solver, model, row, question),
        Err(NoMemory) => false,
    }
}

// The same on the row of these pairs.
fn says_on_pairs(
    alloc: Global,
    model: &TestModel,
    prefs: &Prefs,
    pairs: &[(ParamNo, ValueNo)],
    question: Question,
) -> bool
    requires { OrdersValues model.now prefs.now }
{
    match row_of(alloc, model, pairs) {
        Some(row) => says_on(alloc, model, prefs, &row, question),
        None => false,
    }
}

// The same by the order of the values in the model.
fn says_in_order(
    alloc: Global,
    model: &TestModel,
    pairs: &[(ParamNo, ValueNo)],
    question: Question,
) -> bool {
    match Prefs::new(alloc, model, None) {
        Ok(prefs) => says_on_pairs(alloc, model, &prefs, pairs, question),
        Err(NoMemory) => false,
    }
}

// The same under the model of a text.
fn says(alloc: Global, text: &str, pairs: &[(ParamNo, ValueNo)], question: Question) -> bool {
    match model_of(alloc, text) {
        Ok(model) => says_in_order(alloc, &model, pairs, question),
        Err(_) => false,
    }
}

// The values of B and C.
const WITHOUT_A: &[(ParamNo, ValueNo)] = &[(1, 0), (2, 1)];

// The plain cost of the values of B and C is 3: the row, the first value of A and the second one.
#[test]
fn completes_a_row_within_its_budget(rt: HostRuntime) {
    let extends = Question::Extends((2, Answer::Spent), (3, Answer::Yes));
    assert!(rt; says(rt.alloc(), NONE_LIVE, WITHOUT_A, extends));
    let completes = Question::Completes(3, [1, 0, 1]);
    assert!(rt; says(rt.alloc(), NONE_LIVE, WITHOUT_A, completes));
}

// A has negative values alone, and no constraint names it.
const NO_POSITIVE: &str = "A: ~1, ~2\nB: x, y\nC: u, v\n";

// Models, and rows with which some parameter has no live value: C with the first value of A, and A in each row.
const NOT_LIVE: &[(&str, &[(ParamNo, ValueNo)])] = &[
    (NONE_LIVE, &[(0, 0), (1, 0)]),
    (NONE_LIVE, &[(0, 0), (1, 1)]),
    (NO_POSITIVE, &[(1, 0), (2, 0)]),
];

// So the search visits one node.
#[test]
fn looks_one_value_ahead(rt: HostRuntime) {
    for (text, pairs) in NOT_LIVE {
        let extends = Question::Extends((0, Answer::Spent), (1, Answer::No));
        assert!(rt; says(rt.alloc(), text, pairs, extends), "{pairs:?}");
    }
}

// With the first value of A, B and C have to be equal and not equal.
const TWIN: &str = "A: 1, 2\nB: 1, 2\nC: 1, 2\nIF [A] = 1 THEN [B] = [C];\n\
    IF [A] = 1 THEN [B] <> [C];\n";

// The rows about which the growth of that model asks at order 1, each with its plain cost and the answer.
const COSTS: &[(&[(ParamNo, ValueNo)], u64, Answer)] = &[
    (&[(0, 0)], 3, Answer::No),
    (&[(0, 1)], 3, Answer::Yes),
    (&[(0, 1), (1, 0)], 2, Answer::Yes),
    (&[(1, 1)], 4, Answer::Yes),
    (&[(0, 1), (1, 0), (2, 0)], 1, Answer::Yes),
    (&[(1, 1), (2, 1)], 3, Answer::Yes),
];

// Whether a question has this cost: it takes no less.
fn costs(alloc: Global, pairs: &[(ParamNo, ValueNo)], cost: u64, answer: Answer) -> bool {
    let extends = Question::Extends((cost.saturating_sub(1), Answer::Spent), (cost, answer));
    says(alloc, TWIN, pairs, extends)
}

#[test]
fn visits_as_many_nodes_as_plain_search(rt: HostRuntime) {
    for (pairs, cost, answer) in COSTS {
        assert!(rt; costs(rt.alloc(), pairs, *cost, *answer), "{pairs:?}");
    }
}

// Whether a row gives this tuple, and it is told where the row costs too much.
fn gives(alloc: Global, row: &Cells, pairs: &[(ParamNo, ValueNo)]) -> bool
    requires { length row.now ≡ 3 }
{
    let is_told = match over_budget(alloc, row) {
        SearchFault::Spent(question) => question.cells.as_slice() == pairs,
        SearchFault::NoMemory => false,
    };
    match tuple_of(alloc, row) {
        Ok(tuple) => is_told && tuple.as_slice() == pairs,
        Err(NoMemory) => false,
    }
}

// Whether this is so of a row without a value of its second parameter.
fn gives_two(alloc: Global) -> bool {
    let Ok(mut row) = Cells::empty(alloc, 3) else {
        return false;
    };
    row.set_cell(2, 1);
    row.set_cell(0, 4);
    gives(alloc, &row, &[(0, 4), (2, 1)])
}

#[test]
fn tells_the_values_of_a_row(rt: HostRuntime) {
    assert!(rt; gives_two(rt.alloc()));
}

// Slices of a model with two negative values, and the values of its parameters in them.
const SLICES: &[(Slice, [&[ValueNo]; 3])] = &[
    (Slice::Positive, [&[0, 1], &[0], &[0]]),
    (Slice::Negative(1, 1), [&[0, 1], &[1], &[0]]),
    (Slice::Negative(2, 1), [&[0, 1], &[0], &[1]]),
];

// Whether these are the values in a slice of the model.
fn are_values(alloc: Global, model: &TestModel, slice: Slice, values: [&[ValueNo]; 3]) -> bool {
    match slice_lists(alloc, model, slice) {
        Ok(lists) => {
            lists.len() == 3
                && lists.list(0) == values[0]
                && lists.list(1) == values[1]
                && lists.list(2) == values[2]
        }
        Err(NoMemory) => false,
    }
}

// The same for the model.
fn has_values_in(alloc: Global, slice: Slice, values: [&[ValueNo]; 3]) -> bool {
    match model_of(alloc, "A: 1, 2\nB: x, ~n\nC: v, ~m\n") {
        Ok(model) => are_values(alloc, &model, slice, values),
        Err(_) => false,
    }
}

#[test]
fn lists_the_values_of_slices(rt: HostRuntime) {
    for (slice, values) in SLICES {
        assert!(rt; has_values_in(rt.alloc(), *slice, *values), "{slice:?}");
    }
}
