//! Tuples that no row serves, and their trees.

ghost use Rattle.std.specs.Prelude.{◌≡◌, ◌<◌, ◌^◌, length, IfOk};
ghost use Rattle.cov_model.specs.believed.Tuples.{cells_of};

use cov_model::{Cells, ParamNo, Prefs, Slice, TestModel, Tuple, ValueNo};
use feasibility::{Answer, RefuteFault, Solver};
use refutation::{Omissions, TreeBuf};
use std::alloc::Global;
use test_models::is_positive_row;
use value_text::NoMemory;

/// The tuple of one or two values; refused too where there are more, or they don't rise.
pub fn tuple_of(alloc: Global, pairs: &[(ParamNo, ValueNo)]) -> Result<Tuple, NoMemory> {
    match pairs {
        [only] => Tuple::of(alloc, &[*only]),
        [first, second] if first.0 < second.0 => Tuple::of(alloc, &[*first, *second]),
        _ => Err(NoMemory),
    }
}

// The partial row of a tuple of one or two values; refused too where it has more, or gives a parameter that the model
// hasn't.
fn row_of_tuple(alloc: Global, model: &TestModel, tuple: &Tuple) -> Result<Cells, NoMemory>
    ensures { IfOk result (λ row. row ≡ cells_of (length model.now.params) tuple.now) }
{
    let count = model.params().len();
    let mut row = Cells::empty(alloc, count)?;
    match tuple.as_slice() {
        [(p, v)] if (*p as usize) < count => row.set_cell(*p, *v),
        [(p, v), (q, w)] if (*p as usize) < count && (*q as usize) < count => {
            row.set_cell(*q, *w);
            row.set_cell(*p, *v);
        }
        _ => return Err(NoMemory),
    }
    Ok(row)
}

// The tree of a tuple without negative values, by a solver of the positive slice.
fn refuted_by(
    alloc: Global,
    solver: &mut Solver<'_>,
    model: &TestModel,
    tuple: &Tuple,
    budget: u64,
    earlier: &Omissions,
) -> Result<TreeBuf, RefuteFault>
    requires model { solver.old.model ≡ model.now }
    requires slice { solver.old.slice ≡ Slice.Positive }
    requires few { length earlier.now.omissions < 2 ^ 32 }
{
    let row = row_of_tuple(alloc, model, tuple)?;
    if !is_positive_row(model, &row) {
        return Err(RefuteFault::NoMemory);
    }
    match solver.ask(&row, u64::MAX) {
        Answer::No => {}
        Answer::Yes | Answer::Spent => return Err(RefuteFault::NoMemory),
    }
    let mut tree = TreeBuf::new(alloc);
    solver.refute(tuple, budget, earlier, &mut tree)?;
    Ok(tree)
}

/// The tree of a tuple without negative values, after these omissions. `NoMemory` too where some row
/// serves the tuple.
pub fn refuted(
    alloc: Global,
    model: &TestModel,
    tuple: &Tuple,
    budget: u64,
    earlier: &Omissions,
) -> Result<TreeBuf, RefuteFault>
    requires { length earlier.now.omissions < 2 ^ 32 }
{
    let prefs = Prefs::new(alloc, model, None)?;
    let mut solver = Solver::new(alloc, model, &prefs, Slice::Positive)?;
    refuted_by(alloc, &mut solver, model, tuple, budget, earlier)
}
