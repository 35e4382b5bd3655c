ghost use Rattle.std.specs.Prelude.{◌≡◌, ◌<◌, ◌^◌, Some, length, IfOk};
ghost use Rattle.definitions.specs.believed.Pairs.{pairs_of};
ghost use Rattle.feasibility.specs.Ends.{EndsBy};

use crate::answer::{Question, SearchFault};
use cov_model::{Cells, ParamNo, Tuple};
use std::alloc::Global;
use value_text::NoMemory;

/// The tuple of a partial row of fewer than 2^16 parameters: the parameters that have a value, in declared
/// order, each with its value.
///
/// # Errors
///
/// `NoMemory` where there is no room.
pub fn tuple_of(alloc: Global, cells: &Cells) -> Result<Tuple, NoMemory>
    requires { length cells.now < 2 ^ 16 }
    ensures { IfOk result (λ tuple. tuple ≡ pairs_of cells.now) }
{
    let mut pairs = Vec::new(alloc);
    let count = cells.len() as ParamNo;
    for p in 0..count {
        if let Some(v) = cells.get(p) {
            pairs.push((p, v))?;
        }
    }
    Tuple::of(alloc, pairs.as_slice())
}

/// The fault of a question whose plain cost exceeds the budget: `Spent` with its tuple, or `NoMemory` where
/// there is no room for the tuple.
pub fn over_budget(alloc: Global, cells: &Cells) -> SearchFault
    requires { length cells.now < 2 ^ 16 }
    ensures { EndsBy (Some cells.now) result }
{
    match tuple_of(alloc, cells) {
        Ok(cells) => SearchFault::Spent(Question { cells }),
        Err(_) => SearchFault::NoMemory,
    }
}
