//! Open tuples in a plain list, beside which the table of bits is tested.

ghost use Rattle.std.specs.Prelude.{◌<◌, length};

use cov_model::{Cells, ParamNo, TestModel, ValueNo};
use std::alloc::{AllocError, Global};
use tuple_index::Plan;

/// An open pair of values, and the column for which its set is in play.
#[derive(Clone, Copy)]
pub struct OpenPair {
    column: ParamNo,
    first: (ParamNo, ValueNo),
    second: (ParamNo, ValueNo),
}

impl OpenPair {
    // Whether the row, with this value in the column, contains the pair.
    fn is_in(&self, row: &Cells, column: ParamNo, value: ValueNo) -> bool {
        self.column == column
            && is_given(row, column, value, self.first)
            && is_given(row, column, value, self.second)
    }
}

// Whether the row, with this value in the column, gives a parameter its value.
fn is_given(row: &Cells, column: ParamNo, value: ValueNo, pair: (ParamNo, ValueNo)) -> bool {
    let (p, v) = pair;
    if p == column {
        v == value
    } else {
        (p as usize) < row.len() && row.get(p) == Some(v)
    }
}

/// The open tuples of a model that has no negative value and whose demanded sets are pairs.
#[derive(Drop)]
pub struct OpenList {
    pairs: Vec<OpenPair>,
}

impl OpenList {
    /// All demanded pairs.
    pub fn new(alloc: Global, model: &TestModel, plan: &Plan) -> Result<OpenList, AllocError> {
        let mut pairs = Vec::new(alloc);
        for set in 0..plan.set_count() {
            push_pairs(model, plan, set, &mut pairs)?;
        }
        Ok(OpenList { pairs })
    }

    /// How many tuples are open.
    pub fn len(&self) -> usize {
        self.pairs.len()
    }

    /// How many open tuples of the column's sets the row contains, with this value in the column.
    pub fn gain(&self, row: &Cells, column: ParamNo, value: ValueNo) -> usize {
        self.pairs
            .iter()
            .filter(|pair| pair.is_in(row, column, value))
            .count()
    }

    /// Takes these tuples out.
    pub fn close(&mut self, row: &Cells, column: ParamNo, value: ValueNo) {
        self.pairs.retain(|pair| !pair.is_in(row, column, value));
    }
}

// How many values a parameter has.
fn count_of(model: &TestModel, p: ParamNo) -> ValueNo {
    if (p as usize) < model.params().len() {
        model.value_count(p)
    } else {
        0
    }
}

// Of two members the one with fewer values, of two with as many the second.
fn last_column(model: &TestModel, first: ParamNo, second: ParamNo) -> ParamNo {
    if count_of(model, first) < count_of(model, second) {
        first
    } else {
        second
    }
}

// The tuple of a rank, where the set is a pair.
fn pair_of(plan: &Plan, set: u32, rank: u32, column: ParamNo) -> Option<OpenPair> {
    if set >= plan.set_count() || rank >= plan.size(set) || plan.members(set).len() != 2 {
        return None;
    }
    let mut values = [0; 2];
    plan.unrank(set, rank, &mut values);
    let members = plan.members(set);
    Some(OpenPair {
        column,
        first: (members[0], values[0]),
        second: (members[1], values[1]),
    })
}

// Adds the tuples of a demanded set, where it is a pair.
fn push_pairs(
    model: &TestModel,
    plan: &Plan,
    set: u32,
    pairs: &mut Vec<OpenPair>,
) -> Result<(), AllocError>
    requires { set < length plan.now.sets }
{
    let [p, q] = plan.members(set) else {
        return Ok(());
    };
    let column = last_column(model, *p, *q);
    for rank in 0..plan.size(set) {
        if let Some(pair) = pair_of(plan, set, rank, column) {
            pairs.push(pair)?;
        }
    }
    Ok(())
}
