ghost use Rattle.std.specs.Prelude.{◌≡◌, ◌<◌, All, IfOk, IfSome, None, OnOk, [], length, replicate, slice_index_or};
ghost use Rattle.ipog_grow.specs.UnfilledRows.{HasUnfilled, candidates, is_filled, with_number, with_unfilled};

use crate::candidates::Candidates;
use cov_model::{Cells, ParamNo, Rows, ValueNo};
use std::alloc::Global;
use std::marker::Model;
use value_text::NoMemory;

// The numbers of the partial rows with an empty cell: of those without a value in the column that
// grows, and of those with each value there. A row that gets a value there may stay among the first.
#[derive(Drop)]
pub(crate) struct UnfilledRows {
    without: Vec<usize>,
    by_value: Vec<Vec<usize>>,
}

impl Model for UnfilledRows {
    ghost use Rattle.std.specs.Prelude.{map};
    ghost use Rattle.ipog_grow.specs.UnfilledRows.{UnfilledLists};

    ghost Value = { UnfilledLists };

    ghost view = { λ rows. record { without = rows.without.items; by_value = map (λ list. list.items) rows.by_value.items } };
}

// Whether a partial row has a value in each of these columns.
fn is_filled(row: &[Option<ValueNo>], columns: &[ParamNo]) -> bool
    requires { All (λ p. p < length row.now) columns.now }
    ensures { result ≡ is_filled columns.now row.now }
{
    for p in columns {
        if row[*p as usize].is_none() {
            return false;
        }
    }
    true
}

impl UnfilledRows {
    // No rows, for a column with this number of values.
    fn new(alloc: Global, count: usize) -> Result<UnfilledRows, NoMemory>
        ensures { IfOk result (λ unfilled. unfilled ≡ record { without = []; by_value = replicate count [] }) }
    {
        let mut by_value = Vec::new(alloc);
        by_value.reserve(count)?;
        for _ in 0..count {
            by_value.push(Vec::new(alloc))?;
        }
        Ok(UnfilledRows {
            without: Vec::new(alloc),
            by_value,
        })
    }

    // Puts the number of a row, which has this value in the column or none, behind others.
    fn push_number(&mut self, value: Option<ValueNo>, number: usize) -> Result<(), NoMemory>
        requires { IfSome value (λ v. v < length self.old.by_value) }
        ensures { OnOk result (self.new ≡ with_number value number self.old) }
    {
        match value {
            Some(v) => self.by_value[v as usize].push(number)?,
            None => self.without.push(number)?,
        }
        Ok(())
    }

    // Puts the number of a new partial row behind others, unless it has a value in each of these columns.
    pub(crate) fn push_row(
        &mut self,
        row: &[Option<ValueNo>],
        columns: &[ParamNo],
        column: ParamNo,
        number: usize,
    ) -> Result<(), NoMemory>
        requires exist { All (λ p. p < length row.now) columns.now }
        requires column { column < length row.now }
        requires value { IfSome (slice_index_or row.now column None) (λ v. v < length self.old.by_value) }
        ensures { OnOk result (self.new ≡ with_unfilled columns.now column row.now number self.old) }
    {
        if !is_filled(row, columns) {
            self.push_number(row[column as usize], number)?;
        }
        Ok(())
    }

    // Those of the partial rows that have an empty cell in one of these columns, by their values in the
    // one that grows, which has this number of them.
    pub(crate) fn among(
        alloc: Global,
        rows: &Rows,
        columns: &[ParamNo],
        column: ParamNo,
        count: usize,
    ) -> Result<UnfilledRows, NoMemory>
        requires exist { All (λ row. All (λ p. p < length row) columns.now) rows.now }
        requires column { All (λ row. column < length row) rows.now }
        requires values { All (λ row. IfSome (slice_index_or row column None) (λ v. v < count)) rows.now }
        ensures { IfOk result (λ unfilled. HasUnfilled columns.now column count rows.now unfilled) }
    {
        let mut unfilled = UnfilledRows::new(alloc, count)?;
        for i in 0..rows.len() {
            unfilled.push_row(rows.row(i), columns, column, i)?;
        }
        Ok(unfilled)
    }

    // The rows that a tuple of the column may join.
    pub(crate) fn candidates(&self, tuple: &Cells, column: ParamNo) -> Candidates<'_>
        requires column { column < length tuple.now }
        requires value { IfSome (slice_index_or tuple.now column None) (λ v. v < length self.now.by_value) }
        ensures { IfSome (slice_index_or tuple.now column None) (λ v. result ≡ candidates self.now v) }
    {
        let with_value: &[usize] = match tuple.get(column) {
            Some(v) => self.by_value[v as usize].as_slice(),
            None => &[],
        };
        Candidates {
            without: self.without.as_slice(),
            with_value,
        }
    }
}
