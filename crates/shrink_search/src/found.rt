ghost use Rattle.std.specs.Prelude.{◌≡◌, ◌+◌, ◌<◌, ◌++◌, ◌∷◌, [], All, IfOk, OnOk, length};
ghost use Rattle.cov_model.specs.Fits.{FitsModel};
ghost use Rattle.shrink_search.specs.Fewer.{AreFewer, AreFewerBefore};

use crate::fitting::put_value;
use cov_model::{Cells, ParamNo, Rows, TestModel, ValueNo};
use std::alloc::Global;
use value_text::NoMemory;

/// Fewer rows, each in place of a given row.
#[derive(Drop)]
pub struct FewerRows {
    /// The numbers of these given rows, counted from 0, rising.
    pub numbers: Vec<usize>,
    /// The rows.
    pub rows: Rows,
}

impl FewerRows {
    // Puts a row behind the others, in place of the given row of this number.
    fn push(&mut self, number: usize, row: &[Option<ValueNo>]) -> Result<(), NoMemory>
        requires { All (λ other. length other ≡ length row.now) self.old.rows }
        ensures numbers { OnOk result (self.new.numbers.items ≡ self.old.numbers.items ++ number ∷ []) }
        ensures rows { OnOk result (self.new.rows ≡ self.old.rows ++ row.now ∷ []) }
    {
        self.rows.push(row)?;
        self.numbers.push(number)?;
        Ok(())
    }
}

// What became of given rows, by their numbers: whether a row is kept, and its values then.
#[derive(Drop)]
pub(crate) struct FoundRows {
    kept: Vec<bool>,
    values: Vec<ValueNo>,
    params: usize,
}

impl FoundRows {
    // Of so many rows none is kept.
    pub(crate) fn new(alloc: Global, params: usize, rows: usize) -> Result<FoundRows, NoMemory> {
        Ok(FoundRows {
            kept: vec![in alloc; false; rows]?,
            values: vec![in alloc; 0; params.saturating_mul(rows)]?,
            params,
        })
    }

    // The row of this number is kept.
    pub(crate) fn keep(&mut self, number: u32) {
        if let Some(kept) = self.kept.get_mut(number as usize) {
            *kept = true;
        }
    }

    // Puts the value of a parameter in the row of this number.
    pub(crate) fn put(&mut self, number: u32, p: ParamNo, v: ValueNo) {
        let at = (number as usize)
            .wrapping_mul(self.params)
            .wrapping_add(p as usize);
        if let Some(value) = self.values.get_mut(at) {
            *value = v;
        }
    }

    // Whether the row of this number is kept.
    fn is_kept(&self, number: usize) -> bool {
        match self.kept.get(number) {
            Some(kept) => *kept,
            None => false,
        }
    }

    // Those of these numbers whose rows are kept.
    pub(crate) fn kept_among(&self, alloc: Global, numbers: &[u32]) -> Result<Vec<u32>, NoMemory> {
        let mut kept = Vec::with_capacity(alloc, numbers.len())?;
        for number in numbers {
            if self.is_kept(*number as usize) {
                kept.push(*number)?;
            }
        }
        Ok(kept)
    }

    // The value of a parameter in the row of this number.
    pub(crate) fn value(&self, number: usize, p: ParamNo) -> Option<ValueNo> {
        let at = number.wrapping_mul(self.params).wrapping_add(p as usize);
        self.values.get(at).copied()
    }

    // The kept rows, in the order of the given ones.
    pub(crate) fn list(
        &self,
        alloc: Global,
        model: &TestModel,
        rows: &Rows,
    ) -> Result<FewerRows, NoMemory>
        requires fits { All (FitsModel model.now) rows.now }
        ensures { IfOk result (λ fewer. AreFewer model.now rows.now fewer.numbers.items fewer.rows) }
    {
        let mut fewer = FewerRows {
            numbers: Vec::new(alloc),
            rows: Rows::new(alloc),
        };
        let mut room = Cells::empty(alloc, model.params().len())?;
        for number in 0..rows.len() {
            self.add(model, rows, number, &mut room, &mut fewer)?;
        }
        Ok(fewer)
    }

    // Puts the row of a number behind the others, if it is kept.
    fn add(
        &self,
        model: &TestModel,
        rows: &Rows,
        number: usize,
        room: &mut Cells,
        fewer: &mut FewerRows,
    ) -> Result<(), NoMemory>
        requires fits { All (FitsModel model.now) rows.now }
        requires number { number < length rows.now }
        requires room { length room.old ≡ length model.now.params }
        requires before { AreFewerBefore model.now rows.now number fewer.old.numbers.items fewer.old.rows }
        ensures room { length room.new ≡ length model.now.params }
        ensures before { OnOk result (AreFewerBefore model.now rows.now (number + 1) fewer.new.numbers.items fewer.new.rows) }
    {
        if !self.is_kept(number) {
            return Ok(());
        }
        self.fill(model, rows.row(number), number, room);
        fewer.push(number, room.as_slice())
    }

    // A given row with the values of this number.
    fn fill(&self, model: &TestModel, given: &[Option<ValueNo>], number: usize, into: &mut Cells)
        requires fits { FitsModel model.now given.now }
        requires room { length into.old ≡ length model.now.params }
        ensures { FitsModel model.now into.new }
    {
        into.copy_from_slice(given);
        for p in 0..model.params().len() as ParamNo {
            if let Some(v) = self.value(number, p) {
                put_value(model, into, p, v);
            }
        }
    }
}
