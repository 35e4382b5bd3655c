use crate::completer::Completer;
use crate::rules::RowRules;
use crate::suite::Suite;
use crate::tuples::Target;
use crate::values::SliceValues;
use crate::words::Words;
use cov_model::{Cells, ParamNo};
use std::alloc::Global;
use value_text::NoMemory;

// A row into which a tuple is put by force.
#[derive(Drop)]
pub(crate) struct ForcedRow {
    part: Cells,
    row: Cells,
    // the parameters whose values may give way
    order: Vec<ParamNo>,
}

impl ForcedRow {
    // Room for rows of so many parameters.
    pub(crate) fn new(alloc: Global, params: usize) -> Result<ForcedRow, NoMemory> {
        let part = Cells::empty(alloc, params)?;
        let row = Cells::empty(alloc, params)?;
        let order = Vec::with_capacity(alloc, params)?;
        Ok(ForcedRow { part, row, order })
    }

    // The value that the last completed row gives a parameter.
    pub(crate) fn value(&self, p: ParamNo) -> Option<u16> {
        match self.row.as_slice().get(p as usize) {
            Some(cell) => *cell,
            None => None,
        }
    }

    // Completes a row into which a tuple is put: beside the tuple and what has to stay, it keeps the values of
    // parameters that no constraint names, and of the others, in random order, those with which it can still be
    // completed. Tells whether it can.
    pub(crate) fn complete<C: Completer>(
        &mut self,
        completer: &mut C,
        rules: &RowRules<'_>,
        suite: &Suite<'_>,
        values: &SliceValues,
        row: usize,
        targets: &[Target],
        words: &mut Words,
    ) -> Result<bool, NoMemory> {
        self.begin(rules, suite, values, row, targets)?;
        if !completer.can_complete(&self.part) {
            return Ok(false);
        }
        for at in 0..self.order.len() {
            let p = self.take_random(at, words);
            self.put(suite, values, row, p);
            if !completer.can_complete(&self.part) {
                self.clear(p);
            }
        }
        Ok(completer.complete(&self.part, &mut self.row))
    }

    // Puts the tuple and what stays beside it, and lists the other parameters.
    fn begin(
        &mut self,
        rules: &RowRules<'_>,
        suite: &Suite<'_>,
        values: &SliceValues,
        row: usize,
        targets: &[Target],
    ) -> Result<(), NoMemory> {
        self.order.clear();
        for p in 0..suite.params() {
            if suite.is_fixed(p, row) || !rules.name(p) {
                self.put(suite, values, row, p);
            } else {
                self.clear(p);
                self.order.push(p)?;
            }
        }
        for target in targets {
            if let Some(v) = values.value(target.param, target.digit) {
                self.set(target.param, v);
            }
        }
        let given = &self.part;
        self.order.retain(|p| is_free(given, *p));
        Ok(())
    }

    // Gives a parameter a value.
    fn set(&mut self, p: ParamNo, v: u16) {
        if (p as usize) < self.part.len() {
            self.part.set_cell(p, v);
        }
    }

    // Takes the value of a parameter away.
    fn clear(&mut self, p: ParamNo) {
        if (p as usize) < self.part.len() {
            self.part.clear_cell(p);
        }
    }

    // Puts the value that a row gives a parameter.
    fn put(&mut self, suite: &Suite<'_>, values: &SliceValues, row: usize, p: ParamNo) {
        if let Some(v) = values.value(p, suite.digit(p, row)) {
            self.set(p, v);
        }
    }

    // Swaps a random one of the parameters from a place on to this place, and gives it.
    fn take_random(&mut self, at: usize, words: &mut Words) -> ParamNo {
        let rest = self.order.len().saturating_sub(at);
        let other = at.saturating_add(words.below(rest));
        if at < self.order.len() && other < self.order.len() {
            self.order.as_mut_slice().swap(at, other);
        }
        match self.order.get(at) {
            Some(p) => *p,
            None => 0,
        }
    }
}

// Whether a partial row gives a parameter no value.
fn is_free(cells: &Cells, p: ParamNo) -> bool {
    match cells.as_slice().get(p as usize) {
        Some(cell) => cell.is_none(),
        None => true,
    }
}
