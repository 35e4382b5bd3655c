use crate::found::FoundRows;
use crate::rules::RowRules;
use crate::search::MOST_ROWS;
use crate::seeds::fix_seeds;
use crate::slice_rows::SliceRows;
use crate::suite::Suite;
use crate::task::Task;
use crate::tuples::{SliceTuples, Target};
use crate::values::{Digit, SliceValues};
use crate::words::Words;
use cov_model::{ParamNo, TestModel};
use std::alloc::Global;
use value_text::NoMemory;

// The spreading of the values of a slice's rows.
struct Spreading<'t, 'm> {
    model: &'m TestModel,
    values: &'t SliceValues,
    suite: Suite<'t>,
    rules: RowRules<'m>,
}

// Its parts are dropped here, and not anew wherever spreading may end.
impl Drop for Spreading<'_, '_> {
    fn drop(self) {
        let Spreading {
            model: _,
            values: _,
            suite: _,
            rules: _,
        } = self;
    }
}

impl Spreading<'_, '_> {
    // Gives each cell whose change loses no tuple a random value, row by row.
    fn run(&mut self, words: &mut Words, found: &mut FoundRows) -> Result<(), NoMemory> {
        for row in 0..self.suite.count() {
            for p in 0..self.suite.params() {
                if self.is_free(p, row) {
                    let digit = self.draw(p, row, words);
                    self.put(p, row, digit, found)?;
                }
            }
        }
        Ok(())
    }

    // Whether no other value of a cell loses a tuple, and no seed row needs the one that it has.
    fn is_free(&self, p: ParamNo, row: usize) -> bool {
        self.suite.needed(p, row) == 0 && !self.suite.is_fixed(p, row)
    }

    // One of the values that a cell may have, in proportion to their weights.
    fn draw(&mut self, p: ParamNo, row: usize, words: &mut Words) -> Digit {
        let own = self.suite.digit(p, row);
        let mut drawn = own;
        let mut sum: u64 = 0;
        for digit in 0..self.values.count(p).min(u32::from(Digit::MAX)) as Digit {
            if digit == own || self.is_allowed(p, row, digit) {
                let weight = self.weight(p, digit).unwrap_or(0);
                sum = sum.saturating_add(weight);
                if words.below_sum(sum) < weight {
                    drawn = digit;
                }
            }
        }
        drawn
    }

    // Whether a row keeps the constraints, and repeats no other one, with another value.
    fn is_allowed(&mut self, p: ParamNo, row: usize, digit: Digit) -> bool {
        let target = Target { param: p, digit };
        self.rules
            .allow(&self.suite, self.values, row, &[target], p)
            && !self.suite.is_repeated(p, row, digit)
    }

    // The weight of a value.
    fn weight(&self, p: ParamNo, digit: Digit) -> Option<u64> {
        let v = self.values.value(p, digit)?;
        let param = self.model.params().as_slice().get(p as usize)?;
        let value = param.values.as_slice().get(v as usize)?;
        Some(u64::from(value.weight))
    }

    // Gives a cell a value.
    fn put(
        &mut self,
        p: ParamNo,
        row: usize,
        digit: Digit,
        found: &mut FoundRows,
    ) -> Result<(), NoMemory> {
        if digit == self.suite.digit(p, row) {
            return Ok(());
        }
        self.suite.change(p, row, digit)?;
        if let Some(v) = self.values.value(p, digit) {
            found.put(self.suite.origin(row), p, v);
        }
        Ok(())
    }
}

// Spreads the values of the rows that were found in a slice.
pub(crate) fn spread_slice(
    alloc: Global,
    task: Task<'_>,
    group: &SliceRows,
    words: &mut Words,
    found: &mut FoundRows,
) -> Result<(), NoMemory> {
    let params = task.model.params().len();
    let values = SliceValues::new(alloc, task.model, group.slice)?;
    let tuples = SliceTuples::new(alloc, task.plan, group.slice, &values, params)?;
    let numbers = found.kept_among(alloc, group.numbers.as_slice())?;
    if numbers.len() > MOST_ROWS {
        return Ok(());
    }
    spread_rows(
        alloc,
        task,
        &values,
        &tuples,
        numbers.as_slice(),
        words,
        found,
    )
}

// Spreads the values of the rows of these numbers.
fn spread_rows(
    alloc: Global,
    task: Task<'_>,
    values: &SliceValues,
    tuples: &SliceTuples,
    numbers: &[u32],
    words: &mut Words,
    found: &mut FoundRows,
) -> Result<(), NoMemory> {
    let params = task.model.params().len();
    let rules = RowRules::new(alloc, task.model)?;
    let mut suite = Suite::new(alloc, tuples, params, numbers.len(), task.seeds.len() > 0)?;
    put_rows(found, numbers, values, &mut suite);
    fix_seeds(task, numbers, &mut suite);
    let _ = suite.begin();
    let mut spreading = Spreading {
        model: task.model,
        values,
        suite,
        rules,
    };
    spreading.run(words, found)
}

// Puts the rows of these numbers into a suite.
fn put_rows(found: &FoundRows, numbers: &[u32], values: &SliceValues, suite: &mut Suite<'_>) {
    for number in numbers {
        let row = suite.count();
        suite.push(*number);
        for p in 0..suite.params() {
            if let Some(v) = found.value(*number as usize, p) {
                if let Some(digit) = values.digit(p, v) {
                    suite.put(p, row, digit);
                }
            }
        }
    }
}
