use crate::best::BestRows;
use crate::completer::Completer;
use crate::forcing::ForcedRow;
use crate::rules::RowRules;
use crate::suite::Suite;
use crate::tuples::{SliceTuples, Target};
use crate::values::SliceValues;
use crate::words::Words;
use cov_model::ParamNo;
use std::alloc::Global;
use value_text::NoMemory;

// One move in so many puts its tuple into a row by force.
const FORCED_EVERY: u64 = 256;

// A change of one value: in this row the parameter gets this digit, and so many tuples are lost.
#[derive(Clone, Copy)]
struct Move {
    row: usize,
    target: Target,
    loss: u32,
}

// The choice among the moves that lose the fewest tuples, each of which comes equally often.
#[derive(Clone, Copy)]
struct Choice {
    best: Option<Move>,
    ties: usize,
}

impl Choice {
    // Whether a move that loses so many tuples is taken, if it is allowed.
    fn takes(&mut self, loss: u32, words: &mut Words) -> bool {
        match self.best {
            Some(best) if best.loss < loss => false,
            Some(best) if best.loss == loss => {
                self.ties = self.ties.saturating_add(1);
                words.below(self.ties) == 0
            }
            _ => true,
        }
    }

    // Takes an allowed move.
    fn take(&mut self, taken: Move) {
        let equal = match self.best {
            Some(best) => best.loss == taken.loss,
            None => false,
        };
        if !equal {
            self.ties = 1;
        }
        self.best = Some(taken);
    }
}

// A search for fewer rows of a slice.
pub(crate) struct SliceSearch<'t, 'm> {
    pub(crate) tuples: &'t SliceTuples,
    pub(crate) values: &'t SliceValues,
    pub(crate) suite: Suite<'t>,
    pub(crate) rules: RowRules<'m>,
    pub(crate) forced: ForcedRow,
    // the tuple that the next move puts into a row
    pub(crate) targets: Vec<Target>,
    // the row and the parameter that the last move changed
    pub(crate) last: Option<(usize, ParamNo)>,
    pub(crate) moves: u64,
}

// Its parts are dropped here, and not anew wherever the search may end.
impl Drop for SliceSearch<'_, '_> {
    fn drop(self) {
        let SliceSearch {
            tuples: _,
            values: _,
            suite: _,
            rules: _,
            forced: _,
            targets: _,
            last: _,
            moves: _,
        } = self;
    }
}

impl SliceSearch<'_, '_> {
    // Takes rows away one after another, as long as so many moves for each number of rows lead to rows that serve
    // what the given ones serve, and as there are more rows than have to be.
    pub(crate) fn run<C: Completer>(
        &mut self,
        rounds: u64,
        least: u32,
        words: &mut Words,
        completer: &mut C,
        best: &mut BestRows,
    ) -> Result<(), NoMemory> {
        for _ in 0..self.suite.count() {
            if !self.cover(rounds, words, completer)? {
                return Ok(());
            }
            self.remove_spare(least)?;
            self.suite.keep(best);
            if self.suite.count() <= least as usize {
                return Ok(());
            }
            let Some(row) = self.suite.least_needed() else {
                return Ok(());
            };
            self.suite.remove(row)?;
            self.last = None;
        }
        Ok(())
    }

    // Takes the rows away that nothing needs, as long as there are more rows than have to be. Rows only come to be needed by
    // that, so one pass finds them all.
    fn remove_spare(&mut self, least: u32) -> Result<(), NoMemory> {
        let mut row = 0;
        for _ in 0..self.suite.count() {
            if self.suite.count() <= least as usize {
                return Ok(());
            }
            if self.suite.is_spare(row) {
                self.suite.remove(row)?;
                self.last = None;
            } else {
                row = row.saturating_add(1);
            }
        }
        Ok(())
    }

    // Moves until each place that has to be served is. Tells whether that came about.
    fn cover<C: Completer>(
        &mut self,
        rounds: u64,
        words: &mut Words,
        completer: &mut C,
    ) -> Result<bool, NoMemory> {
        for _ in 0..rounds {
            if self.suite.open() == 0 {
                return Ok(true);
            }
            self.step(words, completer)?;
        }
        Ok(self.suite.open() == 0)
    }

    // One move: puts a random open tuple into a row.
    fn step<C: Completer>(&mut self, words: &mut Words, completer: &mut C) -> Result<(), NoMemory> {
        self.moves = self.moves.wrapping_add(1);
        let Some(place) = self.suite.draw(words) else {
            return Ok(());
        };
        self.tuples
            .put_tuple(place, self.values, &mut self.targets)?;
        let from = words.below(self.suite.count());
        let chosen = if self.moves % FORCED_EVERY == 0 {
            None
        } else {
            self.choose(from, words)
        };
        match chosen {
            Some(chosen) => self.change(chosen),
            None => self.force(from, words, completer),
        }
    }

    // Makes a move.
    fn change(&mut self, chosen: Move) -> Result<(), NoMemory> {
        let target = chosen.target;
        self.last = Some((chosen.row, target.param));
        self.suite.change(target.param, chosen.row, target.digit)
    }

    // The move that loses the fewest tuples, if there is one.
    fn choose(&mut self, from: usize, words: &mut Words) -> Option<Move> {
        let mut choice = Choice {
            best: None,
            ties: 1,
        };
        for row in from..self.suite.count() {
            self.consider(row, &mut choice, words);
        }
        for row in 0..from {
            self.consider(row, &mut choice, words);
        }
        choice.best
    }

    // Takes a change of a row into account, if the row lacks one value of the tuple.
    #[inline]
    fn consider(&mut self, row: usize, choice: &mut Choice, words: &mut Words) {
        let Some(target) = self.suite.lacking(self.targets.as_slice(), row) else {
            return;
        };
        let loss = self.suite.needed(target.param, row);
        if choice.takes(loss, words) && self.is_allowed(row, target) {
            choice.take(Move { row, target, loss });
        }
    }

    // Whether a row may get the value.
    fn is_allowed(&mut self, row: usize, target: Target) -> bool {
        let p = target.param;
        if let Some((last_row, last_param)) = self.last {
            if last_row == row && last_param == p {
                return false;
            }
        }
        !self.suite.is_fixed(p, row)
            && self
                .rules
                .allow(&self.suite, self.values, row, &[target], p)
    }

    // Puts the tuple into a row, and changes other values of the row where constraints ask for it. Where that can't
    // be, the row stays.
    fn force<C: Completer>(
        &mut self,
        row: usize,
        words: &mut Words,
        completer: &mut C,
    ) -> Result<(), NoMemory> {
        self.last = None;
        if self.is_held(row) {
            return Ok(());
        }
        if self.keeps_rules(row) {
            return self.put_tuple(row);
        }
        let completed = self.forced.complete(
            completer,
            &self.rules,
            &self.suite,
            self.values,
            row,
            self.targets.as_slice(),
            words,
        )?;
        if completed {
            self.change_all(row)
        } else {
            Ok(())
        }
    }

    // Puts the tuple into a row.
    fn put_tuple(&mut self, row: usize) -> Result<(), NoMemory> {
        for i in 0..self.targets.len() {
            let target = self.targets[i];
            self.suite.change(target.param, row, target.digit)?;
        }
        Ok(())
    }

    // Whether a value that has to stay stands against the tuple.
    fn is_held(&self, row: usize) -> bool {
        for target in self.targets.as_slice() {
            let p = target.param;
            if self.suite.is_fixed(p, row) && self.suite.digit(p, row) != target.digit {
                return true;
            }
        }
        false
    }

    // Whether the row with the tuple keeps the constraints.
    fn keeps_rules(&mut self, row: usize) -> bool {
        let targets = self.targets.as_slice();
        for target in targets {
            if !self
                .rules
                .allow(&self.suite, self.values, row, targets, target.param)
            {
                return false;
            }
        }
        true
    }

    // Gives a row the values that were found.
    fn change_all(&mut self, row: usize) -> Result<(), NoMemory> {
        for p in 0..self.suite.params() {
            let Some(v) = self.forced.value(p) else {
                continue;
            };
            let Some(digit) = self.values.digit(p, v) else {
                continue;
            };
            if digit != self.suite.digit(p, row) {
                self.suite.change(p, row, digit)?;
            }
        }
        Ok(())
    }
}
