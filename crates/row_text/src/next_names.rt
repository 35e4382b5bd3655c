ghost use Rattle.std.specs.Prelude.{◌≡◌, ◌+◌, ◌%◌, ◌<◌, ◌≤◌, ◌^◌, length, replicate, IfOk};
ghost use Rattle.row_text.specs.Turns.{first_turns, cleared, turns_at, turn_at, after_turn};

use cov_model::TestModel;
use std::alloc::Global;
use std::marker::Model;
use value_text::NoMemory;

/// Which name of each value is shown next: a number for each parameter and each of its values.
#[derive(Drop)]
pub(crate) struct NextNames {
    places: Vec<Vec<u8>>,
}

impl Model for NextNames {
    ghost use Rattle.std.specs.Prelude.{List, ℕ, map};

    ghost Value = { List (List ℕ) };

    ghost view = { λ names. map (λ next. next.items) names.places.items };
}

/// So many zeros.
fn zeros(alloc: Global, count: usize) -> Result<Vec<u8>, NoMemory>
    ensures { IfOk result (λ next. next.items ≡ replicate count 0) }
{
    let next = vec![in alloc; 0u8; count]?;
    Ok(next)
}

/// Sets all numbers to 0.
fn clear_all(next: &mut Vec<u8>)
    ensures { next.new.items ≡ replicate (length next.old.items) 0 }
{
    for number in next.iter_mut() {
        *number = 0;
    }
}

/// The number of the name behind one of so many names: behind the last one the first. A division takes longer than
/// the rest of a cell, so there is one at the last name alone.
#[tactic(auto, using(crate::proofs::Turning::below_count))]
fn name_behind(shown: usize, count: usize) -> usize
    requires some { 0 < count }
    requires small { shown < 2 ^ 8 }
    ensures value { result ≡ (shown + 1) % count }
    ensures within { result < count }
{
    let next = shown + 1;
    if next < count { next } else { next % count }
}

impl NextNames {
    /// The first name of each value of a model.
    ///
    /// # Errors
    ///
    /// `NoMemory` where the numbers could not be had.
    pub(crate) fn new(alloc: Global, model: &TestModel) -> Result<NextNames, NoMemory>
        ensures { IfOk result (λ names. names ≡ first_turns model.now) }
    {
        let mut places = Vec::new(alloc);
        for param in model.params().as_slice() {
            let next = zeros(alloc, param.values.len())?;
            places.push(next)?;
        }
        Ok(NextNames { places })
    }

    /// Begins again with the first name of each value.
    pub(crate) fn clear(&mut self)
        ensures { self.new ≡ cleared self.old }
    {
        for next in self.places.iter_mut() {
            clear_all(next);
        }
    }

    /// The name of a value that is shown now, by its number, where the value has `count` names. The next one
    /// is shown the next time, and after the last one the first.
    pub(crate) fn take(&mut self, place: usize, value: usize, count: usize) -> usize
        requires place { place < length self.old }
        requires value { value < length (turns_at self.old place) }
        requires some { 0 < count }
        requires few { count ≤ 64 }
        ensures shown { result ≡ turn_at self.old place value }
        ensures next { self.new ≡ after_turn self.old place value count }
    {
        let next = &mut self.places[place][value];
        let shown = *next as usize;
        *next = name_behind(shown, count) as u8;
        shown
    }
}
