ghost use Rattle.std.specs.Prelude.{◌≡◌, ◌<◌, ◌≤◌, length, replicate, IfOk};
ghost use Rattle.row_text.specs.Turns.{after_turn, first_turns, turn_at, turns_at};

use cov_model::TestModel;
use std::alloc::Global;
use std::marker::Model;
use value_text::NoMemory;

/// Which name of each value stands next: a number for each parameter and each of its values.
#[derive(Drop)]
pub(crate) struct NameTurns {
    places: Vec<Vec<u8>>,
}

impl Model for NameTurns {
    ghost use Rattle.std.specs.Prelude.{List, ℕ, map};

    ghost Value = { List (List ℕ) };

    ghost view = { λ turns. map (λ next. next.items) turns.places.items };
}

/// So many zeros.
fn zeros(alloc: Global, count: usize) -> Result<Vec<u8>, NoMemory>
    ensures { IfOk result (λ next. next.items ≡ replicate count 0) }
{
    let next = vec![in alloc; 0u8; count]?;
    Ok(next)
}

impl NameTurns {
    /// The first name of each value of a model.
    ///
    /// # Errors
    ///
    /// `NoMemory` where the numbers could not be had.
    pub(crate) fn new(alloc: Global, model: &TestModel) -> Result<NameTurns, NoMemory>
        ensures { IfOk result (λ turns. turns ≡ first_turns model.now) }
    {
        let mut places = Vec::new(alloc);
        for param in model.params().as_slice() {
            let next = zeros(alloc, param.values.len())?;
            places.push(next)?;
        }
        Ok(NameTurns { places })
    }

    /// The name of a value that stands now, by its number, where the value has `count` names. The next one stands the
    /// next time, and after the last one the first.
    pub(crate) fn take(&mut self, place: usize, value: usize, count: usize) -> usize
        requires place { place < length self.old }
        requires value { value < length (turns_at self.old place) }
        requires some { 0 < count }
        requires few { count ≤ 64 }
        ensures shown { result ≡ turn_at self.old place value }
        ensures next { self.new ≡ after_turn self.old place value count }
    {
        let next = &mut self.places[place][value];
        let shown = *next as usize;
        *next = ((shown + 1) % count) as u8;
        shown
    }
}
