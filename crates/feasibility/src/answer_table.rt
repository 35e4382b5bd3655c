ghost use Rattle.std.specs.Prelude.{◌≡◌, ◌<◌, length, replicate, slice_index_or, IfOk};
ghost use Rattle.feasibility.specs.Recurring.{kept_at, none_answered, unanswered};

use crate::answer::Answer;
use crate::answered::Answered;
use cov_model::Cells;
use std::alloc::Global;
use std::marker::Model;
use value_text::NoMemory;

// Some questions that were answered, each at its place. Contracts see the list of them.
#[derive(Drop)]
pub(crate) struct AnswerTable {
    places: Vec<Answered>,
}

impl Model for AnswerTable {
    ghost use Rattle.std.specs.Prelude.{◌<◌, List, length};
    ghost use Rattle.feasibility.specs.declared.answered.Answered.{Answered};

    ghost Value = { List Answered };

    ghost view = { λ a. a.places.items };

    ghost invariant = { λ a. 0 < length a.places.items };
}

impl AnswerTable {
    // A table of so many places, for questions about so many parameters, of which none is known.
    pub(crate) fn new(alloc: Global, places: usize, count: usize) -> Result<AnswerTable, NoMemory>
        requires { 0 < places }
        ensures { IfOk result (λ table. table ≡ replicate places (unanswered count)) }
    {
        let mut list = Vec::new(alloc);
        while list.len() < places {
            let answered = Answered::none(alloc, count)?;
            list.push(answered)?;
        }
        Ok(AnswerTable { places: list })
    }

    // The number of places.
    pub(crate) fn len(&self) -> usize
        ensures length { result ≡ length self.now }
        ensures some { 0 < result }
    {
        self.places.len()
    }

    // What is known at a place.
    pub(crate) fn at(&self, place: usize) -> &Answered
        requires { place < length self.now }
        ensures { result.now ≡ slice_index_or self.now place none_answered }
    {
        &self.places[place]
    }

    // Keeps a question of this cost at a place, but where its cost exceeds the budget.
    pub(crate) fn keep_answer(&mut self, place: usize, cells: &Cells, answer: Answer, cost: u64)
        requires place { place < length self.old }
        requires long { length (slice_index_or self.old place none_answered).cells ≡ length cells.now }
        ensures { self.new ≡ kept_at self.old place cells.now answer cost }
    {
        let answered = &mut self.places[place];
        match answer {
            Answer::Yes => answered.keep(cells, true, cost),
            Answer::No => answered.keep(cells, false, cost),
            Answer::Spent => {}
        }
    }
}
