ghost use Rattle.std.specs.Prelude.{◌≡◌, true, length, IfOk};
ghost use Rattle.feasibility.specs.Recurring.{unanswered};
ghost use Rattle.feasibility.specs.Answers.{answer_of};

use crate::answer::Answer;
use cov_model::Cells;
use std::alloc::Global;
use value_text::NoMemory;

// A question that was answered, if one is known: whether a search of it finds a completion, and the number
// of nodes that it visits.
#[derive(Drop)]
pub(crate) struct Answered {
    // Whether a question is known.
    pub(crate) known: bool,
    // The values of its partial row.
    pub(crate) cells: Cells,
    // Whether it has a completion.
    pub(crate) found: bool,
    // Its plain cost.
    pub(crate) cost: u64,
}

impl Answered {
    // No question, with room for one about so many parameters.
    pub(crate) fn none(alloc: Global, count: usize) -> Result<Answered, NoMemory>
        ensures { IfOk result (λ answered. answered ≡ unanswered count) }
    {
        let cells = Cells::empty(alloc, count)?;
        Ok(Answered {
            known: false,
            cells,
            found: false,
            cost: 0,
        })
    }

    // The answer to this question, and to each that gives the parameters which constraints name the same values.
    pub(crate) fn answer(&self, budget: u64) -> Answer
        ensures { result ≡ answer_of self.now.found self.now.cost budget }
    {
        if budget < self.cost {
            Answer::Spent
        } else if self.found {
            Answer::Yes
        } else {
            Answer::No
        }
    }

    // Keeps a question in place of the one that was known.
    pub(crate) fn keep(&mut self, cells: &Cells, found: bool, cost: u64)
        requires { length self.old.cells ≡ length cells.now }
        ensures { self.new ≡ record { known = true; cells = cells.now; found = found; cost = cost } }
    {
        self.cells.copy_from(cells);
        self.known = true;
        self.found = found;
        self.cost = cost;
    }
}
