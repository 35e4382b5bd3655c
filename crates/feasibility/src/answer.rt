ghost use Rattle.std.specs.Prelude.{◌≡◌};

use cov_model::Tuple;
use thiserror::Error;
use value_text::NoMemory;

/// Whether a partial row is extendable in a slice, as far as a budget goes.
#[derive(Debug, Drop, Clone, Copy, PartialEq, Eq)]
pub enum Answer {
    /// It is.
    Yes,
    /// It isn't.
    No,
    /// The plain cost of the question exceeds the budget.
    Spent,
}

/// A question that was asked of a search: whether these values can be completed.
#[derive(Drop)]
pub struct Question {
    /// The values of the partial row.
    pub cells: Tuple,
}

/// Why a run of questions ended early.
#[derive(Drop)]
pub enum SearchFault {
    /// The plain cost of this question exceeds the budget.
    Spent(Question),
    /// There was no room.
    NoMemory,
}

impl From<NoMemory> for SearchFault {
    ghost use Rattle.feasibility.specs.declared.answer.SearchFault.TheVariants.{NoMemory};

    ghost from_gives = { λ _ fault. fault ≡ NoMemory };

    fn from(_refused: NoMemory) -> SearchFault {
        SearchFault::NoMemory
    }
}

/// Why a tuple isn't refuted.
#[derive(Debug, Drop, Clone, Copy, PartialEq, Eq, Error)]
pub enum RefuteFault {
    /// The plain cost of the tuple exceeds the budget.
    #[error("the plain cost exceeds the budget")]
    Spent,
    /// There was no room.
    #[error("memory was refused")]
    NoMemory,
}

impl From<NoMemory> for RefuteFault {
    ghost use Rattle.feasibility.specs.declared.answer.RefuteFault.TheVariants.{NoMemory};

    ghost from_gives = { λ _ fault. fault ≡ NoMemory };

    fn from(_refused: NoMemory) -> RefuteFault {
        RefuteFault::NoMemory
    }
}
