ghost use Rattle.std.specs.Prelude.{◌≡◌};

use value_text::NoMemory;

/// Why there is no plan of a model.
#[derive(Debug, Drop, Clone, Copy, PartialEq, Eq)]
pub enum PlanFault {
    /// There are more than 2^20 choices of demanded sets, before equal ones are joined. Told is
    /// their number, or 2^64 - 1 where that is less.
    TooManySets(u64),
    /// There are more than 2^26 demanded tuples. Told is their number, or 2^64 - 1 where that is less.
    TooManyTuples(u64),
    /// Memory was refused.
    NoMemory,
}

impl From<NoMemory> for PlanFault {
    ghost use Rattle.tuple_index.specs.declared.fault.PlanFault.TheVariants as faults;

    ghost from_gives = { λ _ fault. fault ≡ faults.NoMemory };

    fn from(_refused: NoMemory) -> PlanFault {
        PlanFault::NoMemory
    }
}
