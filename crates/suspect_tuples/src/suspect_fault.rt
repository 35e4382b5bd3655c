ghost use Rattle.std.specs.Prelude.{◌≡◌};

use value_text::NoMemory;

/// Why no suspicious tuples are looked for (this project's rules).
#[derive(Debug, Drop, Clone, Copy, PartialEq, Eq)]
pub enum SuspectFault {
    /// There are more than 2^22 candidates, which are the failing rows that count, repeats too, each with each set of
    /// 1 to t parameters. Told is their number, or 2^64 - 1 where that is less.
    TooMany(u64),
    /// Memory was refused.
    NoMemory,
}

impl From<NoMemory> for SuspectFault {
    ghost use Rattle.suspect_tuples.specs.declared.suspect_fault.SuspectFault.TheVariants as faults;

    ghost from_gives = { λ _ fault. fault ≡ faults.NoMemory };

    fn from(_refused: NoMemory) -> SuspectFault {
        SuspectFault::NoMemory
    }
}
