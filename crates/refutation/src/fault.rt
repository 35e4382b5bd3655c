ghost use Rattle.std.specs.Prelude.{◌≡◌};

use thiserror::Error;
use value_text::NoMemory;

/// Why the reading of a proof file ended without a proof.
#[derive(Debug, Drop, Clone, Copy, PartialEq, Eq, Error)]
pub enum ProofFault {
    /// The first line that isn't one of a proof, by its number from 1.
    #[error("line {0} is not a proof line")]
    Line(u32),
    /// Memory was refused.
    #[error("memory was refused")]
    NoMemory,
}

impl From<NoMemory> for ProofFault {
    ghost use Rattle.refutation.specs.declared.fault.ProofFault.TheVariants as faults;

    ghost from_gives = { λ _ fault. fault ≡ faults.NoMemory };

    fn from(_refused: NoMemory) -> ProofFault {
        ProofFault::NoMemory
    }
}
