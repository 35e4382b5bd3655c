ghost use Rattle.std.specs.Prelude.{◌≡◌};
ghost use Rattle.model_lex.specs.believed.Codes.{most_of};

use crate::diag::Diag;
use value_text::NoMemory;

/// What a model may have only so many of.
#[derive(Debug, Drop, Clone, Copy, PartialEq, Eq)]
pub enum LimitName {
    /// Parameters.
    Params,
    /// Values of one parameter.
    Values,
    /// Names of one value.
    Names,
    /// Constraints.
    Rules,
}

impl LimitName {
    /// The greatest number that is allowed (this project's rule). Takes no memory.
    pub fn most(&self) -> u64
        ensures { result ≡ most_of self.now }
    {
        match self {
            LimitName::Params => 256,
            LimitName::Values => 4095,
            LimitName::Names => 64,
            LimitName::Rules => 4096,
        }
    }
}

/// Why the reading of a model file ended without a model.
#[derive(Debug, Drop, Clone, Copy, PartialEq, Eq)]
pub enum ModelFault {
    /// A line, a parameter or a group is refused, by one of `M1` to `M18`.
    Bad(Diag),
    /// A constraint is refused, by one of `C1` to `C14`.
    BadRule(Diag),
    /// There are more than the greatest number allowed: of what, and how many.
    Limit(LimitName, u64),
    /// Memory was refused.
    NoMemory,
}

impl From<NoMemory> for ModelFault {
    ghost use Rattle.model_lex.specs.declared.fault.ModelFault.TheVariants as faults;

    ghost from_gives = { λ _ fault. fault ≡ faults.NoMemory };

    fn from(_refused: NoMemory) -> ModelFault {
        ModelFault::NoMemory
    }
}
