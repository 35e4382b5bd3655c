ghost use Rattle.std.specs.Prelude.{◌≡◌};
ghost use Rattle.proof_check.specs.Faults.{fault_of_model, fault_of_plan, fault_of_rows};

use cov_model::Tuple;
use model_lex::ModelFault;
use row_text::RowsFault;
use tuple_index::PlanFault;
use value_text::NoMemory;

/// What the checker says of a report and a proof (this project's rule): the first of the refusals that
/// applies, or that both are accepted. Lines count from 1.
#[derive(Drop)]
pub enum Verdict {
    /// Accepted, with the number of rows of the report and the number of omissions of the proof.
    Accepted(u32, u32),
    /// The first line of the report whose row isn't a complete and valid row.
    BadRow(u32),
    /// The first line of the proof that isn't one of a proof.
    BadProof(u32),
    /// The first line of the proof whose tree doesn't refute its tuple after the tuples of the lines before.
    BadOmission(u32),
    /// The first demanded tuple that no row serves and no line of the proof lists.
    Uncovered(Tuple),
}

/// Why there is no verdict.
#[derive(Drop)]
pub enum CheckFault {
    /// The model file is refused. This fault is never its want of memory.
    BadModel(ModelFault),
    /// The model demands more than a plan holds. This fault is never its want of memory.
    Limits(PlanFault),
    /// The report is no row file of a whole suite. This fault is never its want of memory.
    Report(RowsFault),
    /// Memory was refused.
    NoMemory,
}

impl From<NoMemory> for CheckFault {
    ghost use Rattle.proof_check.specs.declared.verdict.CheckFault.TheVariants as faults;

    ghost from_gives = { λ _ fault. fault ≡ faults.NoMemory };

    fn from(_refused: NoMemory) -> CheckFault {
        CheckFault::NoMemory
    }
}

impl From<ModelFault> for CheckFault {
    ghost from_gives = { λ inner fault. fault ≡ fault_of_model inner };

    fn from(inner: ModelFault) -> CheckFault {
        match inner {
            ModelFault::NoMemory => CheckFault::NoMemory,
            fault => CheckFault::BadModel(fault),
        }
    }
}

impl From<PlanFault> for CheckFault {
    ghost from_gives = { λ inner fault. fault ≡ fault_of_plan inner };

    fn from(inner: PlanFault) -> CheckFault {
        match inner {
            PlanFault::NoMemory => CheckFault::NoMemory,
            fault => CheckFault::Limits(fault),
        }
    }
}

impl From<RowsFault> for CheckFault {
    ghost from_gives = { λ inner fault. fault ≡ fault_of_rows inner };

    fn from(inner: RowsFault) -> CheckFault {
        match inner {
            RowsFault::NoMemory => CheckFault::NoMemory,
            fault => CheckFault::Report(fault),
        }
    }
}
