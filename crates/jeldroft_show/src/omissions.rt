ghost use Rattle.std.specs.Prelude.{◌≡◌, ◌≤◌, ◌^◌, [], IfOk, length, map};
ghost use Rattle.definitions.specs.believed.ProofText.{omissions_of};
ghost use Rattle.refutation.specs.Proofs.{omission_meant};
ghost use Rattle.jeldroft_show.specs.believed.Words.{omissions_read, omissions_told};

use cov_model::TestModel;
use proof_check::Verdict;
use refutation::{Omissions, ProofFault, ProofForm, read_omissions};
use std::alloc::Global;
use value_text::NoMemory;

// No omissions.
fn none(alloc: Global) -> Omissions
    ensures { map omission_meant result.omissions ≡ [] }
{
    Omissions::empty(alloc, ProofForm::One)
}

// The omissions of a proof; none where it has a line that is none.
#[tactic(auto, using(crate::proofs::OmissionLemmas::read_is, crate::proofs::OmissionLemmas::unread_is))]
fn read(alloc: Global, model: &TestModel, proof: &[u8]) -> Result<Omissions, NoMemory>
    requires { length proof.now ≤ 2 ^ 28 }
    ensures { IfOk result (λ read. map omission_meant read.omissions ≡ omissions_read (omissions_of model.now proof.now)) }
{
    match read_omissions(alloc, proof, model) {
        Ok(omissions) => Ok(omissions),
        Err(ProofFault::Line(_)) => Ok(none(alloc)),
        Err(ProofFault::NoMemory) => Err(NoMemory),
    }
}

/// The omissions of a proof that are explained: all, where the verdict is that each tree refutes its combination, and
/// none elsewhere.
///
/// # Errors
///
/// `NoMemory` where memory was refused.
pub(crate) fn omissions_told(
    alloc: Global,
    model: &TestModel,
    verdict: &Verdict,
    proof: &[u8],
) -> Result<Omissions, NoMemory>
    requires { length proof.now ≤ 2 ^ 28 }
    ensures { IfOk result (λ told. map omission_meant told.omissions ≡ omissions_told verdict.now (omissions_of model.now proof.now)) }
{
    match verdict {
        Verdict::Accepted(_, _) | Verdict::Uncovered(_) => read(alloc, model, proof),
        Verdict::BadRow(_) | Verdict::BadProof(_) | Verdict::BadOmission(_) => Ok(none(alloc)),
    }
}
