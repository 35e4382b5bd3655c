//! Proofs of texts.
ghost use Rattle.std.specs.Prelude.{◌≤◌, ◌^◌, All, IfOk, length};
ghost use Rattle.refutation.specs.Checking.{AreOfModel};

use cov_model::TestModel;
use refutation::{Omissions, ProofFault, read_omissions};
use std::alloc::Global;

// The most bytes of a text, which no test has more of.
const MOST_BYTES: usize = 1 << 20;

/// The proof of a text.
pub fn proof_of(alloc: Global, model: &TestModel, text: &str) -> Result<Omissions, ProofFault>
    ensures of_model { IfOk result (λ proof. All (λ omission. AreOfModel model.now omission.tuple) proof.omissions) }
    ensures few { IfOk result (λ proof. length proof.omissions ≤ 2 ^ 20) }
{
    let bytes = text.as_bytes();
    if bytes.len() > MOST_BYTES {
        return Err(ProofFault::NoMemory);
    }
    read_omissions(alloc, bytes, model)
}
