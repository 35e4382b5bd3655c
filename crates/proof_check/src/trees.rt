ghost use Rattle.std.specs.Prelude.{◌≡◌, ◌≤◌, ◌^◌, [], All, IfOk, length};
ghost use Rattle.definitions.specs.believed.Refutation.{first_unrefuted};
ghost use Rattle.definitions.specs.believed.Verdict.{as_cells};
ghost use Rattle.refutation.specs.Checking.{AreOfModel};
ghost use Rattle.refutation.specs.believed.Proofs.{format_of};
ghost use Rattle.refutation.specs.Reading.{omissions_meant};

use cov_model::{Cells, TestModel};
use refutation::{Omissions, TreeChecker};
use std::alloc::Global;
use value_text::NoMemory;

// The line of the first omission whose tree doesn't refute its tuple, given as many scratch cells as parameters.
fn first_refused(checker: &TreeChecker<'_>, proof: &Omissions, scratch: &mut Cells) -> Option<u32>
    requires of_model { All (λ omission. AreOfModel checker.now omission.tuple) proof.now.omissions }
    requires few { length proof.now.omissions ≤ 2 ^ 28 }
    requires long { length scratch.old ≡ length checker.now.params }
    ensures { result ≡ first_unrefuted checker.now (format_of proof.now.form) [] 2 (as_cells checker.now (omissions_meant proof.now.omissions)) }
{
    for (i, omission) in proof.as_slice().iter().enumerate() {
        let before = i as u32;
        if !checker.refutes(
            &omission.tuple,
            omission.tree.as_slice(),
            proof,
            before,
            scratch,
        ) {
            return Some(before + 2);
        }
    }
    None
}

// The line of the first omission of a proof whose tree doesn't refute its tuple after the tuples of the
// omissions before; the first omission stands on line 2. Takes memory for one row, and for what the trees are
// checked with.
pub(crate) fn first_bad_tree(
    alloc: Global,
    model: &TestModel,
    proof: &Omissions,
) -> Result<Option<u32>, NoMemory>
    requires of_model { All (λ omission. AreOfModel model.now omission.tuple) proof.now.omissions }
    requires few { length proof.now.omissions ≤ 2 ^ 28 }
    ensures { IfOk result (λ found. found ≡ first_unrefuted model.now (format_of proof.now.form) [] 2 (as_cells model.now (omissions_meant proof.now.omissions))) }
{
    let mut scratch = Cells::empty(alloc, model.params().len())?;
    let checker = TreeChecker::new(alloc, model, proof)?;
    Ok(first_refused(&checker, proof, &mut scratch))
}
