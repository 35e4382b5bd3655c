ghost use Rattle.std.specs.Prelude.{◌≡◌, ◌≤◌, IfOk, IfErr, OnOk};
ghost use Rattle.definitions.specs.believed.Limits.{SuspectCandidates, most_counted};
ghost use Rattle.suspect_tuples.specs.Results.{AreResultsOf};
ghost use Rattle.suspect_tuples.specs.Told.{IsSuspectFault, candidates_of, suspects_of, suspects_seen};

use crate::counting::counted_rows;
use crate::result_file::ResultFile;
use crate::set_counts::count_sets;
use crate::sets::find_all;
use crate::suspect_fault::SuspectFault;
use crate::suspect_list::Suspects;
use cov_model::TestModel;
use std::alloc::Global;

/// The most candidates.
const MOST_CANDIDATES: u64 = 1 << 22;

/// The smallest tuples of 1 to t parameters, t being the order of the model's demand, that some failing row contains
/// and no passing one (this project's rule): all of them, each once, by number of parameters, then by the list of
/// parameters, then by the list of values, and with each the number of failing rows that contain it. Only complete
/// rows count, valid or not.
///
/// # Errors
///
/// `TooMany` where the number of failing rows, repeats too, times the number of sets of 1 to t parameters is above
/// 2^22. `NoMemory` where memory was refused.
pub fn suspects(
    alloc: Global,
    model: &TestModel,
    results: &ResultFile,
) -> Result<Suspects, SuspectFault>
    requires { AreResultsOf model.now results.now }
    ensures found { IfOk result (λ suspects. suspects_seen suspects ≡ suspects_of model.now results.now) }
    ensures within { OnOk result (candidates_of model.now results.now ≤ most_counted SuspectCandidates) }
    ensures refused { IfErr result (IsSuspectFault model.now results.now) }
{
    let params = model.params().len();
    let rows = results.rows.rows.as_slice();
    let counted = counted_rows(alloc, rows, results.failed.as_slice())?;
    let failing = counted.failing.len() as u64;
    let sets = count_sets(alloc, params, model.demand().order as usize)?;
    let candidates = failing.saturating_mul(sets);
    if candidates > MOST_CANDIDATES {
        return Err(SuspectFault::TooMany(candidates));
    }
    let found = find_all(alloc, model, &counted.passing, &counted.failing)?;
    Ok(Suspects {
        passing: counted.passing.len() as u64,
        failing,
        incomplete: counted.incomplete,
        found,
    })
}
