//! Models, and files of results under them, that are read.
ghost use Rattle.std.specs.Prelude.{IfOk};
ghost use Rattle.suspect_tuples.specs.Results.{AreResultsOf};

use cov_model::TestModel;
use std::alloc::Global;
use suspect_tuples::{ResultFile, ResultsFault, read_results};
use test_models::{options, read};

/// The model of a text at this order, where case counts unless it is folded; nothing where the order is 0, the text is
/// refused, or memory was.
pub(crate) fn model_at(alloc: Global, text: &str, order: u32, fold: bool) -> Option<TestModel> {
    if order == 0 {
        return None;
    }
    let mut opts = options(order);
    opts.fold = fold;
    match read(alloc, text, &opts) {
        Ok((model, _)) => Some(model),
        Err(_) => None,
    }
}

/// The most bytes of a file of results.
const MOST_BYTES: usize = 1 << 26;

/// What a file of results holds under a model.
///
/// # Errors
///
/// As from `read_results`; and `NoMemory` for more than 2^26 bytes, which no test has.
pub(crate) fn results_of(
    alloc: Global,
    model: &TestModel,
    bytes: &[u8],
) -> Result<ResultFile, ResultsFault>
    ensures { IfOk result (AreResultsOf model.now) }
{
    if bytes.len() > MOST_BYTES {
        return Err(ResultsFault::NoMemory);
    }
    read_results(alloc, bytes, model)
}
