ghost use Rattle.std.specs.Prelude.{◌≡◌, ◌≢◌, List, Option, Some, Err, ℕ, IfOk, IfErr};
ghost use Rattle.outside_io.specs.believed.Seen.{KeepsFiles, KeepsReadFaults, KeepsWriteFaults, ReadFaultsRose};
ghost use Rattle.suspect_tuples.specs.Results.{AreResultsOf};
ghost use Rattle.pict_cli.specs.believed.Modes.{RowsHeld};
ghost use Rattle.pict_cli.specs.believed.RowSources.{read_result_bytes};
ghost use Rattle.pict_cli.specs.Steps.{HoldsResultsOf, IsOfRows, StopsRows, stop_of_results_fault};

use command_line::{FileKind, Stop, read_whole};
use cov_model::TestModel;
use outside_io::Folder;
use std::alloc::Global;
use suspect_tuples::{ResultFile, ResultsFault, read_results};

// Why a run stops whose file of results is refused.
fn stop_of_results(fault: ResultsFault) -> Stop
    ensures stop { result ≡ stop_of_results_fault fault }
    ensures other { IsOfRows result }
{
    match fault {
        ResultsFault::Rows(fault) => Stop::from(fault),
        ResultsFault::NoResult => Stop::NoResult,
        ResultsFault::BadResult(line) => Stop::BadResult(line),
        ResultsFault::NoMemory => Stop::OutOfMemory,
    }
}

/// The rows of the file of results of this name, and of each whether its test failed.
///
/// # Errors
///
/// `CannotRead` where the folder failed, `TooLong` where the file has more bytes than it may have, its first
/// refusal, or `OutOfMemory` where memory was refused.
pub(crate) fn load_results<F: Folder>(
    alloc: Global,
    name: &str,
    model: &TestModel,
    files: &mut F,
) -> Result<ResultFile, Stop>
    ensures results { IfOk result (λ file. (held : Option (List ℕ)) → (F.seen files.old).files name.now ≡ Some held → HoldsResultsOf model.now (RowsHeld held) file) }
    ensures fit { IfOk result (AreResultsOf model.now) }
    ensures stops { IfErr result (λ stop. (held : Option (List ℕ)) → (F.seen files.old).files name.now ≡ Some held → StopsRows (read_result_bytes model.now) (RowsHeld held) stop) }
    ensures cannot_read { result ≡ Err (Stop.CannotRead FileKind.Rows) → ReadFaultsRose name.now (F.seen files.old) (F.seen files.new) }
    ensures no_fault { result ≢ Err (Stop.CannotRead FileKind.Rows) → KeepsReadFaults (F.seen files.old) (F.seen files.new) }
    ensures other { IfErr result IsOfRows }
    ensures files { KeepsFiles (F.seen files.old) (F.seen files.new) }
    ensures write_faults { KeepsWriteFaults (F.seen files.old) (F.seen files.new) }
{
    let bytes = read_whole(alloc, FileKind::Rows, name, files)?;
    match read_results(alloc, bytes.as_slice(), model) {
        Ok(file) => Ok(file),
        Err(fault) => Err(stop_of_results(fault)),
    }
}
