ghost use Rattle.std.specs.Prelude.{◌≡◌, ◌≢◌, ◌⊎◌, ◌<◌, ◌≤◌, ℕ, List, length, Some, None, Ok};
ghost use Rattle.cov_model.specs.believed.Sound.{ModelView};
ghost use Rattle.definitions.specs.believed.Limits.{ModelFile, most_bytes};
ghost use Rattle.definitions.specs.believed.Settings.{Settings};
ghost use Rattle.model_lex.specs.declared.fault.ModelFault.{ModelFault};
ghost use Rattle.type_check.specs.believed.ModelOf.{IsRefusalOf};
ghost use Rattle.command_line.specs.believed.Stops.{status_of};
ghost use Rattle.memory_io.specs.FileLists.{told_of};
ghost use Rattle.command_line.specs.believed.Words.{opts_of, texts};
ghost use Rattle.pict_cli.specs.believed.Modes.{RowSource, model_source};
ghost use Rattle.pict_cli.specs.believed.Runs.{fault_status, stop_due};
ghost use Rattle.pict_cli.specs.believed.Words.{IsSpelled, asked_by, model_file};

use command_line::Stop;
use memory_io::{SureFolder, SureSink};
use pict_cli::run_pict;
use std::alloc::Global;
use std::thread::Threads;

/// Runs `pict` as `run_pict` does, on a folder and sinks that never fail.
///
/// So no fault comes, and which status comes stands here without a premise on faults: where the words, the model and the
/// row file have their readings, all is within its limits and no question of the run costs more than the budget, if there
/// is one, the status is 0, unless memory is refused.
pub fn run_pict_without_faults<R: Threads + Sync>(
    rt: &R,
    alloc: Global,
    words: &[String],
    files: &mut SureFolder,
    out: &mut SureSink,
    diag: &mut SureSink,
    seed_word: u64,
) -> u8
    // no read fails, and no write does
    ensures read { result ≢ 7 }
    ensures write { result ≢ 8 }

    // a model that is spelled, where the run needn't stop, and one where it must
    ensures complete { (s : Settings) (source : RowSource) (m : ModelView) → IsSpelled (texts words.now) (told_of files.old) s source m →
        stop_due s seed_word m source ≡ None → (result ≡ 0) ⊎ (result ≡ 1) }
    ensures stopped { (s : Settings) (source : RowSource) (m : ModelView) (stop : Stop) → IsSpelled (texts words.now) (told_of files.old) s source m →
        stop_due s seed_word m source ≡ Some stop → (result ≡ status_of stop) ⊎ (result ≡ 1) }

    // a model file that is refused, and one with more bytes than it may have
    ensures refused { (s : Settings) (bytes : List ℕ) (fault : ModelFault) → asked_by (texts words.now) ≡ Ok s → model_source s (model_file words.now) (told_of files.old) ≡ Some (Some bytes) →
        length bytes ≤ most_bytes ModelFile → IsRefusalOf (opts_of s) bytes fault → (result ≡ fault_status fault) ⊎ (result ≡ 1) }
    ensures too_long { (s : Settings) (bytes : List ℕ) → asked_by (texts words.now) ≡ Ok s → model_source s (model_file words.now) (told_of files.old) ≡ Some (Some bytes) →
        most_bytes ModelFile < length bytes → (result ≡ 9) ⊎ (result ≡ 1) }
{
    run_pict(rt, alloc, words, files, out, diag, seed_word)
}
