ghost use Rattle.std.specs.Prelude.{◌≡◌, ◌≢◌, ◌⊎◌, Ok};
ghost use Rattle.definitions.specs.believed.Settings.{Settings};
ghost use Rattle.definitions.specs.believed.Verdict.{verdict};
ghost use Rattle.command_line.specs.believed.Stops.{status_of};
ghost use Rattle.memory_io.specs.FileLists.{told_of};
ghost use Rattle.command_line.specs.believed.Words.{opts_of, texts};
ghost use Rattle.check_cli.specs.believed.Runs.{AreRead, HasReadings, HeldFiles, Holds, FilesAreRefused, verdict_status};
ghost use Rattle.check_cli.specs.believed.Words.{asked_by, names_in};

use check_cli::run_check;
use command_line::Stop;
use memory_io::{SureFolder, SureSink};
use std::alloc::Global;
use std::thread::Threads;

/// Runs the checker as `run_check` does, on a folder and sinks that never fail.
///
/// So no fault comes, and which status comes stands here without a premise on faults: where the three files have their
/// readings it is that of their verdict, unless memory is refused.
pub fn run_check_without_faults<R: Threads + Sync>(
    rt: &R,
    alloc: Global,
    words: &[String],
    files: &mut SureFolder,
    out: &mut SureSink,
    diag: &mut SureSink,
) -> u8
    // no read fails, and no write does
    ensures read { result ≢ 7 }
    ensures write { result ≢ 8 }

    // files that have their readings, and files that have none
    ensures complete { (s : Settings) (held : HeldFiles) → asked_by (texts words.now) ≡ Ok s →
        Holds (told_of files.old) (names_in (texts words.now)) held → AreRead (opts_of s) held →
        HasReadings (opts_of s) (λ m lines proof. (result ≡ verdict_status (verdict m lines proof)) ⊎ (result ≡ 1)) held }
    ensures refused { (s : Settings) (held : HeldFiles) (stop : Stop) → asked_by (texts words.now) ≡ Ok s →
        Holds (told_of files.old) (names_in (texts words.now)) held → FilesAreRefused (opts_of s) held stop →
        (result ≡ status_of stop) ⊎ (result ≡ 1) }
{
    run_check(rt, alloc, words, files, out, diag)
}
