ghost use Rattle.std.specs.Prelude.{◌≡◌, ◌++◌, IsOkAnd};
ghost use Rattle.definitions.specs.believed.Laws.{IsCertified};
ghost use Rattle.definitions.specs.believed.Verdict.{verdict, verdict_text};
ghost use Rattle.command_line.specs.believed.Words.{opts_of, texts};
ghost use Rattle.check_cli.specs.believed.Runs.{HasReadings, HasVerdict, verdict_status};
ghost use Rattle.check_cli.specs.believed.Words.{asked_by, names_in};
ghost use Rattle.runs_in_memory.specs.CheckFiles.{held_in};

use check_cli::run_check;
use memory_io::{MemFolder, MemSink};
use std::alloc::Global;
use std::thread::Threads;

/// Runs the checker as `run_check` does, on a folder and sinks in memory, which tell everything.
///
/// So the headline stands here without a premise: after status 0 the words have a reading, the three files are there and
/// have their readings, every row of the report is valid, and each demanded tuple is served by one of the rows, or
/// the proof lists it and no row serves it.
pub fn run_check_in_memory<R: Threads + Sync>(
    rt: &R,
    alloc: Global,
    words: &[String],
    files: &mut MemFolder,
    out: &mut MemSink,
    diag: &mut MemSink,
) -> u8
    // an accepted report and proof are certified
    ensures certified { result ≡ 0 → IsOkAnd (asked_by (texts words.now)) (λ s.
        HasReadings (opts_of s) IsCertified (held_in files.old.slots (names_in (texts words.now)))) }

    // after status 0 the verdict accepts, after 10 it doesn't, and its line was written
    ensures verdict { HasVerdict result → IsOkAnd (asked_by (texts words.now)) (λ s.
        HasReadings (opts_of s) (λ m lines proof. (result ≡ verdict_status (verdict m lines proof))
        × (out.new.bytes ≡ out.old.bytes ++ verdict_text (verdict m lines proof))) (held_in files.old.slots (names_in (texts words.now)))) }
{
    run_check(rt, alloc, words, files, out, diag)
}
