ghost use Rattle.std.specs.Prelude.{◌≡◌, true, Ok, IfSome, IsOkAnd, option_map};
ghost use Rattle.definitions.specs.believed.Settings.{Settings};
ghost use Rattle.memory_io.specs.MemFolder.{file_of};
ghost use Rattle.runs_in_memory.specs.PictFiles.{model_in, source_of};
ghost use Rattle.pict_cli.specs.believed.Ends.{moment};
ghost use Rattle.pict_cli.specs.believed.Modes.{prints_rows};
ghost use Rattle.pict_cli.specs.believed.Promises.{HasStatus, world};
ghost use Rattle.pict_cli.specs.believed.Runs.{HasModel, HoldsWholeProof, IsRun, PrintsSuite, rows_of_run};
ghost use Rattle.command_line.specs.believed.Words.{opts_of, texts};
ghost use Rattle.pict_cli.specs.believed.Words.{asked_by, model_file};

use memory_io::{MemFolder, MemSink};
use outside_io::{Folder, Sink};
use pict_cli::run_pict;
use std::alloc::Global;
use std::thread::Threads;

/// Runs `pict` as `run_pict` does, on a folder and sinks in memory, which tell everything.
///
/// So the headline stands here without a premise: after status 0 of a run that prints rows the words have a reading, the model
/// file is there and spells a model, and the bytes that `out` got behind those that it held are a
/// report that covers what can be covered; what it leaves out is refuted in the proof file, where the
/// words ask for one.
pub fn run_pict_in_memory<R: Threads + Sync>(
    rt: &R,
    alloc: Global,
    words: &[String],
    files: &mut MemFolder,
    out: &mut MemSink,
    diag: &mut MemSink,
    seed_word: u64,
) -> u8
    // the suite that is printed: every row is valid, and every demanded tuple is served by one of them, or no row serves
    // it, and then the proof lists it with a tree that refutes it; and the rest of what `PrintsSuite` says
    ensures headline { result ≡ 0 → IsOkAnd (asked_by (texts words.now)) (λ s. prints_rows s ≡ true →
        HasModel (opts_of s) (file_of files.old.slots (model_file words.now)) (λ m notes.
        PrintsSuite s m (source_of files.old.slots s) (option_map (file_of files.new.slots) s.proof) out.old.bytes out.new.bytes)) }

    // the proof file, where the words ask for one, holds the proof of the suite
    ensures proof { result ≡ 0 → IsOkAnd (asked_by (texts words.now)) (λ s. IfSome s.proof (λ name.
        HasModel (opts_of s) (model_in files.old.slots (model_file words.now) s) (λ m notes.
        HoldsWholeProof s seed_word m (rows_of_run s m (source_of files.old.slots s)) (file_of files.new.slots name)))) }

    // what the run does, and which status comes, as `run_pict` says it of any folder and sinks: those in memory tell all
    ensures run { (s : Settings) → asked_by (texts words.now) ≡ Ok s → IsRun s seed_word (model_file words.now)
        (moment (⟦<MemFolder as Folder>⟧.seen files.old) (⟦<MemSink as Sink>⟧.seen out.old))
        (moment (⟦<MemFolder as Folder>⟧.seen files.new) (⟦<MemSink as Sink>⟧.seen out.new))
        (⟦<MemSink as Sink>⟧.seen diag.old) (⟦<MemSink as Sink>⟧.seen diag.new) result }
    ensures statuses { HasStatus (texts words.now) seed_word
        (world (⟦<MemFolder as Folder>⟧.seen files.old) (⟦<MemSink as Sink>⟧.seen out.old) (⟦<MemSink as Sink>⟧.seen diag.old))
        (world (⟦<MemFolder as Folder>⟧.seen files.new) (⟦<MemSink as Sink>⟧.seen out.new) (⟦<MemSink as Sink>⟧.seen diag.new)) result }
{
    run_pict(rt, alloc, words, files, out, diag, seed_word)
}
