ghost use Rattle.std.specs.Prelude.{◌≡◌, None, IfSome, IsOkAnd, IsSomeAnd};
ghost use Rattle.memory_io.specs.MemFolder.{file_of};
ghost use Rattle.seq_check.specs.believed.Events.{EventsView};
ghost use Rattle.seq_cover.specs.believed.Covering.{IsAccepted};
ghost use Rattle.seq_cli.specs.believed.Runs.{HasVerdict, PrintsCovering, Spells};
ghost use Rattle.seq_cli.specs.believed.Words.{asked_by};
ghost use Rattle.command_line.specs.believed.Words.{texts};

use memory_io::{MemFolder, MemSink};
use seq_cli::run_seq;
use std::alloc::Global;

/// Runs `pictseq` as `run_seq` does, on a folder and sinks in memory, which tell everything.
///
/// So its clauses stand here without a premise but the status: after status 0 the words have a reading and the file of
/// events is there and spells some. Where no report is checked, the bytes that `out` got behind those that it held
/// cover the sequences; where one is checked, it is there and accepted, and after status 10 it is there and refused.
pub fn run_seq_in_memory(
    alloc: Global,
    words: &[String],
    files: &mut MemFolder,
    out: &mut MemSink,
    diag: &mut MemSink,
) -> u8
    // what is printed covers the sequences of events, and is accepted
    ensures headline { result ≡ 0 → IsOkAnd (asked_by (texts words.now)) (λ asked. asked.report ≡ None →
        (e : EventsView) × Spells asked.len (file_of files.old.slots asked.file) e × PrintsCovering e out.old.bytes out.new.bytes) }

    // a report that is checked is accepted, or isn't
    ensures accepts { result ≡ 0 → IsOkAnd (asked_by (texts words.now)) (λ asked. IfSome asked.report (λ name.
        HasVerdict asked.len (file_of files.old.slots asked.file) (file_of files.old.slots name) IsAccepted)) }
    ensures refuses { result ≡ 10 → IsOkAnd (asked_by (texts words.now)) (λ asked. IsSomeAnd asked.report (λ name.
        HasVerdict asked.len (file_of files.old.slots asked.file) (file_of files.old.slots name) (λ verdict. ¬ IsAccepted verdict))) }
{
    run_seq(alloc, words, files, out, diag)
}
