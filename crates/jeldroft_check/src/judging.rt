//! The verdict on the files of the command.
ghost use Rattle.std.specs.Prelude.{◌≡◌, ◌≤◌, ◌^◌, length};
ghost use Rattle.outside_io.specs.believed.Seen.{KeepsFiles};
ghost use Rattle.jeldroft_args.specs.Ranges.{AreMarks, AreThreads, IsStrength};
ghost use Rattle.jeldroft_files.specs.believed.Models as models;
ghost use Rattle.jeldroft_files.specs.declared.failure.Cause.TheVariants as causes;
ghost use Rattle.check_cli.specs.RunSteps.{stop_of_check};
ghost use Rattle.check_cli.specs.believed.Runs.{HeldFiles};
ghost use Rattle.jeldroft_check.specs.believed.Runs.{Holds};
ghost use Rattle.jeldroft_check.specs.Steps.{Answers, Judges};

use crate::notes::Notes;
use crate::noting::explained;
use crate::reading::{read_file, read_proof, read_rows};
use command_line::{FileKind, Stop};
use jeldroft_args::Check;
use jeldroft_files::{Failure, opts_of};
use outside_io::Folder;
use proof_check::{CheckFault, Verdict, check_bytes};
use std::alloc::Global;
use std::thread::Threads;
use worker_gate::OpenGate;

// Why there is no verdict, as the failure of the file that it is about.
fn failure_of<'n>(args: &'n Check, fault: CheckFault) -> Failure<'n>
    ensures { result.cause ≡ causes.Stop (stop_of_check fault) }
{
    match fault {
        CheckFault::BadModel(refusal) => Failure::at(args.model.name.as_str(), Stop::from(refusal)),
        CheckFault::Limits(limit) => Failure::at(args.model.name.as_str(), Stop::from(limit)),
        CheckFault::Report(refusal) => Failure::at(args.table.as_str(), Stop::from(refusal)),
        CheckFault::NoMemory => Failure::at("", Stop::OutOfMemory),
    }
}

// The verdict on the bytes of the model file, the table and the proof.
fn judge<'n, R: Threads + Sync>(
    rt: &R,
    alloc: Global,
    args: &'n Check,
    model: &[u8],
    table: &[u8],
    proof: &[u8],
) -> Result<Verdict, Failure<'n>>
    requires marks { AreMarks args.now.model.marks }
    requires strength { IsStrength args.now.strength }
    requires threads { AreThreads args.now.threads }
    requires model { length model.now ≤ 2 ^ 28 }
    requires table { length table.now ≤ 2 ^ 28 }
    requires proof { length proof.now ≤ 2 ^ 28 }
    ensures { Judges (models.opts_of args.now.model args.now.strength) (record { model = model.now; report = table.now; proof = proof.now }) result }
{
    let opts = opts_of(&args.model, args.strength);
    match check_bytes(
        rt,
        alloc,
        model,
        &opts,
        table,
        proof,
        args.threads,
        &OpenGate,
    ) {
        Ok(verdict) => Ok(verdict),
        Err(fault) => Err(failure_of(args, fault)),
    }
}

/// The verdict on the three files, which are read whole before one of them is looked at. `notes` gets what there is to
/// tell of them where they aren't accepted.
///
/// # Errors
///
/// A failure of the first file that can't be read, or else the first refusal of the model file, of what it demands, or of
/// the table; `OutOfMemory` where memory was refused.
pub(crate) fn verdict_of<'n, R: Threads + Sync, F: Folder>(
    rt: &R,
    alloc: Global,
    args: &'n Check,
    files: &mut F,
    notes: &mut Notes,
) -> Result<Verdict, Failure<'n>>
    requires marks { AreMarks args.now.model.marks }
    requires strength { IsStrength args.now.strength }
    requires threads { AreThreads args.now.threads }
    ensures answers { (held : HeldFiles) → Holds (F.seen files.old).files args.now held → Answers args.now held result }
    ensures files { KeepsFiles (F.seen files.old) (F.seen files.new) }
{
    let model = read_file(alloc, FileKind::Model, args.model.name.as_str(), files)?;
    let table = read_rows(alloc, args, files)?;
    let proof = read_proof(alloc, args, files)?;
    let end = judge(
        rt,
        alloc,
        args,
        model.as_slice(),
        table.tabs.as_slice(),
        proof.as_slice(),
    );
    explained(alloc, args, end, model, table, notes)
}
