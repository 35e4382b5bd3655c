ghost use Rattle.std.specs.Prelude.{◌≡◌, ◌≢◌, ℕ, true, false, None};
ghost use Rattle.jeldroft_files.specs.Runs.{end_status};
ghost use Rattle.jeldroft_files.specs.believed.Runs.{moment};
ghost use Rattle.jeldroft_generate.specs.believed.Due.{AreHeld, Held};
ghost use Rattle.jeldroft_generate.specs.Runs.{AreInRange};
ghost use Rattle.jeldroft_generate.specs.believed.Runs.{Covers, Generates, Leaves};
ghost use Rattle.jeldroft_generate.specs.believed.Told.{SumsUp};

use crate::answer::answer;
use crate::notes::Notes;
use crate::telling::{Summary, tell};
use crate::writing::finish;
use jeldroft_args::Generate;
use jeldroft_files::Failure;
use outside_io::{Folder, Sink};
use std::alloc::Global;
use std::thread::Threads;

// The exit status of a run that ended so.
fn status_of(end: &Result<Summary, Failure<'_>>) -> u8
    ensures { result ≡ end_status end.now }
{
    match end {
        Ok(_) => 0,
        Err(failure) => failure.cause.status(),
    }
}

/// Runs `jeldroft generate` with its settings, and gives the exit status.
///
/// The steps come in this order: model file, limits of what it demands, file of seeds, growth, fewer tests where they are
/// asked for, write of the proof file, write of the table to the output file or to `out`. All memory is taken before the
/// first byte is written. Statuses: 0 where the table was written whole, 2 where the model or another file is refused, a
/// limit is passed, or a question of the search costs more than the budget, 3 where memory, reading or writing failed. A
/// reader of `out` that has gone away is no failure. What is told goes to `diag`, whose faults change nothing; the lines
/// that sum up only where `terminal` says that it is one.
pub fn run_generate<R: Threads + Sync, F: Folder, O: Sink, E: Sink>(
    rt: &R,
    alloc: Global,
    args: &Generate,
    files: &mut F,
    out: &mut O,
    diag: &mut E,
    terminal: bool,
) -> u8
    requires { AreInRange args.now }

    // The headline: after status 0 the model file spells a model, the seeds have a reading, and the table was written of
    // tests of which each is valid, and every demanded combination is served by one of them, or no test serves it, and
    // then the proof, where one is asked for, lists it with a tree that refutes it. The tests are those that grow from the
    // seeds with the same preferences as in a run of `pict`; or, where fewer are asked for, fewer in their place, no two the
    // same, in which each seed is contained that is in those. Premises: the folder tells what the files held that are read,
    // and the table and the proof go to two files.
    ensures headline { result ≡ 0 → Covers args.now (moment (F.seen files.old) (O.seen out.old)) (moment (F.seen files.new) (O.seen out.new)) }

    // Where fewer tests are asked for, the last line that a terminal is told sums them up, unless silence is asked for: the
    // number of tests that grow, of those in their place, and one below which no valid tests have this coverage. Premise:
    // the folder tells what the files held that are read.
    ensures told { result ≡ 0 → args.now.shrinking ≢ None → terminal ≡ true → args.now.quiet ≡ false → (held : Held) → AreHeld args.now (F.seen files.old).files held →
        SumsUp args.now held (moment (F.seen files.old) (O.seen out.old)) (moment (F.seen files.new) (O.seen out.new)) (E.seen diag.new) }

    // What a run does, where the folder tells what the files hold that are read.
    ensures runs { (held : Held) → AreHeld args.now (F.seen files.old).files held → Generates args.now held
        (moment (F.seen files.old) (O.seen out.old)) (moment (F.seen files.new) (O.seen out.new)) result }

    // And what it leaves as it was, whatever is told.
    ensures leaves { Leaves args.now (moment (F.seen files.old) (O.seen out.old)) (moment (F.seen files.new) (O.seen out.new)) result }
{
    let mut notes = Notes::new(alloc);
    let made = answer(rt, alloc, args, files, &mut notes);
    let end = finish(args, made, files, out);
    tell(alloc, args, &notes, &end, terminal, diag);
    status_of(&end)
}
