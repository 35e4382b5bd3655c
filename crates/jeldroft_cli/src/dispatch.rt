ghost use Rattle.jeldroft_args.specs.Ranges.{IsInRange};
ghost use Rattle.jeldroft_files.specs.believed.Runs.{moment};
ghost use Rattle.jeldroft_cli.specs.believed.Promises.{Keeps};

use jeldroft_args::Command;
use jeldroft_check::run_check;
use jeldroft_generate::run_generate;
use jeldroft_import::run_import;
use jeldroft_lint::run_lint;
use jeldroft_measure::run_measure;
use jeldroft_sequence::run_sequence;
use jeldroft_show::run_show;
use jeldroft_shrink::run_shrink;
use jeldroft_suspect::run_suspect;
use outside_io::{Folder, Sink};
use std::alloc::Global;
use std::thread::Threads;

/// Runs a command, and gives the exit status.
pub(crate) fn dispatch<R: Threads + Sync, F: Folder, O: Sink, E: Sink>(
    rt: &R,
    alloc: Global,
    command: &Command,
    files: &mut F,
    out: &mut O,
    diag: &mut E,
    terminal: bool,
) -> u8
    requires { IsInRange command.now }
    ensures { Keeps command.now terminal (moment (F.seen files.old) (O.seen out.old)) (moment (F.seen files.new) (O.seen out.new))
        (E.seen diag.new) result }
{
    match command {
        Command::Generate(args) => run_generate(rt, alloc, args, files, out, diag, terminal),
        Command::Check(args) => run_check(rt, alloc, args, files, out, diag),
        Command::Shrink(args) => run_shrink(alloc, args, files, out, diag, terminal),
        Command::Show(args) => run_show(rt, alloc, args, files, out, diag),
        Command::Lint(args) => run_lint(alloc, args, files, out, diag),
        Command::Measure(args) => run_measure(rt, alloc, args, files, out, diag),
        Command::Suspect(args) => run_suspect(alloc, args, files, out, diag),
        Command::Sequence(args) => run_sequence(alloc, args, files, out, diag),
        Command::Import(args) => run_import(alloc, args, files, out, diag),
    }
}
