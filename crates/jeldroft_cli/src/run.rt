ghost use Rattle.std.specs.Prelude.{◌≡◌, ◌⊎◌, ◌≤◌, Some, None, map};
ghost use Rattle.std.specs.String.{string_bytes};
ghost use Rattle.jeldroft_args.specs.believed.Settings.{settings_of};
ghost use Rattle.jeldroft_args.specs.declared.command.Command.{Command as Asked};
ghost use Rattle.jeldroft_files.specs.believed.Runs.{moment};
ghost use Rattle.jeldroft_cli.specs.believed.Commands.{commands};
ghost use Rattle.jeldroft_cli.specs.believed.Promises.{IsUnbegun, Keeps};

use crate::dispatch::dispatch;
use crate::told::answer_words;
use jeldroft_args::{CommandName, read_args};
use outside_io::{Folder, Sink};
use std::alloc::Global;
use std::thread::Threads;

// The commands of the program.
const COMMANDS: [CommandName; 9] = [
    CommandName::Generate,
    CommandName::Check,
    CommandName::Shrink,
    CommandName::Show,
    CommandName::Lint,
    CommandName::Measure,
    CommandName::Suspect,
    CommandName::Sequence,
    CommandName::Import,
];

/// Runs `jeldroft` on its words, those behind the program's name, and gives the exit status.
///
/// Statuses: 0 where what is asked for was done, and of help and the version; 1 where the answer is no; 2 where the
/// words, the model or another file are wrong, a limit is passed or a budget is spent; 3 where memory, a read or a write
/// failed. A reader of `out` that has gone away is no fault. `terminal` tells whether `diag` is read by a person, who is
/// told more. What is told goes to `diag`, whose faults change nothing.
pub fn run_jeldroft<R: Threads + Sync, F: Folder, O: Sink, E: Sink>(
    rt: &R,
    alloc: Global,
    words: &[String],
    files: &mut F,
    out: &mut O,
    diag: &mut E,
    terminal: bool,
) -> u8
    // The command that the words ask for does what its contract says, unless memory is refused before it begins. Of what is
    // told, `shrink` and `generate` promise the last line where fewer tests are asked for.
    ensures keeps { (asked : Asked) → settings_of commands (map string_bytes words.now) ≡ Some asked →
        IsUnbegun (moment (F.seen files.old) (O.seen out.old)) (moment (F.seen files.new) (O.seen out.new)) result
        ⊎ Keeps asked terminal (moment (F.seen files.old) (O.seen out.old)) (moment (F.seen files.new) (O.seen out.new)) (E.seen diag.new) result }

    // Words that ask for nothing: no file changes, and with status 2 nothing is printed.
    ensures refused { settings_of commands (map string_bytes words.now) ≡ None →
        (F.seen files.new ≡ F.seen files.old) × (result ≤ 3) × (result ≡ 2 → O.seen out.new ≡ O.seen out.old) }
{
    match read_args(alloc, &COMMANDS, words) {
        Ok(command) => dispatch(rt, alloc, &command, files, out, diag, terminal),
        Err(fault) => answer_words(&fault, out, diag),
    }
}
