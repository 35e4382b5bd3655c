//! What `jeldroft` prints and tells where no command is begun.
ghost use Rattle.std.specs.Prelude.{◌≡◌, ◌≢◌, ◌≤◌};
ghost use Rattle.jeldroft_args.specs.declared.args_fault.ArgsFault.TheVariants as faults;

use jeldroft_args::ArgsFault;
use outside_io::{Sink, WriteAnswer, put_pieces};

// Writes the help or the version, and gives the exit status. A reader that has gone away is no fault.
fn show<O: Sink, E: Sink>(text: &str, out: &mut O, diag: &mut E) -> u8
    ensures known { result ≤ 3 }
    ensures shown { result ≢ 2 }
{
    match out.put(text.as_bytes()) {
        WriteAnswer::Done => 0,
        WriteAnswer::Failed => {
            if out.is_gone() {
                return 0;
            }
            let _ = put_pieces(
                diag,
                &["jeldroft: error: cannot write to standard output\n"],
            );
            3
        }
    }
}

// Says that memory was refused, and gives the exit status.
fn tell_no_memory<E: Sink>(diag: &mut E) -> u8
    ensures { result ≡ 3 }
{
    let _ = put_pieces(diag, &["jeldroft: error: out of memory\n"]);
    3
}

/// Prints or tells what words that gave no command are answered with, and gives the exit status.
pub(crate) fn answer_words<O: Sink, E: Sink>(fault: &ArgsFault, out: &mut O, diag: &mut E) -> u8
    ensures known { result ≤ 3 }
    ensures refused { result ≡ 2 → O.seen out.new ≡ O.seen out.old }
    ensures no_memory { fault.now ≡ faults.OutOfMemory → (result ≡ 3) × (O.seen out.new ≡ O.seen out.old) }
{
    match fault {
        ArgsFault::Shown(text) => show(text.as_str(), out, diag),
        ArgsFault::Refused(text) => {
            let _ = diag.put(text.as_str().as_bytes());
            2
        }
        ArgsFault::OutOfMemory => tell_no_memory(diag),
    }
}
