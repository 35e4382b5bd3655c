ghost use Rattle.std.specs.Prelude.{◌≡◌, IfOk};
ghost use Rattle.command_line.specs.believed.Told.{Tells};
ghost use Rattle.seq_cli.specs.Commands.{asked_seen};
ghost use Rattle.seq_cli.specs.believed.Stops.{end_status, end_text};

use crate::command::Command;
use crate::stop::{Ended, Stop};
use outside_io::Sink;

/// Tells why a run stopped, where it did, and gives the exit status. Takes no memory.
pub(crate) fn tell<E: Sink>(end: Result<Ended, Stop>, command: &Command<'_>, diag: &mut E) -> u8
    ensures status { result ≡ end_status end }
    ensures told { Tells (E.seen diag.old) (E.seen diag.new) (end_text (asked_seen command.now) end) }
    ensures quiet { IfOk end (λ ended. E.seen diag.new ≡ E.seen diag.old) }
{
    match end {
        Ok(ended) => ended.status(),
        Err(stop) => {
            let _ = stop.put_line(command, diag);
            stop.status()
        }
    }
}
