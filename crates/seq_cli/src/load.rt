ghost use Rattle.std.specs.Prelude.{◌≡◌, ◌≢◌, ◌⊎◌, Err, IfOk, IfErr};
ghost use Rattle.outside_io.specs.believed.Seen.{KeepsFiles, KeepsReadFaults, KeepsWriteFaults, ReadFaultsRose};
ghost use Rattle.seq_cli.specs.Commands.{asked_seen};
ghost use Rattle.seq_cli.specs.believed.Runs.{AreRead, IsRead, StopsAtFile, StopsReading};

use crate::command::Command;
use crate::stop::{Input, Stop};
use outside_io::{Folder, ReadAnswer};
use seq_check::{Events, read_events};
use std::alloc::Global;

/// The bytes of a file.
///
/// # Errors
///
/// `CannotRead` where the folder failed, `TooLong` where the file has more bytes than it may, `OutOfMemory` where
/// memory was refused.
pub(crate) fn read_input<F: Folder>(
    alloc: Global,
    files: &mut F,
    name: &str,
    input: Input,
) -> Result<Vec<u8>, Stop>
    ensures bytes { IfOk result (λ bytes. IsRead (F.seen files.old).files name.now input bytes.items) }
    ensures stops { IfErr result (λ stop. (stop ≡ Stop.OutOfMemory) ⊎ StopsReading (F.seen files.old).files name.now input stop) }
    ensures rose { result ≡ Err (Stop.CannotRead input) → ReadFaultsRose name.now (F.seen files.old) (F.seen files.new) }
    ensures no_fault { result ≢ Err (Stop.CannotRead input) → KeepsReadFaults (F.seen files.old) (F.seen files.new) }
    ensures files { KeepsFiles (F.seen files.old) (F.seen files.new) }
    ensures write_faults { KeepsWriteFaults (F.seen files.old) (F.seen files.new) }
{
    let mut bytes = Vec::new(alloc);
    match files.read_file(name, &mut bytes, input.most()) {
        ReadAnswer::Whole => Ok(bytes),
        ReadAnswer::TooLong => Err(Stop::TooLong(input)),
        ReadAnswer::Failed => Err(Stop::CannotRead(input)),
        ReadAnswer::NoMemory => Err(Stop::OutOfMemory),
    }
}

/// The events of the file of events.
///
/// # Errors
///
/// `CannotRead`, `TooLong` or `OutOfMemory` as from `read_input`, or the file's first refusal.
pub(crate) fn load_events<F: Folder>(
    alloc: Global,
    command: &Command<'_>,
    files: &mut F,
) -> Result<Events, Stop>
    ensures events { IfOk result (AreRead (asked_seen command.now) (F.seen files.old).files) }
    ensures stops { IfErr result (StopsAtFile (asked_seen command.now) (F.seen files.old).files) }
    ensures rose { result ≡ Err (Stop.CannotRead Input.EventFile) →
        ReadFaultsRose command.now.file.now (F.seen files.old) (F.seen files.new) }
    ensures no_fault { result ≢ Err (Stop.CannotRead Input.EventFile) → KeepsReadFaults (F.seen files.old) (F.seen files.new) }
    ensures files { KeepsFiles (F.seen files.old) (F.seen files.new) }
    ensures write_faults { KeepsWriteFaults (F.seen files.old) (F.seen files.new) }
{
    let bytes = read_input(alloc, files, command.file, Input::EventFile)?;
    let events = read_events(alloc, bytes.as_slice(), command.length.number())?;
    events.assert_invariant();
    Ok(events)
}
