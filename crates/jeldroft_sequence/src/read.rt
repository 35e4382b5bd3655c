ghost use Rattle.std.specs.Prelude.{◌≤◌, ◌^◌, IfOk, IfSome, length};
ghost use Rattle.outside_io.specs.believed.Seen.{KeepsFiles};
ghost use Rattle.seq_check.specs.believed.Events.{AreEvents};
ghost use Rattle.seq_check.specs.believed.EventFile.{events_of};
ghost use Rattle.jeldroft_sequence.specs.believed.Sequences.{bytes_held, events_held, events_or};
ghost use Rattle.jeldroft_sequence.specs.Steps.{Gives, GivesEvents};

use crate::cause::{SequenceCause, SequenceFile};
use outside_io::{Folder, ReadAnswer};
use seq_check::{Events, read_events};
use std::alloc::Global;

/// The bytes of the file of this name.
///
/// # Errors
///
/// `CannotRead` where the folder failed, `TooLong` where the file has more bytes than it may have, `OutOfMemory` where
/// memory was refused.
pub(crate) fn read_file<F: Folder>(
    alloc: Global,
    name: &str,
    file: SequenceFile,
    files: &mut F,
) -> Result<Vec<u8>, SequenceCause>
    ensures gives { IfSome ((F.seen files.old).files name.now) (λ held. Gives (bytes_held file held) result) }
    ensures within { IfOk result (λ bytes. length bytes.items ≤ 2 ^ 28) }
    ensures files { KeepsFiles (F.seen files.old) (F.seen files.new) }
{
    let mut bytes = Vec::new(alloc);
    match files.read_file(name, &mut bytes, file.most_bytes()) {
        ReadAnswer::Whole => Ok(bytes),
        ReadAnswer::TooLong => Err(SequenceCause::TooLong(file)),
        ReadAnswer::Failed => Err(SequenceCause::CannotRead(file)),
        ReadAnswer::NoMemory => Err(SequenceCause::OutOfMemory),
    }
}

/// The events of the bytes of a file of events, for sequences of so many events.
///
/// # Errors
///
/// The first refusal of the file, or `OutOfMemory` where memory was refused.
fn events_in(alloc: Global, bytes: &[u8], size: u32) -> Result<Events, SequenceCause>
    requires within { length bytes.now ≤ 2 ^ 28 }
    requires range { (2 ≤ size) × (size ≤ 3) }
    ensures gives { GivesEvents (events_or (events_of size bytes.now)) result }
    ensures kept { IfOk result AreEvents }
{
    let events = read_events(alloc, bytes, size)?;
    events.assert_invariant();
    Ok(events)
}

/// The events of the file of this name, for sequences of so many events. `held` gets its bytes, so that what is refused
/// there can be told.
///
/// # Errors
///
/// As from `read_file`, and the first refusal of the file.
pub(crate) fn load_events<F: Folder>(
    alloc: Global,
    name: &str,
    size: u32,
    held: &mut Vec<u8>,
    files: &mut F,
) -> Result<Events, SequenceCause>
    requires { (2 ≤ size) × (size ≤ 3) }
    ensures gives { IfSome ((F.seen files.old).files name.now) (λ held. GivesEvents (events_held size held) result) }
    ensures kept { IfOk result AreEvents }
    ensures files { KeepsFiles (F.seen files.old) (F.seen files.new) }
{
    let bytes = read_file(alloc, name, SequenceFile::Events, files)?;
    let events = events_in(alloc, bytes.as_slice(), size);
    *held = bytes;
    events
}
