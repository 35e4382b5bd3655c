ghost use Rattle.std.specs.Prelude.{◌≤◌, IfOk, IfSome, Ok};
ghost use Rattle.outside_io.specs.believed.Seen.{KeepsFiles};
ghost use Rattle.jeldroft_sequence.specs.believed.Sequences.{CoversEvents, events_held, report_on};
ghost use Rattle.jeldroft_sequence.specs.Steps.{Gives};

use crate::cause::SequenceCause;
use crate::read::load_events;
use jeldroft_args::Sequence;
use outside_io::Folder;
use seq_check::Events;
use seq_cover::{cover_orders, report_text};
use std::alloc::Global;

/// The report of the orders that are grown for the events.
///
/// # Errors
///
/// `OutOfMemory` where memory was refused.
fn report(alloc: Global, events: &Events) -> Result<Vec<u8>, SequenceCause>
    ensures { Gives (report_on (Ok events.now)) result }
{
    let suite = cover_orders(alloc, events)?;
    Ok(report_text(alloc, events, &suite)?)
}

/// The report of the orders that are grown for the file of events, whose bytes `held` gets.
///
/// # Errors
///
/// As from `load_events` and `report`.
pub(crate) fn orders<F: Folder>(
    alloc: Global,
    args: &Sequence,
    held: &mut Vec<u8>,
    files: &mut F,
) -> Result<Vec<u8>, SequenceCause>
    requires { (2 ≤ args.now.length) × (args.now.length ≤ 3) }
    ensures gives { IfSome ((F.seen files.old).files args.now.events) (λ held.
        Gives (report_on (events_held args.now.length held)) result) }
    ensures covers { IfOk result (λ text. IfSome ((F.seen files.old).files args.now.events) (λ held.
        CoversEvents args.now.length held text.items)) }
    ensures files { KeepsFiles (F.seen files.old) (F.seen files.new) }
{
    let events = load_events(alloc, args.events.as_str(), args.length, held, files)?;
    report(alloc, &events)
}
