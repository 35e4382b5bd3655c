ghost use Rattle.std.specs.Prelude.{◌≡◌, ◌≤◌, ◌^◌, IfSome, Ok, length};
ghost use Rattle.outside_io.specs.believed.Seen.{KeepsFiles};
ghost use Rattle.jeldroft_sequence.specs.believed.Sequences.{bytes_held, events_held, judgement_on, judgement_read, verdict_status};
ghost use Rattle.jeldroft_sequence.specs.Steps.{GivesVerdict, ended_status};

use crate::cause::{SequenceCause, SequenceFile};
use crate::ended::Ended;
use crate::read::{load_events, read_file};
use jeldroft_args::Sequence;
use outside_io::Folder;
use seq_check::{Events, OrderVerdict, check_orders};
use seq_cover::verdict_text;
use std::alloc::Global;

/// A verdict on a report, as it is printed.
#[derive(Drop)]
pub(crate) struct Verdict {
    /// Its text.
    pub(crate) text: Vec<u8>,
    /// How a run ends that prints it.
    pub(crate) ended: Ended,
}

/// How a run ends that prints a verdict.
fn ended_by(verdict: &OrderVerdict) -> Ended
    ensures { ended_status result ≡ verdict_status verdict.now }
{
    match verdict {
        OrderVerdict::Accepted(..) => Ended::Whole,
        OrderVerdict::BadLine(_) | OrderVerdict::Uncovered(_) => Ended::Refused,
    }
}

/// The verdict on a report, which may have at most 2^28 bytes.
///
/// # Errors
///
/// `OutOfMemory` where memory was refused.
fn judge(alloc: Global, events: &Events, report: &[u8]) -> Result<Verdict, SequenceCause>
    requires { length report.now ≤ 2 ^ 28 }
    ensures { GivesVerdict (judgement_read events.now (Ok report.now)) result }
{
    let verdict = check_orders(alloc, events, report)?;
    let text = verdict_text(alloc, events, &verdict)?;
    Ok(Verdict {
        text,
        ended: ended_by(&verdict),
    })
}

/// The verdict on the report of this name.
///
/// # Errors
///
/// As from `read_file` and `judge`.
fn judge_file<F: Folder>(
    alloc: Global,
    events: &Events,
    report: &str,
    files: &mut F,
) -> Result<Verdict, SequenceCause>
    ensures gives { IfSome ((F.seen files.old).files report.now) (λ other.
        GivesVerdict (judgement_read events.now (bytes_held SequenceFile.Report other)) result) }
    ensures files { KeepsFiles (F.seen files.old) (F.seen files.new) }
{
    let bytes = read_file(alloc, report, SequenceFile::Report, files)?;
    judge(alloc, events, bytes.as_slice())
}

/// The verdict on the report of this name, for the file of events, whose bytes `held` gets.
///
/// # Errors
///
/// As from `load_events` and `judge_file`.
pub(crate) fn make_verdict<F: Folder>(
    alloc: Global,
    args: &Sequence,
    report: &str,
    held: &mut Vec<u8>,
    files: &mut F,
) -> Result<Verdict, SequenceCause>
    requires { (2 ≤ args.now.length) × (args.now.length ≤ 3) }
    ensures gives { IfSome ((F.seen files.old).files args.now.events) (λ held.
        IfSome ((F.seen files.old).files report.now) (λ other.
        GivesVerdict (judgement_on other (events_held args.now.length held)) result)) }
    ensures files { KeepsFiles (F.seen files.old) (F.seen files.new) }
{
    let events = load_events(alloc, args.events.as_str(), args.length, held, files)?;
    judge_file(alloc, &events, report, files)
}
