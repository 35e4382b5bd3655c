ghost use Rattle.std.specs.Prelude.{◌≡◌, ◌≢◌, ◌≤◌, ◌^◌, Some, None, Err, IfOk, IfErr, IsSomeAnd, length};
ghost use Rattle.outside_io.specs.believed.Seen.{KeepsFiles, KeepsReadFaults, KeepsWriteFaults, ReadFaultsRose};
ghost use Rattle.seq_cli.specs.Commands.{asked_seen};
ghost use Rattle.seq_cli.specs.believed.Runs.{StopsBehind, answer_of, ended_by};
ghost use Rattle.seq_cli.specs.Steps.{IsAnswer};

use crate::command::Command;
use crate::load::read_input;
use crate::stop::{Ended, Input, Stop};
use outside_io::Folder;
use seq_check::{Events, OrderVerdict, check_orders};
use seq_cover::{cover_orders, report_text, verdict_text};
use std::alloc::Global;
use value_text::NoMemory;

/// A text for the output, and how a run ends that writes it whole.
#[derive(Drop)]
pub(crate) struct Answer {
    /// The text.
    pub text: Vec<u8>,
    /// The end.
    pub ended: Ended,
}

/// How a run ends that tells a verdict.
fn ended_by(verdict: &OrderVerdict) -> Ended
    ensures { result ≡ ended_by verdict.now }
{
    match verdict {
        OrderVerdict::Accepted(..) => Ended::Whole,
        OrderVerdict::BadLine(_) | OrderVerdict::Uncovered(_) => Ended::Refused,
    }
}

/// The report of what is grown for the events.
fn grow(alloc: Global, events: &Events) -> Result<Answer, NoMemory>
    ensures text { IfOk result (λ answer. answer.text.items ≡ (answer_of events.now None).text) }
    ensures ended { IfOk result (λ answer. answer.ended ≡ (answer_of events.now None).ended) }
{
    let suite = cover_orders(alloc, events)?;
    let text = report_text(alloc, events, &suite)?;
    Ok(Answer {
        text,
        ended: Ended::Whole,
    })
}

/// The verdict on a report, which may have at most 2^28 bytes.
fn check(alloc: Global, events: &Events, report: &[u8]) -> Result<Answer, NoMemory>
    requires { length report.now ≤ 2 ^ 28 }
    ensures text { IfOk result (λ answer. answer.text.items ≡ (answer_of events.now (Some report.now)).text) }
    ensures ended { IfOk result (λ answer. answer.ended ≡ (answer_of events.now (Some report.now)).ended) }
{
    let verdict = check_orders(alloc, events, report)?;
    let text = verdict_text(alloc, events, &verdict)?;
    Ok(Answer {
        text,
        ended: ended_by(&verdict),
    })
}

/// What is to be written for the events, as the command asks for it.
///
/// # Errors
///
/// `CannotRead` or `TooLong` where the report that is checked isn't read, `OutOfMemory` where memory was refused.
pub(crate) fn make_answer<F: Folder>(
    alloc: Global,
    command: &Command<'_>,
    events: &Events,
    files: &mut F,
) -> Result<Answer, Stop>
    ensures answer { IfOk result (λ answer. IsAnswer (asked_seen command.now) (F.seen files.old).files events.now answer.text.items answer.ended) }
    ensures stops { IfErr result (StopsBehind (asked_seen command.now) (F.seen files.old).files) }
    ensures rose { result ≡ Err (Stop.CannotRead Input.ReportFile) →
        IsSomeAnd (asked_seen command.now).report (λ name. ReadFaultsRose name (F.seen files.old) (F.seen files.new)) }
    ensures no_fault { result ≢ Err (Stop.CannotRead Input.ReportFile) → KeepsReadFaults (F.seen files.old) (F.seen files.new) }
    ensures files { KeepsFiles (F.seen files.old) (F.seen files.new) }
    ensures write_faults { KeepsWriteFaults (F.seen files.old) (F.seen files.new) }
{
    match command.report {
        None => Ok(grow(alloc, events)?),
        Some(name) => {
            let report = read_input(alloc, files, name, Input::ReportFile)?;
            Ok(check(alloc, events, report.as_slice())?)
        }
    }
}
