ghost use Rattle.std.specs.Prelude.{◌≡◌, ◌≤◌, ◌^◌, length, IfOk};
ghost use Rattle.seq_check.specs.believed.Verdicts.{verdict};

use crate::arrows::Arrows;
use crate::events::Events;
use crate::lists::NoList;
use crate::open::OpenSequences;
use crate::report_line::{ReportLine, read_line};
use model_lex::cut_at_line_feed;
use std::alloc::Global;
use value_text::NoMemory;

/// What is said of a report on orders (this project's rules).
#[derive(Drop)]
pub enum OrderVerdict {
    /// It is accepted, with so many rows and so many lines of sequences that no permitted order has.
    Accepted(u32, u32),
    /// The line of this number, from 1, is the first that is neither that of a permitted order nor that of a
    /// sequence with a good cycle.
    BadLine(u32),
    /// This is the first sequence that no row has and no line names.
    Uncovered(NoList),
}

/// What is said of the bytes of a report on the orders of events (this project's rules): the first line that is
/// neither that of a permitted order nor that of a sequence with a good cycle, else the first sequence that no
/// row has and no line names, else that the report is accepted. The report may have at most 2^28 bytes.
///
/// # Errors
///
/// `NoMemory` where memory was refused.
pub fn check_orders(alloc: Global, events: &Events, report: &[u8]) -> Result<OrderVerdict, NoMemory>
    requires { length report.now ≤ 2 ^ 28 }
    ensures { IfOk result (λ said. said ≡ verdict events.now report.now) }
{
    events.assert_invariant();
    let precedences = Arrows::of(alloc, events.precedences().as_slice())?;
    let mut opened = OpenSequences::new(alloc, events.length())?;
    let (mut line, mut rows, mut omissions) = (0, 0, 0);
    let mut rest = report;
    while !rest.is_empty() {
        let (text, behind) = cut_at_line_feed(rest);
        rest = behind;
        line += 1;
        match read_line(alloc, events, &precedences, text)? {
            ReportLine::Row(places) => {
                opened.close_row(places.as_slice());
                rows += 1;
            }
            ReportLine::Never(sequence) => {
                opened.close(sequence.as_slice());
                omissions += 1;
            }
            ReportLine::Wrong => return Ok(OrderVerdict::BadLine(line)),
        }
    }
    match opened.first_open(alloc, events.names().len() as u16)? {
        Some(sequence) => Ok(OrderVerdict::Uncovered(sequence)),
        None => Ok(OrderVerdict::Accepted(rows, omissions)),
    }
}
