//! Texts that are made before any of them is written.
ghost use Rattle.std.specs.Prelude.{◌≡◌, ◌++◌, ℕ, [], ◌∷◌, map, slice_index_or, IfOk, OnOk};
ghost use Rattle.std.specs.List.{flat_map, join_with_byte};
ghost use Rattle.seq_check.specs.believed.OrderReport.{names_of, never_line, row_line};
ghost use Rattle.seq_check.specs.believed.Verdicts.{verdict_text};
ghost use Rattle.seq_cover.specs.believed.ReportText.{ended_line, report_text, text_of_lines};
ghost use Rattle.seq_cover.specs.ReportText.{part_behind};

use crate::suite::{Never, NeverList, OrderSuite};
use itoa::Buffer;
use seq_check::{Events, NoListList, OrderVerdict};
use std::alloc::Global;
use value_text::NoMemory;

/// Adds pieces, one behind another.
fn add_pieces(text: &mut Vec<u8>, pieces: &[&str]) -> Result<(), NoMemory>
    ensures { OnOk result (text.new.items ≡ text.old.items ++ flat_map (λ piece. piece.now) pieces.now) }
{
    for piece in pieces {
        text.extend_from_slice(piece.as_bytes())?;
    }
    Ok(())
}

/// Adds the name of an event.
fn add_name(text: &mut Vec<u8>, events: &Events, event: u16) -> Result<(), NoMemory>
    ensures { OnOk result (text.new.items ≡ text.old.items ++ slice_index_or events.now.names event []) }
{
    match events.names().get(event as usize) {
        Some(name) => Ok(text.extend_from_slice(name.as_str().as_bytes())?),
        None => Ok(()),
    }
}

/// Adds the name of an event, behind a mark unless it is the first.
fn add_part(
    text: &mut Vec<u8>,
    events: &Events,
    mark: u8,
    place: usize,
    event: u16,
) -> Result<(), NoMemory>
    ensures { OnOk result (text.new.items ≡ text.old.items ++ part_behind mark place (slice_index_or events.now.names event [])) }
{
    if place == 0 {
        return add_name(text, events, event);
    }
    text.push(mark)?;
    add_name(text, events, event)
}

/// Adds the names of events, parted by a mark.
fn add_names(text: &mut Vec<u8>, events: &Events, numbers: &[u16], mark: u8) -> Result<(), NoMemory>
    ensures { OnOk result (text.new.items ≡ text.old.items ++ join_with_byte mark (names_of events.now numbers.now)) }
{
    for (place, event) in numbers.iter().enumerate() {
        add_part(text, events, mark, place, *event)?;
    }
    Ok(())
}

/// Adds the line of a row.
fn add_row(text: &mut Vec<u8>, events: &Events, row: &[u16]) -> Result<(), NoMemory>
    ensures { OnOk result (text.new.items ≡ text.old.items ++ ended_line (row_line events.now row.now)) }
{
    add_names(text, events, row, b'\t')?;
    text.push(b'\n')?;
    Ok(())
}

/// Adds the line of a sequence that is set aside.
fn add_never(text: &mut Vec<u8>, events: &Events, never: &Never) -> Result<(), NoMemory>
    ensures { OnOk result (text.new.items ≡ text.old.items ++ ended_line (never_line events.now never.now.sequence never.now.cycle)) }
{
    add_pieces(text, &["never "])?;
    add_names(text, events, never.sequence.as_slice(), b' ')?;
    add_pieces(text, &[" : "])?;
    add_names(text, events, never.cycle.as_slice(), b' ')?;
    text.push(b'\n')?;
    Ok(())
}

/// Adds the lines of rows.
fn add_rows(text: &mut Vec<u8>, events: &Events, rows: &NoListList) -> Result<(), NoMemory>
    ensures { OnOk result (text.new.items ≡ text.old.items ++ text_of_lines (map (row_line events.now) rows.now)) }
{
    for row in rows.as_slice() {
        add_row(text, events, row.as_slice())?;
    }
    Ok(())
}

/// Adds the lines of the sequences that are set aside.
fn add_nevers(text: &mut Vec<u8>, events: &Events, nevers: &NeverList) -> Result<(), NoMemory>
    ensures { OnOk result (text.new.items ≡ text.old.items ++ text_of_lines (map (λ never. never_line events.now never.sequence never.cycle) nevers.now)) }
{
    for never in nevers.as_slice() {
        add_never(text, events, never)?;
    }
    Ok(())
}

/// The report of a suite.
///
/// # Errors
///
/// `NoMemory` where memory was refused.
pub fn report_text(alloc: Global, events: &Events, suite: &OrderSuite) -> Result<Vec<u8>, NoMemory>
    ensures { IfOk result (λ text. text.items ≡ report_text events.now suite.now) }
{
    let mut text = Vec::new(alloc);
    add_rows(&mut text, events, &suite.rows)?;
    add_nevers(&mut text, events, &suite.never)?;
    Ok(text)
}

/// Adds what is said of a report.
fn add_verdict(text: &mut Vec<u8>, events: &Events, verdict: &OrderVerdict) -> Result<(), NoMemory>
    ensures { OnOk result (text.new.items ≡ text.old.items ++ verdict_text events.now verdict.now) }
{
    let mut first = Buffer::new();
    let mut second = Buffer::new();
    match verdict {
        OrderVerdict::Accepted(rows, omissions) => {
            let rows = first.format(*rows);
            let omissions = second.format(*omissions);
            add_pieces(
                text,
                &["accepted: ", rows, " rows, ", omissions, " omissions\n"],
            )
        }
        OrderVerdict::BadLine(line) => {
            let line = first.format(*line);
            add_pieces(text, &["refused: report line ", line, "\n"])
        }
        OrderVerdict::Uncovered(sequence) => {
            add_pieces(text, &["refused: uncovered "])?;
            add_names(text, events, sequence.as_slice(), b' ')?;
            add_pieces(text, &["\n"])
        }
    }
}

/// What is said of a report.
///
/// # Errors
///
/// `NoMemory` where memory was refused.
pub fn verdict_text(
    alloc: Global,
    events: &Events,
    verdict: &OrderVerdict,
) -> Result<Vec<u8>, NoMemory>
    ensures { IfOk result (λ text. text.items ≡ verdict_text events.now verdict.now) }
{
    let mut text = Vec::new(alloc);
    add_verdict(&mut text, events, verdict)?;
    Ok(text)
}
