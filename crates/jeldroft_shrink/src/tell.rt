ghost use Rattle.std.specs.Prelude.{◌≡◌, true, false};
ghost use Rattle.jeldroft_words.specs.believed.Sums.{TellsLast, sum_line};

use crate::answer::Table;
use crate::cause::{ShrinkCause, ShrinkFailure};
use crate::named::Named;
use crate::notes::Notes;
use cov_model::RowWhy;
use itoa::Buffer;
use jeldroft_args::Shrink;
use jeldroft_words::{tell_cause, tell_fewer, tell_no_column, tell_notes};
use outside_io::{Sink, put_pieces};
use std::alloc::Global;

// Tells of a line of a file.
fn tell_line<E: Sink>(file: &str, line: u32, text: &str, diag: &mut E) {
    let mut buffer = Buffer::new();
    let line = buffer.format(line);
    let _ = put_pieces(diag, &[file, ":", line, ": ", text, "\n"]);
}

// Tells of the seed rows that no given row contains, which stand in these lines.
fn tell_lost<E: Sink>(file: &str, lines: &[u32], diag: &mut E) {
    for line in lines {
        tell_line(
            file,
            *line,
            "warning: no given test contains this row",
            diag,
        );
    }
}

/// Tells what is odd about the files, unless that isn't wanted.
pub(crate) fn tell_warnings<E: Sink>(args: &Shrink, notes: &Notes, diag: &mut E) {
    if args.no_warnings {
        return;
    }
    tell_notes(args.model.name.as_str(), notes.model.as_slice(), diag);
    let Some(model) = &notes.read else {
        return;
    };
    notes.table.tell(args.table.as_str(), model, diag);
    if let Some(seeds) = &args.seeds {
        notes.seeds.tell(seeds.as_str(), model, diag);
    }
}

// Tells which seed rows are lost, unless that isn't wanted.
fn tell_seeds<E: Sink>(args: &Shrink, lost: &[u32], diag: &mut E) {
    if args.no_warnings {
        return;
    }
    if let Some(seeds) = &args.seeds {
        tell_lost(seeds.as_str(), lost, diag);
    }
}

/// Tells which seed rows are lost, and on a terminal how many tests there are now.
pub(crate) fn tell_answer<E: Sink>(table: &Table, args: &Shrink, terminal: bool, diag: &mut E)
    ensures { terminal ≡ true → args.now.quiet ≡ false → TellsLast (sum_line table.now.numbers.tests table.now.numbers.given
        table.now.numbers.least) (E.seen diag.new) }
{
    tell_seeds(args, table.lost.as_slice(), diag);
    if args.quiet || !terminal {
        return;
    }
    tell_fewer(table.numbers, diag);
}

// Tells which constraint a test breaks.
fn tell_broken<E: Sink>(file: &str, line: u32, number: u32, named: &Named, diag: &mut E) {
    let mut line_buffer = Buffer::new();
    let mut number_buffer = Buffer::new();
    let line = line_buffer.format(line);
    let number = number_buffer.format(number);
    let _ = put_pieces(diag, &[file, ":", line, ": error: constraint ", number]);
    let _ = match named {
        Named::Rule(at, text) => {
            let mut buffer = Buffer::new();
            let at = buffer.format(*at);
            put_pieces(
                diag,
                &[" (line ", at, ") forbids this test: ", text.as_str(), "\n"],
            )
        }
        _ => put_pieces(diag, &[" forbids this test\n"]),
    };
}

// Tells that a row isn't valid.
fn tell_invalid<E: Sink>(file: &str, line: u32, why: RowWhy, named: &Named, diag: &mut E) {
    match why {
        RowWhy::Rule(number) => tell_broken(file, line, number, named, diag),
        RowWhy::Negatives(..) => tell_line(
            file,
            line,
            "error: more than one value of this test is invalid",
            diag,
        ),
    }
}

// Tells that a test leaves a parameter without a value.
fn tell_incomplete<E: Sink>(file: &str, line: u32, named: &Named, diag: &mut E) {
    let mut buffer = Buffer::new();
    let line = buffer.format(line);
    let _ = put_pieces(diag, &[file, ":", line, ": error: this test "]);
    let _ = match named {
        Named::Param(name) => put_pieces(diag, &["has no value of ", name.as_str(), "\n"]),
        _ => put_pieces(diag, &["leaves a parameter without a value\n"]),
    };
}

// Tells that a table has too many rows.
fn tell_count<E: Sink>(file: &str, count: u64, diag: &mut E) {
    let mut buffer = Buffer::new();
    let count = buffer.format(count);
    let _ = put_pieces(
        diag,
        &[
            file,
            ": error: ",
            count,
            " tests, and at most 65533 can be made fewer\n",
        ],
    );
}

/// Tells why there is no table.
pub(crate) fn tell_failure<E: Sink>(alloc: Global, failure: &ShrinkFailure<'_>, diag: &mut E) {
    let file = failure.file;
    let named = &failure.named;
    match &failure.cause {
        ShrinkCause::Files(cause) => match named {
            Named::Column(name) => tell_no_column(file, name.as_str(), diag),
            _ => tell_cause(alloc, file, cause, &failure.refused, diag),
        },
        ShrinkCause::NoTable => {
            let _ = put_pieces(
                diag,
                &["jeldroft: error: a shorter table is written as tsv, csv, json or markdown\n"],
            );
        }
        ShrinkCause::TooManyRows(count) => tell_count(file, *count, diag),
        ShrinkCause::Incomplete(line) => tell_incomplete(file, *line, named, diag),
        ShrinkCause::Invalid(line, why) => tell_invalid(file, *line, *why, named, diag),
    }
}
