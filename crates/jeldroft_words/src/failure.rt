use crate::comma_words::tell_comma_fault;
use crate::finding::Finding;
use command_line::{FileNames, Stop};
use itoa::Buffer;
use jeldroft_files::{Cause, Failure, RefusedModel};
use model_lex::Diag;
use outside_io::{Sink, put_pieces};
use refusal_places::put_refusal;
use row_text::RowsFault;
use std::alloc::Global;

// Who speaks where a line is about no file.
fn speaker<'n>(file: &'n str) -> &'n str {
    if file.is_empty() { "jeldroft" } else { file }
}

// Writes the line of a refusal of a model file: with the place and what was found there, where the file is at hand.
fn tell_refusal<E: Sink>(
    alloc: Global,
    file: &str,
    refusal: &Diag,
    refused: &Option<RefusedModel>,
    diag: &mut E,
) {
    if let Some(model) = refused {
        let _ = put_refusal(alloc, file, model.bytes(), model.opts(), refusal, diag);
        return;
    }
    let mut finding = Finding::on(diag, file);
    finding.place(refusal.line);
    finding.text(": error: ");
    finding.text(refusal.code.text());
    finding.code(refusal.code.code());
}

// Writes the line of a refusal at a line of a table.
fn tell_row_line<E: Sink>(file: &str, line: u32, words: &str, diag: &mut E) {
    let mut finding = Finding::on(diag, file);
    finding.place(line);
    finding.text(": error: ");
    finding.text(words);
    finding.text("\n");
}

// Writes the line of an error that is on no line of a file.
fn tell_file<E: Sink>(file: &str, words: &str, diag: &mut E) {
    let mut finding = Finding::on(diag, file);
    finding.text(": error: ");
    finding.text(words);
    finding.text("\n");
}

/// Writes the line of a table that has no column for the parameter of this name.
pub fn tell_no_column<E: Sink>(file: &str, name: &str, diag: &mut E) {
    let mut finding = Finding::on(diag, file);
    finding.text(": error: no column for the parameter ");
    finding.text(name);
    finding.text(" [F3]\n");
}

// The same where the name isn't at hand: by the place of the parameter in the model, from 1.
fn tell_no_nth_column<E: Sink>(file: &str, number: u16, diag: &mut E) {
    let mut buffer = Buffer::new();
    let digits = buffer.format(u32::from(number) + 1);
    let mut finding = Finding::on(diag, file);
    finding.text(": error: no column for the parameter at place ");
    finding.text(digits);
    finding.text(" of the model [F3]\n");
}

// Writes the line of a refusal of a table.
fn tell_rows_fault<E: Sink>(file: &str, fault: RowsFault, stop: &Stop, diag: &mut E) {
    match fault {
        RowsFault::NoHeader => {
            tell_file(file, "no line with the names of the parameters [F1]", diag);
        }
        RowsFault::Twice(line) => {
            tell_row_line(file, line, "two columns are of one parameter [F2]", diag);
        }
        RowsFault::Missing(parameter) => tell_no_nth_column(file, parameter, diag),
        RowsFault::Width(line) => {
            tell_row_line(
                file,
                line,
                "the row has more cells than the first line [F4]",
                diag,
            );
        }
        RowsFault::TooManyRows(_) | RowsFault::NoMemory => tell_other(file, stop, diag),
    }
}

// Writes the line of a query that needs more than the budget.
fn tell_spent<E: Sink>(file: &str, budget: u64, diag: &mut E) {
    let mut buffer = Buffer::new();
    let digits = buffer.format(budget);
    let mut finding = Finding::on(diag, file);
    finding.text(": error: a query of the search needs more than the budget of ");
    finding.text(digits);
    finding.text("; without --budget every query is answered\n");
}

// Writes the line of a file that could not be written; without a name it is standard output.
fn tell_unwritten<E: Sink>(file: &str, diag: &mut E) {
    let words = if file.is_empty() {
        "cannot write to standard output"
    } else {
        "cannot write the file"
    };
    tell_file(speaker(file), words, diag);
}

// Writes the line of a stop in the words of the other programs.
fn tell_other<E: Sink>(file: &str, stop: &Stop, sink: &mut E) {
    let _ = put_pieces(sink, &[speaker(file), ": "]);
    let _ = stop.put_line(&FileNames::none(), sink);
}

// Writes the line of a stop.
fn tell_stop<E: Sink>(
    alloc: Global,
    file: &str,
    stop: &Stop,
    refused: &Option<RefusedModel>,
    sink: &mut E,
) {
    match stop {
        Stop::BadModel(diag) | Stop::BadConstraint(diag) => {
            tell_refusal(alloc, file, diag, refused, sink);
        }
        Stop::BadRows(fault) => tell_rows_fault(file, *fault, stop, sink),
        Stop::Spent(budget, _) => tell_spent(file, *budget, sink),
        Stop::NoResult => {
            tell_file(file, "no column with the results [F5]", sink);
        }
        Stop::BadResult(line) => {
            tell_row_line(
                file,
                *line,
                "the result is neither pass nor fail [F6]",
                sink,
            );
        }
        Stop::CannotRead(_) => {
            tell_file(file, "cannot read the file", sink);
        }
        Stop::CannotWrite(_) | Stop::CannotWriteReport => {
            tell_unwritten(file, sink);
        }
        Stop::OutOfMemory | Stop::BadWord(_) | Stop::TooMany(..) | Stop::TooLong(_) => {
            tell_other(file, stop, sink);
        }
    }
}

/// Writes the line that says why a command ended without what it was asked for, of the file of this name. With the model
/// file that is refused at hand, it shows the place.
pub fn tell_cause<E: Sink>(
    alloc: Global,
    file: &str,
    cause: &Cause,
    refused: &Option<RefusedModel>,
    diag: &mut E,
) {
    match cause {
        Cause::Comma(fault) => tell_comma_fault(file, fault, diag),
        Cause::Stop(stop) => tell_stop(alloc, file, stop, refused, diag),
    }
}

/// Writes the line that says why a command ended without what it was asked for.
pub fn tell_failure<E: Sink>(alloc: Global, failure: &Failure<'_>, diag: &mut E) {
    if let Some(name) = &failure.column {
        tell_no_column(failure.file, name.as_str(), diag);
        return;
    }
    tell_cause(alloc, failure.file, &failure.cause, &failure.refused, diag);
}
