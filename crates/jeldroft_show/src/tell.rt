use crate::answer::Answer;
use itoa::Buffer;
use jeldroft_args::Show;
use jeldroft_files::Failure;
use jeldroft_words::{tell_failure, tell_notes};
use model_lex::Note;
use outside_io::{Sink, put_pieces};
use std::alloc::Global;

// Tells of a line of a file.
fn tell_line<E: Sink>(file: &str, line: u32, text: &str, diag: &mut E) {
    let mut buffer = Buffer::new();
    let line = buffer.format(line);
    let _ = put_pieces(diag, &[file, ":", line, ": ", text, "\n"]);
}

// Tells of the rows of a table that leave a parameter without a value.
fn tell_gaps<E: Sink>(file: &str, lines: &[u32], diag: &mut E) {
    for line in lines {
        tell_line(
            file,
            *line,
            "warning: this test leaves a parameter without a value",
            diag,
        );
    }
}

// Tells what is odd about the table of an answer.
fn tell_answer<E: Sink>(answer: &Answer, args: &Show, diag: &mut E) {
    if args.no_warnings {
        return;
    }
    let table = args.table.as_str();
    tell_notes(table, answer.notes.as_slice(), diag);
    tell_gaps(table, answer.gaps.as_slice(), diag);
}

/// Tells what is odd about the files, and why there is no text where there is none.
pub(crate) fn tell_end<E: Sink>(
    alloc: Global,
    end: &Result<Answer, Failure<'_>>,
    args: &Show,
    notes: &[Note],
    diag: &mut E,
) {
    if !args.no_warnings {
        tell_notes(args.model.name.as_str(), notes, diag);
    }
    match end {
        Ok(answer) => tell_answer(answer, args, diag),
        Err(failure) => tell_failure(alloc, failure, diag),
    }
}
