//! What `sequence` tells where it writes nothing. Nothing here takes memory, and a fault of the sink changes nothing.
use crate::cause::{SequenceCause, SequenceFile};
use crate::refused_part::{RefusedPart, is_event};
use itoa::Buffer;
use jeldroft_args::Sequence;
use jeldroft_words::{FileLines, Shown};
use outside_io::{Sink, WriteAnswer, put_pieces};
use seq_check::{EventCode, EventLimit};

/// The name of a file, as the words gave it.
fn name_of(file: SequenceFile, args: &Sequence) -> &str {
    match file {
        SequenceFile::Events => args.events.as_str(),
        SequenceFile::Report => match &args.report {
            Some(report) => report.as_str(),
            None => "",
        },
    }
}

/// Writes a part of a file in quotes, or that the line ends.
fn put_found<E: Sink>(found: &[u8], diag: &mut E) -> WriteAnswer {
    if found.is_empty() {
        return put_pieces(diag, &["the end of the line"]);
    }
    let shown = Shown::of(found);
    let _ = put_pieces(diag, &["\"", shown.text()]);
    put_pieces(diag, &[shown.end(), "\""])
}

/// Writes the file, the line and the column of a refusal.
fn put_place<E: Sink>(name: &str, line: u32, column: u32, diag: &mut E) -> WriteAnswer {
    let mut of_line = Buffer::new();
    let mut of_column = Buffer::new();
    let _ = put_pieces(diag, &[name, ":", of_line.format(line)]);
    put_pieces(diag, &[":", of_column.format(column), ": error: "])
}

/// Writes what is refused in a line, its place, and what could stand there.
fn put_part<E: Sink>(name: &str, line: u32, part: &RefusedPart<'_>, diag: &mut E) -> WriteAnswer {
    let _ = put_place(name, line, part.column, diag);
    let _ = put_pieces(diag, &["expected ", part.expected, ", found "]);
    put_found(part.found, diag)
}

/// Writes which event a line declares once more, and the line that declares it before.
fn put_repeated<E: Sink>(name: &str, line: u32, bytes: &[u8], diag: &mut E) -> WriteAnswer {
    let event = FileLines::line_at(bytes, line);
    let _ = put_place(name, line, 1, diag);
    let _ = put_pieces(diag, &["expected the name of another event, found "]);
    let written = put_found(event, diag);
    match FileLines::line_above(bytes, event, line) {
        Some(above) => {
            let mut of_line = Buffer::new();
            put_pieces(diag, &[", which line ", of_line.format(above), " declares"])
        }
        None => written,
    }
}

/// Writes the events that the lines up to this one declare.
fn put_events<E: Sink>(bytes: &[u8], last: u32, diag: &mut E) {
    let mut lines = FileLines::of(bytes);
    let mut parting = "";
    for _ in 0..last {
        let Some(line) = lines.take_line() else {
            return;
        };
        if is_event(line) {
            let _ = put_pieces(diag, &[parting]);
            let _ = put_found(line, diag);
            parting = " and ";
        }
    }
}

/// Writes that there are fewer events than a sequence has, and which there are.
fn put_few<E: Sink>(args: &Sequence, line: u32, bytes: &[u8], diag: &mut E) -> WriteAnswer {
    let mut buffer = Buffer::new();
    let length = buffer.format(args.length);
    let _ = put_place(args.events.as_str(), line, 1, diag);
    let _ = put_pieces(
        diag,
        &["expected at least ", length, " events for sequences of "],
    );
    let _ = put_pieces(diag, &[length, ", found "]);
    put_events(bytes, line, diag);
    put_pieces(diag, &[" alone"])
}

/// Writes the line of a refusal of this line of the file of events.
fn put_bad_line<E: Sink>(
    args: &Sequence,
    line: u32,
    code: EventCode,
    bytes: &[u8],
    diag: &mut E,
) -> WriteAnswer {
    let name = args.events.as_str();
    let _ = match code {
        EventCode::Q1 => {
            let part = RefusedPart::of_line(FileLines::line_at(bytes, line));
            put_part(name, line, &part, diag)
        }
        EventCode::Q2 => put_repeated(name, line, bytes, diag),
        EventCode::Q3 => put_part(name, line, &RefusedPart::of_precedence(bytes, line), diag),
        EventCode::Q4 => {
            let _ = put_place(name, line, 1, diag);
            put_pieces(
                diag,
                &["expected a line that declares an event, found none"],
            )
        }
        EventCode::Q5 => put_few(args, line, bytes, diag),
    };
    put_pieces(diag, &[" [", code.code(), "]\n"])
}

/// Writes the line of so many of something in the file of events, above its limit.
fn put_too_many<E: Sink>(name: &str, limit: EventLimit, count: u64, diag: &mut E) -> WriteAnswer {
    let mut of_count = Buffer::new();
    let mut of_most = Buffer::new();
    let _ = put_pieces(
        diag,
        &[name, ": error: the file has ", of_count.format(count)],
    );
    let _ = put_pieces(diag, &[" ", limit.name(), ", and may have "]);
    put_pieces(diag, &[of_most.format(limit.most()), "\n"])
}

/// Writes the line of a file with more bytes than it may have.
fn put_too_long<E: Sink>(name: &str, file: SequenceFile, diag: &mut E) -> WriteAnswer {
    let mut of_most = Buffer::new();
    let most = of_most.format(file.most_bytes());
    put_pieces(
        diag,
        &[name, ": error: the file has more than ", most, " bytes\n"],
    )
}

/// Writes that the output could not be written: the report, or the verdict.
fn put_unwritten<E: Sink>(args: &Sequence, diag: &mut E) -> WriteAnswer {
    match (&args.report, &args.output) {
        (None, Some(name)) => put_pieces(
            diag,
            &[name.as_str(), ": error: cannot write the file\n"],
        ),
        _ => put_pieces(
            diag,
            &["jeldroft: error: cannot write to standard output\n"],
        ),
    }
}

/// Writes the line that says why there is no report or no verdict. `bytes` are those of the file of events.
pub(crate) fn tell<E: Sink>(cause: SequenceCause, args: &Sequence, bytes: &[u8], diag: &mut E) {
    let _ = match cause {
        SequenceCause::OutOfMemory => put_pieces(diag, &["jeldroft: error: out of memory\n"]),
        SequenceCause::CannotRead(file) => {
            put_pieces(
                diag,
                &[name_of(file, args), ": error: cannot read the file\n"],
            )
        }
        SequenceCause::TooLong(file) => put_too_long(name_of(file, args), file, diag),
        SequenceCause::BadLine(line, code) => put_bad_line(args, line, code, bytes, diag),
        SequenceCause::TooMany(limit, count) => {
            put_too_many(args.events.as_str(), limit, count, diag)
        }
        SequenceCause::CannotWrite => put_unwritten(args, diag),
    };
}
