ghost use Rattle.std.specs.Prelude.{◌≡◌, ℕ};
ghost use Rattle.outside_io.specs.believed.Puts.{Puts};
ghost use Rattle.definitions.specs.believed.Diagnostics.{model_line};
ghost use Rattle.command_line.specs.believed.Stops.{measured as measured_kind};
ghost use Rattle.seq_check.specs.believed.Codes.{event_code, event_text};
ghost use Rattle.seq_cli.specs.Commands.{asked_seen};
ghost use Rattle.seq_cli.specs.believed.Stops.{count_limit_line, ended_status, stop_line, measured, most_of, name_of, status_of};

use crate::command::Command;
use command_line::{FileKind, put_limit, put_model_line, put_too_long};
use outside_io::{Sink, WriteAnswer, put_pieces};
use seq_check::{EventCode, EventLimit, EventsFault};
use value_text::NoMemory;

/// How a run ends that writes its output whole.
#[derive(Debug, Drop, Clone, Copy, PartialEq, Eq)]
pub(crate) enum Ended {
    /// With a report, or the text that one is accepted: status 0.
    Whole,
    /// With the text that a report is refused: status 10.
    Refused,
}

impl Ended {
    /// The exit status.
    pub(crate) fn status(self) -> u8
        ensures { result ≡ ended_status self }
    {
        match self {
            Ended::Whole => 0,
            Ended::Refused => 10,
        }
    }
}

/// A file that is read.
#[derive(Debug, Drop, Clone, Copy, PartialEq, Eq)]
pub(crate) enum Input {
    /// The file of events.
    EventFile,
    /// The report that is checked.
    ReportFile,
}

impl Input {
    /// The kind of file whose limit of bytes it has: a file of events may have as many as a model file, a report as
    /// many as a row file.
    fn kind(self) -> FileKind
        ensures { measured_kind result ≡ measured self }
    {
        match self {
            Input::EventFile => FileKind::Model,
            Input::ReportFile => FileKind::Rows,
        }
    }

    /// The most bytes that it may have.
    pub(crate) fn most(self) -> usize
        ensures { result ≡ most_of self }
    {
        self.kind().most_bytes()
    }

    /// Its name, by the words of the command.
    fn name<'w>(self, command: &Command<'w>) -> &'w str
        ensures { result.now ≡ name_of (asked_seen command.now) self }
    {
        match self {
            Input::EventFile => command.file,
            Input::ReportFile => command.report.unwrap_or(""),
        }
    }
}

/// Why a run ended before its output was written whole.
#[derive(Debug, Drop, Clone, Copy, PartialEq, Eq)]
pub(crate) enum Stop {
    /// Memory was refused: status 1.
    OutOfMemory,
    /// A line of the file of events is refused, by its number from 1: status 4.
    BadLine(u32, EventCode),
    /// A file could not be read: status 7.
    CannotRead(Input),
    /// The output could not be written whole: status 8.
    CannotWrite,
    /// The file of events has so many of something, above its limit: status 9.
    TooMany(EventLimit, u64),
    /// A file has too many bytes: status 9.
    TooLong(Input),
}

impl From<NoMemory> for Stop {
    ghost use Rattle.seq_cli.specs.declared.stop.Stop.TheVariants as stops;

    ghost from_gives = { λ _ stop. stop ≡ stops.OutOfMemory };

    fn from(_refused: NoMemory) -> Stop {
        Stop::OutOfMemory
    }
}

impl From<EventsFault> for Stop {
    ghost use Rattle.seq_cli.specs.believed.Stops.{stop_of};

    ghost from_gives = { λ fault stop. stop ≡ stop_of fault };

    fn from(fault: EventsFault) -> Stop {
        match fault {
            EventsFault::Bad(line, code) => Stop::BadLine(line, code),
            EventsFault::TooMany(limit, count) => Stop::TooMany(limit, count),
            EventsFault::NoMemory => Stop::OutOfMemory,
        }
    }
}

/// Writes the line of a refusal of the file of events.
fn put_refusal<E: Sink>(line: u32, code: EventCode, sink: &mut E) -> WriteAnswer
    ensures { Puts result (E.seen sink.old) (E.seen sink.new) (model_line line (event_code code) (event_text code)) }
{
    put_model_line(line, code.code(), code.text(), sink)
}

/// Writes the line of a limit.
fn put_count<E: Sink>(limit: EventLimit, count: u64, sink: &mut E) -> WriteAnswer
    ensures { Puts result (E.seen sink.old) (E.seen sink.new) (count_limit_line limit count) }
{
    put_limit(limit.name(), count, limit.most(), sink)
}

impl Stop {
    /// The exit status of a run that ended so.
    pub(crate) fn status(self) -> u8
        ensures { result ≡ status_of self }
    {
        match self {
            Stop::OutOfMemory => 1,
            Stop::BadLine(..) => 4,
            Stop::CannotRead(_) => 7,
            Stop::CannotWrite => 8,
            Stop::TooMany(..) | Stop::TooLong(_) => 9,
        }
    }

    /// Writes the line that says why. Takes no memory.
    pub(crate) fn put_line<E: Sink>(self, command: &Command<'_>, diag: &mut E) -> WriteAnswer
        ensures { Puts result (E.seen diag.old) (E.seen diag.new) (stop_line (asked_seen command.now) self) }
    {
        match self {
            Stop::OutOfMemory => put_pieces(diag, &["error: out of memory\n"]),
            Stop::BadLine(line, code) => put_refusal(line, code, diag),
            Stop::CannotRead(input) => {
                put_pieces(diag, &["error: cannot read ", input.name(command), "\n"])
            }
            Stop::CannotWrite => put_pieces(diag, &["error: cannot write the report\n"]),
            Stop::TooMany(limit, count) => put_count(limit, count, diag),
            Stop::TooLong(input) => put_too_long(input.kind(), diag),
        }
    }
}
