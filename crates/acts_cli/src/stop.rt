ghost use Rattle.std.specs.Prelude.{◌≡◌, Ok};
ghost use Rattle.outside_io.specs.believed.Puts.{Puts};
ghost use Rattle.definitions.specs.believed.Diagnostics.{model_line};
ghost use Rattle.acts_front.specs.believed.Codes.{acts_code, acts_text};
ghost use Rattle.acts_cli.specs.believed.Stops.{end_status, end_text, line_of, status_of};

use acts_front::{ActsCode, ActsFault};
use command_line::{FileKind, put_model_line, put_too_long};
use outside_io::{Sink, WriteAnswer, put_pieces};

/// Why a run ended before its file was written whole.
#[derive(Drop, Clone, Copy)]
pub(crate) enum Stop {
    /// Memory was refused: status 1.
    OutOfMemory,
    /// This line of the file is refused: status 4, or 5 where it is a constraint.
    Refused(u32, ActsCode),
    /// The file could not be read: status 7.
    CannotRead,
    /// The translation could not be written whole: status 8.
    CannotWrite,
    /// The file has too many bytes: status 9.
    TooLong,
}

impl From<ActsFault> for Stop {
    ghost use Rattle.acts_cli.specs.Stops.{stop_of};

    ghost from_gives = { λ fault stop. stop ≡ stop_of fault };

    fn from(fault: ActsFault) -> Stop {
        match fault {
            ActsFault::Bad(line, code) => Stop::Refused(line, code),
            ActsFault::NoMemory => Stop::OutOfMemory,
        }
    }
}

/// Writes the line of a refusal of a line.
fn put_refusal<E: Sink>(line: u32, code: ActsCode, sink: &mut E) -> WriteAnswer
    ensures { Puts result (E.seen sink.old) (E.seen sink.new) (model_line line (acts_code code) (acts_text code)) }
{
    put_model_line(line, code.code(), code.text(), sink)
}

impl Stop {
    /// The exit status of a run that ended so.
    fn status(&self) -> u8
        ensures { result ≡ status_of self.now }
    {
        match self {
            Stop::OutOfMemory => 1,
            Stop::Refused(_, code) => code.status(),
            Stop::CannotRead => 7,
            Stop::CannotWrite => 8,
            Stop::TooLong => 9,
        }
    }

    /// Writes the line that says why, where the files have these names. Takes no memory.
    fn put_line<E: Sink>(&self, input: &str, output: &str, diag: &mut E) -> WriteAnswer
        ensures { Puts result (E.seen diag.old) (E.seen diag.new) (line_of self.now input.now output.now) }
    {
        match self {
            Stop::OutOfMemory => put_pieces(diag, &["error: out of memory\n"]),
            Stop::Refused(line, code) => put_refusal(*line, *code, diag),
            Stop::CannotRead => put_pieces(diag, &["error: cannot read ", input, "\n"]),
            Stop::CannotWrite => put_pieces(diag, &["error: cannot write ", output, "\n"]),
            Stop::TooLong => put_too_long(FileKind::Model, diag),
        }
    }
}

/// The exit status of a run that ended so.
pub(crate) fn status_of(end: &Result<(), Stop>) -> u8
    ensures { result ≡ end_status end.now }
{
    match end {
        Ok(()) => 0,
        Err(stop) => stop.status(),
    }
}

/// Writes the line of the stop, if there is one, where the files have these names. Takes no memory.
pub(crate) fn tell<E: Sink>(
    end: &Result<(), Stop>,
    input: &str,
    output: &str,
    diag: &mut E,
) -> WriteAnswer
    ensures puts { Puts result (E.seen diag.old) (E.seen diag.new) (end_text end.now input.now output.now) }
    ensures silent { end.now ≡ Ok tt → E.seen diag.new ≡ E.seen diag.old }
{
    match end {
        Ok(()) => WriteAnswer::Done,
        Err(stop) => stop.put_line(input, output, diag),
    }
}
