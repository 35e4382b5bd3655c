//! Lines on standard error that each program writes. None of these calls takes memory.
ghost use Rattle.std.specs.Prelude.{◌≡◌};
ghost use Rattle.outside_io.specs.believed.Puts.{Puts};
ghost use Rattle.definitions.specs.believed.Diagnostics.{bytes_limit_line, model_line, word_line};
ghost use Rattle.command_line.specs.believed.Pieces.{limit_line};
ghost use Rattle.command_line.specs.believed.Stops.{measured};
ghost use Rattle.command_line.specs.believed.Told.{Tells};

use crate::files::FileKind;
use crate::word_fault::WordFault;
use itoa::Buffer;
use outside_io::{Sink, WriteAnswer, put_pieces};

/// Writes the line of the argument of this number, from 1, that has no reading.
pub(crate) fn put_word<E: Sink>(index: u32, sink: &mut E) -> WriteAnswer
    ensures { Puts result (E.seen sink.old) (E.seen sink.new) (word_line index) }
{
    let mut buffer = Buffer::new();
    let number = buffer.format(index);
    put_pieces(sink, &["error: word ", number, " is not understood\n"])
}

/// Writes the line of an argument that has no reading, and gives the exit status of such a run. A fault of the sink
/// changes nothing.
pub fn refuse_words<E: Sink>(fault: WordFault, diag: &mut E) -> u8
    ensures status { result ≡ 3 }
    ensures tells { Tells (E.seen diag.old) (E.seen diag.new) (word_line fault.index) }
{
    let _ = put_word(fault.index, diag);
    3
}

/// Writes the line of a refusal at a line of a model file, or of a file in its place, by the code and the code's text.
pub fn put_model_line<E: Sink>(
    line: u32,
    code: &'static str,
    text: &'static str,
    sink: &mut E,
) -> WriteAnswer
    ensures { Puts result (E.seen sink.old) (E.seen sink.new) (model_line line code.now text.now) }
{
    let mut buffer = Buffer::new();
    let line = buffer.format(line);
    put_pieces(
        sink,
        &["error: model line ", line, ": ", code, " ", text, "\n"],
    )
}

/// Writes the line of so many of what has this name, where there may be fewer.
pub fn put_limit<E: Sink>(name: &'static str, count: u64, most: u64, sink: &mut E) -> WriteAnswer
    ensures { Puts result (E.seen sink.old) (E.seen sink.new) (limit_line name.now count most) }
{
    let mut of_count = Buffer::new();
    let mut of_most = Buffer::new();
    let given = of_count.format(count);
    let most = of_most.format(most);
    put_pieces(
        sink,
        &["error: limit: ", name, " ", given, " above ", most, "\n"],
    )
}

/// Writes the line of a file of this kind with more bytes than it may have.
pub fn put_too_long<E: Sink>(kind: FileKind, sink: &mut E) -> WriteAnswer
    ensures { Puts result (E.seen sink.old) (E.seen sink.new) (bytes_limit_line (measured kind)) }
{
    let mut buffer = Buffer::new();
    let name = kind.bytes_name();
    let most = buffer.format(kind.most_bytes());
    put_pieces(sink, &["error: limit: ", name, " above ", most, "\n"])
}
