ghost use Rattle.std.specs.Prelude.{◌≡◌, ◌++◌, IfOk};
ghost use Rattle.std.specs.List.{flat_map};
ghost use Rattle.outside_io.specs.believed.Puts.{Puts};
ghost use Rattle.definitions.specs.believed.Diagnostics.{used_seed_line};
ghost use Rattle.command_line.specs.believed.Told.{end_text, row_notes_text, seed_text, told_text};
ghost use Rattle.command_line.specs.Told.{line_behind};
ghost use Rattle.command_line.specs.believed.Stops.{line_of};

use crate::files::FileNames;
use crate::stop::Stop;
use itoa::Buffer;
use model_lex::Note;
use outside_io::{Sink, WriteAnswer, put_pieces};

// Writes the line of a seed that no word gave.
fn put_seed<E: Sink>(seed: Option<u64>, sink: &mut E) -> WriteAnswer
    ensures { Puts result (E.seen sink.old) (E.seen sink.new) (seed_text seed) }
{
    let Some(number) = seed else {
        return WriteAnswer::Done;
    };
    let mut buffer = Buffer::new();
    let seed = buffer.format(number);
    put_pieces(sink, &["Used seed: ", seed, "\n"])
}

// Writes the line of a note on a file, which begins with this text before the line's number.
fn put_note<E: Sink>(opening: &'static str, note: &Note, sink: &mut E) -> WriteAnswer
    ensures { Puts result (E.seen sink.old) (E.seen sink.new) (line_behind opening.now note.now) }
{
    let mut buffer = Buffer::new();
    let line = buffer.format(note.line);
    let code = note.code.code();
    let text = note.code.text();
    put_pieces(sink, &[opening, line, ": ", code, " ", text, "\n"])
}

// Writes the lines of notes on a file, which begin with this text.
fn put_notes<E: Sink>(opening: &'static str, notes: &[Note], sink: &mut E) -> WriteAnswer
    ensures { Puts result (E.seen sink.old) (E.seen sink.new) (flat_map (line_behind opening.now) notes.now) }
{
    for note in notes {
        match put_note(opening, note, sink) {
            WriteAnswer::Done => {}
            WriteAnswer::Failed => return WriteAnswer::Failed,
        }
    }
    WriteAnswer::Done
}

/// Writes the line of the stop, if there is one. Takes no memory.
pub fn put_end<T, E: Sink>(
    end: &Result<T, Stop>,
    names: &FileNames<'_>,
    sink: &mut E,
) -> WriteAnswer
    ensures puts { Puts result (E.seen sink.old) (E.seen sink.new) (end_text names.now end.now) }
    ensures silent { IfOk end.now (λ _. E.seen sink.new ≡ E.seen sink.old) }
{
    match end {
        Ok(_) => WriteAnswer::Done,
        Err(stop) => stop.put_line(names, sink),
    }
}

// Writes the lines of notes on the file of rows, and behind them that of the stop, if there is one.
fn put_rows_end<E: Sink>(
    notes: &[Note],
    end: &Result<(), Stop>,
    names: &FileNames<'_>,
    sink: &mut E,
) -> WriteAnswer
    ensures { Puts result (E.seen sink.old) (E.seen sink.new) (row_notes_text notes.now ++ end_text names.now end.now) }
{
    match put_notes("warning: row file line ", notes, sink) {
        WriteAnswer::Done => put_end(end, names, sink),
        WriteAnswer::Failed => WriteAnswer::Failed,
    }
}

/// Writes what a run tells: a seed that no word gave, notes on the model file and on the file of rows,
/// and why it stopped, if it did. After the first fault nothing more is written. Takes no memory.
pub fn tell<E: Sink>(
    seed: Option<u64>,
    notes: &[Note],
    row_notes: &[Note],
    end: &Result<(), Stop>,
    names: &FileNames<'_>,
    sink: &mut E,
) -> WriteAnswer
    ensures { Puts result (E.seen sink.old) (E.seen sink.new) (told_text seed notes.now row_notes.now names.now end.now) }
{
    match put_seed(seed, sink) {
        WriteAnswer::Done => {}
        WriteAnswer::Failed => return WriteAnswer::Failed,
    }
    match put_notes("warning: model line ", notes, sink) {
        WriteAnswer::Done => put_rows_end(row_notes, end, names, sink),
        WriteAnswer::Failed => WriteAnswer::Failed,
    }
}
