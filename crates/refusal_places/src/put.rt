ghost use Rattle.std.specs.Prelude.{◌≡◌, ◌++◌, ◌≤◌, ◌^◌, true, length, IfOk};
ghost use Rattle.std.specs.String.{string_bytes};
ghost use Rattle.model_parse.specs.RawModels.{AreOpts};
ghost use Rattle.outside_io.specs.believed.Puts.{Puts};
ghost use Rattle.refusal_places.specs.Told.{TellsRefusal, is_clean, line_of_texts, refusal_line};

use crate::expectations::expected;
use crate::message::message;
use crate::place::{Place, refusal_place};
use crate::shown::cleaned;
use crate::span::Span;
use itoa::Buffer;
use model_lex::{Diag, ModelOpts};
use outside_io::{Sink, WriteAnswer, put_pieces};
use std::alloc::Global;
use value_text::NoMemory;

// The column of a refusal, and what is told of it.
fn refusal_words(
    alloc: Global,
    bytes: &[u8],
    opts: &ModelOpts,
    diag: &Diag,
) -> Result<String, NoMemory>
    requires opts { AreOpts opts.now }
    requires len { length bytes.now ≤ 2 ^ 22 }
    ensures { IfOk result (λ words. is_clean (string_bytes words) ≡ true) }
{
    let place = refusal_place(alloc, bytes, opts, diag)?;
    let Place {
        line,
        column,
        from,
        to,
    } = place;
    let part = Span {
        line,
        from,
        to: to.max(from),
    };
    let words = message(alloc, bytes, opts, diag.code, part)?;
    let text = format!(in alloc; ":{column}: error: {words}")?;
    cleaned(alloc, text.as_str())
}

// Writes the line of a refusal, with words in two parts.
fn put_texts<'a, E: Sink>(
    file: &'a str,
    line: &'a str,
    opening: &'a str,
    words: &'a str,
    code: &'a str,
    sink: &mut E,
) -> WriteAnswer
    ensures { Puts result (E.seen sink.old) (E.seen sink.new) (line_of_texts file.now line.now (opening.now ++ words.now) code.now) }
{
    put_pieces(sink, &[file, ":", line, opening, words, " [", code, "]\n"])
}

// Writes the line of a refusal, with words in two parts.
fn put_line<E: Sink>(
    file: &str,
    diag: &Diag,
    opening: &str,
    words: &str,
    sink: &mut E,
) -> WriteAnswer
    ensures { Puts result (E.seen sink.old) (E.seen sink.new) (refusal_line file.now diag.now.line (opening.now ++ words.now) diag.now.code) }
{
    let mut buffer = Buffer::new();
    let line = buffer.format(diag.line);
    put_texts(file, line, opening, words, diag.code.code(), sink)
}

/// Writes the line of a refusal of a model file: `FILE:LINE:COLUMN: error: WORDS [CODE]`. The words say
/// what was found and what could have stood there, with names of the model; a name that isn't known comes
/// with one that may be meant. Control characters of the model file are written as question marks, and of
/// long texts the first 60 characters.
///
/// Where memory is refused on the way, the line without the column and without what was found is
/// written, so the refusal is told in any case.
pub fn put_refusal<E: Sink>(
    alloc: Global,
    file: &str,
    bytes: &[u8],
    opts: &ModelOpts,
    diag: &Diag,
    sink: &mut E,
) -> WriteAnswer
    requires opts { AreOpts opts.now }
    requires len { length bytes.now ≤ 2 ^ 22 }
    ensures { TellsRefusal file.now diag.now result (E.seen sink.old) (E.seen sink.new) }
{
    match refusal_words(alloc, bytes, opts, diag) {
        Ok(words) => put_line(file, diag, "", words.as_str(), sink),
        Err(NoMemory) => put_line(file, diag, ": error: expected ", expected(diag.code), sink),
    }
}
