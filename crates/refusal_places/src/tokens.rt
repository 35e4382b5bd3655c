//! Where the tokens of the constraints stand in a file.
ghost use Rattle.std.specs.Prelude.{◌≤◌, ◌^◌, length};

use crate::file_lines::{behind_feeds, file_start, line_span};
use crate::span::Span;
use crate::token::PlacedToken;
use model_lex::{Lexed, ModelFault, NumLine, next_token, split_model};
use std::alloc::Global;
use value_text::NoMemory;

/// The tokens of the constraints of a file, up to the first text that is none.
#[derive(Drop)]
pub(crate) struct PlacedTokens {
    pub(crate) tokens: Vec<PlacedToken>,
    pub(crate) bad: Option<Span>,
}

// Whether a byte may stand in a word.
fn is_word_byte(byte: u8) -> bool {
    byte.is_ascii_alphanumeric() || byte == b'_'
}

// Whether a byte may stand in the run of a number.
fn is_number_byte(byte: u8) -> bool {
    is_word_byte(byte) || byte == b'+' || byte == b'-' || byte == b'.'
}

// Whether a byte goes on with a character of UTF-8.
pub(crate) fn goes_on(byte: u8) -> bool {
    (0x80..0xc0).contains(&byte)
}

// How long a text is that begins as a token and is none: a name or a text that isn't closed, a run
// that is no number, a word that is no keyword, or one character.
fn bad_len(text: &[u8]) -> usize {
    let end = match text {
        [b'[' | b'"', ..] => None,
        [b'+' | b'-' | b'0'..=b'9', ..] => text.iter().position(|byte| !is_number_byte(*byte)),
        [b'a'..=b'z' | b'A'..=b'Z', ..] => text.iter().position(|byte| !is_word_byte(*byte)),
        [_, rest @ ..] => {
            return 1
                + rest
                    .iter()
                    .position(|byte| !goes_on(*byte))
                    .unwrap_or(rest.len());
        }
        [] => None,
    };
    end.unwrap_or(text.len())
}

// The text behind a place of a line that is no token.
fn bad_span(file: &[u8], line: u32, from: usize) -> Span {
    let to = line_span(file, line).to;
    let rest = Span {
        line,
        from: from.min(to),
        to,
    }
    .trimmed(file);
    let len = bad_len(rest.bytes(file));
    rest.part(0, len)
}

// Adds the tokens of a line that begins at a place of the file, up to the first text that is none.
fn place_line(
    file: &[u8],
    from: usize,
    line: u32,
    text: &str,
    tokens: &mut Vec<PlacedToken>,
) -> Result<Option<Span>, NoMemory>
    requires { from ≤ length file.now }
{
    let mut at = 0;
    loop {
        match next_token(text, at) {
            Lexed::End => return Ok(None),
            Lexed::Bad(_) => return Ok(Some(bad_span(file, line, from + at))),
            Lexed::Token(found) => {
                let span = Span {
                    line,
                    from: from + found.start,
                    to: from + found.end,
                };
                let kind = found.kind;
                tokens.push(PlacedToken { kind, span })?;
                at = found.end;
            }
        }
    }
}

// Adds the tokens of lines, up to the first text that is none.
fn place_lines(
    file: &[u8],
    lines: &[NumLine<'_>],
    tokens: &mut Vec<PlacedToken>,
) -> Result<Option<Span>, NoMemory> {
    let mut from = file_start(file);
    let mut number = 1;
    for line in lines {
        from = behind_feeds(file, from, line.line.saturating_sub(number));
        number = line.line;
        if let Some(bad) = place_line(file, from, line.line, line.text, tokens)? {
            return Ok(Some(bad));
        }
    }
    Ok(None)
}

/// The tokens of the constraints of a file; none where its lines are refused already.
pub(crate) fn constraint_tokens(alloc: Global, file: &[u8]) -> Result<PlacedTokens, NoMemory>
    requires { length file.now ≤ 2 ^ 22 }
{
    let mut tokens = Vec::new(alloc);
    let bad = match split_model(alloc, file) {
        Ok(sections) => place_lines(file, sections.rules.as_slice(), &mut tokens)?,
        Err(ModelFault::NoMemory) => return Err(NoMemory),
        Err(_) => None,
    };
    Ok(PlacedTokens { tokens, bad })
}

/// The lines of a file before its constraints; the whole file where it has none.
pub(crate) fn constraints_head(alloc: Global, file: &[u8]) -> Result<Span, NoMemory>
    requires { length file.now ≤ 2 ^ 22 }
{
    let mut to = file.len();
    match split_model(alloc, file) {
        Ok(sections) => {
            if let Some(line) = sections.rules.get(0) {
                to = line_span(file, line.line).from;
            }
        }
        Err(ModelFault::NoMemory) => return Err(NoMemory),
        Err(_) => {}
    }
    Ok(Span {
        line: 1,
        from: 0,
        to,
    })
}
