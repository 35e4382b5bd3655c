ghost use Rattle.std.specs.Prelude.{◌≡◌, ◌≤◌, ◌||◌, ◌==◌, true, length, position};
ghost use Rattle.std.specs.Char.{is_ascii_alphanumeric};
ghost use Rattle.std.specs.List.{list_all, prefix_len};
ghost use Rattle.model_lex.specs.believed.Blanks.{without_first_blanks};
ghost use Rattle.value_text.specs.believed.Texts.{is_blank};
ghost use Rattle.model_lex.specs.believed.Sections.{is_ignored};
ghost use Rattle.seq_check.specs.believed.Events.{is_name};
ghost use Rattle.seq_check.specs.believed.EventFile.{is_space, line_of, precedence_in};
ghost use Rattle.seq_check.specs.Reading.{IsNamed, line_seen};

use std::str::from_utf8;

/// What a line of a file of events is.
pub(crate) enum EventLine<'a> {
    /// Blanks alone, or a comment.
    Ignored,
    /// The name of an event.
    Event(&'a str),
    /// The names of the events of a precedence.
    Precedence(&'a [u8], &'a [u8]),
    /// None of these.
    Neither,
}

// How many blanks stand at the start of a text.
#[tactic(auto, using(model_lex::proofs::Runs::run_len, model_lex::proofs::Runs::run_within))]
fn blank_len(text: &[u8]) -> usize
    ensures value { result ≡ prefix_len is_blank text.now }
    ensures within { result ≤ length text.now }
{
    text.iter()
        .take_while(|byte| **byte == b' ' || **byte == b'\t')
        .count()
}

// A text without the blanks at its start.
fn without_first_blanks(text: &[u8]) -> &[u8]
    ensures { result.now ≡ without_first_blanks text.now }
{
    &text[blank_len(text)..]
}

/// Whether a line is ignored: it has blanks alone, or is a comment.
#[tactic(auto, using(model_lex::proofs::Runs::all_blank_is))]
pub(crate) fn is_ignored(text: &[u8]) -> bool
    ensures { result ≡ is_ignored text.now }
{
    let rest = without_first_blanks(text);
    rest.is_empty() || rest[0] == b'#'
}

/// Whether a text is the name of an event.
pub(crate) fn is_name(text: &[u8]) -> bool
    ensures { result ≡ is_name text.now }
{
    !text.is_empty() && has_name_bytes(text)
}

// Whether each byte may stand in a name.
fn has_name_bytes(text: &[u8]) -> bool
    ensures { result ≡ list_all (λ byte. is_ascii_alphanumeric byte || (byte == 95)) text.now }
{
    text.iter()
        .all(|byte| byte.is_ascii_alphanumeric() || *byte == b'_')
}

// The place of the first space.
fn space_place(text: &[u8]) -> Option<usize>
    ensures { result ≡ position is_space text.now }
{
    text.iter().position(|byte| *byte == b' ')
}

// The precedence that a line is, if it is one.
fn precedence_in(text: &[u8]) -> EventLine<'_>
    ensures { line_seen result ≡ precedence_in text.now }
{
    let Some(end) = space_place(text) else {
        return EventLine::Neither;
    };
    let first = &text[..end];
    let behind = &text[end + 1..];
    if is_name(first) && behind.starts_with(b"< ") && is_name(&behind[2..]) {
        EventLine::Precedence(first, &behind[2..])
    } else {
        EventLine::Neither
    }
}

// A name as a text.
fn name_text(name: &[u8]) -> &str
    requires { is_name name.now ≡ true }
    ensures { result.now ≡ name.now }
{
    match from_utf8(name) {
        Ok(text) => text,
        Err(_) => unreachable!(),
    }
}

/// What a line is.
pub(crate) fn line_of(text: &[u8]) -> EventLine<'_>
    ensures line { line_seen result ≡ line_of text.now }
    ensures named { IsNamed result }
{
    if is_ignored(text) {
        EventLine::Ignored
    } else if is_name(text) {
        EventLine::Event(name_text(text))
    } else {
        precedence_in(text)
    }
}
