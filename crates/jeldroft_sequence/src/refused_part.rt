use jeldroft_words::FileLines;

/// The part of a line of a file of events that is refused.
#[derive(Clone, Copy)]
pub(crate) struct RefusedPart<'a> {
    /// The column in which it begins, from 1. Before it stand characters of one byte alone.
    pub(crate) column: u32,
    /// What could stand there, in words that follow "expected".
    pub(crate) expected: &'static str,
    /// What stands there: nothing at the end of the line.
    pub(crate) found: &'a [u8],
}

const NAME: &str = "the name of an event, of ASCII letters, digits and \"_\"";

// Whether a byte may stand in the name of an event.
fn is_of_name(byte: u8) -> bool {
    byte.is_ascii_alphanumeric() || byte == b'_'
}

// What stands behind a name at the start of a text; the whole text where it begins with none.
fn behind_name(text: &[u8]) -> &[u8] {
    let end = text.iter().position(|byte| !is_of_name(*byte));
    match end {
        Some(end) => text.get(end..).unwrap_or(text),
        None => &[],
    }
}

// The second event of a precedence, from what stands behind the first on.
fn second_event(behind: &[u8]) -> Option<&[u8]> {
    match behind {
        [b' ', b'<', b' ', second @ ..] => Some(second),
        _ => None,
    }
}

/// Whether a line declares an event.
pub(crate) fn is_event(line: &[u8]) -> bool {
    !line.is_empty() && behind_name(line).is_empty()
}

impl<'a> RefusedPart<'a> {
    // The end of a line that begins with this text.
    fn end_of(line: &[u8], found: &'a [u8], expected: &'static str) -> RefusedPart<'a> {
        let before = line.len().saturating_sub(found.len());
        let column = match u32::try_from(before) {
            Ok(before) => before.saturating_add(1),
            Err(_) => u32::MAX,
        };
        RefusedPart {
            column,
            expected,
            found,
        }
    }

    /// What keeps a line from being a name or a precedence.
    pub(crate) fn of_line(line: &'a [u8]) -> RefusedPart<'a> {
        let behind = behind_name(line);
        if behind.len() == line.len() {
            return RefusedPart::end_of(line, line, NAME);
        }
        let Some(second) = second_event(behind) else {
            return RefusedPart::end_of(
                line,
                behind,
                "\" < \" and the name of an event, or the end of the line",
            );
        };
        let end = behind_name(second);
        if end.len() == second.len() {
            RefusedPart::end_of(line, second, NAME)
        } else {
            RefusedPart::end_of(line, end, "the end of the line")
        }
    }

    /// The event of the precedence in the line of this number that no line above declares.
    pub(crate) fn of_precedence(bytes: &'a [u8], number: u32) -> RefusedPart<'a> {
        let line = FileLines::line_at(bytes, number);
        let behind = behind_name(line);
        let first = match line.get(..line.len().saturating_sub(behind.len())) {
            Some(first) => first,
            None => line,
        };
        let expected = "an event that a line above declares";
        match second_event(behind) {
            Some(second) if FileLines::line_above(bytes, first, number).is_some() => {
                RefusedPart::end_of(line, second, expected)
            }
            _ => RefusedPart {
                column: 1,
                expected,
                found: first,
            },
        }
    }
}
