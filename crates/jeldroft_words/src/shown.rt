use std::str::from_utf8;

// The most bytes of a text that a line shows.
const MOST_SHOWN: usize = 60;

/// A text of a file as a line shows it: it may be cut, and where it isn't UTF-8 or has control characters, which could
/// harm a terminal, it isn't shown.
#[derive(Debug, Drop, Clone, Copy)]
pub struct Shown<'a> {
    text: &'a str,
    is_cut: bool,
}

// Whether a text has no control character.
fn is_harmless(text: &str) -> bool {
    text.as_bytes()
        .iter()
        .all(|byte| *byte >= b' ' && *byte != 0x7f)
}

// The longest start of a text of at most `MOST_SHOWN` bytes: a character has at most four.
fn start_of(text: &str) -> &str {
    for end in [MOST_SHOWN, MOST_SHOWN - 1, MOST_SHOWN - 2, MOST_SHOWN - 3] {
        if let Some(start) = text.get(..end) {
            return start;
        }
    }
    ""
}

impl<'a> Shown<'a> {
    /// The text of these bytes.
    pub fn of(bytes: &'a [u8]) -> Shown<'a> {
        match from_utf8(bytes) {
            Ok(text) if is_harmless(text) => {
                if text.len() <= MOST_SHOWN {
                    Shown {
                        text,
                        is_cut: false,
                    }
                } else {
                    Shown {
                        text: start_of(text),
                        is_cut: true,
                    }
                }
            }
            _ => Shown {
                text: "",
                is_cut: true,
            },
        }
    }

    /// What is shown of it.
    pub fn text(&self) -> &'a str {
        self.text
    }

    /// What stands behind that: dots where the text goes on.
    pub fn end(&self) -> &'static str {
        if self.is_cut { ".." } else { "" }
    }
}
