//! Names that look like something else.
use value_text::{FixedAnswer, read_fixed};

// The words behind which a line of a constraint goes on.
const OPENING: [&str; 4] = ["IF", "THEN", "ELSE", "NOT"];

// Whether a byte is a space or a tab.
fn is_blank(byte: u8) -> bool {
    byte == b' ' || byte == b'\t'
}

/// Whether a name begins with a word of a constraint and a blank.
pub(crate) fn looks_like_constraint(name: &str) -> bool {
    let Some(end) = name.as_bytes().iter().position(|byte| is_blank(*byte)) else {
        return false;
    };
    match name.get(..end) {
        Some(first) => OPENING.iter().any(|word| word.eq_ignore_ascii_case(first)),
        None => false,
    }
}

// Whether a text is a number between blanks.
fn is_number(text: &str) -> bool {
    !matches!(read_fixed(text.trim_matches(' ')), FixedAnswer::NotNumber)
}

// What stands in the parentheses at the end of a name.
fn in_parentheses(name: &str) -> Option<&str> {
    let bytes = name.as_bytes();
    let open = bytes.iter().rposition(|byte| *byte == b'(')?;
    match bytes {
        [.., b')'] => name.get(open + 1..bytes.len().saturating_sub(1)),
        _ => None,
    }
}

/// Whether a name ends with a number in parentheses.
pub(crate) fn looks_like_weight(name: &str) -> bool {
    match in_parentheses(name) {
        Some(inside) => is_number(inside),
        None => false,
    }
}
