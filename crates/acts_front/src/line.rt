//! The lines of a file: their bytes and their comments.
ghost use Rattle.std.specs.Prelude.{◌≡◌, false};
ghost use Rattle.std.specs.List.{list_all};
ghost use Rattle.acts_front.specs.believed.Lines.{before_comment, is_allowed, line_text};

use crate::text::trimmed;

// Whether a byte may stand in a file.
fn is_allowed(byte: u8) -> bool
    ensures { result ≡ is_allowed byte }
{
    byte == b'\t' || (b' '..=b'~').contains(&byte)
}

/// Whether each byte of a line may stand in a file.
pub(crate) fn are_allowed(line: &[u8]) -> bool
    ensures { result ≡ list_all is_allowed line.now }
{
    line.iter().all(|byte| is_allowed(*byte))
}

// What stands before the comment of a line.
fn before_comment(line: &[u8]) -> &[u8]
    ensures { result.now ≡ before_comment false line.now }
{
    let mut quoted = false;
    for (at, byte) in line.iter().enumerate() {
        if !quoted && line[at..].starts_with(b"--") {
            return &line[..at];
        }
        if *byte == b'"' {
            quoted = !quoted;
        }
    }
    line
}

/// The text of a line: what stands before its comment, without the blanks at both ends.
pub(crate) fn line_text(line: &[u8]) -> &[u8]
    ensures { result.now ≡ line_text line.now }
{
    trimmed(before_comment(line))
}
