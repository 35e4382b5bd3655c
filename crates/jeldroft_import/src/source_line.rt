//! Lines of a file, as they are shown to people. Nothing here takes memory.
use model_lex::{cut_line, without_mark};
use outside_io::{Sink, WriteAnswer, put_pieces};

// The most bytes of a line that are shown.
const MOST_SHOWN: usize = 200;

/// The line of this number, from 1, of the bytes of a file; empty where there is none.
pub(crate) fn line_at(bytes: &[u8], number: u32) -> &[u8] {
    let mut rest = without_mark(bytes);
    let mut left = number;
    while !rest.is_empty() {
        let (line, behind) = cut_line(rest);
        if left <= 1 {
            return line;
        }
        rest = behind;
        left -= 1;
    }
    rest
}

/// Whether the form of ACTS allows a byte: a tab, or a character from the space to `~`.
fn is_allowed(byte: u8) -> bool {
    byte == b'\t' || byte.is_ascii_graphic() || byte == b' '
}

/// The place, from 0, of the first byte of a line that the form of ACTS doesn't allow; its end where each is allowed.
pub(crate) fn bad_place(line: &[u8]) -> usize {
    line.iter()
        .position(|byte| !is_allowed(*byte))
        .unwrap_or(line.len())
}

/// Writes a line behind two spaces: at most its first 200 bytes, with a `?` for each that isn't allowed, so that nothing
/// in it moves the cursor of a terminal.
pub(crate) fn put_source<E: Sink>(line: &[u8], diag: &mut E) -> WriteAnswer {
    let mut shown = [b'?'; MOST_SHOWN];
    let len = line.len().min(MOST_SHOWN);
    for place in 0..len {
        if is_allowed(line[place]) {
            shown[place] = line[place];
        }
    }
    let _ = put_pieces(diag, &["  "]);
    let _ = diag.put(&shown[..len]);
    put_pieces(diag, &["\n"])
}
