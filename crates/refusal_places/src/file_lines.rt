//! Where the lines of a file stand in it.
ghost use Rattle.std.specs.Prelude.{◌≡◌, ◌≤◌, length};

use crate::span::Span;
use model_lex::without_mark;

// The place of the first byte of a file behind a byte-order mark.
pub(crate) fn file_start(file: &[u8]) -> usize
    ensures { result ≤ length file.now }
{
    file.len().saturating_sub(without_mark(file).len())
}

// The place behind so many line feeds from a place on, or the end of the file where it has fewer.
pub(crate) fn behind_feeds(file: &[u8], from: usize, count: u32) -> usize
    requires { from ≤ length file.now }
    ensures { result ≤ length file.now }
{
    let mut left = count;
    for (i, byte) in file[from..].iter().enumerate() {
        if left == 0 {
            return from + i;
        }
        if *byte == b'\n' {
            left -= 1;
        }
    }
    file.len()
}

// The place of the first line feed from a place on, or the end of the file where there is none.
fn line_end(file: &[u8], from: usize) -> usize
    requires { from ≤ length file.now }
    ensures behind { from ≤ result }
    ensures within { result ≤ length file.now }
{
    match file[from..].iter().position(|byte| *byte == b'\n') {
        Some(i) => from + i,
        None => file.len(),
    }
}

// What stands in a file from the start of a line to its line end.
pub(crate) fn line_from(file: &[u8], from: usize, line: u32) -> Span
    requires { from ≤ length file.now }
    ensures line { result.line ≡ line }
    ensures within { result.to ≤ length file.now }
{
    let end = line_end(file, from);
    let to = if from < end && file[end - 1] == b'\r' {
        end - 1
    } else {
        end
    };
    Span { line, from, to }
}

// A line of a file without its line end; nothing at the end of the file where there is no such line.
pub(crate) fn line_span(file: &[u8], line: u32) -> Span
    ensures line { result.line ≡ line }
    ensures within { result.to ≤ length file.now }
{
    let from = behind_feeds(file, file_start(file), line.saturating_sub(1));
    line_from(file, from, line)
}
