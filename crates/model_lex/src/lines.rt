//! Cutting a file into lines, one after another.
ghost use Rattle.std.specs.Prelude.{◌≡◌, ◌<◌, ◌∷◌, length};
ghost use Rattle.std.specs.List.{position, slice_split};
ghost use Rattle.model_lex.specs.believed.Lines.{ended_lines, file_lines, is_line_feed, without_mark, without_return};

use memchr::memchr;

/// The bytes of a file without a byte-order mark at the start.
pub fn without_mark(bytes: &[u8]) -> &[u8]
    ensures { result.now ≡ without_mark bytes.now }
{
    match bytes {
        [0xef, 0xbb, 0xbf, rest @ ..] => rest,
        _ => bytes,
    }
}

// A line without one carriage return at its end.
fn without_return(line: &[u8]) -> &[u8]
    ensures { result.now ≡ without_return line.now }
{
    match line {
        [front @ .., b'\r'] => front,
        _ => line,
    }
}

// The place of the first line feed.
fn line_end(bytes: &[u8]) -> Option<usize>
    ensures { result ≡ position is_line_feed bytes.now }
{
    memchr(b'\n', bytes)
}

/// What stands before the first line feed, or all bytes where there is none, and what stands behind it.
///
/// There has to be a byte.
pub fn cut_at_line_feed(bytes: &[u8]) -> (&[u8], &[u8])
    requires { 0 < length bytes.now }
    ensures lines { ended_lines (slice_split is_line_feed bytes.now)
        ≡ result.0.now ∷ ended_lines (slice_split is_line_feed result.1.now) }
    ensures shorter { length result.1.now < length bytes.now }
{
    match line_end(bytes) {
        Some(end) => (&bytes[..end], &bytes[end + 1..]),
        None => (bytes, &[]),
    }
}

/// The first line, without a carriage return at its end, and what stands behind its line feed.
///
/// There has to be a byte.
pub fn cut_line(bytes: &[u8]) -> (&[u8], &[u8])
    requires { 0 < length bytes.now }
    ensures lines { file_lines bytes.now ≡ result.0.now ∷ file_lines result.1.now }
    ensures shorter { length result.1.now < length bytes.now }
{
    let (line, behind) = cut_at_line_feed(bytes);
    (without_return(line), behind)
}
