ghost use Rattle.std.specs.Prelude.{◌≡◌, ◌≤◌, ◌-◌, length};

/// A part of a file: the line where it begins, and the places of its first byte and behind its last.
#[derive(Clone, Copy)]
pub(crate) struct Span {
    pub(crate) line: u32,
    pub(crate) from: usize,
    pub(crate) to: usize,
    ghost ordered: { from ≤ to },
}

impl Span {
    // The part without bytes at a place.
    pub(crate) fn empty(line: u32, at: usize) -> Span
        ensures { result.to ≡ at }
    {
        Span {
            line,
            from: at,
            to: at,
        }
    }

    // The bytes of the part, as far as the file has them.
    pub(crate) fn bytes<'a>(&self, file: &'a [u8]) -> &'a [u8]
        ensures within { length result.now ≤ self.now.to - self.now.from }
    {
        let to = self.to.min(file.len());
        &file[self.from.min(to)..to]
    }

    // What stands between two places of the part, counted from its start, as far as it has them.
    pub(crate) fn part(&self, start: usize, end: usize) -> Span
        ensures { result.to ≤ self.now.to }
    {
        let end = end.min(self.to - self.from);
        Span {
            line: self.line,
            from: self.from + start.min(end),
            to: self.from + end,
        }
    }

    // The part from its start to the end of another.
    pub(crate) fn up_to(&self, last: Span) -> Span {
        Span {
            line: self.line,
            from: self.from,
            to: last.to.max(self.from),
        }
    }

    // The part without the blanks at its ends.
    pub(crate) fn trimmed(&self, file: &[u8]) -> Span
        ensures { result.to ≤ self.now.to }
    {
        let bytes = self.bytes(file);
        let front = first_blanks(bytes);
        let back = last_blanks(&bytes[front..]);
        self.part(front, bytes.len() - back)
    }

    // What stands between the first and the last byte of the part, without blanks.
    pub(crate) fn inside(&self, file: &[u8]) -> Span {
        let end = (self.to - self.from).saturating_sub(1);
        self.part(1, end).trimmed(file)
    }
}

// Whether a byte is a space or a tab.
fn is_blank(byte: u8) -> bool {
    byte == b' ' || byte == b'\t'
}

// How many blanks stand at the start of a text.
fn first_blanks(text: &[u8]) -> usize
    ensures { result ≤ length text.now }
{
    text.iter()
        .position(|byte| !is_blank(*byte))
        .unwrap_or(text.len())
}

// How many blanks stand at the end of a text.
fn last_blanks(text: &[u8]) -> usize
    ensures { result ≤ length text.now }
{
    text.iter()
        .rev()
        .position(|byte| !is_blank(*byte))
        .unwrap_or(text.len())
}
