/// A part of a line: the place where it begins, from 0, and its bytes.
#[derive(Drop, Clone, Copy)]
pub(crate) struct Part<'a> {
    pub(crate) at: usize,
    pub(crate) text: &'a [u8],
}

// Whether a byte is a space or a tab.
fn is_blank(byte: u8) -> bool {
    byte == b' ' || byte == b'\t'
}

impl<'a> Part<'a> {
    /// A whole line.
    pub(crate) fn of(line: &'a [u8]) -> Part<'a> {
        Part { at: 0, text: line }
    }

    /// What stands behind so many bytes of the part.
    pub(crate) fn behind(self, count: usize) -> Part<'a> {
        let start = count.min(self.text.len());
        Part {
            at: self.at.saturating_add(start),
            text: &self.text[start..],
        }
    }

    /// So many first bytes of the part.
    pub(crate) fn up_to(self, count: usize) -> Part<'a> {
        Part {
            at: self.at,
            text: &self.text[..count.min(self.text.len())],
        }
    }

    /// The part without the blanks at its start.
    pub(crate) fn without_first_blanks(self) -> Part<'a> {
        let blanks = self.text.iter().position(|byte| !is_blank(*byte));
        self.behind(blanks.unwrap_or(self.text.len()))
    }

    /// The part without the blanks at its ends.
    pub(crate) fn trimmed(self) -> Part<'a> {
        let rest = self.without_first_blanks();
        let blanks = rest.text.iter().rev().position(|byte| !is_blank(*byte));
        rest.up_to(rest.text.len().saturating_sub(blanks.unwrap_or(0)))
    }

    /// What stands before the first mark of the part, and behind it, if it has one.
    pub(crate) fn cut(self, mark: u8) -> (Part<'a>, Option<Part<'a>>) {
        match self.text.iter().position(|byte| *byte == mark) {
            Some(place) => (
                self.up_to(place),
                Some(self.behind(place.saturating_add(1))),
            ),
            None => (self, None),
        }
    }

    /// Whether the part begins with a mark.
    pub(crate) fn begins_with(self, mark: u8) -> bool {
        match self.text {
            [first, ..] => *first == mark,
            [] => false,
        }
    }
}

// The place where the comment of a line begins: at the first `--` outside double quotes; its end where it has none.
fn comment_place(line: &[u8]) -> usize {
    let mut quoted = false;
    let mut dashed = false;
    for (at, byte) in line.iter().enumerate() {
        let dash = !quoted && *byte == b'-';
        if dashed && dash {
            return at.saturating_sub(1);
        }
        dashed = dash;
        if *byte == b'"' {
            quoted = !quoted;
        }
    }
    line.len()
}

/// The text of a line: what stands before its comment, without the blanks at its ends.
pub(crate) fn text_of(line: &[u8]) -> Part<'_> {
    Part::of(line).up_to(comment_place(line)).trimmed()
}
