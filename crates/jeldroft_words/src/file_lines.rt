use model_lex::{cut_line, without_mark};

/// The lines of a file, one after another. Nothing here takes memory.
#[derive(Drop)]
pub struct FileLines<'a> {
    rest: &'a [u8],
}

impl<'a> FileLines<'a> {
    /// The lines of these bytes.
    pub fn of(bytes: &'a [u8]) -> FileLines<'a> {
        FileLines {
            rest: without_mark(bytes),
        }
    }

    /// The next line, without its line end; `None` behind the last.
    pub fn take_line(&mut self) -> Option<&'a [u8]> {
        if self.rest.is_empty() {
            return None;
        }
        let (line, behind) = cut_line(self.rest);
        self.rest = behind;
        Some(line)
    }

    /// The line of this number, from 1; empty where there is none.
    pub fn line_at(bytes: &'a [u8], number: u32) -> &'a [u8] {
        let mut lines = FileLines::of(bytes);
        for _ in 1..number {
            let _passed = lines.take_line();
        }
        match lines.take_line() {
            Some(line) => line,
            None => &[],
        }
    }

    /// The number of the first line that is this text, of those above another line.
    pub fn line_above(bytes: &'a [u8], text: &[u8], number: u32) -> Option<u32> {
        let mut lines = FileLines::of(bytes);
        for above in 1..number {
            if lines.take_line()? == text {
                return Some(above);
            }
        }
        None
    }
}
