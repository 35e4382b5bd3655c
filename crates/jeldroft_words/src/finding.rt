use itoa::Buffer;
use outside_io::Sink;

/// A line that tells a finding, piece by piece. A fault of the sink is passed over.
#[derive(Drop)]
pub(crate) struct Finding<'s, E: Sink> {
    diag: &'s mut E,
}

impl<'s, E: Sink> Finding<'s, E> {
    /// A line about a file.
    pub(crate) fn on(diag: &'s mut E, file: &str) -> Finding<'s, E> {
        let mut finding = Finding { diag };
        finding.text(file);
        finding
    }

    /// Adds a text.
    pub(crate) fn text(&mut self, text: &str) {
        let _ = self.diag.put(text.as_bytes());
    }

    /// Adds a number behind a colon.
    pub(crate) fn place(&mut self, number: u32) {
        let mut buffer = Buffer::new();
        let digits = buffer.format(number);
        self.text(":");
        self.text(digits);
    }

    /// Adds a column behind a colon, where it is known.
    pub(crate) fn column(&mut self, column: Option<u32>) {
        if let Some(column) = column {
            self.place(column);
        }
    }

    /// Adds a code in brackets, and ends the line.
    pub(crate) fn code(&mut self, code: &str) {
        self.text(" [");
        self.text(code);
        self.text("]\n");
    }
}
