ghost use Rattle.std.specs.Prelude.{◌≡◌, []};
ghost use Rattle.definitions.specs.believed.Diagnostics.{bytes_name};
ghost use Rattle.definitions.specs.believed.Limits.{most_bytes};
ghost use Rattle.command_line.specs.believed.Stops.{measured, name_of};

use std::marker::Model;

/// What a file of a run holds.
#[derive(Debug, Drop, Clone, Copy, PartialEq, Eq)]
pub enum FileKind {
    /// A model.
    Model,
    /// Rows: seed rows, a suite, a file of results, or a report.
    Rows,
    /// A proof.
    Proof,
}

impl FileKind {
    // What its bytes are called.
    pub(crate) fn bytes_name(self) -> &'static str
        ensures { result.now ≡ bytes_name (measured self) }
    {
        match self {
            FileKind::Model => "model bytes",
            FileKind::Rows => "row file bytes",
            FileKind::Proof => "proof bytes",
        }
    }

    /// The most bytes that it may have.
    pub fn most_bytes(self) -> usize
        ensures { result ≡ most_bytes (measured self) }
    {
        match self {
            FileKind::Model => 1 << 22,
            FileKind::Rows => 1 << 26,
            FileKind::Proof => 1 << 28,
        }
    }
}

/// The names of the files of a run; the empty name stands for a file that the words don't ask for.
#[derive(Drop)]
pub struct FileNames<'w> {
    /// The model file.
    pub model: &'w str,
    /// The file of rows.
    pub rows: &'w str,
    /// The proof file.
    pub proof: &'w str,
}

impl<'w> Model for FileNames<'w> {
    ghost use Rattle.command_line.specs.believed.Stops.{NamesView};

    ghost Value = { NamesView };

    ghost view = { λ names. record { model = names.model.now; rows = names.rows.now; proof = names.proof.now } };
}

impl<'w> FileNames<'w> {
    /// The names of no files.
    pub fn none() -> FileNames<'w>
        ensures { result ≡ record { model = []; rows = []; proof = [] } }
    {
        FileNames {
            model: "",
            rows: "",
            proof: "",
        }
    }

    /// The name of the file of this kind.
    pub fn of(&self, kind: FileKind) -> &'w str
        ensures { result.now ≡ name_of self.now kind }
    {
        match kind {
            FileKind::Model => self.model,
            FileKind::Rows => self.rows,
            FileKind::Proof => self.proof,
        }
    }
}
