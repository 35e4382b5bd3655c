ghost use Rattle.std.specs.Prelude.{◌≡◌};
ghost use Rattle.model_lex.specs.believed.Codes.{note_code, note_text};

use value_text::OwnedList;

/// What is told of a line that is accepted: the line, counted from 1, and what was dropped there.
#[derive(Debug, Drop, Clone, Copy, PartialEq, Eq)]
pub struct Note {
    /// The line that the note is on.
    pub line: u32,
    /// What was dropped.
    pub code: NoteCode,
}

/// A list of notes.
pub type NoteList = OwnedList<Note>;

/// What is dropped from a model file or a row file without refusing it (this project's codes).
#[derive(Debug, Drop, Clone, Copy, PartialEq, Eq)]
pub enum NoteCode {
    /// `V1`: repeated value name dropped.
    RepeatedValueName,
    /// `V2`: unknown column.
    UnknownColumn,
    /// `V3`: unknown value.
    UnknownValue,
    /// `V4`: no valid row serves this row.
    RowDropped,
}

impl NoteCode {
    /// The code, as `V1`. Takes no memory.
    pub fn code(&self) -> &'static str
        ensures { result.now ≡ note_code self.now }
    {
        match self {
            NoteCode::RepeatedValueName => "V1",
            NoteCode::UnknownColumn => "V2",
            NoteCode::UnknownValue => "V3",
            NoteCode::RowDropped => "V4",
        }
    }

    /// What was dropped, in a few words. Takes no memory.
    pub fn text(&self) -> &'static str
        ensures { result.now ≡ note_text self.now }
    {
        match self {
            NoteCode::RepeatedValueName => "repeated value name dropped",
            NoteCode::UnknownColumn => "unknown column",
            NoteCode::UnknownValue => "unknown value",
            NoteCode::RowDropped => "no valid row serves this row",
        }
    }
}
