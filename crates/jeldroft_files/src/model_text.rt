ghost use Rattle.std.specs.Prelude.{◌≤◌, length};
ghost use Rattle.definitions.specs.believed.Limits.{ModelFile, most_bytes};

use cov_model::TestModel;
use model_lex::{Marks, NoteList};

/// A model file that was read: its bytes, the marks in them, the model that they spell, and the notes on them.
#[derive(Drop)]
pub struct ModelText {
    /// The bytes of the file.
    pub bytes: Vec<u8>,
    /// The marks that part its parameter lines.
    pub marks: Marks,
    /// The model.
    pub model: TestModel,
    /// The notes.
    pub notes: NoteList,
    ghost within: { length bytes.items ≤ most_bytes ModelFile },
}
