use model_lex::Marks;

/// A model file that was read: its bytes, and the marks that part its parameter lines.
#[derive(Drop)]
pub struct ModelSource {
    /// The bytes.
    pub bytes: Vec<u8>,
    /// The marks.
    pub marks: Marks,
}
