use value_text::Text;

/// A proof file that is written.
#[derive(Drop)]
pub struct ProofOutput {
    /// The name of the file.
    pub name: Text,
    /// The format, 1 or 2.
    pub format: u32,
}
