use crate::marks::Marks;
use value_text::Text;

/// A model file, and how it is read.
#[derive(Drop)]
pub struct ModelFile {
    /// The name of the file; `-` is standard input.
    pub name: Text,
    /// Whether names that differ in case alone are different.
    pub case_sensitive: bool,
    /// The characters between the parts of a parameter line.
    pub marks: Marks,
}
