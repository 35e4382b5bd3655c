use value_text::Text;

/// What `import` is asked for.
#[derive(Drop)]
pub struct Import {
    /// The file in the form of ACTS.
    pub file: Text,
    /// Whether names that differ in case alone are different.
    pub case_sensitive: bool,
    /// The model file that is written; else standard output.
    pub output: Option<Text>,
}
