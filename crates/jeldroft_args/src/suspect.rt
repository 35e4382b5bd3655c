use crate::delimiter::Delimiter;
use crate::model_file::ModelFile;
use crate::strength::Strength;
use value_text::Text;

/// What `suspect` is asked for.
#[derive(Drop)]
pub struct Suspect {
    /// The model.
    pub model: ModelFile,
    /// The table of tests with their results; `-` is standard input.
    pub results: Text,
    /// How many parameters are combined.
    pub strength: Strength,
    /// The column in which the results stand; `:result` where this isn't said.
    pub result: Option<Text>,
    /// What stands between the cells of the table; by its name where this isn't said.
    pub delimiter: Option<Delimiter>,
    /// The file of the combinations; else standard output.
    pub output: Option<Text>,
}
