use crate::delimiter::Delimiter;
use crate::model_file::ModelFile;
use crate::strength::Strength;
use value_text::Text;

/// What `check` is asked for.
#[derive(Drop)]
pub struct Check {
    /// The model.
    pub model: ModelFile,
    /// The table that is checked; `-` is standard input.
    pub table: Text,
    /// Its proof; none counts as an empty one.
    pub proof: Option<Text>,
    /// How many parameters are combined.
    pub strength: Strength,
    /// What stands between the cells of the table; by its name where this isn't said.
    pub delimiter: Option<Delimiter>,
    /// How many threads there are at most, 1 to 64.
    pub threads: u32,
}
