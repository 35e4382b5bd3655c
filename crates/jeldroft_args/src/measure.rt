use crate::delimiter::Delimiter;
use crate::model_file::ModelFile;
use crate::strength::Strength;
use value_text::Text;

/// What `measure` is asked for.
#[derive(Drop)]
pub struct Measure {
    /// The model.
    pub model: ModelFile,
    /// The table that is measured; `-` is standard input.
    pub table: Text,
    /// How many parameters are combined.
    pub strength: Strength,
    /// What stands between the cells of the table; by its name where this isn't said.
    pub delimiter: Option<Delimiter>,
    /// The file of the figures; else standard output.
    pub output: Option<Text>,
    /// How many nodes the search may visit for one query, 1 to 2^40; else there is no bound.
    pub budget: Option<u64>,
    /// How many threads there are at most, 1 to 64.
    pub threads: u32,
}
