use crate::delimiter::Delimiter;
use crate::format::Format;
use crate::model_file::ModelFile;
use crate::shrinking::Shrinking;
use crate::strength::Strength;
use value_text::Text;

/// What `shrink` is asked for.
#[derive(Drop)]
pub struct Shrink {
    /// The model.
    pub model: ModelFile,
    /// The table that is made shorter; `-` is standard input.
    pub table: Text,
    /// How many parameters are combined.
    pub strength: Strength,
    /// The file of seed tests, which are kept.
    pub seeds: Option<Text>,
    /// What stands between the cells of the files; by their names where this isn't said.
    pub delimiter: Option<Delimiter>,
    /// The form of the new table.
    pub format: Format,
    /// The file of the new table; else standard output.
    pub output: Option<Text>,
    /// How fewer tests are looked for.
    pub shrinking: Shrinking,
    /// How many nodes the search may visit for one query, 1 to 2^40; else there is no bound.
    pub budget: Option<u64>,
    /// Whether warnings are left out.
    pub no_warnings: bool,
    /// Whether the line that sums up is left out.
    pub quiet: bool,
}
