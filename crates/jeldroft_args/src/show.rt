use crate::delimiter::Delimiter;
use crate::format::Format;
use crate::model_file::ModelFile;
use crate::strength::Strength;
use value_text::Text;

/// What `show` is asked for.
#[derive(Drop)]
pub struct Show {
    /// The model.
    pub model: ModelFile,
    /// The table that is shown; `-` is standard input.
    pub table: Text,
    /// Its proof; none counts as an empty one.
    pub proof: Option<Text>,
    /// How many parameters are combined.
    pub strength: Strength,
    /// What stands between the cells of the table; by its name where this isn't said.
    pub delimiter: Option<Delimiter>,
    /// The form in which the suite is written.
    pub format: Format,
    /// The file that is written; else standard output.
    pub output: Option<Text>,
    /// How many threads there are at most, 1 to 64.
    pub threads: u32,
    /// Whether warnings are left out.
    pub no_warnings: bool,
}
