use crate::delimiter::Delimiter;
use crate::format::Format;
use crate::model_file::ModelFile;
use crate::proof_output::ProofOutput;
use crate::shrinking::Shrinking;
use crate::strength::Strength;
use value_text::Text;

/// What `generate` is asked for.
#[derive(Drop)]
pub struct Generate {
    /// The model.
    pub model: ModelFile,
    /// How many parameters are combined.
    pub strength: Strength,
    /// The file of seed tests.
    pub seeds: Option<Text>,
    /// What stands between its cells; by its name where this isn't said.
    pub delimiter: Option<Delimiter>,
    /// The proof file.
    pub proof: Option<ProofOutput>,
    /// The form of the table.
    pub format: Format,
    /// The file of the table; else standard output.
    pub output: Option<Text>,
    /// How the suite is made shorter, if it is.
    pub shrinking: Option<Shrinking>,
    /// The number by which values are shuffled, if they are.
    pub shuffle: Option<u64>,
    /// How many nodes the search may visit for one query, 1 to 2^40; else there is no bound.
    pub budget: Option<u64>,
    /// How many threads there are at most, 1 to 64.
    pub threads: u32,
    /// Whether warnings are left out.
    pub no_warnings: bool,
    /// Whether the line that sums up is left out.
    pub quiet: bool,
}
