use crate::format::FindingFormat;
use crate::model_file::ModelFile;

/// What `lint` is asked for.
#[derive(Drop)]
pub struct Lint {
    /// The model.
    pub model: ModelFile,
    /// Whether constraints that never exclude a test are looked for too.
    pub all: bool,
    /// The form of the findings.
    pub format: FindingFormat,
}
