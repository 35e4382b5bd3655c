use crate::check::Check;
use crate::generate::Generate;
use crate::import::Import;
use crate::lint::Lint;
use crate::measure::Measure;
use crate::sequence::Sequence;
use crate::show::Show;
use crate::shrink::Shrink;
use crate::suspect::Suspect;

/// What the words ask for: a command with its settings.
#[derive(Drop)]
pub enum Command {
    /// Makes a table.
    Generate(Generate),
    /// The verdict on a table and its proof.
    Check(Check),
    /// A shorter table with the same coverage.
    Shrink(Shrink),
    /// A suite in words, as a page, or in another form.
    Show(Show),
    /// What is wrong or odd about a model.
    Lint(Lint),
    /// The coverage of a given suite.
    Measure(Measure),
    /// The combinations that only failing tests have.
    Suspect(Suspect),
    /// Orders of events.
    Sequence(Sequence),
    /// A model file from one in the form of ACTS.
    Import(Import),
}
