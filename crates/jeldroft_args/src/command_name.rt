ghost use Rattle.std.specs.Prelude.{◌≡◌};
ghost use Rattle.jeldroft_args.specs.believed.Programs.{arguments_of, name_of_command};

use crate::argument::Argument;

/// A command of the program.
#[derive(Debug, Drop, Clone, Copy, PartialEq, Eq)]
pub enum CommandName {
    /// Makes a table.
    Generate,
    /// The verdict on a table and its proof.
    Check,
    /// A shorter table with the same coverage.
    Shrink,
    /// A suite in words, as a page, or in another form.
    Show,
    /// What is wrong or odd about a model.
    Lint,
    /// The coverage of a given suite.
    Measure,
    /// The combinations that only failing tests have.
    Suspect,
    /// Orders of events.
    Sequence,
    /// A model file from one in the form of ACTS.
    Import,
}

impl CommandName {
    /// The word that names the command.
    pub fn text(self) -> &'static str
        ensures { result.now ≡ name_of_command self }
    {
        match self {
            CommandName::Generate => "generate",
            CommandName::Check => "check",
            CommandName::Shrink => "shrink",
            CommandName::Show => "show",
            CommandName::Lint => "lint",
            CommandName::Measure => "measure",
            CommandName::Suspect => "suspect",
            CommandName::Sequence => "sequence",
            CommandName::Import => "import",
        }
    }

    // What the help says of the command.
    pub(crate) fn about(self) -> &'static str {
        match self {
            CommandName::Generate => "Make a table of tests that covers a model",
            CommandName::Check => "Say whether a table and its proof cover a model",
            CommandName::Shrink => "Make a table shorter that covers the same",
            CommandName::Show => "Write a suite in words, as a page, or in another form",
            CommandName::Lint => "Say what is wrong or odd about a model",
            CommandName::Measure => "Measure the coverage of a table",
            CommandName::Suspect => "List the combinations that only failing tests have",
            CommandName::Sequence => "Make orders of events that cover each sequence",
            CommandName::Import => "Make a model file from one in the form of ACTS",
        }
    }

    /// The files and options of the command, its files first.
    pub fn arguments(self) -> &'static [Argument]
        ensures { result.now ≡ arguments_of self }
    {
        match self {
            CommandName::Generate => &GENERATE,
            CommandName::Check => &CHECK,
            CommandName::Shrink => &SHRINK,
            CommandName::Show => &SHOW,
            CommandName::Lint => &LINT,
            CommandName::Measure => &MEASURE,
            CommandName::Suspect => &SUSPECT,
            CommandName::Sequence => &SEQUENCE,
            CommandName::Import => &IMPORT,
        }
    }
}

static GENERATE: [Argument; 21] = [
    Argument::Model,
    Argument::Strength,
    Argument::Seeds,
    Argument::Proof,
    Argument::ProofFormat,
    Argument::TableFormat,
    Argument::Output,
    Argument::Shrink,
    Argument::Spread,
    Argument::Rounds,
    Argument::Random,
    Argument::Shuffle,
    Argument::Budget,
    Argument::Threads,
    Argument::CaseSensitive,
    Argument::Separator,
    Argument::AliasSeparator,
    Argument::InvalidMark,
    Argument::Delimiter,
    Argument::NoWarnings,
    Argument::Quiet,
];

static CHECK: [Argument; 10] = [
    Argument::Model,
    Argument::Table,
    Argument::TableProof,
    Argument::Strength,
    Argument::Threads,
    Argument::CaseSensitive,
    Argument::Separator,
    Argument::AliasSeparator,
    Argument::InvalidMark,
    Argument::Delimiter,
];

static SHRINK: [Argument; 17] = [
    Argument::Model,
    Argument::Table,
    Argument::Strength,
    Argument::Seeds,
    Argument::TableFormat,
    Argument::Output,
    Argument::Spread,
    Argument::Rounds,
    Argument::Random,
    Argument::Budget,
    Argument::CaseSensitive,
    Argument::Separator,
    Argument::AliasSeparator,
    Argument::InvalidMark,
    Argument::Delimiter,
    Argument::NoWarnings,
    Argument::Quiet,
];

static SHOW: [Argument; 13] = [
    Argument::Model,
    Argument::Table,
    Argument::TableProof,
    Argument::Strength,
    Argument::Format,
    Argument::Output,
    Argument::Threads,
    Argument::CaseSensitive,
    Argument::Separator,
    Argument::AliasSeparator,
    Argument::InvalidMark,
    Argument::Delimiter,
    Argument::NoWarnings,
];

static LINT: [Argument; 7] = [
    Argument::Model,
    Argument::All,
    Argument::FindingFormat,
    Argument::CaseSensitive,
    Argument::Separator,
    Argument::AliasSeparator,
    Argument::InvalidMark,
];

static MEASURE: [Argument; 11] = [
    Argument::Model,
    Argument::Table,
    Argument::Strength,
    Argument::Output,
    Argument::Budget,
    Argument::Threads,
    Argument::CaseSensitive,
    Argument::Separator,
    Argument::AliasSeparator,
    Argument::InvalidMark,
    Argument::Delimiter,
];

static SUSPECT: [Argument; 10] = [
    Argument::Model,
    Argument::Results,
    Argument::Strength,
    Argument::ResultColumn,
    Argument::Output,
    Argument::CaseSensitive,
    Argument::Separator,
    Argument::AliasSeparator,
    Argument::InvalidMark,
    Argument::Delimiter,
];

static SEQUENCE: [Argument; 4] = [
    Argument::Events,
    Argument::SequenceLength,
    Argument::Report,
    Argument::Output,
];

static IMPORT: [Argument; 3] = [
    Argument::ActsFile,
    Argument::Output,
    Argument::CaseSensitive,
];
