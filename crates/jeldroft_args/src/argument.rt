ghost use Rattle.std.specs.Prelude.{◌≡◌, None, false};
ghost use Rattle.clap.specs.Words.{rule_of};
ghost use Rattle.jeldroft_args.specs.believed.Arguments.{kind_of, letter_of, name_of, rule_of_argument};

use clap::{Arg, ArgAction};
use std::alloc::{AllocError, Global};

/// A file or an option that a command takes.
#[derive(Debug, Drop, Clone, Copy, PartialEq, Eq)]
pub enum Argument {
    /// MODEL: the model file.
    Model,
    /// TABLE: a file of tests.
    Table,
    /// PROOF: the proof of a table.
    TableProof,
    /// RESULTS: a file of tests with their results.
    Results,
    /// EVENTS: a file of events.
    Events,
    /// FILE: a file in the form of ACTS.
    ActsFile,
    /// How many parameters are combined.
    Strength,
    /// How many events a sequence has.
    SequenceLength,
    /// The file of seed tests.
    Seeds,
    /// The proof file that is written.
    Proof,
    /// The format of the proof file that is written.
    ProofFormat,
    /// The form in which a table is written.
    TableFormat,
    /// The form in which a suite is shown.
    Format,
    /// The form in which findings are written.
    FindingFormat,
    /// The file that is written instead of standard output.
    Output,
    /// The report of sequences that is checked.
    Report,
    /// Whether the suite is made shorter.
    Shrink,
    /// Whether cells that aren't needed take varied values.
    Spread,
    /// The number by which values are shuffled.
    Shuffle,
    /// How many moves are tried for each number of tests.
    Rounds,
    /// The number of the random choices.
    Random,
    /// How many nodes the search may visit for one query.
    Budget,
    /// How many threads there are at most.
    Threads,
    /// Whether findings that take long are looked for too.
    All,
    /// Whether the letters of either case differ.
    CaseSensitive,
    /// The delimiter between values.
    Separator,
    /// The delimiter between the names of a value.
    AliasSeparator,
    /// The prefix of an invalid value.
    InvalidMark,
    /// What stands between the cells of a table that is read.
    Delimiter,
    /// The column in which results stand.
    ResultColumn,
    /// Whether warnings are left out.
    NoWarnings,
    /// Whether the line that sums up is left out.
    Quiet,
}

/// What an argument is on the command line.
#[derive(Debug, Drop, Clone, Copy, PartialEq, Eq)]
pub(crate) enum ArgumentKind {
    /// A file that has to be named, by its place.
    File,
    /// A file that may be named, by its place.
    OptionalFile,
    /// An option with a value.
    Value,
    /// An option without a value.
    Flag,
}

impl Argument {
    /// The name of an option without its dashes, or of a file, as the help shows it.
    pub fn name(self) -> &'static str
        ensures { result.now ≡ name_of self }
    {
        match self {
            Argument::Model => "MODEL",
            Argument::Table => "TABLE",
            Argument::TableProof => "PROOF",
            Argument::Results => "RESULTS",
            Argument::Events => "EVENTS",
            Argument::ActsFile => "FILE.acts",
            Argument::Strength | Argument::SequenceLength => "strength",
            Argument::Seeds => "seeds",
            Argument::Proof => "proof",
            Argument::ProofFormat => "proof-format",
            Argument::TableFormat | Argument::Format | Argument::FindingFormat => "format",
            Argument::Output => "output",
            Argument::Report => "check",
            Argument::Shrink => "shrink",
            Argument::Spread => "spread",
            Argument::Shuffle => "shuffle",
            Argument::Rounds => "rounds",
            Argument::Random => "random",
            Argument::Budget => "budget",
            Argument::Threads => "threads",
            Argument::All => "all",
            Argument::CaseSensitive => "case-sensitive",
            Argument::Separator => "separator",
            Argument::AliasSeparator => "alias-separator",
            Argument::InvalidMark => "invalid-mark",
            Argument::Delimiter => "delimiter",
            Argument::ResultColumn => "result",
            Argument::NoWarnings => "no-warnings",
            Argument::Quiet => "quiet",
        }
    }

    // The short letter of an option.
    fn letter(self) -> Option<char>
        ensures { result ≡ letter_of self }
    {
        match self {
            Argument::Strength | Argument::SequenceLength => Some('t'),
            Argument::Proof => Some('p'),
            Argument::TableFormat | Argument::Format | Argument::FindingFormat => Some('f'),
            Argument::Output => Some('o'),
            Argument::Quiet => Some('q'),
            _ => None,
        }
    }

    // What the argument is on the command line.
    pub(crate) fn kind(self) -> ArgumentKind
        ensures { result ≡ kind_of self }
    {
        match self {
            Argument::Model
            | Argument::Table
            | Argument::Results
            | Argument::Events
            | Argument::ActsFile => ArgumentKind::File,
            Argument::TableProof => ArgumentKind::OptionalFile,
            Argument::Shrink
            | Argument::Spread
            | Argument::All
            | Argument::CaseSensitive
            | Argument::NoWarnings
            | Argument::Quiet => ArgumentKind::Flag,
            _ => ArgumentKind::Value,
        }
    }

    // What the help shows for the value of an option.
    fn value_name(self) -> &'static str {
        match self {
            Argument::Strength => "N|max",
            Argument::SequenceLength => "2|3",
            Argument::Seeds | Argument::Proof | Argument::Output | Argument::Report => "FILE",
            Argument::ProofFormat => "1|2",
            Argument::TableFormat => "tsv|csv|json|markdown",
            Argument::Format => "tsv|csv|json|markdown|text|html",
            Argument::FindingFormat => "text|json",
            Argument::Separator | Argument::AliasSeparator | Argument::InvalidMark => "C",
            Argument::Delimiter => "tab|comma",
            Argument::ResultColumn => "NAME",
            _ => "N",
        }
    }

    // What a value has to be.
    pub(crate) fn wanted(self) -> &'static str {
        match self {
            Argument::Model | Argument::Table | Argument::Results => "a file name, or '-'",
            Argument::Strength => "a number from 1 to 256, or max",
            Argument::SequenceLength => "2 or 3",
            Argument::ProofFormat => "1 or 2",
            Argument::TableFormat => "tsv, csv, json or markdown",
            Argument::Format => "tsv, csv, json, markdown, text or html",
            Argument::FindingFormat => "text or json",
            Argument::Delimiter => "tab or comma",
            Argument::ResultColumn => "the name of a column",
            Argument::Separator | Argument::AliasSeparator | Argument::InvalidMark => {
                "one ASCII character that is no letter, digit or blank and none of \
                 \" # ( ) : < > @ [ \\ ] { }"
            }
            Argument::Shuffle | Argument::Random => "a number from 0 to 18446744073709551615",
            Argument::Rounds => "a number from 0 to 1099511627776",
            Argument::Budget => "a number from 1 to 1099511627776",
            Argument::Threads => "a number from 1 to 64",
            _ => "a file name other than '-'",
        }
    }

    // The argument as messages show it.
    pub(crate) fn shown(self, alloc: Global) -> Result<String, AllocError> {
        let name = self.name();
        let value = self.value_name();
        match self.kind() {
            ArgumentKind::Value => format!(in alloc; "--{name} <{value}>"),
            ArgumentKind::Flag => format!(in alloc; "--{name}"),
            ArgumentKind::File | ArgumentKind::OptionalFile => format!(in alloc; "<{name}>"),
        }
    }

    // What the help says of the argument.
    fn help(self) -> &'static str {
        match self {
            Argument::Model => "The model file; `-` is standard input",
            Argument::Table => "The table of tests; `-` is standard input",
            Argument::TableProof => "The proof file of the table; none counts as an empty one",
            Argument::Results => "The table of tests with their results; `-` is standard input",
            Argument::Events => "The file of events",
            Argument::ActsFile => "The file in the form of ACTS",
            Argument::Strength => "How many parameters are combined [default: 2]",
            Argument::SequenceLength => "How many events a sequence has [default: 2]",
            Argument::Seeds => "A table of seed tests, whole or partial",
            Argument::Proof => "Write the proof file",
            Argument::ProofFormat => "The format of the proof file [default: 1]",
            Argument::TableFormat => "The form of the table [default: tsv]",
            Argument::Format => "The form of the output [default: text]",
            Argument::FindingFormat => "The form of the findings [default: text]",
            Argument::Output => "Write this file instead of standard output",
            Argument::Report => "Check this report instead of generating one",
            Argument::Shrink => "Look for fewer tests with the same coverage",
            Argument::Spread => "Vary the values of cells that no combination needs",
            Argument::Shuffle => "Shuffle the values by this number",
            Argument::Rounds => {
                "How many moves are tried for each number of tests [default: 10000]"
            }
            Argument::Random => "The number of the random choices [default: 0]",
            Argument::Budget => {
                "How many nodes the search may visit for one query [default: no bound]"
            }
            Argument::Threads => "How many threads there are at most [default: 1]",
            Argument::All => "Look for constraints that never exclude a test too",
            Argument::CaseSensitive => "Names that differ in case alone are different",
            Argument::Separator => "The delimiter between values [default: ,]",
            Argument::AliasSeparator => "The delimiter between the names of a value [default: |]",
            Argument::InvalidMark => "The prefix of an invalid value [default: ~]",
            Argument::Delimiter => {
                "What stands between the cells of a table that is read [default: comma where its \
                 name ends with .csv, else tab]"
            }
            Argument::ResultColumn => {
                "The column of RESULTS that says pass, fail or skip [default: :result]"
            }
            Argument::NoWarnings => "Print no warnings",
            Argument::Quiet => "Don't print the line that sums up",
        }
    }

    // The argument as `clap` takes it.
    pub(crate) fn arg<'a>(self, alloc: Global) -> Arg<'a>
        ensures rule { rule_of result ≡ rule_of_argument self }
        ensures local { result.global ≡ false }
    {
        let name: &'a str = self.name();
        let help: &'a str = self.help();
        let value_name: &'a str = self.value_name();
        let arg = Arg::new(alloc, name).help(help);
        match self.kind() {
            ArgumentKind::File => arg.required(true),
            ArgumentKind::OptionalFile => arg,
            ArgumentKind::Value => {
                with_letter(arg.long(name).value_name(value_name), self.letter())
            }
            ArgumentKind::Flag => {
                with_letter(arg.long(name).action(ArgAction::SetTrue), self.letter())
            }
        }
    }
}

// An option with its short letter, if it has one.
fn with_letter<'a>(arg: Arg<'a>, letter: Option<char>) -> Arg<'a>
    requires { arg.short ≡ None }
    ensures rule { rule_of result ≡ record (rule_of arg.entry) { short = letter } }
    ensures local { result.global ≡ arg.entry.global }
{
    match letter {
        Some(letter) => arg.short(letter),
        None => arg,
    }
}
