//! The command line of `jeldroft`: which commands and options there are, and what words ask for.
//!
//! - `read_args` gives what the words behind the program's name ask for, a `Command`, or an
//!   `ArgsFault`: the text to be printed, with its status. Its contract cites one definition,
//!   `settings_of` (specs/Settings): the words are read by `clap`, whose definitions say which
//!   option got which value, and each value by this crate's own reading.
//! - `overwritten` is the check that no output has the name of an input or of another output.
//!
//! Options are long, with a short letter where that is common, and stand in any place behind the
//! command; `--` ends them, and `-` is standard input for MODEL, TABLE or RESULTS, one of them.
#![tactic(auto)]

mod args_fault;
mod argument;
mod asked;
mod check;
mod command;
mod command_name;
mod delimiter;
mod format;
mod generate;
mod given;
mod import;
mod lint;
mod marks;
mod measure;
mod model_file;
mod names;
mod program;
mod proof_output;
mod read;
mod rules;
mod sequence;
mod show;
mod shrink;
mod shrinking;
mod strength;
mod suspect;

pub use args_fault::ArgsFault;
pub use argument::Argument;
pub use check::Check;
pub use command::Command;
pub use command_name::CommandName;
pub use delimiter::Delimiter;
pub use format::{FindingFormat, Format};
pub use generate::Generate;
pub use import::Import;
pub use lint::Lint;
pub use marks::Marks;
pub use measure::Measure;
pub use model_file::ModelFile;
pub use names::overwritten;
pub use proof_output::ProofOutput;
pub use read::read_args;
pub use sequence::Sequence;
pub use show::Show;
pub use shrink::Shrink;
pub use shrinking::Shrinking;
pub use strength::Strength;
pub use suspect::Suspect;
