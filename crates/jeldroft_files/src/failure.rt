ghost use Rattle.std.specs.Prelude.{◌≡◌};
ghost use Rattle.jeldroft_files.specs.believed.Failures as statuses;

use crate::refused_model::RefusedModel;
use comma_rows::CommaFault;
use command_line::Stop;
use value_text::{NoMemory, Text};

/// Why a command ends without what it is asked for.
#[derive(Drop)]
pub enum Cause {
    /// As a run of `pict` stops.
    Stop(Stop),
    /// A table is no text of comma-separated values (RFC 4180).
    Comma(CommaFault),
}

/// Why a command ends without what it is asked for, and which file it is about.
#[derive(Drop)]
pub struct Failure<'n> {
    /// The name of the file; empty where it is about none.
    pub file: &'n str,
    /// The cause.
    pub cause: Cause,
    /// The model file, where what it holds is refused: so what is told can show the place.
    pub refused: Option<RefusedModel>,
    /// The name of the parameter that has no column in a table, where that is the cause.
    pub column: Option<Text>,
}

impl Cause {
    /// The exit status: 3 where memory, a read or a write failed, 2 where something that was given is wrong.
    pub fn status(&self) -> u8
        ensures { result ≡ statuses.status_of self.now }
    {
        match self {
            Cause::Stop(
                Stop::OutOfMemory
                | Stop::CannotRead(_)
                | Stop::CannotWrite(_)
                | Stop::CannotWriteReport,
            ) => 3,
            Cause::Stop(_) | Cause::Comma(_) => 2,
        }
    }
}

impl<'n> Failure<'n> {
    /// A stop that is about the file of this name.
    pub fn at(file: &'n str, stop: Stop) -> Failure<'n>
        ensures file { result.file.now ≡ file.now }
        ensures cause { result.cause ≡ Cause.Stop stop }
    {
        Failure {
            file,
            cause: Cause::Stop(stop),
            refused: None,
            column: None,
        }
    }

    /// The same failure, with the name of the parameter that has no column, if there is one.
    pub fn naming(self, column: Option<Text>) -> Failure<'n>
        ensures file { result.file.now ≡ self.entry.file.now }
        ensures cause { result.cause ≡ self.entry.cause }
    {
        Failure {
            file: self.file,
            cause: self.cause,
            refused: self.refused,
            column,
        }
    }

    /// The same failure, with the model file that is refused.
    pub fn showing(self, refused: RefusedModel) -> Failure<'n>
        ensures file { result.file.now ≡ self.entry.file.now }
        ensures cause { result.cause ≡ self.entry.cause }
    {
        Failure {
            file: self.file,
            cause: self.cause,
            refused: Some(refused),
            column: self.column,
        }
    }
}

impl<'n> From<NoMemory> for Failure<'n> {
    ghost use Rattle.command_line.specs.declared.stop.Stop.TheVariants.{OutOfMemory};
    ghost use Rattle.jeldroft_files.specs.declared.failure.Cause.TheVariants as causes;

    ghost from_gives = { λ _ failure. failure.cause ≡ causes.Stop OutOfMemory };

    fn from(_refused: NoMemory) -> Failure<'n> {
        Failure::at("", Stop::OutOfMemory)
    }
}
