ghost use Rattle.std.specs.Prelude.{◌≡◌};
ghost use Rattle.jeldroft_shrink.specs.believed.Causes as statuses;
ghost use Rattle.jeldroft_shrink.specs.believed.Reading.{stops_by};

use crate::named::Named;
use command_line::Stop;
use cov_model::RowWhy;
use jeldroft_files::{Cause, Failure, RefusedModel};
use value_text::NoMemory;

/// Why `shrink` gives no table.
#[derive(Drop)]
pub enum ShrinkCause {
    /// As each command may end that reads files.
    Files(Cause),
    /// What is asked for is no table, but words or a page.
    NoTable,
    /// The table has so many rows, more than 65,533.
    TooManyRows(u64),
    /// The row in this line of the table leaves a parameter without a value.
    Incomplete(u32),
    /// The row in this line of the table isn't valid, and this is why.
    Invalid(u32, RowWhy),
}

/// Why `shrink` gives no table, and which file it is about.
#[derive(Drop)]
pub(crate) struct ShrinkFailure<'n> {
    /// The name of the file; empty where it is about none.
    pub file: &'n str,
    /// The cause.
    pub cause: ShrinkCause,
    /// The model file, where what it holds is refused.
    pub refused: Option<RefusedModel>,
    /// What the line names that says so.
    pub named: Named,
}

impl ShrinkCause {
    /// The exit status: 3 where memory, a read or a write failed, 2 where something that was given is wrong.
    pub fn status(&self) -> u8
        ensures { result ≡ statuses.status_of self.now }
    {
        match self {
            ShrinkCause::Files(cause) => cause.status(),
            ShrinkCause::NoTable
            | ShrinkCause::TooManyRows(_)
            | ShrinkCause::Incomplete(_)
            | ShrinkCause::Invalid(..) => 2,
        }
    }
}

impl<'n> ShrinkFailure<'n> {
    // A stop that is about the file of this name.
    pub(crate) fn stop(file: &'n str, stop: Stop) -> ShrinkFailure<'n>
        ensures { result.cause ≡ stops_by stop }
    {
        ShrinkFailure {
            file,
            cause: ShrinkCause::Files(Cause::Stop(stop)),
            refused: None,
            named: Named::Nothing,
        }
    }

    // The same failure, which names this.
    pub(crate) fn naming(self, named: Named) -> ShrinkFailure<'n>
        ensures { result.cause ≡ self.entry.cause }
    {
        ShrinkFailure {
            file: self.file,
            cause: self.cause,
            refused: self.refused,
            named,
        }
    }
}

impl<'n> From<Failure<'n>> for ShrinkFailure<'n> {
    ghost use Rattle.jeldroft_shrink.specs.declared.cause.ShrinkCause.TheVariants as causes;

    ghost from_gives = { λ failure given. given.cause ≡ causes.Files failure.cause };

    fn from(failure: Failure<'n>) -> ShrinkFailure<'n> {
        ShrinkFailure {
            file: failure.file,
            cause: ShrinkCause::Files(failure.cause),
            refused: failure.refused,
            named: Named::of_column(failure.column),
        }
    }
}

impl<'n> From<NoMemory> for ShrinkFailure<'n> {
    ghost use Rattle.command_line.specs.declared.stop.Stop.TheVariants as stops;
    ghost use Rattle.jeldroft_shrink.specs.believed.Reading.{stops_by};

    ghost from_gives = { λ _ given. given.cause ≡ stops_by stops.OutOfMemory };

    fn from(_refused: NoMemory) -> ShrinkFailure<'n> {
        ShrinkFailure::stop("", Stop::OutOfMemory)
    }
}
