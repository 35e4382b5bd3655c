ghost use Rattle.std.specs.Prelude.{◌≡◌};
ghost use Rattle.jeldroft_sequence.specs.Steps.{end_status, ended_status};

use crate::cause::SequenceCause;

/// How a run ends that wrote its text whole.
#[derive(Debug, Drop, Clone, Copy, PartialEq, Eq)]
pub(crate) enum Ended {
    /// With a report of orders, or the verdict that one is accepted.
    Whole,
    /// With the verdict that a report is refused.
    Refused,
}

impl Ended {
    /// The exit status.
    fn status(self) -> u8
        ensures { result ≡ ended_status self }
    {
        match self {
            Ended::Whole => 0,
            Ended::Refused => 1,
        }
    }
}

/// The exit status of a run that ended so.
pub(crate) fn status_of(end: &Result<Ended, SequenceCause>) -> u8
    ensures { result ≡ end_status end.now }
{
    match end {
        Ok(ended) => ended.status(),
        Err(cause) => cause.status(),
    }
}
