ghost use Rattle.std.specs.Prelude.{◌<◌, ◌^◌, Option, List, ℕ, length};
ghost use Rattle.feasibility.specs.Ends.{EndsBy};
ghost use Rattle.ipog_grow.specs.Suites.{IsStopped};

use crate::stop::Stop;
use cov_model::Cells;
use feasibility::{SearchFault, over_budget};
use std::alloc::Global;

// The fault of a run that stopped, at this question where it costs more than it may.
pub(crate) fn fault_of(alloc: Global, stop: Stop, question: &Cells) -> SearchFault
    requires { length question.now < 2 ^ 16 }
    ensures { (over : Option (List (Option ℕ))) → IsStopped stop question.now over → EndsBy over result }
{
    match stop {
        Stop::Spent => over_budget(alloc, question),
        Stop::NoMemory => SearchFault::NoMemory,
    }
}
