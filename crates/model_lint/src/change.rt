ghost use Rattle.std.specs.Prelude.{◌≡◌};
ghost use Rattle.model_lint.specs.Changes.{change_at, kept_alone};

use std::alloc::Global;
use value_text::NoMemory;

// How a constraint is asked about.
#[derive(Debug, Drop, Clone, Copy, PartialEq, Eq)]
pub(crate) enum Change {
    // It demands nothing.
    LeftOut,
    // It is as it was.
    Kept,
    // It demands what it forbade.
    Opposite,
    // Its condition holds too, where it has one.
    WithPremise,
}
