ghost use Rattle.std.specs.Prelude.{◌≡◌};

use std::alloc::AllocError;
use value_text::NoMemory;

/// Why words gave no command.
#[derive(Debug, Drop)]
pub enum ArgsFault {
    /// Help or the version was asked for: this text goes to standard output, and the exit status
    /// is 0.
    Shown(String),
    /// The words are wrong: this text goes to standard error, and the exit status is 2.
    Refused(String),
    /// Out of memory.
    OutOfMemory,
}

impl From<NoMemory> for ArgsFault {
    ghost use Rattle.jeldroft_args.specs.declared.args_fault.ArgsFault.TheVariants.{OutOfMemory};

    ghost from_gives = { λ _ fault. fault ≡ OutOfMemory };

    fn from(_error: NoMemory) -> ArgsFault {
        ArgsFault::OutOfMemory
    }
}

impl From<AllocError> for ArgsFault {
    ghost use Rattle.jeldroft_args.specs.declared.args_fault.ArgsFault.TheVariants.{OutOfMemory};

    ghost from_gives = { λ _ fault. fault ≡ OutOfMemory };

    fn from(_error: AllocError) -> ArgsFault {
        ArgsFault::OutOfMemory
    }
}
