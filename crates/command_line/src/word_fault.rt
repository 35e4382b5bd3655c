ghost use Rattle.std.specs.Prelude.{◌≡◌, ◌+◌, ◌-◌, ◌^◌, min};

use crate::words::word_number;

/// A command line that has no reading.
#[derive(Debug, Drop, Clone, Copy, PartialEq, Eq)]
pub struct WordFault {
    /// The number of the first argument without a reading, from 1; 2^32 - 1 stands for a greater one too.
    pub index: u32,
}

impl WordFault {
    /// The fault of the argument of this number from 0.
    pub fn at(place: usize) -> WordFault
        ensures { result.index ≡ min (place + 1) (2 ^ 32 - 1) }
    {
        WordFault {
            index: word_number(place),
        }
    }
}
