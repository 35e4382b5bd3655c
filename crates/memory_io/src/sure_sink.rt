ghost use Rattle.std.specs.Prelude.{◌≡◌, ℕ, ◌+◌, ◌-◌, ◌^◌, min, length, None, false};

use outside_io::{Sink, WriteAnswer};
use std::marker::Model;

/// A sink that takes every byte and keeps none. It tells neither bytes nor room, and never fails.
/// Contracts see the number of bytes taken, which ends at 2^64 - 1.
#[derive(Drop)]
pub struct SureSink {
    taken: u64,
}

impl Model for SureSink {
    ghost Value = { ℕ };

    ghost view = { λ sink. sink.taken };
}

impl SureSink {
    /// A sink that has taken nothing. Takes no memory.
    pub fn new() -> SureSink
        ensures { result ≡ 0 }
    {
        SureSink { taken: 0 }
    }

    /// The number of bytes taken.
    pub fn taken(&self) -> u64
        ensures { result ≡ self.now }
    {
        self.taken
    }
}

impl Sink for SureSink {
    ghost seen = { λ _. record { written = None; room = None; faults = 0; gone = false } };

    fn put(&mut self, bytes: &[u8]) -> WriteAnswer
        ensures done { result ≡ WriteAnswer.Done }
        ensures taken { self.new ≡ min (self.old + length bytes.now) (2 ^ 64 - 1) }
    {
        self.taken = self.taken.saturating_add(bytes.len() as u64);
        WriteAnswer::Done
    }

    fn is_gone(&self) -> bool {
        false
    }
}
