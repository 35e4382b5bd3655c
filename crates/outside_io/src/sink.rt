ghost use Rattle.std.specs.Prelude.{◌≡◌};
ghost use Rattle.outside_io.specs.believed.Seen.{SinkSeen};
ghost use Rattle.outside_io.specs.believed.Puts.{Puts};

use crate::answers::WriteAnswer;

/// Takes bytes, one piece after another. It may tell the bytes written and the room left, counts its
/// faults, and tells a reader that has gone away from other faults.
pub trait Sink {
    /// What the sink tells: the bytes written, the room left, and the faults so far.
    ghost seen: { Self → SinkSeen };

    /// Appends bytes. Takes no memory of the caller.
    ///
    /// After `Failed` a prefix of the bytes was appended. A sink that tells its room fails exactly
    /// where the bytes are more than the room.
    fn put(&mut self, bytes: &[u8]) -> WriteAnswer
        ensures { Puts result (seen self.old) (seen self.new) bytes.now };

    /// Whether the last call of `put` that failed did so since the reader of the bytes had gone away,
    /// as that of a pipe may. Takes no memory.
    fn is_gone(&self) -> bool
        ensures { result ≡ (seen self.now).gone };
}
