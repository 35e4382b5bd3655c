ghost use Rattle.std.specs.List.{flat_map};
ghost use Rattle.outside_io.specs.believed.Puts.{Puts};

use crate::answers::WriteAnswer;
use crate::sink::Sink;

/// Writes pieces one behind another, up to the first fault. Takes no memory.
pub fn put_pieces<E: Sink>(sink: &mut E, pieces: &[&str]) -> WriteAnswer
    ensures { Puts result (E.seen sink.old) (E.seen sink.new) (flat_map (λ piece. piece.now) pieces.now) }
{
    for piece in pieces {
        match sink.put(piece.as_bytes()) {
            WriteAnswer::Done => {}
            WriteAnswer::Failed => return WriteAnswer::Failed,
        }
    }
    WriteAnswer::Done
}
