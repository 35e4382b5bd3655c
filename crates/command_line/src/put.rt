ghost use Rattle.std.specs.Prelude.{map};
ghost use Rattle.std.specs.List.{join_with_byte};
ghost use Rattle.outside_io.specs.believed.Puts.{Puts};
ghost use Rattle.definitions.specs.believed.Pairs.{pair_text, pairs_text};
ghost use Rattle.command_line.specs.Pieces.{pair_behind};

use cov_model::{ParamNo, ValueNo};
use itoa::Buffer;
use outside_io::{Sink, WriteAnswer, put_pieces};

// Writes the pair at a place of a list, behind a space unless it is the first.
fn put_pair<E: Sink>(sink: &mut E, place: usize, pair: (ParamNo, ValueNo)) -> WriteAnswer
    ensures { Puts result (E.seen sink.old) (E.seen sink.new) (pair_behind place (pair.0, pair.1)) }
{
    let mut parameter = Buffer::new();
    let mut value = Buffer::new();
    let parameter = parameter.format(pair.0);
    let value = value.format(pair.1);
    if place == 0 {
        put_pieces(sink, &[parameter, "=", value])
    } else {
        put_pieces(sink, &[" ", parameter, "=", value])
    }
}

/// Writes pairs of parameter and value, parted by spaces. Takes no memory.
pub fn put_pairs<E: Sink>(sink: &mut E, pairs: &[(ParamNo, ValueNo)]) -> WriteAnswer
    ensures { Puts result (E.seen sink.old) (E.seen sink.new) (pairs_text pairs.now) }
{
    for (place, pair) in pairs.iter().enumerate() {
        match put_pair(sink, place, *pair) {
            WriteAnswer::Done => {}
            WriteAnswer::Failed => return WriteAnswer::Failed,
        }
    }
    WriteAnswer::Done
}
