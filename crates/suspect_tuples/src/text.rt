ghost use Rattle.definitions.specs.believed.Pairs.{pair_text, pairs_text};
ghost use Rattle.outside_io.specs.believed.Puts.{Puts};
ghost use Rattle.row_text.specs.Buffering.{Adds};
ghost use Rattle.std.specs.Prelude.{◌∷◌, flat_map, map};
ghost use Rattle.suspect_tuples.specs.believed.SuspectsText.{suspect_line, suspects_text};
ghost use Rattle.suspect_tuples.specs.Told.{found_seen, suspects_seen};

use crate::suspect_list::{Found, Suspects};
use cov_model::{ParamNo, ValueNo};
use itoa::Buffer;
use outside_io::{Sink, WriteAnswer};
use row_text::{LinesOut, put_number};

// Writes a pair of a parameter and a value.
fn put_pair<O: Sink>(pair: (ParamNo, ValueNo), lines: &mut LinesOut, out: &mut O)
    ensures { Adds lines.old (O.seen out.old) lines.new (O.seen out.new) (pair_text pair) }
{
    let mut param = Buffer::new();
    let mut value = Buffer::new();
    lines.add(param.format(pair.0).as_bytes(), out);
    lines.add(b"=", out);
    lines.add(value.format(pair.1).as_bytes(), out);
}

// Writes pairs, each behind a space.
fn put_spaced<O: Sink>(pairs: &[(ParamNo, ValueNo)], lines: &mut LinesOut, out: &mut O)
    ensures { Adds lines.old (O.seen out.old) lines.new (O.seen out.new) (flat_map (λ pair. 32 ∷ pair_text pair) pairs.now) }
{
    for pair in pairs {
        lines.add(b" ", out);
        put_pair(*pair, lines, out);
    }
}

// Writes pairs, parted by spaces.
fn put_pairs<O: Sink>(pairs: &[(ParamNo, ValueNo)], lines: &mut LinesOut, out: &mut O)
    ensures { Adds lines.old (O.seen out.old) lines.new (O.seen out.new) (pairs_text pairs.now) }
{
    let [first, rest @ ..] = pairs else {
        return;
    };
    put_pair(*first, lines, out);
    put_spaced(rest, lines, out);
}

// Writes the line of a suspicious tuple.
fn put_found<O: Sink>(found: &Found, lines: &mut LinesOut, out: &mut O)
    ensures { Adds lines.old (O.seen out.old) lines.new (O.seen out.new) (suspect_line (found_seen found.now)) }
{
    let mut digits = Buffer::new();
    lines.add(b"suspect ", out);
    put_pairs(found.tuple.as_slice(), lines, out);
    lines.add(b" : ", out);
    lines.add(digits.format(found.failing).as_bytes(), out);
    lines.add(b" failing\n", out);
}

// Writes the line of each suspicious tuple.
fn put_list<O: Sink>(list: &[Found], lines: &mut LinesOut, out: &mut O)
    ensures { Adds lines.old (O.seen out.old) lines.new (O.seen out.new) (flat_map suspect_line (map found_seen list.now)) }
{
    for found in list {
        put_found(found, lines, out);
    }
}

/// Writes the numbers of tests, and a line for each suspicious tuple (this project's rule).
///
/// `Done` where all lines were put, `Failed` where the sink reported a fault: then a prefix of them was.
/// Takes no memory.
pub fn put_suspects<O: Sink>(suspects: &Suspects, out: &mut O) -> WriteAnswer
    ensures { Puts result (O.seen out.old) (O.seen out.new) (suspects_text (suspects_seen suspects.now)) }
{
    let list = suspects.found.as_slice();
    let mut lines = LinesOut::new();
    put_number("Passing tests: ", suspects.passing, &mut lines, out);
    put_number("Failing tests: ", suspects.failing, &mut lines, out);
    put_number("Incomplete tests: ", suspects.incomplete, &mut lines, out);
    put_number("Suspicious tuples: ", list.len() as u64, &mut lines, out);
    put_list(list, &mut lines, out);
    lines.answer()
}
