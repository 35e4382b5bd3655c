ghost use Rattle.std.specs.Prelude.{◌≡◌};
ghost use Rattle.outside_io.specs.believed.Puts.{Puts};
ghost use Rattle.definitions.specs.believed.Statistics.{number_line, numbers_line, statistics_text, figures_text};
ghost use Rattle.row_text.specs.Buffering.{Adds};
ghost use Rattle.row_text.specs.Told.{statistics_seen, figures_seen};

use crate::figures::{Figures, Stats};
use crate::lines_out::LinesOut;
use itoa::Buffer;
use outside_io::{Sink, WriteAnswer};

/// Writes a line with a label and a number. Takes no memory.
pub fn put_number<O: Sink>(label: &str, number: u64, lines: &mut LinesOut, out: &mut O)
    ensures { Adds lines.old (O.seen out.old) lines.new (O.seen out.new) (number_line label.now number) }
{
    let mut digits = Buffer::new();
    lines.add(label.as_bytes(), out);
    lines.add(digits.format(number).as_bytes(), out);
    lines.add(b"\n", out);
}

/// Writes a line with a label and two numbers.
fn put_numbers<O: Sink>(label: &str, number: u64, total: u64, lines: &mut LinesOut, out: &mut O)
    ensures { Adds lines.old (O.seen out.old) lines.new (O.seen out.new) (numbers_line label.now number total) }
{
    let mut digits = Buffer::new();
    let mut total_digits = Buffer::new();
    lines.add(label.as_bytes(), out);
    lines.add(digits.format(number).as_bytes(), out);
    lines.add(b" of ", out);
    lines.add(total_digits.format(total).as_bytes(), out);
    lines.add(b"\n", out);
}

/// Writes the statistics of a generated suite (PICT's guide), a line for each number.
///
/// `Done` where all lines were put, `Failed` where the sink reported a fault: then a prefix of them was.
/// Takes no memory.
pub fn put_stats<O: Sink>(stats: &Stats, out: &mut O) -> WriteAnswer
    ensures { Puts result (O.seen out.old) (O.seen out.new) (statistics_text (statistics_seen stats.now)) }
{
    let mut lines = LinesOut::new();
    put_number("Demanded sets: ", stats.sets, &mut lines, out);
    put_number("Demanded tuples: ", stats.tuples, &mut lines, out);
    put_number("Omitted tuples: ", stats.omitted, &mut lines, out);
    put_number("Kept seeds: ", stats.kept, &mut lines, out);
    put_number("Generated tests: ", stats.tests, &mut lines, out);
    lines.answer()
}

/// Writes the figures of a given suite (NIST IR 7878), a line for each.
///
/// `Done` where all lines were put, `Failed` where the sink reported a fault: then a prefix of them was.
/// Takes no memory.
pub fn put_figures<O: Sink>(figures: &Figures, out: &mut O) -> WriteAnswer
    ensures { Puts result (O.seen out.old) (O.seen out.new) (figures_text (figures_seen figures.now)) }
{
    let sets = figures.sets;
    let mut lines = LinesOut::new();
    put_number("Tests: ", figures.tests, &mut lines, out);
    put_number("Incomplete tests: ", figures.incomplete, &mut lines, out);
    put_number("Invalid tests: ", figures.invalid, &mut lines, out);
    put_number("Demanded sets: ", sets, &mut lines, out);
    put_number("Demanded tuples: ", figures.tuples, &mut lines, out);
    put_numbers(
        "Covered tuples: ",
        figures.covered,
        figures.servable,
        &mut lines,
        out,
    );
    put_numbers("Complete sets: ", figures.complete, sets, &mut lines, out);
    put_numbers("Sets at 75 percent: ", figures.at75, sets, &mut lines, out);
    put_numbers("Sets at 50 percent: ", figures.at50, sets, &mut lines, out);
    put_numbers("Sets at 25 percent: ", figures.at25, sets, &mut lines, out);
    lines.answer()
}
