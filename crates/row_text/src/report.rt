ghost use Rattle.std.specs.Prelude.{◌≡◌, ◌≢◌, ◌++◌, ◌+◌, ◌<◌, ◌≤◌, ℕ, List, [], ◌∷◌, Option, true, length, take, map, All, slice_index_or, if◌then◌else◌};
ghost use Rattle.std.specs.List.{join_with_byte};
ghost use Rattle.outside_io.specs.believed.Puts.{Puts};
ghost use Rattle.cov_model.specs.believed.Meaning.{value_at};
ghost use Rattle.cov_model.specs.believed.Rows.{value_in};
ghost use Rattle.cov_model.specs.believed.Sound.{IsSoundValue, param_at};
ghost use Rattle.cov_model.specs.believed.Valid.{is_row};
ghost use Rattle.definitions.specs.believed.Report.{cell_text, header_line, row_line, row_lines, report_text};
ghost use Rattle.row_text.specs.Buffering.{Adds, separator};
ghost use Rattle.row_text.specs.Turns.{AreMadeFor, IsFor, AreTurns, turns_at};

use crate::out_buffer::OutBuffer;
use crate::turns::Turns;
use cov_model::{Rows, TestModel, Value, ValueNo};
use outside_io::{Sink, WriteAnswer};

/// Writes what stands before a cell in its line.
fn put_separator<O: Sink>(place: usize, buffer: &mut OutBuffer, out: &mut O)
    ensures { Adds buffer.old (O.seen out.old) buffer.new (O.seen out.new) (separator place) }
{
    if place > 0 {
        buffer.add_byte(b'\t', out);
    }
}

/// Writes the line of the names of the parameters.
fn put_header<O: Sink>(model: &TestModel, buffer: &mut OutBuffer, out: &mut O)
    ensures { Adds buffer.old (O.seen out.old) buffer.new (O.seen out.new) (header_line model.now) }
{
    for (place, param) in model.params().as_slice().iter().enumerate() {
        put_separator(place, buffer, out);
        buffer.add(param.name.as_str().as_bytes(), out);
    }
    buffer.add_byte(b'\n', out);
}

/// The number of the value that a row gives a parameter.
fn number_given(model: &TestModel, row: &[Option<ValueNo>], place: usize) -> usize
    requires row { is_row model.now row.now ≡ true }
    requires place { place < length model.now.params }
    ensures value { result ≡ value_in row.now place }
    ensures exists { result < length (param_at model.now.params place).values }
{
    model.assert_invariant();
    let Some(value) = row[place] else {
        unreachable!()
    };
    value as usize
}

/// A value of a parameter.
fn value_of(model: &TestModel, place: usize, value: usize) -> &Value
    requires place { place < length model.now.params }
    requires value { value < length (param_at model.now.params place).values }
    ensures value { result.now ≡ value_at model.now place value }
    ensures sound { IsSoundValue model.now.prefix result.now }
{
    &model.params().as_slice()[place].values.as_slice()[value]
}

/// Writes the mark before the names of negative values, if this is one.
fn put_mark<O: Sink>(mark: u8, negative: bool, buffer: &mut OutBuffer, out: &mut O)
    ensures { Adds buffer.old (O.seen out.old) buffer.new (O.seen out.new) (if negative then mark ∷ [] else []) }
{
    if negative {
        buffer.add_byte(mark, out);
    }
}

/// Writes the value that a row gives a parameter, by the name whose turn it is.
fn put_cell<O: Sink>(
    model: &TestModel,
    rows: &Rows,
    at: usize,
    place: usize,
    turns: &mut Turns,
    out: &mut O,
)
    requires rows { All (λ row. is_row model.now row ≡ true) rows.now }
    requires at { at < length rows.now }
    requires place { place < length model.now.params }
    requires shape { IsFor model.now turns.old.next }
    requires next { AreTurns model.now (take at rows.now) place (turns_at turns.old.next place) }
    ensures text { Adds turns.old.buffer (O.seen out.old) turns.new.buffer (O.seen out.new)
        (cell_text model.now (take at rows.now) (slice_index_or rows.now at []) place) }
    ensures next { AreTurns model.now (take (at + 1) rows.now) place (turns_at turns.new.next place) }
    ensures others { (q : ℕ) → q ≢ place → turns_at turns.new.next q ≡ turns_at turns.old.next q }
    ensures shape { IsFor model.now turns.new.next }
{
    let number = number_given(model, rows.row(at), place);
    let value = value_of(model, place, number);
    let names = value.names.as_slice();
    let shown = turns.next.take(place, number, names.len());
    put_mark(model.prefix(), value.negative, &mut turns.buffer, out);
    turns.buffer.add(names[shown].as_str().as_bytes(), out);
}

/// Writes the line of a row.
fn put_row<O: Sink>(model: &TestModel, rows: &Rows, at: usize, turns: &mut Turns, out: &mut O)
    requires rows { All (λ row. is_row model.now row ≡ true) rows.now }
    requires at { at < length rows.now }
    requires shape { IsFor model.now turns.old.next }
    requires next { (p : ℕ) → p < length model.now.params → AreTurns model.now (take at rows.now) p (turns_at turns.old.next p) }
    ensures text { Adds turns.old.buffer (O.seen out.old) turns.new.buffer (O.seen out.new)
        (row_line model.now (take at rows.now) (slice_index_or rows.now at [])) }
    ensures next { (p : ℕ) → p < length model.now.params → AreTurns model.now (take (at + 1) rows.now) p (turns_at turns.new.next p) }
    ensures shape { IsFor model.now turns.new.next }
{
    for place in 0..model.params().len() {
        put_separator(place, &mut turns.buffer, out);
        put_cell(model, rows, at, place, turns, out);
    }
    turns.buffer.add_byte(b'\n', out);
}

/// Writes the lines of all rows.
fn put_rows<O: Sink>(model: &TestModel, rows: &Rows, turns: &mut Turns, out: &mut O)
    requires rows { All (λ row. is_row model.now row ≡ true) rows.now }
    requires shape { IsFor model.now turns.old.next }
    requires next { (p : ℕ) → p < length model.now.params → AreTurns model.now [] p (turns_at turns.old.next p) }
    ensures text { Adds turns.old.buffer (O.seen out.old) turns.new.buffer (O.seen out.new) (row_lines model.now [] rows.now) }
    ensures shape { IsFor model.now turns.new.next }
{
    for at in 0..rows.len() {
        put_row(model, rows, at, turns, out);
    }
}

/// Writes the report of complete rows (PICT's guide): a line with the names of the parameters, then a line for
/// each row, cells parted by tabs. The names of a value take turns, and begin with the first in each report.
///
/// `Done` where the whole report was put, `Failed` where the sink reported a fault: then a prefix of it was.
/// `turns` has to be made from the model. Takes no memory.
pub fn put_report<O: Sink>(
    model: &TestModel,
    rows: &Rows,
    turns: &mut Turns,
    out: &mut O,
) -> WriteAnswer
    requires rows { All (λ row. is_row model.now row ≡ true) rows.now }
    requires turns { AreMadeFor model.now turns.old }
    ensures puts { Puts result (O.seen out.old) (O.seen out.new) (report_text model.now rows.now) }
    ensures turns { AreMadeFor model.now turns.new }
{
    turns.clear();
    put_header(model, &mut turns.buffer, out);
    put_rows(model, rows, turns, out);
    turns.buffer.finish(out)
}
