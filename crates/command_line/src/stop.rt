ghost use Rattle.std.specs.Prelude.{◌≡◌, []};
ghost use Rattle.outside_io.specs.believed.Puts.{Puts};
ghost use Rattle.definitions.specs.believed.Diagnostics.{count_limit_line, counted_name, model_line, no_column_line, spent_line};
ghost use Rattle.definitions.specs.believed.Limits.{most_counted};
ghost use Rattle.model_lex.specs.believed.Codes.{diag_code, diag_text};
ghost use Rattle.command_line.specs.Pieces.{row_line, spent_opening};
ghost use Rattle.command_line.specs.believed.Stops.{counted, line_of, rows_line, status_of};

use crate::files::{FileKind, FileNames};
use crate::lines::{put_limit, put_model_line, put_too_long, put_word};
use crate::put::put_pairs;
use cov_model::{ParamNo, Tuple};
use itoa::Buffer;
use model_lex::{Diag, LimitName, ModelFault};
use outside_io::{Sink, WriteAnswer, put_pieces};
use row_text::RowsFault;
use tuple_index::PlanFault;
use value_text::NoMemory;

/// What there may be only so many of.
#[derive(Debug, Drop, Clone, Copy, PartialEq, Eq)]
pub enum Quantity {
    /// A part of a model.
    Part(LimitName),
    /// Choices of demanded sets.
    DemandedSets,
    /// Demanded tuples.
    DemandedTuples,
    /// Rows of a file of rows.
    Rows,
    /// Failing tests, each with every set of parameters that may explain it.
    SuspectCandidates,
}

impl Quantity {
    // What it is called.
    fn name(self) -> &'static str
        ensures { result.now ≡ counted_name (counted self) }
    {
        match self {
            Quantity::Part(LimitName::Params) => "parameters",
            Quantity::Part(LimitName::Values) => "values",
            Quantity::Part(LimitName::Names) => "names",
            Quantity::Part(LimitName::Rules) => "constraints",
            Quantity::DemandedSets => "demanded sets",
            Quantity::DemandedTuples => "demanded tuples",
            Quantity::Rows => "rows",
            Quantity::SuspectCandidates => "suspect candidates",
        }
    }

    // The most there may be.
    fn most(self) -> u64
        ensures { result ≡ most_counted (counted self) }
    {
        match self {
            Quantity::Part(limit) => limit.most(),
            Quantity::DemandedSets => 1 << 20,
            Quantity::DemandedTuples => 1 << 26,
            Quantity::Rows => 1 << 20,
            Quantity::SuspectCandidates => 1 << 22,
        }
    }
}

/// Why a run ended before its output was written whole (this project's rules).
#[derive(Drop)]
pub enum Stop {
    /// Memory was refused: status 1.
    OutOfMemory,
    /// The plain cost of the question about this tuple is above this budget: status 2.
    Spent(u64, Tuple),
    /// The word of this number, from 1, has no reading: status 3.
    BadWord(u32),
    /// A line, a parameter or a group of the model file is refused: status 4.
    BadModel(Diag),
    /// A constraint of the model file is refused: status 5.
    BadConstraint(Diag),
    /// The file of rows is refused: status 6. Too many rows and want of memory aren't among these faults.
    BadRows(RowsFault),
    /// The file of results has no result column: status 6.
    NoResult,
    /// A line of the file of results tells neither pass nor fail: status 6.
    BadResult(u32),
    /// The file of this kind could not be read: status 7.
    CannotRead(FileKind),
    /// The file of this kind could not be written whole: status 8.
    CannotWrite(FileKind),
    /// The output could not be written whole: status 8.
    CannotWriteReport,
    /// There are so many of something, above its limit: status 9.
    TooMany(Quantity, u64),
    /// The file of this kind has too many bytes: status 9.
    TooLong(FileKind),
}

impl From<NoMemory> for Stop {
    ghost use Rattle.command_line.specs.declared.stop.Stop.TheVariants as stops;

    ghost from_gives = { λ _ stop. stop ≡ stops.OutOfMemory };

    fn from(_refused: NoMemory) -> Stop {
        Stop::OutOfMemory
    }
}

impl From<ModelFault> for Stop {
    ghost use Rattle.command_line.specs.believed.Stops.{stop_of_model};

    ghost from_gives = { λ fault stop. stop ≡ stop_of_model fault };

    fn from(fault: ModelFault) -> Stop {
        match fault {
            ModelFault::Bad(diag) => Stop::BadModel(diag),
            ModelFault::BadRule(diag) => Stop::BadConstraint(diag),
            ModelFault::Limit(limit, count) => Stop::TooMany(Quantity::Part(limit), count),
            ModelFault::NoMemory => Stop::OutOfMemory,
        }
    }
}

impl From<PlanFault> for Stop {
    ghost use Rattle.command_line.specs.believed.Stops.{stop_of_plan};

    ghost from_gives = { λ fault stop. stop ≡ stop_of_plan fault };

    fn from(fault: PlanFault) -> Stop {
        match fault {
            PlanFault::TooManySets(count) => Stop::TooMany(Quantity::DemandedSets, count),
            PlanFault::TooManyTuples(count) => Stop::TooMany(Quantity::DemandedTuples, count),
            PlanFault::NoMemory => Stop::OutOfMemory,
        }
    }
}

impl From<RowsFault> for Stop {
    ghost use Rattle.command_line.specs.Stops.{stop_of_rows};

    ghost from_gives = { λ fault stop. stop ≡ stop_of_rows fault };

    fn from(fault: RowsFault) -> Stop {
        match fault {
            RowsFault::TooManyRows(count) => Stop::TooMany(Quantity::Rows, count),
            RowsFault::NoMemory => Stop::OutOfMemory,
            fault => Stop::BadRows(fault),
        }
    }
}

// Writes the line of a limit.
fn put_count<E: Sink>(quantity: Quantity, count: u64, sink: &mut E) -> WriteAnswer
    ensures { Puts result (E.seen sink.old) (E.seen sink.new) (count_limit_line (counted quantity) count) }
{
    put_limit(quantity.name(), count, quantity.most(), sink)
}

// Writes the line of a refusal of the model file.
fn put_diag<E: Sink>(diag: &Diag, sink: &mut E) -> WriteAnswer
    ensures { Puts result (E.seen sink.old) (E.seen sink.new) (model_line diag.now.line (diag_code diag.now.code) (diag_text diag.now.code)) }
{
    put_model_line(diag.line, diag.code.code(), diag.code.text(), sink)
}

// Writes the line of a refusal of a file of rows at a line, by the text behind the line's number.
fn put_row_line<E: Sink>(line: u32, text: &str, sink: &mut E) -> WriteAnswer
    ensures { Puts result (E.seen sink.old) (E.seen sink.new) (row_line line text.now) }
{
    let mut buffer = Buffer::new();
    let line = buffer.format(line);
    put_pieces(sink, &["error: row file line ", line, text])
}

// Writes the line of a file of rows that has no column for a parameter.
fn put_no_column<E: Sink>(parameter: ParamNo, sink: &mut E) -> WriteAnswer
    ensures { Puts result (E.seen sink.old) (E.seen sink.new) (no_column_line parameter) }
{
    let mut buffer = Buffer::new();
    let number = buffer.format(parameter);
    put_pieces(
        sink,
        &["error: row file: F3 no column for parameter ", number, "\n"],
    )
}

// Writes the line of a refusal of a file of rows.
fn put_rows_fault<E: Sink>(fault: RowsFault, sink: &mut E) -> WriteAnswer
    ensures { Puts result (E.seen sink.old) (E.seen sink.new) (rows_line fault) }
{
    match fault {
        RowsFault::NoHeader => put_pieces(sink, &["error: row file: F1 no header\n"]),
        RowsFault::Twice(line) => put_row_line(line, ": F2 parameter in two columns\n", sink),
        RowsFault::Missing(parameter) => put_no_column(parameter, sink),
        RowsFault::Width(line) => put_row_line(line, ": F4 more cells than the header\n", sink),
        RowsFault::TooManyRows(count) => put_count(Quantity::Rows, count, sink),
        RowsFault::NoMemory => put_pieces(sink, &["error: out of memory\n"]),
    }
}

// Writes how the line of a question whose plain cost is above the budget begins.
fn put_opening<E: Sink>(budget: u64, sink: &mut E) -> WriteAnswer
    ensures { Puts result (E.seen sink.old) (E.seen sink.new) (spent_opening budget) }
{
    let mut buffer = Buffer::new();
    let number = buffer.format(budget);
    put_pieces(sink, &["error: search budget ", number, " spent on "])
}

// Writes the line of a question whose plain cost is above the budget.
fn put_spent<E: Sink>(budget: u64, question: &Tuple, sink: &mut E) -> WriteAnswer
    ensures { Puts result (E.seen sink.old) (E.seen sink.new) (spent_line budget question.now) }
{
    match put_opening(budget, sink) {
        WriteAnswer::Done => {}
        WriteAnswer::Failed => return WriteAnswer::Failed,
    }
    match put_pairs(sink, question.as_slice()) {
        WriteAnswer::Done => put_pieces(sink, &["\n"]),
        WriteAnswer::Failed => WriteAnswer::Failed,
    }
}

impl Stop {
    /// The exit status of a run that ended so.
    pub fn status(&self) -> u8
        ensures { result ≡ status_of self.now }
    {
        match self {
            Stop::OutOfMemory => 1,
            Stop::Spent(..) => 2,
            Stop::BadWord(_) => 3,
            Stop::BadModel(_) => 4,
            Stop::BadConstraint(_) => 5,
            Stop::BadRows(_) | Stop::NoResult | Stop::BadResult(_) => 6,
            Stop::CannotRead(_) => 7,
            Stop::CannotWrite(_) | Stop::CannotWriteReport => 8,
            Stop::TooMany(..) | Stop::TooLong(_) => 9,
        }
    }

    /// Writes the line that says why, where the files have these names. Takes no memory.
    pub fn put_line<E: Sink>(&self, names: &FileNames<'_>, diag: &mut E) -> WriteAnswer
        ensures { Puts result (E.seen diag.old) (E.seen diag.new) (line_of self.now names.now) }
    {
        match self {
            Stop::OutOfMemory => put_pieces(diag, &["error: out of memory\n"]),
            Stop::Spent(budget, question) => put_spent(*budget, question, diag),
            Stop::BadWord(index) => put_word(*index, diag),
            Stop::BadModel(refusal) => put_diag(refusal, diag),
            Stop::BadConstraint(refusal) => put_diag(refusal, diag),
            Stop::BadRows(fault) => put_rows_fault(*fault, diag),
            Stop::NoResult => put_pieces(diag, &["error: row file: F5 no result column\n"]),
            Stop::BadResult(line) => put_row_line(*line, ": F6 neither pass nor fail\n", diag),
            Stop::CannotRead(kind) => put_pieces(
                diag,
                &["error: cannot read ", names.of(*kind), "\n"],
            ),
            Stop::CannotWrite(kind) => put_pieces(
                diag,
                &["error: cannot write ", names.of(*kind), "\n"],
            ),
            Stop::CannotWriteReport => put_pieces(diag, &["error: cannot write the report\n"]),
            Stop::TooMany(quantity, count) => put_count(*quantity, *count, diag),
            Stop::TooLong(kind) => put_too_long(*kind, diag),
        }
    }
}
