//! The reading of a table of results.
ghost use Rattle.std.specs.Prelude.{◌≡◌, ◌≤◌, ◌^◌, ◌∷◌, ◌++◌, ◌⊎◌, [], None, Some, Ok, Err, length, map, IfOk, IfErr, OnOk, if◌then◌else◌};
ghost use Rattle.suspect_tuples.specs.Results.{AreResultsOf};
ghost use Rattle.command_line.specs.declared.stop.Stop.TheVariants.{OutOfMemory};
ghost use Rattle.jeldroft_files.specs.declared.failure.Cause.TheVariants as causes;
ghost use Rattle.jeldroft_inputs.specs.Inputs.{EndsBy};
ghost use Rattle.jeldroft_suspect.specs.Due.{stop_of_fault};
ghost use Rattle.jeldroft_suspect.specs.Results.{failures, results_seen, that_ran};
ghost use Rattle.jeldroft_suspect.specs.believed.Results.{has_run, outcome_in, results_in, wordless};

use crate::cells::{result_column, word_in};
use crate::outcome::Outcome;
use cov_model::TestModel;
use row_text::{FileRow, FileRowList, FilledLines, RowFile, RowMode, read_rows};
use std::alloc::Global;
use suspect_tuples::{FlagList, ResultFile, ResultsFault};
use value_text::{NoMemory, OwnedList};

// What became of the test in each of some lines.
//
// `BadResult` with the first line that has no word in this column. `NoMemory` where memory was refused.
fn read_outcomes(
    alloc: Global,
    mut lines: FilledLines<'_>,
    column: usize,
) -> Result<OwnedList<Outcome>, ResultsFault>
    ensures outcomes { IfOk result (λ outcomes. outcomes ≡ map (outcome_in column) lines.entry) }
    ensures good { OnOk result (wordless column lines.entry ≡ None) }
    ensures bad { IfErr result (λ fault. (stop_of_fault fault ≡ OutOfMemory) ⊎ (wordless column lines.entry ≡ Some (stop_of_fault fault))) }
{
    let mut outcomes = OwnedList::new(alloc);
    while let Some(line) = lines.take_line() {
        match word_in(alloc, line.text, column)? {
            Some(outcome) => outcomes.push(outcome)?,
            None => return Err(ResultsFault::BadResult(line.number)),
        }
    }
    Ok(outcomes)
}

// Adds a copy of a test, if it ran.
fn add_row(
    alloc: Global,
    outcome: Outcome,
    row: &FileRow,
    kept: &mut FileRowList,
) -> Result<(), NoMemory>
    ensures { OnOk result (kept.new ≡ kept.old ++ (if has_run outcome then row.now ∷ [] else [])) }
{
    if outcome.has_run() {
        let cells = row.cells.copy(alloc)?;
        kept.push(FileRow {
            line: row.line,
            cells,
        })?;
    }
    Ok(())
}

// The tests that ran.
fn rows_that_ran(
    alloc: Global,
    rows: &[FileRow],
    outcomes: &[Outcome],
) -> Result<FileRowList, NoMemory>
    requires { length rows.now ≡ length outcomes.now }
    ensures { IfOk result (λ kept. kept ≡ that_ran rows.now outcomes.now) }
{
    let mut kept = FileRowList::new(alloc);
    for place in 0..rows.len() {
        add_row(alloc, outcomes[place], &rows[place], &mut kept)?;
    }
    Ok(kept)
}

// Of each test that ran whether it failed.
fn failures(alloc: Global, outcomes: &[Outcome]) -> Result<FlagList, NoMemory>
    ensures { IfOk result (λ failed. failed ≡ failures outcomes.now) }
{
    let mut failed = FlagList::new(alloc);
    for outcome in outcomes {
        if outcome.has_run() {
            failed.push(outcome.has_failed())?;
        }
    }
    Ok(failed)
}

// The tests that ran, with their results, where this became of each.
fn results_with(alloc: Global, file: RowFile, outcomes: &[Outcome]) -> Result<ResultFile, NoMemory>
    requires { length file.rows ≡ length outcomes.now }
    ensures { IfOk result (λ results. (results.rows.rows ≡ that_ran file.rows outcomes.now) × (results.failed ≡ failures outcomes.now)) }
{
    let rows = rows_that_ran(alloc, file.rows.as_slice(), outcomes)?;
    let failed = failures(alloc, outcomes)?;
    let rows = RowFile {
        rows,
        notes: file.notes,
    };
    Ok(ResultFile { rows, failed })
}

/// The tests of a table of results that ran, with their results: the column of this name, under the case rule of the
/// model, has a word for each. The table may have at most 2^28 bytes. The notes are those on all of its cells.
///
/// # Errors
///
/// The first of these: `Rows` where it is no table of tests of the model; `NoResult` where no column has the name;
/// `BadResult` with the first line that has no word for a result there. `NoMemory` where memory was refused.
pub(crate) fn read_results(
    alloc: Global,
    bytes: &[u8],
    name: &str,
    model: &TestModel,
) -> Result<ResultFile, ResultsFault>
    requires { length bytes.now ≤ 2 ^ 28 }
    ensures results { IfOk result (λ file. results_in model.now name.now bytes.now ≡ Ok (results_seen file)) }
    ensures fit { IfOk result (AreResultsOf model.now) }
    ensures refused { IfErr result (λ fault. EndsBy (λ cause. results_in model.now name.now bytes.now ≡ Err cause) (causes.Stop (stop_of_fault fault))) }
{
    let file = read_rows(alloc, bytes, model, RowMode::Suite)?;
    let mut lines = FilledLines::new(bytes);
    let Some(header) = lines.take_line() else {
        return Err(ResultsFault::NoResult);
    };
    let Some(column) = result_column(alloc, header.text, name, model.fold())? else {
        return Err(ResultsFault::NoResult);
    };
    let outcomes = read_outcomes(alloc, lines, column)?;
    let results = results_with(alloc, file, outcomes.as_slice())?;
    Ok(results)
}
