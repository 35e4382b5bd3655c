//! What is kept of the files, so that the command can say why they aren't accepted.
ghost use Rattle.std.specs.Prelude.{◌≡◌, ◌≤◌, ◌^◌, length};
ghost use Rattle.definitions.specs.believed.Limits.{ModelFile, most_bytes};
ghost use Rattle.model_parse.specs.RawModels.{AreOpts};
ghost use Rattle.jeldroft_args.specs.Ranges.{AreMarks, IsStrength};
ghost use Rattle.jeldroft_files.specs.believed.Models as models;
ghost use Rattle.jeldroft_check.specs.Steps.{end_seen};

use crate::notes::Notes;
use crate::row_flaw::flaw_in;
use command_line::Stop;
use cov_model::TestModel;
use jeldroft_args::Check;
use jeldroft_files::{Cause, Failure, RefusedModel, TableText, missing_column, opts_of};
use jeldroft_words::ModelSource;
use model_lex::ModelOpts;
use proof_check::Verdict;
use row_text::{RowMode, read_rows};
use std::alloc::Global;
use type_check::read_model;
use value_text::Text;

// The options by which the model file is read.
fn model_opts(args: &Check) -> ModelOpts
    requires marks { AreMarks args.now.model.marks }
    requires strength { IsStrength args.now.strength }
    ensures { AreOpts result }
{
    opts_of(&args.model, args.strength)
}

// The name of the parameter that the table has no column for, where that is the cause. Where the table is refused, `read`
// gets the model.
fn column_of(
    alloc: Global,
    opts: &ModelOpts,
    model: &[u8],
    cause: &Cause,
    read: &mut Option<TestModel>,
) -> Option<Text>
    requires opts { AreOpts opts.now }
    requires model { length model.now ≤ most_bytes ModelFile }
{
    let Cause::Stop(Stop::BadRows(fault)) = cause else {
        return None;
    };
    match read_model(alloc, model, opts) {
        Ok((model, _notes)) => {
            let column = missing_column(alloc, &model, *fault);
            *read = Some(model);
            column
        }
        Err(_) => None,
    }
}

// A failure, with what there is to show of it. Where the table is refused, `read` gets the model.
fn shown<'n>(
    alloc: Global,
    args: &Check,
    failure: Failure<'n>,
    model: Vec<u8>,
    read: &mut Option<TestModel>,
) -> Failure<'n>
    requires marks { AreMarks args.now.model.marks }
    requires strength { IsStrength args.now.strength }
    requires model { length model.items ≤ most_bytes ModelFile }
    ensures { result.cause ≡ failure.entry.cause }
{
    let opts = model_opts(args);
    let column = column_of(alloc, &opts, model.as_slice(), &failure.cause, read);
    failure
        .naming(column)
        .showing(RefusedModel::new(model, opts))
}

// Keeps what there is to tell of files that aren't accepted; nothing where memory was refused.
fn note_files(
    alloc: Global,
    args: &Check,
    verdict: &Verdict,
    model: &[u8],
    table: TableText,
    notes: &mut Notes,
)
    requires marks { AreMarks args.now.model.marks }
    requires strength { IsStrength args.now.strength }
    requires model { length model.now ≤ most_bytes ModelFile }
    requires table { length table.tabs.items ≤ 2 ^ 28 }
{
    let opts = model_opts(args);
    let Ok((model, found)) = read_model(alloc, model, &opts) else {
        return;
    };
    if let Ok(tests) = read_rows(alloc, table.tabs.as_slice(), &model, RowMode::Suite) {
        if let Verdict::BadRow(line) = verdict {
            notes.flaw = flaw_in(&model, &tests, *line);
        }
        notes.files.rows = tests.notes;
    }
    notes.files.model = found;
    notes.files.table = table;
    notes.files.read = Some(model);
}

// Whether a verdict is that the files are accepted.
fn is_accepted(verdict: &Verdict) -> bool {
    match verdict {
        Verdict::Accepted(..) => true,
        Verdict::BadRow(_)
        | Verdict::BadProof(_)
        | Verdict::BadOmission(_)
        | Verdict::Uncovered(_) => false,
    }
}

/// The end of a check. Where the files aren't accepted, what there is to tell of them is kept: with a failure the model
/// file and the table, or the name of a parameter that has no column; else what there is to warn of.
pub(crate) fn explained<'n>(
    alloc: Global,
    args: &Check,
    end: Result<Verdict, Failure<'n>>,
    model: Vec<u8>,
    table: TableText,
    notes: &mut Notes,
) -> Result<Verdict, Failure<'n>>
    requires marks { AreMarks args.now.model.marks }
    requires strength { IsStrength args.now.strength }
    requires model { length model.items ≤ most_bytes ModelFile }
    requires table { length table.tabs.items ≤ 2 ^ 28 }
    ensures { end_seen result ≡ end_seen end.entry }
{
    match end {
        Ok(verdict) => {
            if !is_accepted(&verdict) {
                note_files(alloc, args, &verdict, model.as_slice(), table, notes);
                notes.files.source = Some(ModelSource {
                    bytes: model,
                    marks: model_opts(args).marks,
                });
            }
            Ok(verdict)
        }
        Err(failure) => {
            notes.files.table = table;
            Err(shown(alloc, args, failure, model, &mut notes.files.read))
        }
    }
}
