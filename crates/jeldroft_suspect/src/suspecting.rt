ghost use Rattle.std.specs.Prelude.{◌≡◌, ◌≤◌, ◌^◌, ℕ, List, Option, Some, Ok, Err, length, IfOk, IfErr};
ghost use Rattle.outside_io.specs.believed.Seen.{KeepsFiles};
ghost use Rattle.row_text.specs.RowFiles.{suite_seen};
ghost use Rattle.suspect_tuples.specs.Results.{AreResultsOf};
ghost use Rattle.suspect_tuples.specs.Told.{suspects_of, suspects_seen};
ghost use Rattle.jeldroft_inputs.specs.Inputs.{EndsBy};
ghost use Rattle.jeldroft_suspect.specs.Due as due;
ghost use Rattle.jeldroft_suspect.specs.Results.{results_seen};
ghost use Rattle.jeldroft_suspect.specs.believed.Due as believed_due;
ghost use Rattle.jeldroft_suspect.specs.believed.Due.{result_name, results_of, suspects_in};
ghost use Rattle.jeldroft_suspect.specs.believed.Results.{results_in};

use crate::reading::read_results;
use crate::refusal::refusal_of;
use crate::told::Told;
use command_line::{Quantity, Stop};
use cov_model::TestModel;
use jeldroft_args::Suspect;
use jeldroft_files::{Failure, missing_column, read_table};
use model_lex::NoteList;
use outside_io::Folder;
use std::alloc::Global;
use suspect_tuples::{ResultFile, ResultsFault, SuspectFault, Suspects, suspects};
use value_text::{NoMemory, Text, same_text};

// Why a command ends whose table of results is refused.
fn stop_of_results(fault: ResultsFault) -> Stop
    ensures { result ≡ due.stop_of_fault fault }
{
    match fault {
        ResultsFault::Rows(fault) => Stop::from(fault),
        ResultsFault::NoResult => Stop::NoResult,
        ResultsFault::BadResult(line) => Stop::BadResult(line),
        ResultsFault::NoMemory => Stop::OutOfMemory,
    }
}

// The name of the column of results.
fn result_name(args: &Suspect) -> &str
    ensures { result.now ≡ result_name args.now }
{
    match &args.result {
        Some(name) => name.as_str(),
        None => ":result",
    }
}

// The name of the parameter that has no column, where that is the fault.
fn column_of(alloc: Global, model: &TestModel, fault: &ResultsFault) -> Option<Text> {
    match fault {
        ResultsFault::Rows(fault) => missing_column(alloc, model, *fault),
        ResultsFault::NoResult | ResultsFault::BadResult(_) | ResultsFault::NoMemory => None,
    }
}

// The tests of a table that ran, with their results.
fn results_in<'n>(
    alloc: Global,
    bytes: &[u8],
    model: &TestModel,
    args: &'n Suspect,
    told: &mut Told,
) -> Result<ResultFile, Failure<'n>>
    requires { length bytes.now ≤ 2 ^ 28 }
    ensures results { IfOk result (λ file. results_in model.now (believed_due.result_name args.now) bytes.now ≡ Ok (results_seen file)) }
    ensures fit { IfOk result (AreResultsOf model.now) }
    ensures stops { IfErr result (λ failure. EndsBy (λ cause. results_in model.now (believed_due.result_name args.now) bytes.now ≡ Err cause) failure.cause) }
{
    let name = result_name(args);
    match read_results(alloc, bytes, name, model) {
        Ok(file) => Ok(file),
        Err(fault) => {
            told.refusal = refusal_of(alloc, bytes, name, model.fold(), &fault);
            let column = column_of(alloc, model, &fault);
            Err(Failure::at(args.results.as_str(), stop_of_results(fault)).naming(column))
        }
    }
}

// Those of the table that the words name.
fn results_of<'n, F: Folder>(
    alloc: Global,
    model: &TestModel,
    args: &'n Suspect,
    files: &mut F,
    told: &mut Told,
) -> Result<ResultFile, Failure<'n>>
    ensures results { IfOk result (λ file. (table : Option (List ℕ)) → (F.seen files.old).files args.now.results ≡ Some table →
        results_of args.now model.now table ≡ Ok (results_seen file)) }
    ensures fit { IfOk result (AreResultsOf model.now) }
    ensures stops { IfErr result (λ failure. (table : Option (List ℕ)) → (F.seen files.old).files args.now.results ≡ Some table →
        EndsBy (λ cause. results_of args.now model.now table ≡ Err cause) failure.cause) }
    ensures files { KeepsFiles (F.seen files.old) (F.seen files.new) }
{
    let bytes = read_table(alloc, args.results.as_str(), args.delimiter, files)?;
    results_in(alloc, bytes.as_slice(), model, args, told)
}

// Whether a column of this name is that of a parameter.
fn is_of_parameter(model: &TestModel, name: &str) -> bool {
    let fold = model.fold();
    model
        .params()
        .as_slice()
        .iter()
        .any(|param| same_text(param.name.as_str(), name, fold))
}

// The notes on a table but for that on its column of results: those on the header come first, and are all the same.
fn notes_beside(
    alloc: Global,
    model: &TestModel,
    args: &Suspect,
    results: &ResultFile,
) -> Result<NoteList, NoMemory> {
    let noted = usize::from(!is_of_parameter(model, result_name(args)));
    let mut notes = NoteList::new(alloc);
    for note in results.rows.notes.iter().skip(noted) {
        notes.push(*note)?;
    }
    Ok(notes)
}

// The combinations that only failing ones of the tests have.
fn suspects_of<'n>(
    alloc: Global,
    model: &TestModel,
    results: &ResultFile,
    args: &'n Suspect,
) -> Result<Suspects, Failure<'n>>
    requires { AreResultsOf model.now results.now }
    ensures found { IfOk result (λ found. suspects_seen found ≡ suspects_of model.now results.now) }
    ensures told { IfOk result (λ found. suspects_in model.now (suite_seen results.now.rows) results.now.failed ≡ Ok (suspects_seen found)) }
    ensures stops { IfErr result (λ failure. EndsBy (λ cause. suspects_in model.now (suite_seen results.now.rows) results.now.failed ≡ Err cause) failure.cause) }
{
    let name = args.results.as_str();
    match suspects(alloc, model, results) {
        Ok(found) => Ok(found),
        Err(SuspectFault::TooMany(count)) => Err(Failure::at(
            name,
            Stop::TooMany(Quantity::SuspectCandidates, count),
        )),
        Err(SuspectFault::NoMemory) => Err(Failure::at(name, Stop::OutOfMemory)),
    }
}

/// The combinations that only failing tests in the table have, with what is told of it.
///
/// # Errors
///
/// A failure of the table, `TooMany` where there are too many candidates, `OutOfMemory` where memory was refused.
pub(crate) fn suspected<'n, F: Folder>(
    alloc: Global,
    model: &TestModel,
    args: &'n Suspect,
    files: &mut F,
    told: &mut Told,
) -> Result<Suspects, Failure<'n>>
    ensures found { IfOk result (λ found. (table : Option (List ℕ)) → (F.seen files.old).files args.now.results ≡ Some table →
        believed_due.suspected args.now model.now table ≡ Ok (suspects_seen found)) }
    ensures pairs { IfOk result (λ found. due.ArePairsFound model.now found.found) }
    ensures stops { IfErr result (λ failure. (table : Option (List ℕ)) → (F.seen files.old).files args.now.results ≡ Some table →
        EndsBy (λ cause. believed_due.suspected args.now model.now table ≡ Err cause) failure.cause) }
    ensures files { KeepsFiles (F.seen files.old) (F.seen files.new) }
{
    let results = results_of(alloc, model, args, files, told)?;
    told.notes = notes_beside(alloc, model, args, &results)?;
    suspects_of(alloc, model, &results, args)
}
