ghost use Rattle.std.specs.Prelude.{◌≡◌, ◌⊎◌, true, All, IfOk, IfErr, OnOk, None, Some, option_map};
ghost use Rattle.cov_model.specs.Fits.{FitsModel};
ghost use Rattle.cov_model.specs.believed.Valid.{is_valid};
ghost use Rattle.jeldroft_args.specs.Ranges.{AreMarks, IsStrength};
ghost use Rattle.jeldroft_files.specs.Runs.{IsCalledFor};
ghost use Rattle.outside_io.specs.believed.Seen.{KeepsFiles};
ghost use Rattle.row_text.specs.RowFiles.{seeds_seen, suite_seen};
ghost use Rattle.shorter_suites.specs.believed.Laws.{rows_of};
ghost use Rattle.tuple_index.specs.Plan.{plan_of};
ghost use Rattle.tuple_index.specs.believed.PlanFault.{limit_passed};
ghost use Rattle.jeldroft_shrink.specs.believed.Causes.{status_of};
ghost use Rattle.jeldroft_shrink.specs.believed.Reading.{Lines};
ghost use Rattle.jeldroft_shrink.specs.believed.Runs.{HaveRows, HeldFiles, Holds, IsDue, LackRows, form_of};
ghost use Rattle.jeldroft_shrink.specs.Lost.{lost_lines};
ghost use Rattle.jeldroft_shrink.specs.Steps.{HasTable, IsAnswered, IsLimitOf, IsTableOf, answer_seen};

use crate::cause::{ShrinkCause, ShrinkFailure};
use crate::given::read_given;
use crate::lost::lost_lines;
use crate::named::Named;
use crate::notes::Notes;
use crate::seeds::read_seeds;
use crate::suite::fewer_tests;
use command_line::Stop;
use cov_model::{Rows, TestModel};
use jeldroft_args::{Format, Shrink};
use jeldroft_files::read_model_file;
use jeldroft_words::FewerTests;
use outside_io::Folder;
use row_forms::RowForm;
use row_text::RowFile;
use std::alloc::Global;
use suite_forms::suite_text;
use suite_shrink::copied_rows;
use tuple_index::Plan;
use value_text::NoMemory;

/// A table of fewer tests.
#[derive(Drop)]
pub(crate) struct Table {
    /// Its text.
    pub text: Vec<u8>,
    /// Its numbers.
    pub numbers: FewerTests,
    /// The lines of the seed rows that no given row contains.
    pub lost: Vec<u32>,
}

// The tests that are made fewer, and the seed rows.
#[derive(Drop)]
struct Tests {
    given: RowFile,
    seeds: RowFile,
}

// The form of the table, if the format is one of a table.
fn form_of(format: Format) -> Option<RowForm>
    ensures { result ≡ form_of format }
{
    match format {
        Format::Tsv => Some(RowForm::Tsv),
        Format::Csv => Some(RowForm::Csv),
        Format::Json => Some(RowForm::Json),
        Format::Markdown => Some(RowForm::Markdown),
        Format::Text | Format::Html => None,
    }
}

// The plan of a model.
fn plan_of<'n>(alloc: Global, model: &TestModel, name: &'n str) -> Result<Plan, ShrinkFailure<'n>>
    ensures plan { IfOk result (λ plan. plan ≡ plan_of model.now) }
    ensures within { OnOk result (limit_passed model.now ≡ None) }
    ensures stops { IfErr result (λ failure. IsLimitOf model.now failure.cause) }
{
    match Plan::new(alloc, model) {
        Ok(plan) => Ok(plan),
        Err(fault) => Err(ShrinkFailure::stop(name, Stop::from(fault))),
    }
}

// The name of the file of seed rows.
fn seeds_name(args: &Shrink) -> Option<&str>
    ensures { option_map (λ name. name.now) result ≡ args.now.seeds }
{
    match &args.seeds {
        Some(name) => Some(name.as_str()),
        None => None,
    }
}

// The rows of the table and of the file of seed rows. `notes` gets what there is to warn of.
fn read_tests<'n, F: Folder>(
    alloc: Global,
    args: &'n Shrink,
    model: &TestModel,
    files: &mut F,
    notes: &mut Notes,
) -> Result<Tests, ShrinkFailure<'n>>
    ensures tests { IfOk result (λ tests. (held : HeldFiles) → Holds (F.seen files.old).files args.now held → limit_passed model.now ≡ None
        → HaveRows args.now held model.now (seeds_seen tests.given) (seeds_seen tests.seeds)) }
    ensures stops { IfErr result (λ failure. (held : HeldFiles) → Holds (F.seen files.old).files args.now held → limit_passed model.now ≡ None
        → (status_of failure.cause ≡ 3) ⊎ LackRows args.now held model.now failure.cause) }
    ensures valid { IfOk result (λ tests. All (λ row. is_valid model.now row ≡ true) (suite_seen tests.given)) }
    ensures fit { IfOk result (λ tests. All (λ row. FitsModel model.now row.cells) tests.given.rows) }
    ensures partial { IfOk result (λ tests. All (λ row. FitsModel model.now row.cells) tests.seeds.rows) }
    ensures files { KeepsFiles (F.seen files.old) (F.seen files.new) }
{
    let given = read_given(
        alloc,
        model,
        args.table.as_str(),
        args.delimiter,
        files,
        &mut notes.table,
    )?;
    let seeds = read_seeds(
        alloc,
        model,
        seeds_name(args),
        args.delimiter,
        files,
        &mut notes.seeds,
    )?;
    Ok(Tests { given, seeds })
}

// The rows of a file in one piece of memory. Each row of a file has memory of its own, which is given back.
fn pack(alloc: Global, model: &TestModel, file: RowFile) -> Result<Rows, NoMemory>
    requires { All (λ row. FitsModel model.now row.cells) file.rows }
    ensures { IfOk result (λ rows. rows ≡ suite_seen file) }
{
    copied_rows(alloc, model, &file)
}

// The table of fewer tests in place of these.
fn table_of(
    alloc: Global,
    args: &Shrink,
    form: RowForm,
    model: &TestModel,
    plan: &Plan,
    given: &Rows,
    seeds: &RowFile,
) -> Result<Table, NoMemory>
    requires plan { plan.now ≡ plan_of model.now }
    requires valid { All (λ row. is_valid model.now row ≡ true) given.now }
    requires partial { All (λ row. FitsModel model.now row.cells) seeds.now.rows }
    ensures table { IfOk result (λ table. (lines : Lines) → given.now ≡ rows_of lines → IsTableOf form model.now lines (seeds_seen seeds.now) table) }
    ensures lost { IfOk result (λ table. table.lost.items ≡ lost_lines given.now (seeds_seen seeds.now)) }
{
    let fewer = fewer_tests(alloc, model, plan, given, seeds, args)?;
    let lost = lost_lines(alloc, given, seeds)?;
    let text = suite_text(alloc, form, model, &fewer.rows)?;
    let numbers = FewerTests {
        given: given.len(),
        tests: fewer.rows.len(),
        least: fewer.least,
    };
    Ok(Table {
        text,
        numbers,
        lost,
    })
}

// The table of fewer tests of a model. `notes` gets what there is to warn of in the files of rows.
fn suite_of<'n, F: Folder>(
    alloc: Global,
    args: &'n Shrink,
    form: RowForm,
    model: &TestModel,
    files: &mut F,
    notes: &mut Notes,
) -> Result<Table, ShrinkFailure<'n>>
    ensures table { IfOk result (λ table. (held : HeldFiles) → Holds (F.seen files.old).files args.now held
        → HasTable args.now held form model.now table) }
    ensures stops { IfErr result (λ failure. (held : HeldFiles) → Holds (F.seen files.old).files args.now held
        → (status_of failure.cause ≡ 3) ⊎ LackRows args.now held model.now failure.cause) }
    ensures files { KeepsFiles (F.seen files.old) (F.seen files.new) }
{
    let plan = plan_of(alloc, model, args.model.name.as_str())?;
    let tests = read_tests(alloc, args, model, files, notes)?;
    let Tests { given, seeds } = tests;
    let rows = pack(alloc, model, given)?;
    let table = table_of(alloc, args, form, model, &plan, &rows, &seeds)?;
    Ok(table)
}

// The table in this form. `notes` gets what there is to warn of, also where there is no table.
fn answer_in<'n, F: Folder>(
    alloc: Global,
    args: &'n Shrink,
    form: RowForm,
    files: &mut F,
    notes: &mut Notes,
) -> Result<Table, ShrinkFailure<'n>>
    requires marks { AreMarks args.now.model.marks }
    requires strength { IsStrength args.now.strength }
    requires formed { form_of args.now.format ≡ Some form }
    ensures called { (held : HeldFiles) → Holds (F.seen files.old).files args.now held
        → IsCalledFor status_of (IsDue args.now held) (answer_seen result) }
    ensures table { IfOk result (λ table. (held : HeldFiles) → Holds (F.seen files.old).files args.now held
        → IsAnswered args.now held table) }
    ensures files { KeepsFiles (F.seen files.old) (F.seen files.new) }
{
    let (model, model_notes) = read_model_file(alloc, &args.model, args.strength, files)?;
    let table = suite_of(alloc, args, form, &model, files, notes);
    notes.model = model_notes;
    notes.read = Some(model);
    table
}

/// The table of fewer tests. `notes` gets what there is to warn of, also where there is none.
///
/// # Errors
///
/// `NoTable` where the format is none of a table; else the first failure of the model file, of its demand, of the table or
/// of the file of seed rows.
pub(crate) fn make_answer<'n, F: Folder>(
    alloc: Global,
    args: &'n Shrink,
    files: &mut F,
    notes: &mut Notes,
) -> Result<Table, ShrinkFailure<'n>>
    requires marks { AreMarks args.now.model.marks }
    requires strength { IsStrength args.now.strength }
    ensures called { (held : HeldFiles) → Holds (F.seen files.old).files args.now held
        → IsCalledFor status_of (IsDue args.now held) (answer_seen result) }
    ensures table { IfOk result (λ table. (held : HeldFiles) → Holds (F.seen files.old).files args.now held
        → IsAnswered args.now held table) }
    ensures files { KeepsFiles (F.seen files.old) (F.seen files.new) }
{
    match form_of(args.format) {
        Some(form) => answer_in(alloc, args, form, files, notes),
        None => Err(ShrinkFailure {
            file: "",
            cause: ShrinkCause::NoTable,
            refused: None,
            named: Named::Nothing,
        }),
    }
}
