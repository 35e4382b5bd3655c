ghost use Rattle.std.specs.Prelude.{◌≡◌, ℕ, true, List, Option, All, Some, IfOk};
ghost use Rattle.cov_model.specs.Fits.{FitsModel};
ghost use Rattle.outside_io.specs.believed.Seen.{KeepsFiles};
ghost use Rattle.jeldroft_args.specs.Ranges.{AreMarks, AreThreads, IsStrength};
ghost use Rattle.jeldroft_show.specs.believed.Due.{Due, HeldFiles, Holds, HoldsSuite, rows_shown, shown_due};
ghost use Rattle.jeldroft_show.specs.Steps.{Gives, IsCalledFor, shown_by};
ghost use Rattle.row_text.specs.RowFiles.{suite_seen};
ghost use Rattle.suite_forms.specs.believed.Suites.{suite_text};

use crate::gaps::lines_with_gaps;
use crate::judged::show_words;
use crate::rows::rows_text;
use cov_model::TestModel;
use jeldroft_args::Show;
use jeldroft_files::{Failure, read_model_file};
use jeldroft_inputs::read_tests;
use model_lex::NoteList;
use outside_io::Folder;
use row_forms::RowForm;
use row_text::RowFile;
use std::alloc::Global;
use std::thread::Threads;
use value_text::NoMemory;

/// What is written, and what is odd about the table.
#[derive(Drop)]
pub(crate) struct Answer {
    /// The text.
    pub(crate) text: Vec<u8>,
    /// Whether nothing speaks against the suite.
    pub(crate) accepted: bool,
    /// What was dropped from the table.
    pub(crate) notes: NoteList,
    /// The lines of the rows that leave a parameter without a value.
    pub(crate) gaps: Vec<u32>,
}

// The answer that shows the rows of a table in a form.
fn show_rows(
    alloc: Global,
    form: RowForm,
    model: &TestModel,
    tests: RowFile,
) -> Result<Answer, NoMemory>
    requires { All (λ row. FitsModel model.now row.cells) tests.rows }
    ensures { IfOk result (λ answer. shown_by answer ≡ record { text = suite_text form model.now (suite_seen tests); accepted = true }) }
{
    let text = rows_text(alloc, form, model, &tests)?;
    let gaps = lines_with_gaps(alloc, model, &tests)?;
    Ok(Answer {
        text,
        accepted: true,
        notes: tests.notes,
        gaps,
    })
}

// The answer that shows a table of tests of a model.
fn show_table<'n, F: Folder>(
    alloc: Global,
    form: RowForm,
    args: &'n Show,
    model: &TestModel,
    files: &mut F,
) -> Result<Answer, Failure<'n>>
    ensures gives { (table : Option (List ℕ)) → (F.seen files.old).files args.now.table ≡ Some table → Gives (rows_shown form args.now model.now table) result }
    ensures files { KeepsFiles (F.seen files.old) (F.seen files.new) }
{
    let tests = read_tests(alloc, args.table.as_str(), args.delimiter, model, files)?;
    let answer = show_rows(alloc, form, model, tests)?;
    Ok(answer)
}

// The answer that shows a table in a form, or else in words or as a page.
fn show_suite<'n, R: Threads + Sync, F: Folder>(
    rt: &R,
    alloc: Global,
    form: Option<RowForm>,
    args: &'n Show,
    model: &TestModel,
    files: &mut F,
) -> Result<Answer, Failure<'n>>
    requires { AreThreads args.now.threads }
    ensures gives { (held : HeldFiles) → HoldsSuite (F.seen files.old).files args.now held → Gives (shown_due form args.now model.now held) result }
    ensures files { KeepsFiles (F.seen files.old) (F.seen files.new) }
{
    match form {
        Some(form) => show_table(alloc, form, args, model, files),
        None => show_words(rt, alloc, args, model, files),
    }
}

/// The answer that shows a table in a form, or else in words or as a page, and notes on the model file.
///
/// # Errors
///
/// A failure of the model file, of the table or of the proof; in words and as a page `TooMany` where the model demands more
/// than there may be; or `OutOfMemory`.
pub(crate) fn make_answer<'n, R: Threads + Sync, F: Folder>(
    rt: &R,
    alloc: Global,
    form: Option<RowForm>,
    args: &'n Show,
    files: &mut F,
    notes: &mut NoteList,
) -> Result<Answer, Failure<'n>>
    requires marks { AreMarks args.now.model.marks }
    requires strength { IsStrength args.now.strength }
    requires threads { AreThreads args.now.threads }
    ensures due { (held : HeldFiles) → Holds (F.seen files.old).files args.now held → IsCalledFor (Due form args.now held) result }
    ensures files { KeepsFiles (F.seen files.old) (F.seen files.new) }
{
    let (model, found) = read_model_file(alloc, &args.model, args.strength, files)?;
    *notes = found;
    show_suite(rt, alloc, form, args, &model, files)
}
