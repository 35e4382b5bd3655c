ghost use Rattle.std.specs.Prelude.{◌≡◌, ◌≤◌, ◌^◌, ℕ, List, Option, Some, None, All, length, IfOk, IfErr, IfSome, OnOk};
ghost use Rattle.cov_model.specs.Fits.{FitsModel};
ghost use Rattle.outside_io.specs.believed.Seen.{KeepsFiles};
ghost use Rattle.pict_cli.specs.believed.Runs.{spent_at};
ghost use Rattle.pict_cli.specs.Steps.{written};
ghost use Rattle.row_text.specs.RowFiles.{seeds_seen};
ghost use Rattle.suite_forms.specs.believed.Suites.{suite_text};
ghost use Rattle.tuple_index.specs.Plan.{plan_of};
ghost use Rattle.tuple_index.specs.believed.PlanFault.{limit_passed};
ghost use Rattle.jeldroft_args.specs.Ranges.{AreThreads};
ghost use Rattle.jeldroft_generate.specs.believed.Asked.{effort_of, form_of, question_over};
ghost use Rattle.jeldroft_generate.specs.Due.{Answers, IsMadeOf};
ghost use Rattle.jeldroft_generate.specs.believed.Due.{AreHeld, CallsFor, Held, start_of, told_seeds};
ghost use Rattle.jeldroft_generate.specs.Runs.{AreInRange};
ghost use Rattle.jeldroft_generate.specs.Steps.{EndsAt};

use crate::asked::form_of;
use crate::dropped_seed::dropped_seeds;
use crate::findings::{may_be_odd, note_findings};
use crate::growing::{grow, make_plan};
use crate::made::Made;
use crate::notes::Notes;
use crate::proof_text::proof_of;
use crate::seeds::read_seeds;
use crate::shrinking::tests_of;
use crate::telling::Summary;
use crate::tests::Tests;
use cov_model::TestModel;
use jeldroft_args::Generate;
use jeldroft_files::{Failure, read_model_text};
use jeldroft_words::ModelSource;
use outside_io::Folder;
use refutation::Omissions;
use row_text::RowFile;
use std::alloc::Global;
use std::thread::Threads;
use suite_forms::suite_text;
use tuple_index::Plan;
use value_text::{NoMemory, OwnedList};

// The texts of a suite: its tests, and the combinations that no test can have.
fn texts_of(
    alloc: Global,
    args: &Generate,
    model: &TestModel,
    plan: &Plan,
    tests: &Tests,
    omitted: &Omissions,
) -> Result<Made, NoMemory>
    requires { All (λ row. FitsModel model.now row) tests.now.rows }
    ensures table { IfOk result (λ made. made.table.items ≡ suite_text (form_of args.now.format) model.now tests.now.rows) }
    ensures proof { IfOk result (λ made. IfSome args.now.proof (λ _. made.proof.items ≡ written omitted.now.form omitted.now.omissions)) }
    ensures numbers { IfOk result (λ made. made.summary.fewer ≡ tests.now.fewer) }
{
    let table = suite_text(alloc, form_of(args.format), model, &tests.rows)?;
    let proof = proof_of(alloc, args, omitted)?;
    Ok(Made {
        table,
        proof,
        summary: Summary::of(model, plan, tests, omitted),
    })
}

// What is made of a model within its plan, from seed tests.
fn make_suite<'n, R: Threads + Sync>(
    rt: &R,
    alloc: Global,
    args: &'n Generate,
    model: &TestModel,
    plan: &Plan,
    seeds: &RowFile,
    notes: &mut Notes,
) -> Result<Made, Failure<'n>>
    requires plan { plan.now ≡ plan_of model.now }
    requires within { limit_passed model.now ≡ None }
    requires seeds { All (λ seed. FitsModel model.now seed.cells) seeds.now.rows }
    requires few { length seeds.now.rows ≤ 2 ^ 20 }
    requires threads { AreThreads args.now.threads }
    ensures made { IfOk result (λ made. IsMadeOf args.now made (record { model = model.now; seeds = seeds_seen seeds.now })) }
    ensures answered { OnOk result (question_over args.now model.now (seeds_seen seeds.now) ≡ None) }
    ensures stops { IfErr result (λ failure. EndsAt (spent_at (effort_of args.now.budget) (question_over args.now model.now (seeds_seen seeds.now))) failure.cause) }
{
    model.assert_invariant();
    let grown = grow(rt, alloc, args, model, plan, seeds)?;
    let tests = tests_of(alloc, args, model, plan, seeds, grown.rows)?;
    let made = texts_of(alloc, args, model, plan, &tests, &grown.omitted)?;
    if let Ok(dropped) = dropped_seeds(alloc, model, seeds, &grown.dropped) {
        notes.dropped = dropped;
    }
    notes.odd = may_be_odd(alloc, args, model, &tests.rows);
    Ok(made)
}

// What is made of a model, from the seed tests in their file.
fn make_of_model<'n, R: Threads + Sync, F: Folder>(
    rt: &R,
    alloc: Global,
    args: &'n Generate,
    model: &TestModel,
    files: &mut F,
    notes: &mut Notes,
) -> Result<Made, Failure<'n>>
    requires { AreThreads args.now.threads }
    ensures made { (held : Option (Option (List ℕ))) → told_seeds args.now.seeds (F.seen files.old).files ≡ Some held →
        Answers (λ given. start_of args.now held model.now ≡ given) (IsMadeOf args.now) result }
    ensures files { KeepsFiles (F.seen files.old) (F.seen files.new) }
{
    let plan = make_plan(alloc, model, args.model.name.as_str())?;
    let file = read_seeds(alloc, args, model, files, &mut notes.files.table)?;
    notes.files.rows = file.notes;
    let seeds = RowFile {
        rows: file.rows,
        notes: OwnedList::new(alloc),
    };
    make_suite(rt, alloc, args, model, &plan, &seeds, notes)
}

/// The table that the settings ask for, and its proof, with what there is to warn of.
///
/// # Errors
///
/// A failure of the model file or of the file of seeds, `TooMany` where the model demands too much, `Spent` where a
/// question costs more than it may, `OutOfMemory` where memory was refused.
pub(crate) fn answer<'n, R: Threads + Sync, F: Folder>(
    rt: &R,
    alloc: Global,
    args: &'n Generate,
    files: &mut F,
    notes: &mut Notes,
) -> Result<Made, Failure<'n>>
    requires { AreInRange args.now }
    ensures answers { (held : Held) → AreHeld args.now (F.seen files.old).files held → Answers (CallsFor args.now held) (IsMadeOf args.now) result }
    ensures files { KeepsFiles (F.seen files.old) (F.seen files.new) }
{
    match read_model_text(alloc, &args.model, args.strength, files) {
        Ok(file) => {
            let made = make_of_model(rt, alloc, args, &file.model, files, notes);
            note_findings(alloc, args, &file, notes);
            notes.files.source = Some(ModelSource {
                bytes: file.bytes,
                marks: file.marks,
            });
            notes.files.model = file.notes;
            notes.files.read = Some(file.model);
            made
        }
        Err(failure) => Err(failure),
    }
}
