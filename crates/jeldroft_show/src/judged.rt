//! The answer that shows a suite in words or as a page, with the verdict of the checker.
ghost use Rattle.std.specs.Prelude.{◌≡◌, ◌≤◌, ◌^◌, ℕ, List, Option, Some, None, Err, Ok, length, map, is_some, IfOk, IfErr, IfSome, OnOk};
ghost use Rattle.outside_io.specs.believed.Seen.{KeepsFiles};
ghost use Rattle.definitions.specs.believed.ProofText.{omissions_of};
ghost use Rattle.definitions.specs.believed.Verdict.{verdict};
ghost use Rattle.refutation.specs.Proofs.{omission_meant};
ghost use Rattle.jeldroft_args.specs.Ranges.{AreThreads};
ghost use Rattle.jeldroft_inputs.specs.Inputs.{EndsBy};
ghost use Rattle.jeldroft_show.specs.believed.Due.{HeldFiles, HoldsSuite, no_omissions, proof_in, proof_of, shown_words, text_shown, words_shown};
ghost use Rattle.jeldroft_show.specs.Due.{IsLimit};
ghost use Rattle.jeldroft_show.specs.Steps.{Gives, shown_by};
ghost use Rattle.jeldroft_show.specs.believed.Words.{omissions_told, suite_words};
ghost use Rattle.row_text.specs.Readings.{IsFileOf};
ghost use Rattle.row_text.specs.RowFiles.{seeds_seen, suite_seen};
ghost use Rattle.tuple_index.specs.Plan.{plan_of};
ghost use Rattle.tuple_index.specs.believed.PlanFault.{limit_passed};

use crate::answer::Answer;
use crate::gaps::lines_with_gaps;
use crate::omissions::omissions_told;
use crate::page_words::write_suite_page;
use crate::rows::is_page;
use crate::suite_words::{SuiteFacts, is_accepted, suite_words};
use command_line::{FileKind, Stop, read_whole};
use cov_model::TestModel;
use jeldroft_args::Show;
use jeldroft_files::Failure;
use jeldroft_inputs::read_tests;
use outside_io::Folder;
use proof_check::{Verdict, check_rows};
use refutation::Omissions;
use row_text::RowFile;
use std::alloc::Global;
use std::thread::Threads;
use suite_facts::{coverage_of, covered_after, numbers_of, round_counts};
use tuple_index::Plan;
use value_text::NoMemory;
use worker_gate::OpenGate;

// The plan of what a model demands, which is the model of this file.
fn make_plan<'n>(alloc: Global, model: &TestModel, file: &'n str) -> Result<Plan, Failure<'n>>
    ensures plan { IfOk result (λ plan. plan ≡ plan_of model.now) }
    ensures within { OnOk result (limit_passed model.now ≡ None) }
    ensures stops { IfErr result (λ failure. EndsBy (IsLimit model.now) failure.cause) }
{
    match Plan::new(alloc, model) {
        Ok(plan) => Ok(plan),
        Err(fault) => Err(Failure::at(file, Stop::from(fault))),
    }
}

// The bytes of the proof file of this name.
#[tactic(auto, using(crate::proofs::DueLemmas::proof_told, crate::proofs::DueLemmas::proof_unread))]
fn read_named<'n, F: Folder>(
    alloc: Global,
    name: &'n str,
    files: &mut F,
) -> Result<Vec<u8>, Failure<'n>>
    ensures proof { IfOk result (λ bytes. (held : Option (List ℕ)) → (F.seen files.old).files name.now ≡ Some held → proof_in held ≡ Ok bytes.items) }
    ensures within { IfOk result (λ bytes. length bytes.items ≤ 2 ^ 28) }
    ensures stops { IfErr result (λ failure. (held : Option (List ℕ)) → (F.seen files.old).files name.now ≡ Some held →
        EndsBy (λ cause. proof_in held ≡ Err cause) failure.cause) }
    ensures files { KeepsFiles (F.seen files.old) (F.seen files.new) }
{
    match read_whole(alloc, FileKind::Proof, name, files) {
        Ok(bytes) => Ok(bytes),
        Err(stop) => Err(Failure::at(name, stop)),
    }
}

// The bytes of a proof without omissions.
fn no_proof(alloc: Global) -> Result<Vec<u8>, NoMemory>
    ensures { IfOk result (λ bytes. bytes.items ≡ no_omissions) }
{
    let mut bytes = Vec::new(alloc);
    bytes.extend_from_slice(b"pict-proof 1\n")?;
    Ok(bytes)
}

// The bytes of the proof, which has no omissions where none is named.
fn read_proof<'n, F: Folder>(
    alloc: Global,
    args: &'n Show,
    files: &mut F,
) -> Result<Vec<u8>, Failure<'n>>
    ensures proof { IfOk result (λ bytes. (held : Option (List ℕ)) → IfSome args.now.proof (λ name. (F.seen files.old).files name ≡ Some held) →
        proof_of args.now.proof held ≡ Ok bytes.items) }
    ensures within { IfOk result (λ bytes. length bytes.items ≤ 2 ^ 28) }
    ensures stops { IfErr result (λ failure. (held : Option (List ℕ)) → IfSome args.now.proof (λ name. (F.seen files.old).files name ≡ Some held) →
        EndsBy (λ cause. proof_of args.now.proof held ≡ Err cause) failure.cause) }
    ensures files { KeepsFiles (F.seen files.old) (F.seen files.new) }
{
    match &args.proof {
        Some(name) => read_named(alloc, name.as_str(), files),
        None => {
            let bytes = no_proof(alloc)?;
            Ok(bytes)
        }
    }
}

// The words that show a suite with this verdict, and with the omissions that are explained.
fn write_words<R: Threads + Sync>(
    rt: &R,
    alloc: Global,
    args: &Show,
    model: &TestModel,
    plan: &Plan,
    tests: &RowFile,
    omissions: &Omissions,
    verdict: &Verdict,
) -> Result<Vec<u8>, NoMemory>
    requires plan { plan.now ≡ plan_of model.now }
    requires tests { IsFileOf model.now tests.now }
    requires threads { AreThreads args.now.threads }
    ensures { IfOk result (λ text. text.items ≡ suite_words model.now (suite_seen tests.now) (is_some args.now.proof)
        (map omission_meant omissions.now.omissions) verdict.now) }
{
    let coverage = coverage_of(rt, alloc, model, plan, tests, args.threads, &OpenGate)?;
    let numbers = numbers_of(model, plan, tests, coverage.covered);
    let counts = round_counts(alloc, tests.rows.len() as u32)?;
    let points = covered_after(alloc, model, plan, tests, counts.as_slice())?;
    let facts = SuiteFacts {
        numbers: &numbers,
        largest: coverage.largest,
        points: points.as_slice(),
        is_proof_named: args.proof.is_some(),
        verdict,
        proof: omissions,
    };
    let text = suite_words(alloc, model, plan, &facts)?;
    Ok(text)
}

// The words that show a suite with this verdict, or its page.
fn write_text<R: Threads + Sync>(
    rt: &R,
    alloc: Global,
    args: &Show,
    model: &TestModel,
    plan: &Plan,
    tests: &RowFile,
    omissions: &Omissions,
    verdict: &Verdict,
) -> Result<Vec<u8>, NoMemory>
    requires plan { plan.now ≡ plan_of model.now }
    requires tests { IsFileOf model.now tests.now }
    requires threads { AreThreads args.now.threads }
    ensures { IfOk result (λ text. text.items ≡ text_shown args.now model.now (suite_seen tests.now) (map omission_meant omissions.now.omissions) verdict.now) }
{
    if is_page(args.format) {
        write_suite_page(
            rt,
            alloc,
            args,
            model,
            plan,
            tests,
            omissions.as_slice(),
            verdict,
        )
    } else {
        write_words(rt, alloc, args, model, plan, tests, omissions, verdict)
    }
}

// The words or the page that show a suite with this verdict on it and on a proof.
fn write_judged<R: Threads + Sync>(
    rt: &R,
    alloc: Global,
    args: &Show,
    model: &TestModel,
    plan: &Plan,
    tests: &RowFile,
    proof: &[u8],
    verdict: &Verdict,
) -> Result<Vec<u8>, NoMemory>
    requires plan { plan.now ≡ plan_of model.now }
    requires tests { IsFileOf model.now tests.now }
    requires proof { length proof.now ≤ 2 ^ 28 }
    requires threads { AreThreads args.now.threads }
    ensures { IfOk result (λ text. text.items ≡ text_shown args.now model.now (suite_seen tests.now) (omissions_told verdict.now (omissions_of model.now proof.now)) verdict.now) }
{
    let omissions = omissions_told(alloc, model, verdict, proof)?;
    write_text(rt, alloc, args, model, plan, tests, &omissions, verdict)
}

// The answer that shows tests in words or as a page, with the verdict on them and on a proof.
fn judge<R: Threads + Sync>(
    rt: &R,
    alloc: Global,
    args: &Show,
    model: &TestModel,
    plan: &Plan,
    tests: RowFile,
    proof: &[u8],
) -> Result<Answer, NoMemory>
    requires plan { plan.now ≡ plan_of model.now }
    requires tests { IsFileOf model.now tests }
    requires proof { length proof.now ≤ 2 ^ 28 }
    requires threads { AreThreads args.now.threads }
    ensures { IfOk result (λ answer. shown_by answer ≡ shown_words args.now model.now (seeds_seen tests) (suite_seen tests) proof.now) }
{
    let verdict = check_rows(
        rt,
        alloc,
        model,
        plan,
        &tests,
        proof,
        args.threads,
        &OpenGate,
    )?;
    let text = write_judged(rt, alloc, args, model, plan, &tests, proof, &verdict)?;
    let gaps = lines_with_gaps(alloc, model, &tests)?;
    Ok(Answer {
        text,
        accepted: is_accepted(&verdict),
        notes: tests.notes,
        gaps,
    })
}

/// The answer that shows a table of tests of a model in words or as a page.
///
/// # Errors
///
/// `TooMany` where the model demands more than there may be, a failure of the table or of the proof, or `OutOfMemory`.
pub(crate) fn show_words<'n, R: Threads + Sync, F: Folder>(
    rt: &R,
    alloc: Global,
    args: &'n Show,
    model: &TestModel,
    files: &mut F,
) -> Result<Answer, Failure<'n>>
    requires { AreThreads args.now.threads }
    ensures gives { (held : HeldFiles) → HoldsSuite (F.seen files.old).files args.now held → Gives (words_shown args.now model.now held) result }
    ensures files { KeepsFiles (F.seen files.old) (F.seen files.new) }
{
    let plan = make_plan(alloc, model, args.model.name.as_str())?;
    let tests = read_tests(alloc, args.table.as_str(), args.delimiter, model, files)?;
    let proof = read_proof(alloc, args, files)?;
    let answer = judge(rt, alloc, args, model, &plan, tests, proof.as_slice())?;
    Ok(answer)
}
