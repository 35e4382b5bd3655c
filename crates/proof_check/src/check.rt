ghost use Rattle.std.specs.Prelude.{◌≡◌, ◌≤◌, ◌^◌, [], All, None, IfOk, find, length, not};
ghost use Rattle.cov_model.specs.believed.Valid.{is_valid};
ghost use Rattle.definitions.specs.believed.Refutation.{first_unrefuted};
ghost use Rattle.definitions.specs.believed.Verdict.{as_cells, by_omission, verdict};
ghost use Rattle.model_parse.specs.RawModels.{AreOpts};
ghost use Rattle.refutation.specs.Checking.{AreOfModel};
ghost use Rattle.refutation.specs.believed.Proofs.{format_of};
ghost use Rattle.refutation.specs.Reading.{omissions_meant};
ghost use Rattle.row_text.specs.Readings.{IsFileOf};
ghost use Rattle.row_text.specs.RowFiles.{seeds_seen, suite_seen};
ghost use Rattle.tuple_index.specs.Plan.{plan_of};
ghost use Rattle.proof_check.specs.CheckSteps.{IsModelCheckOf, IsReportCheckOf};
ghost use Rattle.proof_check.specs.Checks.{IsCheckOf};
ghost use Rattle.proof_check.specs.believed.Checks.{verdict_given};

use crate::rows::first_bad_row;
use crate::trees::first_bad_tree;
use crate::uncovered::first_uncovered;
use crate::verdict::{CheckFault, Verdict};
use crate::workers::Workers;
use cov_model::TestModel;
use model_lex::ModelOpts;
use refutation::{Omissions, ProofFault, read_omissions};
use row_text::{RowFile, RowMode, RowsFault, read_rows};
use std::alloc::Global;
use std::thread::Threads;
use tuple_index::Plan;
use type_check::read_model;
use value_text::NoMemory;
use worker_gate::Gate;

// The verdict on rows that are valid and a proof that was read.
fn judge_proof<R: Threads + Sync, G: Gate + Sync>(
    workers: &Workers<'_, R, G>,
    alloc: Global,
    model: &TestModel,
    plan: &Plan,
    file: &RowFile,
    proof: &Omissions,
) -> Result<Verdict, NoMemory>
    requires plan { plan.now ≡ plan_of model.now }
    requires file { IsFileOf model.now file.now }
    requires valid { find (λ row. not (is_valid model.now row)) (suite_seen file.now) ≡ None }
    requires of_model { All (λ omission. AreOfModel model.now omission.tuple) proof.now.omissions }
    requires few { length proof.now.omissions ≤ 2 ^ 28 }
    ensures { IfOk result (λ given. given ≡ verdict_given (by_omission model.now (suite_seen file.now) (omissions_meant proof.now.omissions)
        (first_unrefuted model.now (format_of proof.now.form) [] 2 (as_cells model.now (omissions_meant proof.now.omissions))))) }
{
    if let Some(line) = first_bad_tree(alloc, model, proof)? {
        return Ok(Verdict::BadOmission(line));
    }
    match first_uncovered(workers, alloc, model, plan, file, proof)? {
        Some(tuple) => Ok(Verdict::Uncovered(tuple)),
        None => Ok(Verdict::Accepted(file.rows.len() as u32, proof.len() as u32)),
    }
}

// The verdict on the rows of a report and the bytes of a proof.
fn judge<R: Threads + Sync, G: Gate + Sync>(
    workers: &Workers<'_, R, G>,
    alloc: Global,
    model: &TestModel,
    plan: &Plan,
    file: &RowFile,
    proof: &[u8],
) -> Result<Verdict, NoMemory>
    requires plan { plan.now ≡ plan_of model.now }
    requires file { IsFileOf model.now file.now }
    requires proof { length proof.now ≤ 2 ^ 28 }
    ensures { IfOk result (λ given. given ≡ verdict_given (verdict model.now (seeds_seen file.now) proof.now)) }
{
    if let Some(line) = first_bad_row(model, file) {
        return Ok(Verdict::BadRow(line));
    }
    match read_omissions(alloc, proof, model) {
        Ok(omissions) => judge_proof(workers, alloc, model, plan, file, &omissions),
        Err(ProofFault::Line(line)) => Ok(Verdict::BadProof(line)),
        Err(ProofFault::NoMemory) => Err(NoMemory),
    }
}

/// What the checker says of the rows of a report, which were read, and of a proof (this project's rule): the verdict of
/// `check_bytes`. Plan and rows have to be the model's, and the proof may have at most 2^28 bytes. It is the same for every
/// number of workers from 1 to 64.
///
/// # Errors
///
/// `NoMemory` where memory was refused.
pub fn check_rows<R: Threads + Sync, G: Gate + Sync>(
    rt: &R,
    alloc: Global,
    model: &TestModel,
    plan: &Plan,
    file: &RowFile,
    proof: &[u8],
    workers: u32,
    gate: &G,
) -> Result<Verdict, NoMemory>
    requires plan { plan.now ≡ plan_of model.now }
    requires file { IsFileOf model.now file.now }
    requires proof { length proof.now ≤ 2 ^ 28 }
    requires least { 1 ≤ workers }
    requires most { workers ≤ 64 }
    ensures { IfOk result (λ given. given ≡ verdict_given (verdict model.now (seeds_seen file.now) proof.now)) }
{
    let workers = Workers {
        rt,
        count: workers,
        gate,
    };
    judge(&workers, alloc, model, plan, file, proof)
}

// The verdict on the bytes of a report and of a proof. The error is the refusal of the report.
fn check_report<R: Threads + Sync, G: Gate + Sync>(
    workers: &Workers<'_, R, G>,
    alloc: Global,
    model: &TestModel,
    plan: &Plan,
    report: &[u8],
    proof: &[u8],
) -> Result<Verdict, RowsFault>
    requires plan { plan.now ≡ plan_of model.now }
    requires report { length report.now ≤ 2 ^ 28 }
    requires proof { length proof.now ≤ 2 ^ 28 }
    ensures { IsReportCheckOf model.now report.now proof.now result }
{
    let file = read_rows(alloc, report, model, RowMode::Suite)?;
    let verdict = judge(workers, alloc, model, plan, &file, proof)?;
    Ok(verdict)
}

// The same for a model that may demand more than a plan holds.
fn check_model<R: Threads + Sync, G: Gate + Sync>(
    workers: &Workers<'_, R, G>,
    alloc: Global,
    model: &TestModel,
    report: &[u8],
    proof: &[u8],
) -> Result<Verdict, CheckFault>
    requires report { length report.now ≤ 2 ^ 28 }
    requires proof { length proof.now ≤ 2 ^ 28 }
    ensures { IsModelCheckOf model.now report.now proof.now result }
{
    let plan = Plan::new(alloc, model)?;
    let verdict = check_report(workers, alloc, model, &plan, report, proof)?;
    Ok(verdict)
}

/// What the checker says of a report and a proof for a model file (this project's rule). The report is read as a
/// whole suite. The verdict is the first of these that applies: the first line of the report whose row isn't a
/// complete and valid row; the first line of the proof that isn't one of a proof; the first one whose tree doesn't
/// refute its tuple after the tuples of the lines before; the first demanded tuple that no row serves and no line
/// lists; and else that both are accepted. Repeated rows and lines are allowed. It is the same for every number of
/// workers from 1 to 64, who mark what the rows serve. The model, the report and the proof may have at most 2^28
/// bytes.
///
/// # Errors
///
/// The first of these: `BadModel` with the refusal of the model file; `Limits` where the model demands more than a
/// plan holds; `Report` where the report is refused. `NoMemory` where memory was refused.
pub fn check_bytes<R: Threads + Sync, G: Gate + Sync>(
    rt: &R,
    alloc: Global,
    model: &[u8],
    opts: &ModelOpts,
    report: &[u8],
    proof: &[u8],
    workers: u32,
    gate: &G,
) -> Result<Verdict, CheckFault>
    requires model { length model.now ≤ 2 ^ 28 }
    requires opts { AreOpts opts.now }
    requires report { length report.now ≤ 2 ^ 28 }
    requires proof { length proof.now ≤ 2 ^ 28 }
    requires least { 1 ≤ workers }
    requires most { workers ≤ 64 }
    ensures { IsCheckOf opts.now model.now report.now proof.now result }
{
    let (model, _notes) = read_model(alloc, model, opts)?;
    let workers = Workers {
        rt,
        count: workers,
        gate,
    };
    check_model(&workers, alloc, &model, report, proof)
}
