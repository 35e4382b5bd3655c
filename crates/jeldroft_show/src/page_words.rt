//! The page of a suite, with the verdict and the numbers in words.
ghost use Rattle.std.specs.Prelude.{◌≡◌, ◌<◌, IfOk, IfSome, is_some, length, map, option_map};
ghost use Rattle.jeldroft_args.specs.Ranges.{AreThreads};
ghost use Rattle.jeldroft_show.specs.believed.Pages.{suite_page};
ghost use Rattle.jeldroft_show.specs.believed.Words as words;
ghost use Rattle.refutation.specs.Proofs.{omission_meant};
ghost use Rattle.row_text.specs.Readings.{IsFileOf};
ghost use Rattle.row_text.specs.RowFiles.{suite_seen};
ghost use Rattle.suite_facts.specs.Coverages.{set_seen};
ghost use Rattle.tuple_index.specs.Plan.{plan_of};

use crate::suite_words::{add_coverage, add_least_if, add_no_proof, add_verdict, is_accepted};
use cov_model::TestModel;
use jeldroft_args::Show;
use model_page::{PageWords, write_page};
use proof_check::Verdict;
use refutation::Omission;
use row_text::RowFile;
use std::alloc::Global;
use std::thread::Threads;
use suite_facts::{LargestSet, SuiteNumbers, coverage_of, numbers_of};
use tuple_index::Plan;
use value_text::NoMemory;
use worker_gate::OpenGate;

// The verdict, in words.
fn verdict_text(alloc: Global, model: &TestModel, verdict: &Verdict) -> Result<Vec<u8>, NoMemory>
    ensures { IfOk result (λ text. text.items ≡ words.verdict_words model.now verdict.now) }
{
    let mut text = Vec::new(alloc);
    add_verdict(model, verdict, &mut text)?;
    Ok(text)
}

// That there is no proof, where one might have changed the verdict.
fn remark_text(alloc: Global, is_named: bool, accepted: bool) -> Result<Vec<u8>, NoMemory>
    ensures { IfOk result (λ text. text.items ≡ words.proof_words is_named accepted) }
{
    let mut text = Vec::new(alloc);
    add_no_proof(is_named, accepted, &mut text)?;
    Ok(text)
}

// How large the suite is, and how much of the demand it covers.
fn coverage_text(alloc: Global, numbers: &SuiteNumbers, accepted: bool) -> Result<Vec<u8>, NoMemory>
    ensures { IfOk result (λ text. text.items ≡ words.coverage_words numbers.now accepted) }
{
    let mut text = Vec::new(alloc);
    add_coverage(numbers, accepted, &mut text)?;
    Ok(text)
}

// How many tests every suite needs, where the suite is accepted.
fn least_text(
    alloc: Global,
    accepted: bool,
    model: &TestModel,
    plan: &Plan,
    largest: Option<LargestSet>,
) -> Result<Vec<u8>, NoMemory>
    requires plan { plan.now ≡ plan_of model.now }
    requires exists { IfSome largest (λ found. found.set < length plan.now.sets) }
    ensures { IfOk result (λ text. text.items ≡ words.least_words model.now (option_map (set_seen model.now) largest) accepted) }
{
    let mut text = Vec::new(alloc);
    add_least_if(accepted, model, plan, largest, &mut text)?;
    Ok(text)
}

/// The page that shows a suite with this verdict, and with the omissions that are explained.
///
/// # Errors
///
/// `NoMemory` where memory was refused.
pub(crate) fn write_suite_page<R: Threads + Sync>(
    rt: &R,
    alloc: Global,
    args: &Show,
    model: &TestModel,
    plan: &Plan,
    tests: &RowFile,
    omissions: &[Omission],
    verdict: &Verdict,
) -> Result<Vec<u8>, NoMemory>
    requires plan { plan.now ≡ plan_of model.now }
    requires tests { IsFileOf model.now tests.now }
    requires threads { AreThreads args.now.threads }
    ensures { IfOk result (λ text. text.items
        ≡ suite_page args.now.model.name model.now (suite_seen tests.now) (is_some args.now.proof) (map omission_meant omissions.now) verdict.now) }
{
    let accepted = is_accepted(verdict);
    let coverage = coverage_of(rt, alloc, model, plan, tests, args.threads, &OpenGate)?;
    let numbers = numbers_of(model, plan, tests, coverage.covered);
    let verdict = verdict_text(alloc, model, verdict)?;
    let remark = remark_text(alloc, args.proof.is_some(), accepted)?;
    let size = coverage_text(alloc, &numbers, accepted)?;
    let least = least_text(alloc, accepted, model, plan, coverage.largest)?;
    let words = PageWords {
        name: args.model.name.as_str(),
        accepted,
        verdict: verdict.as_slice(),
        remark: remark.as_slice(),
        numbers: &[size.as_slice(), least.as_slice()],
    };
    let text = write_page(alloc, model, plan, tests, &numbers, omissions, &words)?;
    Ok(text)
}
