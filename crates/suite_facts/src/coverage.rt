ghost use Rattle.std.specs.Prelude.{◌≡◌, ◌*◌, ◌<◌, ◌≤◌, ◌^◌, ℕ, List, Option, All, IfOk, length, sum};
ghost use Rattle.cov_model.specs.Fits.{FitsModel};
ghost use Rattle.cov_model.specs.believed.Sound.{ModelView};
ghost use Rattle.row_text.specs.RowFiles.{suite_seen};
ghost use Rattle.suite_facts.specs.Coverages.{IsCoverageOf, larger, with_set};
ghost use Rattle.suite_facts.specs.believed.Coverages.{numbers_of};
ghost use Rattle.suite_facts.specs.Facts.{AreMarksOf};
ghost use Rattle.suite_facts.specs.believed.Facts.{covered_of};
ghost use Rattle.tuple_index.specs.Plan.{plan_of};

use crate::counting::count_set;
use cov_model::TestModel;
use row_text::RowFile;
use shared_marks::{Bits, count_tuples, mark_rows};
use std::alloc::Global;
use std::thread::Threads;
use tuple_index::Plan;
use value_text::NoMemory;
use worker_gate::Gate;

/// A demanded set, and how many of its tuples are covered.
#[derive(Debug, Drop, Clone, Copy, PartialEq, Eq)]
pub struct LargestSet {
    /// The number of the set in the plan.
    pub set: u32,
    /// How many of its tuples some test covers.
    pub covered: u32,
}

/// How much of the demand a suite covers.
#[derive(Debug, Drop, Clone, Copy, PartialEq, Eq)]
pub struct Coverage {
    /// How many demanded tuples some test covers.
    pub covered: u64,
    /// The demanded set of which the tests cover the most tuples, the first of such.
    pub largest: Option<LargestSet>,
}

/// How large a suite is, and how much of the demand it covers.
#[derive(Debug, Drop, Clone, Copy, PartialEq, Eq)]
pub struct SuiteNumbers {
    /// How many rows it has.
    pub tests: u64,
    /// How many parameters the model has.
    pub params: u64,
    /// How many sets of parameters are demanded.
    pub sets: u64,
    /// How many tuples are demanded.
    pub demanded: u64,
    /// How many of them some test covers.
    pub covered: u64,
}

// The set with more covered tuples, the earlier one where they have as many.
fn larger(best: Option<LargestSet>, here: LargestSet) -> Option<LargestSet>
    ensures { result ≡ larger best here }
{
    match best {
        None => Some(here),
        Some(before) => {
            if before.covered < here.covered {
                Some(here)
            } else {
                Some(before)
            }
        }
    }
}

impl Coverage {
    // Adds the next set, of which so many tuples are covered.
    fn add(&mut self, set: u32, covered: u32)
        requires { self.old.covered ≤ set * 2 ^ 32 }
        ensures { self.new ≡ with_set self.old set covered }
    {
        self.covered += u64::from(covered);
        self.largest = larger(self.largest, LargestSet { set, covered });
    }
}

// The coverage of rows, of which the demanded tuples that they cover are marked.
fn count_sets(plan: &Plan, marks: &Bits) -> Coverage
    requires long { length marks.now ≡ sum plan.now.sizes }
    ensures { (m : ModelView) (rows : List (List (Option ℕ))) → plan.now ≡ plan_of m → AreMarksOf m rows marks.now → IsCoverageOf m rows result }
{
    let mut coverage = Coverage {
        covered: 0,
        largest: None,
    };
    for set in 0..plan.set_count() {
        coverage.add(set, count_set(plan, marks, set));
    }
    coverage
}

/// How much of the demand the rows of a file cover: each complete and valid row covers what it serves, and other rows
/// cover nothing. Workers numbered from 1 mark what is covered; what is told is the same for every number of workers from 1
/// to 64. Plan and file have to be the model's; a file has at most 2^20 rows.
///
/// # Errors
///
/// `NoMemory` where memory is refused.
pub fn coverage_of<R: Threads + Sync, G: Gate + Sync>(
    rt: &R,
    alloc: Global,
    model: &TestModel,
    plan: &Plan,
    file: &RowFile,
    workers: u32,
    gate: &G,
) -> Result<Coverage, NoMemory>
    requires plan { plan.now ≡ plan_of model.now }
    requires fits { All (λ row. FitsModel model.now row.cells) file.now.rows }
    requires few { length file.now.rows ≤ 2 ^ 20 }
    requires least { 1 ≤ workers }
    requires most { workers ≤ 64 }
    ensures { IfOk result (IsCoverageOf model.now (suite_seen file.now)) }
{
    let marks = mark_rows(rt, alloc, model, plan, file, workers, gate)?;
    Ok(count_sets(plan, &marks))
}

/// How large the suite of a file is, and how much of the demand it covers, which is known. Plan and file have to be the
/// model's. Takes no memory.
pub fn numbers_of(model: &TestModel, plan: &Plan, file: &RowFile, covered: u64) -> SuiteNumbers
    requires plan { plan.now ≡ plan_of model.now }
    requires covered { covered ≡ covered_of model.now (suite_seen file.now) }
    ensures { result ≡ numbers_of model.now (suite_seen file.now) }
{
    SuiteNumbers {
        tests: file.rows.len() as u64,
        params: model.params().len() as u64,
        sets: u64::from(plan.set_count()),
        demanded: u64::from(count_tuples(plan)),
        covered,
    }
}
