//! Suites that are read from their texts, and their figures.

ghost use Rattle.std.specs.Prelude.{◌≤◌};

use coverage_measure::measure;
use definitions::Effort;
use feasibility::SearchFault;
use row_text::{Figures, RowFile, RowMode, RowsFault, read_rows};
use std::alloc::Global;
use std::test::Fail;
use std::thread::Threads;
use test_models::{options, read};
use tuple_index::Plan;
use worker_gate::Gate;

/// The most bytes of a row file.
const MOST_BYTES: usize = 1 << 20;

/// A suite: a model, its order, and a row file.
#[derive(Clone, Copy, Drop)]
pub(crate) struct Suite<'a> {
    pub(crate) model: &'a str,
    pub(crate) order: u32,
    pub(crate) rows: &'a str,
}

/// What `measure` answers of a suite.
///
/// # Errors
///
/// Where model or rows can't be read.
pub(crate) fn measured<R: Threads + Sync, G: Gate + Sync>(
    rt: &R,
    alloc: Global,
    suite: &Suite<'_>,
    workers: u32,
    effort: Effort,
    gate: &G,
) -> Result<Result<Figures, SearchFault>, Fail>
    requires order { 1 ≤ suite.now.order }
    requires least { 1 ≤ workers }
    requires most { workers ≤ 64 }
{
    let (model, _) = read(alloc, suite.model, &options(suite.order))?;
    let plan = Plan::new(alloc, &model)?;
    if suite.rows.len() > MOST_BYTES {
        return Err("long rows".into());
    }
    let file = read_rows(alloc, suite.rows.as_bytes(), &model, RowMode::Suite)?;
    Ok(measure(rt, alloc, &model, &plan, &file, workers, effort, gate))
}
