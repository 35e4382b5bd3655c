//! The curve of what the first tests cover.
ghost use Rattle.std.specs.Prelude.{◌≡◌, ◌≤◌, ◌<◌, ◌+◌, ◌*◌, ◌/◌, ◌^◌, All, IfOk, length, map};
ghost use Rattle.cov_model.specs.Fits.{FitsModel};
ghost use Rattle.model_page.specs.Seen.{point_seen};
ghost use Rattle.model_page.specs.believed.Curves.{curve_counts, point_at};
ghost use Rattle.row_text.specs.RowFiles.{suite_seen};
ghost use Rattle.tuple_index.specs.Plan.{plan_of};

use cov_model::TestModel;
use row_text::RowFile;
use std::alloc::Global;
use suite_facts::{CurvePoint, covered_after};
use suite_page::Point;
use tuple_index::Plan;
use value_text::NoMemory;

// The curve has at most so many steps.
const MOST_STEPS: u32 = 199;

// How many tests there are up to the end of a step.
fn count_at(step: u32, count: u32, steps: u32) -> u32
    requires { step < steps }
    ensures { result ≡ (step + 1) * count / steps }
{
    ((u64::from(step) + 1) * u64::from(count) / u64::from(steps)) as u32
}

// The numbers of tests at which the curve has a point.
fn curve_counts(alloc: Global, count: u32) -> Result<Vec<u32>, NoMemory>
    ensures { IfOk result (λ counts. counts.items ≡ curve_counts count) }
{
    let steps = count.min(MOST_STEPS);
    let mut counts = Vec::new(alloc);
    counts.push(0)?;
    for step in 0..steps {
        counts.push(count_at(step, count, steps))?;
    }
    Ok(counts)
}

// Points as a picture takes them.
fn drawn(alloc: Global, points: &[CurvePoint]) -> Result<Vec<Point>, NoMemory>
    ensures { IfOk result (λ drawn. drawn.items ≡ map point_seen points.now) }
{
    let mut drawn = Vec::new(alloc);
    for point in points {
        drawn.push(Point {
            tests: u64::from(point.tests),
            covered: u64::from(point.covered),
        })?;
    }
    Ok(drawn)
}

/// The points of the curve. Plan and file have to be the model's.
///
/// # Errors
///
/// `NoMemory` where memory was refused.
pub(crate) fn curve_points(
    alloc: Global,
    model: &TestModel,
    plan: &Plan,
    file: &RowFile,
) -> Result<Vec<Point>, NoMemory>
    requires plan { plan.now ≡ plan_of model.now }
    requires fits { All (λ row. FitsModel model.now row.cells) file.now.rows }
    requires few { length file.now.rows ≤ 2 ^ 20 }
    ensures { IfOk result (λ points. points.items ≡ map (point_at model.now (suite_seen file.now)) (curve_counts (length (suite_seen file.now)))) }
{
    let counts = curve_counts(alloc, file.rows.len() as u32)?;
    let points = covered_after(alloc, model, plan, file, counts.as_slice())?;
    let places = drawn(alloc, points.as_slice())?;
    Ok(places)
}
