ghost use Rattle.std.specs.Prelude.{◌≡◌, ◌≤◌, IfOk, length};
ghost use Rattle.cov_model.specs.Fits.{FitsModel};
ghost use Rattle.cov_model.specs.Sound.{rule_at};
ghost use Rattle.cov_model.specs.Views.{body_view};
ghost use Rattle.model_lint.specs.Changes.{changed, is_marked, one_changed};
ghost use Rattle.model_lint.specs.believed.Constraints.{has_premise, never_applies, never_excludes};
ghost use Rattle.model_lint.specs.believed.Tests.{has_test, no_values, part};

use crate::change::Change;
use crate::changing::{changed_model, kept_alone, one_changed};
use crate::completer::Completer;
use crate::seeking::seek_test;
use cov_model::{Body, Cells, TestModel};
use std::alloc::Global;
use value_text::NoMemory;

// Whether the model has a test where this constraint is changed.
fn has_test_with<C: Completer>(
    alloc: Global,
    completer: &C,
    model: &TestModel,
    number: u32,
    change: Change,
) -> Result<bool, NoMemory>
    requires least { 1 ≤ number }
    requires most { number ≤ length model.now.rules }
    ensures { IfOk result (λ found. found ≡ has_test (changed model.now (one_changed (length model.now.rules) number change)) (no_values model.now)) }
{
    let changes = one_changed(alloc, model.rules().len(), number, change)?;
    let part = changed_model(alloc, model, changes.as_slice())?;
    let none = Cells::empty(alloc, model.params().len())?;
    let mut row = Cells::empty(alloc, model.params().len())?;
    seek_test(alloc, completer, &part, &none, &mut row)
}

/// Whether a test contains a partial row once the constraints without a mark are left out. The mark of a constraint stands
/// at its number less one (this project's rule).
///
/// # Errors
///
/// `NoMemory` where memory is refused.
pub fn has_test_of_marked<C: Completer>(
    alloc: Global,
    completer: &C,
    model: &TestModel,
    marks: &[bool],
    cells: &Cells,
) -> Result<bool, NoMemory>
    requires fits { FitsModel model.now cells.now }
    ensures { IfOk result (λ found. found ≡ has_test (part model.now (is_marked marks.now)) cells.now) }
{
    let changes = kept_alone(alloc, marks)?;
    let part = changed_model(alloc, model, changes.as_slice())?;
    let mut row = Cells::empty(alloc, model.params().len())?;
    seek_test(alloc, completer, &part, cells, &mut row)
}

/// Whether a constraint excludes nothing: it is true of every row that is valid without it, that is, that meets the
/// other constraints and has at most one negative value. Completes at most one partial row a slice (this project's rule).
///
/// # Errors
///
/// `NoMemory` where memory is refused.
pub fn never_excludes<C: Completer>(
    alloc: Global,
    completer: &C,
    model: &TestModel,
    number: u32,
) -> Result<bool, NoMemory>
    requires least { 1 ≤ number }
    requires most { number ≤ length model.now.rules }
    ensures { IfOk result (λ idle. idle ≡ never_excludes model.now (rule_at model.now number)) }
{
    model.assert_invariant();
    let found = has_test_with(alloc, completer, model, number, Change::Opposite)?;
    Ok(!found)
}

// Whether a constraint has a condition.
fn has_premise(body: &Body) -> bool
    ensures { result ≡ has_premise (body_view body.now) }
{
    match body {
        Body::Plain(_) => false,
        Body::IfThen(_, _) | Body::IfElse(_, _, _) => true,
    }
}

// Whether the constraint of a number has a condition.
fn is_conditional(model: &TestModel, number: u32) -> bool
    requires least { 1 ≤ number }
    requires most { number ≤ length model.now.rules }
    ensures { result ≡ has_premise (rule_at model.now number).body }
{
    has_premise(&model.rules().as_slice()[number as usize - 1].body)
}

/// Whether a constraint has a condition, and it is true of no valid row. Completes at most one partial row a slice (this
/// project's rule).
///
/// # Errors
///
/// `NoMemory` where memory is refused.
pub fn never_applies<C: Completer>(
    alloc: Global,
    completer: &C,
    model: &TestModel,
    number: u32,
) -> Result<bool, NoMemory>
    requires least { 1 ≤ number }
    requires most { number ≤ length model.now.rules }
    ensures { IfOk result (λ unmet. unmet ≡ never_applies model.now (rule_at model.now number)) }
{
    model.assert_invariant();
    if !is_conditional(model, number) {
        return Ok(false);
    }
    let found = has_test_with(alloc, completer, model, number, Change::WithPremise)?;
    Ok(!found)
}
