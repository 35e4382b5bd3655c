ghost use Rattle.std.specs.Prelude.{◌≡◌, ◌<◌, IfOk, length, map};
ghost use Rattle.cov_model.specs.Views.{rule_view};
ghost use Rattle.cov_model.specs.believed.Sound.{param_at};
ghost use Rattle.model_lint.specs.believed.Tests.{has_test, value_alone};
ghost use Rattle.model_findings.specs.Without.{compares, is_free_of, without_comparisons};

use crate::search::FullCompleter;
use crate::terms::terms_of;
use cov_model::{Cells, ParamNo, Rule, RuleList, Term, TestModel, ValueNo};
use model_lint::has_test_of_marked;
use std::alloc::Global;
use value_text::NoMemory;

/// Whether a term compares values of a parameter: it names the parameter, and is no test of the sign of its values.
pub fn compares(term: &Term, p: ParamNo) -> bool
    ensures { result ≡ compares p term.now }
{
    match term {
        Term::ValueIs(q, _, _) => *q == p,
        Term::ParamIs(q, _, r) => *q == p || *r == p,
        Term::OneOf(q, _) => *q == p,
        Term::Like(q, _) => *q == p,
        Term::Negative(_) => false,
        Term::Positive(_) => false,
    }
}

// Whether no term of a constraint compares values of a parameter.
fn is_free_of(alloc: Global, rule: &Rule, p: ParamNo) -> Result<bool, NoMemory>
    ensures { IfOk result (λ free. free ≡ is_free_of p (rule_view rule.now)) }
{
    let terms = terms_of(alloc, &rule.body)?;
    for term in terms.as_slice() {
        if compares(term, p) {
            return Ok(false);
        }
    }
    Ok(true)
}

// Marks the constraints that compare no values of a parameter.
fn marks_of(alloc: Global, rules: &RuleList, p: ParamNo) -> Result<Vec<bool>, NoMemory>
    ensures { IfOk result (λ marks. marks.items ≡ map (is_free_of p) (map rule_view rules.now)) }
{
    let mut marks = Vec::new(alloc);
    for rule in rules.as_slice() {
        marks.push(is_free_of(alloc, rule, p)?)?;
    }
    Ok(marks)
}

/// Whether a value is in a test once the constraints are left out that compare values of its parameter (this project's
/// rule).
///
/// # Errors
///
/// `NoMemory` where memory is refused.
pub fn passes_without_comparisons(
    alloc: Global,
    model: &TestModel,
    p: ParamNo,
    v: ValueNo,
) -> Result<bool, NoMemory>
    requires parameter { p < length model.now.params }
    requires value { v < length (param_at model.now.params p).values }
    ensures { IfOk result (λ passes. passes ≡ has_test (without_comparisons model.now p) (value_alone model.now (p, v))) }
{
    model.assert_invariant();
    let marks = marks_of(alloc, model.rules(), p)?;
    let mut cells = Cells::empty(alloc, model.params().len())?;
    cells.set_cell(p, v);
    has_test_of_marked(alloc, &FullCompleter, model, marks.as_slice(), &cells)
}
