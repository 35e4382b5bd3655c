ghost use Rattle.std.specs.Prelude.{All};
ghost use Rattle.cov_model.specs.Fits.{FitsModel};

use cov_model::{Cells, ParamNo, TestModel};
use jeldroft_words::forbidding_rule;
use row_text::RowFile;

/// What is wrong with a test of a table.
#[derive(Debug, Drop, Clone, Copy, PartialEq, Eq)]
pub(crate) enum RowFlaw {
    /// The constraint of this number, which begins in this line of the model file, is false on it.
    Rule(u32, u32),
    /// It leaves this parameter without a value.
    Empty(ParamNo),
    /// More than one of its values is invalid.
    Signs,
}

// The first parameter that a test leaves without a value.
fn empty_param(model: &TestModel, test: &Cells) -> Option<ParamNo>
    requires { FitsModel model.now test.now }
{
    model.assert_invariant();
    let count = test.len() as ParamNo;
    for p in 0..count {
        if test.get(p).is_none() {
            return Some(p);
        }
    }
    None
}

// What is wrong with a test that isn't valid.
fn flaw_of(model: &TestModel, test: &Cells) -> RowFlaw
    requires { FitsModel model.now test.now }
{
    if let Some(p) = empty_param(model, test) {
        return RowFlaw::Empty(p);
    }
    match forbidding_rule(model, test) {
        Some(rule) => RowFlaw::Rule(rule.number, rule.line),
        None => RowFlaw::Signs,
    }
}

/// What is wrong with the test in this line of a table, which isn't valid.
pub(crate) fn flaw_in(model: &TestModel, tests: &RowFile, line: u32) -> Option<RowFlaw>
    requires { All (λ row. FitsModel model.now row.cells) tests.now.rows }
{
    for row in tests.rows.as_slice() {
        if row.line == line {
            return Some(flaw_of(model, &row.cells));
        }
    }
    None
}
