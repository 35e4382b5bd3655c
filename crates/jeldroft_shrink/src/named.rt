//! What a refusal of a table names: a parameter, or a constraint.
ghost use Rattle.std.specs.Prelude.{All};
ghost use Rattle.cov_model.specs.Fits.{FitsModel};

use crate::cause::ShrinkCause;
use cov_model::{Cells, ParamNo, RowWhy, TestModel};
use jeldroft_files::missing_column;
use model_words::rule_words;
use row_text::{RowFile, RowsFault};
use std::alloc::Global;
use value_text::Text;

/// What a line names that says why there is no table.
#[derive(Drop)]
pub(crate) enum Named {
    /// Nothing, also where memory for the names was refused.
    Nothing,
    /// The parameter that has no column.
    Column(Text),
    /// The parameter that a test gives no value.
    Param(Text),
    /// A constraint that a test breaks: the line in which it begins, and its text.
    Rule(u32, Text),
}

// The first parameter to which a row gives no value.
fn empty_param(model: &TestModel, row: &Cells) -> Option<ParamNo>
    requires { FitsModel model.now row.now }
{
    model.assert_invariant();
    let count = row.len() as ParamNo;
    for p in 0..count {
        if row.get(p).is_none() {
            return Some(p);
        }
    }
    None
}

// The name of the first parameter to which the row in this line gives no value.
fn empty_name(alloc: Global, model: &TestModel, file: &RowFile, line: u32) -> Option<Text>
    requires { All (λ row. FitsModel model.now row.cells) file.now.rows }
{
    for row in file.rows.as_slice() {
        if row.line == line {
            let p = empty_param(model, &row.cells)?;
            let param = model.params().get(p as usize)?;
            return Text::copy(alloc, param.name.as_str()).ok();
        }
    }
    None
}

// The constraint of a number.
fn rule_named(alloc: Global, model: &TestModel, number: u32) -> Named {
    let Some(rule) = model.rules().get((number as usize).saturating_sub(1)) else {
        return Named::Nothing;
    };
    match rule_words(alloc, model, rule) {
        Ok(text) => Named::Rule(rule.line, text),
        Err(_) => Named::Nothing,
    }
}

/// What is named of a row of a file that makes it no table of tests.
pub(crate) fn flaw_named(
    alloc: Global,
    model: &TestModel,
    file: &RowFile,
    cause: &ShrinkCause,
) -> Named
    requires { All (λ row. FitsModel model.now row.cells) file.now.rows }
{
    match cause {
        ShrinkCause::Incomplete(line) => match empty_name(alloc, model, file, *line) {
            Some(name) => Named::Param(name),
            None => Named::Nothing,
        },
        ShrinkCause::Invalid(_, RowWhy::Rule(number)) => rule_named(alloc, model, *number),
        _ => Named::Nothing,
    }
}

/// What is named of a file of rows that is refused.
pub(crate) fn fault_named(alloc: Global, model: &TestModel, fault: RowsFault) -> Named {
    Named::of_column(missing_column(alloc, model, fault))
}

impl Named {
    /// The parameter of this name, if there is one, which has no column.
    pub(crate) fn of_column(name: Option<Text>) -> Named {
        match name {
            Some(name) => Named::Column(name),
            None => Named::Nothing,
        }
    }
}
