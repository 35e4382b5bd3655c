//! Which parameter or value a cell names, for a line of warning: the names are compared one after another.
use cov_model::{Param, TestModel, Value};
use value_text::same_text;

/// The parameter that a cell of a header names.
pub(crate) fn param_named<'m>(model: &'m TestModel, cell: &str) -> Option<&'m Param> {
    let fold = model.fold();
    model
        .params()
        .as_slice()
        .iter()
        .find(|param| same_text(param.name.as_str(), cell, fold))
}

// What a cell says of the names of a value, which is printed with the mark of invalid values if it is one.
fn name_in<'c>(mark: u8, value: &Value, cell: &'c str) -> Option<&'c str> {
    if !value.negative {
        return Some(cell);
    }
    match cell.as_bytes() {
        [first, ..] if *first == mark => cell.get(1..),
        _ => None,
    }
}

fn names(mark: u8, fold: bool, value: &Value, cell: &str) -> bool {
    let Some(text) = name_in(mark, value, cell) else {
        return false;
    };
    value
        .names
        .as_slice()
        .iter()
        .any(|name| same_text(name.as_str(), text, fold))
}

/// Whether a cell names a value of a parameter.
pub(crate) fn has_value_named(model: &TestModel, param: &Param, cell: &str) -> bool {
    let (mark, fold) = (model.prefix(), model.fold());
    param
        .values
        .as_slice()
        .iter()
        .any(|value| names(mark, fold, value, cell))
}
