//! Numbers, literals and values of a model in words.
use crate::names::first_name;
use cov_model::{Literal, Param, Rel, TestModel, Value};
use std::alloc::Global;
use value_text::{Fixed, NoMemory};

// The most values that are listed.
const MOST_LISTED: usize = 8;

// How many parts of a number one is.
const SCALE: u128 = 1_000_000_000;

// The decimals of a number, given as so many parts of one: a point and digits, or nothing.
fn decimals_of(alloc: Global, parts: u128) -> Result<String, NoMemory> {
    if parts == 0 {
        return Ok(String::new(alloc));
    }
    let digits = format!(in alloc; ".{parts:09}")?;
    Ok(String::from_str(alloc, digits.as_str().trim_end_matches('0'))?)
}

// The digits of a number.
fn digits_of(alloc: Global, number: Fixed) -> Result<String, NoMemory> {
    let scaled = number.scaled();
    let size = scaled.unsigned_abs();
    let sign = if scaled < 0 { "-" } else { "" };
    let decimals = decimals_of(alloc, size % SCALE)?;
    let whole = size / SCALE;
    Ok(format!(in alloc; "{sign}{whole}{decimals}")?)
}

/// A literal as it is written in a constraint.
///
/// # Errors
///
/// `NoMemory` where memory is refused.
pub fn literal_words(alloc: Global, literal: &Literal) -> Result<String, NoMemory> {
    match literal {
        Literal::Words(text) => {
            let text = text.as_str();
            Ok(format!(in alloc; "\"{text}\"")?)
        }
        Literal::Number(number) => digits_of(alloc, *number),
    }
}

/// A relation as it is written in a constraint.
pub(crate) fn relation_words(rel: Rel) -> &'static str {
    match rel {
        Rel::Eq => "=",
        Rel::Ne => "<>",
        Rel::Gt => ">",
        Rel::Ge => ">=",
        Rel::Lt => "<",
        Rel::Le => "<=",
    }
}

// Adds the name of a value, with the mark before it where the value is invalid.
fn push_value(mark: u8, value: &Value, into: &mut String) -> Result<(), NoMemory> {
    if value.negative {
        into.push(char::from(mark))?;
    }
    into.push_str(first_name(value))?;
    Ok(())
}

/// A value as tables show it: with the mark before its name where it is invalid.
///
/// # Errors
///
/// `NoMemory` where memory is refused.
pub fn value_words(alloc: Global, model: &TestModel, value: &Value) -> Result<String, NoMemory> {
    let mut words = String::new(alloc);
    push_value(model.prefix(), value, &mut words)?;
    Ok(words)
}

// What stands before a value of a list.
fn before_value(is_first: bool) -> &'static str {
    if is_first { " (" } else { ", " }
}

/// A parameter and its values, as `Chunked (yes, no)`; of many the first ones.
pub(crate) fn param_words(
    alloc: Global,
    model: &TestModel,
    param: &Param,
) -> Result<String, NoMemory> {
    let mut words = String::from_str(alloc, param.name.as_str())?;
    let mut is_first = true;
    for value in param.values.as_slice().iter().take(MOST_LISTED) {
        words.push_str(before_value(is_first))?;
        push_value(model.prefix(), value, &mut words)?;
        is_first = false;
    }
    if param.values.len() > MOST_LISTED {
        words.push_str(", ..")?;
    }
    words.push_str(")")?;
    Ok(words)
}
