//! Words and numbers at the end of a text.
ghost use Rattle.std.specs.Prelude.{◌≡◌, ◌++◌, [], codes, decimal, OnOk, if◌then◌else◌};
ghost use Rattle.cov_model.specs.believed.Meaning.{value_at};
ghost use Rattle.model_words.specs.believed.Words.{combinations, counted, first_printed, listed, pair_words, param_words, tests};

use cov_model::{ParamNo, TestModel, Value, ValueNo};
use itoa::Buffer;
use value_text::NoMemory;

/// Adds a piece.
pub fn add(piece: &str, text: &mut Vec<u8>) -> Result<(), NoMemory>
    ensures { OnOk result (text.new.items ≡ text.old.items ++ piece.now) }
{
    text.extend_from_slice(piece.as_bytes())?;
    Ok(())
}

/// Adds a number.
pub fn add_number(number: u64, text: &mut Vec<u8>) -> Result<(), NoMemory>
    ensures { OnOk result (text.new.items ≡ text.old.items ++ decimal number) }
{
    let mut digits = Buffer::new();
    add(digits.format(number), text)
}

/// Adds two numbers, by the texts around them.
pub fn add_two(
    opening: &str,
    first: u32,
    middle: &str,
    second: u32,
    ending: &str,
    text: &mut Vec<u8>,
) -> Result<(), NoMemory>
    ensures { OnOk result (text.new.items ≡ text.old.items ++ (opening.now ++ (decimal first ++ (middle.now ++ (decimal second ++ ending.now))))) }
{
    add(opening, text)?;
    add_number(u64::from(first), text)?;
    add(middle, text)?;
    add_number(u64::from(second), text)?;
    add(ending, text)
}

/// Adds a number with what it counts.
pub fn add_counted(number: u64, one: &str, many: &str, text: &mut Vec<u8>) -> Result<(), NoMemory>
    ensures { OnOk result (text.new.items ≡ text.old.items ++ counted number one.now many.now) }
{
    add_number(number, text)?;
    text.push(b' ')?;
    if number == 1 {
        add(one, text)
    } else {
        add(many, text)
    }
}

/// Adds a number of tests.
pub fn add_tests(number: u64, text: &mut Vec<u8>) -> Result<(), NoMemory>
    ensures { OnOk result (text.new.items ≡ text.old.items ++ tests number) }
{
    add_counted(number, "test", "tests", text)
}

/// Adds a number of combinations.
pub fn add_combinations(number: u64, text: &mut Vec<u8>) -> Result<(), NoMemory>
    ensures { OnOk result (text.new.items ≡ text.old.items ++ combinations number) }
{
    add_counted(number, "combination", "combinations", text)
}

// The name of a parameter; none where there is no such parameter.
fn param_name(model: &TestModel, p: ParamNo) -> &str
    ensures { result.now ≡ param_words model.now p }
{
    match model.params().as_slice().get(p as usize) {
        Some(param) => param.name.as_str(),
        None => "",
    }
}

// Adds the first name of a value, with the mark of an invalid one.
fn add_first_name(model: &TestModel, value: &Value, text: &mut Vec<u8>) -> Result<(), NoMemory>
    ensures { OnOk result (text.new.items ≡ text.old.items ++ first_printed model.now value.now) }
{
    if value.negative {
        text.push(model.prefix())?;
    }
    match value.names.as_slice().first() {
        Some(name) => add(name.as_str(), text),
        None => Ok(()),
    }
}

// Adds the first name of a value of a parameter; nothing where there is no such value.
fn add_value(model: &TestModel, p: ParamNo, v: ValueNo, text: &mut Vec<u8>) -> Result<(), NoMemory>
    ensures { OnOk result (text.new.items ≡ text.old.items ++ first_printed model.now (value_at model.now p v)) }
{
    let Some(param) = model.params().as_slice().get(p as usize) else {
        return Ok(());
    };
    match param.values.as_slice().get(v as usize) {
        Some(value) => add_first_name(model, value, text),
        None => Ok(()),
    }
}

// Adds a pair of a parameter and a value.
fn add_pair(model: &TestModel, pair: (ParamNo, ValueNo), text: &mut Vec<u8>) -> Result<(), NoMemory>
    ensures { OnOk result (text.new.items ≡ text.old.items ++ pair_words model.now (pair.0, pair.1)) }
{
    add(param_name(model, pair.0), text)?;
    add(" = ", text)?;
    add_value(model, pair.0, pair.1, text)
}

// Adds what stands before an item of a list.
fn add_comma(is_first: bool, text: &mut Vec<u8>) -> Result<(), NoMemory>
    ensures { OnOk result (text.new.items ≡ text.old.items ++ (if is_first then [] else codes ", ")) }
{
    if is_first {
        return Ok(());
    }
    add(", ", text)
}

// Adds a pair, behind a comma unless it is the first.
fn add_next_pair(
    model: &TestModel,
    is_first: bool,
    pair: (ParamNo, ValueNo),
    text: &mut Vec<u8>,
) -> Result<(), NoMemory>
    ensures { OnOk result (text.new.items ≡ text.old.items ++ ((if is_first then [] else codes ", ") ++ pair_words model.now (pair.0, pair.1))) }
{
    add_comma(is_first, text)?;
    add_pair(model, pair, text)
}

// Adds the name of a parameter, behind a comma unless it is the first.
fn add_next_param(
    model: &TestModel,
    is_first: bool,
    p: ParamNo,
    text: &mut Vec<u8>,
) -> Result<(), NoMemory>
    ensures { OnOk result (text.new.items ≡ text.old.items ++ ((if is_first then [] else codes ", ") ++ param_words model.now p)) }
{
    add_comma(is_first, text)?;
    add(param_name(model, p), text)
}

/// Adds a combination of values.
pub fn add_pairs(
    model: &TestModel,
    pairs: &[(ParamNo, ValueNo)],
    text: &mut Vec<u8>,
) -> Result<(), NoMemory>
    ensures { OnOk result (text.new.items ≡ text.old.items ++ listed (pair_words model.now) pairs.now) }
{
    let mut is_first = true;
    for pair in pairs {
        add_next_pair(model, is_first, *pair, text)?;
        is_first = false;
    }
    Ok(())
}

/// Adds the names of parameters.
pub fn add_params(model: &TestModel, params: &[ParamNo], text: &mut Vec<u8>) -> Result<(), NoMemory>
    ensures { OnOk result (text.new.items ≡ text.old.items ++ listed (param_words model.now) params.now) }
{
    let mut is_first = true;
    for param in params {
        add_next_param(model, is_first, *param, text)?;
        is_first = false;
    }
    Ok(())
}
