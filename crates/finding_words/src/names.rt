//! Lines and names of a model, and what stands for them where there are none.
ghost use Rattle.std.specs.Prelude.{◌≡◌, slice_index_or};
ghost use Rattle.cov_model.specs.believed.Meaning.{no_value, value_at};
ghost use Rattle.cov_model.specs.believed.Sound.{first_name, param_at};
ghost use Rattle.finding_words.specs.believed.Lines.{rule_line};

use cov_model::{Param, ParamNo, TestModel, Value, ValueNo};

/// The line where the constraint of a number begins; 0 where there is none of this number.
pub fn rule_line(model: &TestModel, number: u32) -> u32
    ensures { result ≡ rule_line model.now number }
{
    match model.rules().get((number as usize).saturating_sub(1)) {
        Some(rule) => rule.line,
        None => 0,
    }
}

/// The line of the parameter of a number.
pub fn param_line(model: &TestModel, p: ParamNo) -> u32
    ensures { result ≡ (param_at model.now.params p).line }
{
    match model.params().get(p as usize) {
        Some(param) => param.line,
        None => 0,
    }
}

/// The name of the parameter of a number.
pub fn param_name(model: &TestModel, p: ParamNo) -> &str
    ensures { result.now ≡ (param_at model.now.params p).name }
{
    match model.params().get(p as usize) {
        Some(param) => param.name.as_str(),
        None => "",
    }
}

/// The first name of a value; empty where it has none.
pub fn first_name(value: &Value) -> &str
    ensures { result.now ≡ first_name value.now }
{
    match value.names.get(0) {
        Some(name) => name.as_str(),
        None => "",
    }
}

// The first name of the value of a number of a parameter.
fn name_in(param: &Param, v: ValueNo) -> &str
    ensures { result.now ≡ first_name (slice_index_or param.now.values v no_value) }
{
    match param.values.get(v as usize) {
        Some(value) => first_name(value),
        None => "",
    }
}

/// The first name of the value of a number of the parameter of a number; empty where there is none.
pub fn value_name(model: &TestModel, p: ParamNo, v: ValueNo) -> &str
    ensures { result.now ≡ first_name (value_at model.now p v) }
{
    match model.params().get(p as usize) {
        Some(param) => name_in(param, v),
        None => "",
    }
}
