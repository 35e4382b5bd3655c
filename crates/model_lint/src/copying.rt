ghost use Rattle.std.specs.Prelude.{◌≡◌, IfOk};

use cov_model::{Param, ParamList, Value, ValueList};
use std::alloc::Global;
use value_text::{NoMemory, OwnedList, Text, TextList};

// A copy of a list of names.
fn copy_names(alloc: Global, names: &TextList) -> Result<TextList, NoMemory>
    ensures { IfOk result (λ copies. copies ≡ names.now) }
{
    let mut copies = OwnedList::new(alloc);
    for name in names.as_slice() {
        copies.push(Text::copy(alloc, name.as_str())?)?;
    }
    Ok(copies)
}

// A copy of a value.
fn copy_value(alloc: Global, value: &Value) -> Result<Value, NoMemory>
    ensures { IfOk result (λ copy. copy ≡ value.now) }
{
    let names = copy_names(alloc, &value.names)?;
    Ok(Value {
        names,
        weight: value.weight,
        negative: value.negative,
    })
}

// A copy of a list of values.
fn copy_values(alloc: Global, values: &ValueList) -> Result<ValueList, NoMemory>
    ensures { IfOk result (λ copies. copies ≡ values.now) }
{
    let mut copies = OwnedList::new(alloc);
    for value in values.as_slice() {
        copies.push(copy_value(alloc, value)?)?;
    }
    Ok(copies)
}

// A copy of a parameter.
fn copy_param(alloc: Global, param: &Param) -> Result<Param, NoMemory>
    ensures { IfOk result (λ copy. copy ≡ param.now) }
{
    let name = Text::copy(alloc, param.name.as_str())?;
    let values = copy_values(alloc, &param.values)?;
    Ok(Param {
        name,
        line: param.line,
        numeric: param.numeric,
        values,
    })
}

// A copy of a list of parameters.
pub(crate) fn copy_params(alloc: Global, params: &ParamList) -> Result<ParamList, NoMemory>
    ensures { IfOk result (λ copies. copies ≡ params.now) }
{
    let mut copies = OwnedList::new(alloc);
    for param in params.as_slice() {
        copies.push(copy_param(alloc, param)?)?;
    }
    Ok(copies)
}
