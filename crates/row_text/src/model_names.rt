ghost use Rattle.std.specs.Prelude.{◌≡◌, ◌<◌, ◌≤◌, ℕ, List, [], ◌∷◌, Some, None, true, if◌then◌else◌, length, position, slice_index_or, IfOk, OnOk};
ghost use Rattle.std.specs.Option.{option_or};
ghost use Rattle.value_text.specs.believed.Texts.{folded};
ghost use Rattle.cov_model.specs.believed.Sound.{IsSound, param_at};
ghost use Rattle.definitions.specs.believed.Report.{printed};
ghost use Rattle.definitions.specs.believed.RowFile.{named_param, named_value};
ghost use Rattle.row_text.specs.Lookups.{is_param_named, is_value_named, number_of};

use crate::text_numbers::TextNumbers;
use cov_model::{Param, ParamNo, TestModel, Value, ValueNo};
use std::alloc::Global;
use std::marker::Model;
use value_text::{NoMemory, Text};

/// The names of a model's parameters and of their values, to be looked up under the case rule. Contracts see the
/// model.
#[derive(Drop)]
pub(crate) struct ModelNames<'a> {
    model: &'a TestModel,
    params: TextNumbers,
    values: Vec<TextNumbers>,
    key: Vec<u8>,
}

impl<'a> Model for ModelNames<'a> {
    ghost use Rattle.std.specs.Coded.{codes};
    ghost use Rattle.cov_model.specs.believed.Sound.{ModelView};
    ghost use Rattle.cov_model.specs.contracts.model.TestModel as tested;
    ghost use Rattle.row_text.specs.Lookups.{AreNamesOf};

    ghost Value = { ModelView };

    ghost coded = { Prim.hlevel (codes, tested.the_row.coded) };

    ghost view = { λ names. names.model.now };

    ghost invariant = { λ names. AreNamesOf names.model.now names.params names.values.items };
}

/// Makes a text what the case rule compares in its place.
fn fold_key(key: &mut Vec<u8>, fold: bool)
    ensures { key.new.items ≡ folded fold key.old.items }
{
    if fold {
        key.make_ascii_lowercase();
    }
}

/// Becomes a text as it is compared where case doesn't count.
fn set_key(key: &mut Vec<u8>, text: &[u8]) -> Result<(), NoMemory>
    ensures { OnOk result (key.new.items ≡ folded true text.now) }
{
    key.clear();
    key.extend_from_slice(text)?;
    fold_key(key, true);
    Ok(())
}

/// The number of a text under the case rule. The text is copied into the key only where case doesn't count.
fn number_under(
    texts: &TextNumbers,
    key: &mut Vec<u8>,
    text: &[u8],
    fold: bool,
) -> Result<Option<u16>, NoMemory>
    ensures { IfOk result (λ number. number ≡ number_of texts.now (folded fold text.now)) }
{
    if !fold {
        return Ok(texts.number(text));
    }
    set_key(key, text)?;
    Ok(texts.number(key.as_slice()))
}

/// What stands before a printed name.
fn printed_mark(alloc: Global, mark: u8, negative: bool) -> Result<Vec<u8>, NoMemory>
    ensures { IfOk result (λ key. key.items ≡ (if negative then mark ∷ [] else [])) }
{
    let mut key = Vec::new(alloc);
    if negative {
        key.push(mark)?;
    }
    Ok(key)
}

/// A name of a value as it is printed and as the case rule compares it.
fn printed_key(
    alloc: Global,
    model: &TestModel,
    value: &Value,
    name: &Text,
) -> Result<Vec<u8>, NoMemory>
    ensures { IfOk result (λ key. key.items ≡ folded model.now.fold (printed model.now value.now name.now)) }
{
    let mut key = printed_mark(alloc, model.prefix(), value.negative)?;
    key.extend_from_slice(name.as_str().as_bytes())?;
    fold_key(&mut key, model.fold());
    Ok(key)
}

/// Adds the names of a value with its number.
fn add_value(
    alloc: Global,
    model: &TestModel,
    value: &Value,
    number: ValueNo,
    texts: &mut TextNumbers,
) -> Result<(), NoMemory>
    ensures { OnOk result ((key : List ℕ) → number_of texts.new key
        ≡ option_or (number_of texts.old key) (if is_value_named model.now key value.now then Some number else None)) }
{
    for name in value.names.as_slice() {
        let key = printed_key(alloc, model, value, name)?;
        texts.add(key, number)?;
    }
    Ok(())
}

/// The names of the values of a parameter.
fn value_texts(alloc: Global, model: &TestModel, param: &Param) -> Result<TextNumbers, NoMemory>
    requires { length param.now.values ≤ 4095 }
    ensures { IfOk result (λ texts. (key : List ℕ) → number_of texts key ≡ position (is_value_named model.now key) param.now.values) }
{
    let mut texts = TextNumbers::new(alloc);
    for (number, value) in param.values.as_slice().iter().enumerate() {
        add_value(alloc, model, value, number as ValueNo, &mut texts)?;
    }
    Ok(texts)
}

/// The names of the values of each parameter.
fn all_value_texts(alloc: Global, model: &TestModel) -> Result<Vec<TextNumbers>, NoMemory>
    ensures many { IfOk result (λ values. length values.items ≡ length model.now.params) }
    ensures named { IfOk result (λ values. (p : ℕ) (key : List ℕ) → p < length model.now.params
        → number_of (slice_index_or values.items p []) key ≡ position (is_value_named model.now key) (param_at model.now.params p).values) }
{
    let mut values = Vec::new(alloc);
    for param in model.params().as_slice() {
        let texts = value_texts(alloc, model, param)?;
        values.push(texts)?;
    }
    Ok(values)
}

/// The names of the parameters.
fn param_texts(alloc: Global, model: &TestModel) -> Result<TextNumbers, NoMemory>
    ensures { IfOk result (λ texts. (key : List ℕ) → number_of texts key ≡ position (is_param_named model.now key) model.now.params) }
{
    let mut texts = TextNumbers::new(alloc);
    for (number, param) in model.params().as_slice().iter().enumerate() {
        let mut key = Vec::from_slice(alloc, param.name.as_str().as_bytes())?;
        fold_key(&mut key, model.fold());
        texts.add(key, number as ParamNo)?;
    }
    Ok(texts)
}

impl<'a> ModelNames<'a> {
    /// The names of a model.
    ///
    /// # Errors
    ///
    /// `NoMemory` where memory was refused.
    pub(crate) fn new(alloc: Global, model: &'a TestModel) -> Result<ModelNames<'a>, NoMemory>
        ensures { IfOk result (λ names. names ≡ model.now) }
    {
        let values = all_value_texts(alloc, model)?;
        Ok(ModelNames {
            model,
            params: param_texts(alloc, model)?,
            values,
            key: Vec::new(alloc),
        })
    }

    /// The number of parameters.
    pub(crate) fn param_count(&self) -> usize
        ensures count { result ≡ length self.now.params }
        ensures sound { IsSound self.now }
    {
        self.model.params().len()
    }

    /// The parameter that a cell of a header names.
    pub(crate) fn param(&mut self, cell: &[u8]) -> Result<Option<ParamNo>, NoMemory>
        ensures named { IfOk result (λ param. param ≡ named_param self.old cell.now) }
        ensures same { self.new ≡ self.old }
    {
        let fold = self.model.fold();
        number_under(&self.params, &mut self.key, cell, fold)
    }

    /// The value of a parameter of which a cell is a printed name.
    pub(crate) fn value(&mut self, p: ParamNo, cell: &[u8]) -> Result<Option<ValueNo>, NoMemory>
        requires { p < length self.old.params }
        ensures named { IfOk result (λ value. value ≡ named_value self.old p cell.now) }
        ensures same { self.new ≡ self.old }
    {
        let texts = &self.values[p as usize];
        let fold = self.model.fold();
        if let Some(value) = texts.short_number(cell, fold) {
            return Ok(Some(value));
        }
        number_under(texts, &mut self.key, cell, fold)
    }
}
