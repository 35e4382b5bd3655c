//! Which value may be meant by a text that no value is.
use crate::names::first_name;
use cov_model::Param;
use refusal_places::nearest;
use std::alloc::Global;
use value_text::NoMemory;

/// The first name of the first of the nearest values of a parameter, where one is near enough to be meant.
pub(crate) fn meant_value<'a>(
    alloc: Global,
    param: &'a Param,
    word: &str,
) -> Result<Option<&'a str>, NoMemory> {
    let mut names = Vec::new(alloc);
    for value in param.values.as_slice() {
        names.push(first_name(value))?;
    }
    nearest(alloc, word, names.as_slice())
}
