//! Names that may be meant by a name that stands nowhere.
ghost use Rattle.std.specs.Prelude.{◌≤◌};

use cov_model::{Param, TestModel};
use std::alloc::Global;
use strsim::osa_distance;
use value_text::NoMemory;

// The most bytes of a name that is compared: the memory for it grows with the square.
const MOST_BYTES: usize = 200;

// A text with its ASCII letters in lower case.
fn lowered(alloc: Global, text: &str) -> Result<String, NoMemory> {
    let mut lower = String::new(alloc);
    for character in text.chars() {
        lower.push(character.to_ascii_lowercase())?;
    }
    Ok(lower)
}

// How many changes of a character lead from a name in lower case to another one; more than are looked
// at where one of them is long.
fn changes(alloc: Global, word: &str, name: &str) -> Result<usize, NoMemory> {
    if word.len() > MOST_BYTES || name.len() > MOST_BYTES {
        return Ok(usize::MAX);
    }
    let name = lowered(alloc, name)?;
    Ok(osa_distance(alloc, word, name.as_str())?)
}

// The most changes that lead from a name to one that may be meant.
fn most_changes(word: &str) -> usize
    ensures { result ≤ 2 }
{
    match word.chars().count() {
        0..=2 => 0,
        3 | 4 => 1,
        _ => 2,
    }
}

/// The first of the nearest of some names, where one is near enough to be meant by a word: as many changes of
/// a character lead to it as may be slips in a word of this length, of which ASCII letters are taken in any case.
///
/// # Errors
///
/// `NoMemory` where memory is refused.
pub fn nearest<'a>(
    alloc: Global,
    word: &str,
    names: &[&'a str],
) -> Result<Option<&'a str>, NoMemory> {
    let word = lowered(alloc, word)?;
    let mut found = None;
    let mut least = most_changes(word.as_str()) + 1;
    for name in names {
        let count = changes(alloc, word.as_str(), name)?;
        if count < least {
            least = count;
            found = Some(*name);
        }
    }
    Ok(found)
}

// The names of parameters.
fn names_of(alloc: Global, params: &[Param]) -> Result<Vec<&str>, NoMemory> {
    let mut names = Vec::new(alloc);
    for param in params {
        names.push(param.name.as_str())?;
    }
    Ok(names)
}

/// The name of the parameter of a model that may be meant by a name.
pub(crate) fn nearest_param<'a>(
    alloc: Global,
    word: &str,
    model: &'a TestModel,
) -> Result<Option<&'a str>, NoMemory> {
    let names = names_of(alloc, model.params().as_slice())?;
    nearest(alloc, word, names.as_slice())
}
