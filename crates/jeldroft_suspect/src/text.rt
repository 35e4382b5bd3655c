ghost use Rattle.std.specs.Prelude.{◌≡◌, ◌<◌, ◌++◌, ◌∷◌, [], map, flat_map, length, All, IsPermutation, IfOk, OnOk, if◌then◌else◌};
ghost use Rattle.std.specs.List.{range_with_len};
ghost use Rattle.cov_model.specs.believed.Preference.{by_falling_weight};
ghost use Rattle.suspect_tuples.specs.Told.{found_seen};
ghost use Rattle.jeldroft_suspect.specs.SuspectsText.{ArePairsOf, IsPairOf};
ghost use Rattle.jeldroft_suspect.specs.believed.SuspectsText.{combination_text, count_text, falling_places, found_at, line_text, others_text, pair_text, suspects_text, value_text};

use cov_model::{ParamNo, TestModel, Value, ValueNo};
use itoa::Buffer;
use std::alloc::Global;
use std::cmp::Reverse;
use suspect_tuples::Found;
use value_text::NoMemory;

// Adds a text.
fn add(text: &str, into: &mut Vec<u8>) -> Result<(), NoMemory>
    ensures { OnOk result (into.new.items ≡ into.old.items ++ text.now) }
{
    into.extend_from_slice(text.as_bytes())?;
    Ok(())
}

// Adds the mark before the names of invalid values, if this is one.
fn add_mark(mark: u8, invalid: bool, into: &mut Vec<u8>) -> Result<(), NoMemory>
    ensures { OnOk result (into.new.items ≡ into.old.items ++ (if invalid then mark ∷ [] else [])) }
{
    if invalid {
        into.push(mark)?;
    }
    Ok(())
}

// Adds the first name of a value, as it is printed.
fn add_value(model: &TestModel, value: &Value, into: &mut Vec<u8>) -> Result<(), NoMemory>
    requires { 0 < length value.now.names }
    ensures { OnOk result (into.new.items ≡ into.old.items ++ value_text model.now value.now) }
{
    add_mark(model.prefix(), value.negative, into)?;
    add(value.names.as_slice()[0].as_str(), into)
}

// Adds a parameter and its value.
fn add_pair(model: &TestModel, pair: (ParamNo, ValueNo), into: &mut Vec<u8>) -> Result<(), NoMemory>
    requires { IsPairOf model.now pair }
    ensures { OnOk result (into.new.items ≡ into.old.items ++ pair_text model.now pair) }
{
    model.assert_invariant();
    let param = &model.params().as_slice()[pair.0 as usize];
    add(param.name.as_str(), into)?;
    add(" = ", into)?;
    add_value(model, &param.values.as_slice()[pair.1 as usize], into)
}

// Adds a parameter and its value behind a comma.
fn add_other(
    model: &TestModel,
    pair: (ParamNo, ValueNo),
    into: &mut Vec<u8>,
) -> Result<(), NoMemory>
    requires { IsPairOf model.now pair }
    ensures { OnOk result (into.new.items ≡ into.old.items ++ others_text model.now (pair ∷ [])) }
{
    add(", ", into)?;
    add_pair(model, pair, into)
}

// Adds parameters and their values, each behind a comma.
fn add_others(
    model: &TestModel,
    pairs: &[(ParamNo, ValueNo)],
    into: &mut Vec<u8>,
) -> Result<(), NoMemory>
    requires { ArePairsOf model.now pairs.now }
    ensures { OnOk result (into.new.items ≡ into.old.items ++ others_text model.now pairs.now) }
{
    for pair in pairs {
        add_other(model, *pair, into)?;
    }
    Ok(())
}

// Adds a combination of values.
fn add_combination(
    model: &TestModel,
    pairs: &[(ParamNo, ValueNo)],
    into: &mut Vec<u8>,
) -> Result<(), NoMemory>
    requires { ArePairsOf model.now pairs.now }
    ensures { OnOk result (into.new.items ≡ into.old.items ++ combination_text model.now pairs.now) }
{
    let [first, rest @ ..] = pairs else {
        return Ok(());
    };
    add_pair(model, *first, into)?;
    add_others(model, rest, into)
}

// Adds a number of failing tests.
fn add_count(count: u64, into: &mut Vec<u8>) -> Result<(), NoMemory>
    ensures { OnOk result (into.new.items ≡ into.old.items ++ count_text count) }
{
    let mut digits = Buffer::new();
    add(digits.format(count), into)?;
    if count == 1 {
        add(" failing test: ", into)
    } else {
        add(" failing tests: ", into)
    }
}

// Adds the line of a combination.
fn add_line(model: &TestModel, found: &Found, into: &mut Vec<u8>) -> Result<(), NoMemory>
    requires { ArePairsOf model.now found.now.tuple }
    ensures { OnOk result (into.new.items ≡ into.old.items ++ line_text model.now (found_seen found.now)) }
{
    add_count(found.failing, into)?;
    add_combination(model, found.tuple.as_slice(), into)?;
    add("\n", into)
}

// Adds the lines of the combinations at these places.
fn add_lines(
    model: &TestModel,
    list: &[Found],
    places: &[usize],
    into: &mut Vec<u8>,
) -> Result<(), NoMemory>
    requires pairs { All (λ found. ArePairsOf model.now found.tuple) list.now }
    requires exist { All (λ at. at < length list.now) places.now }
    ensures { OnOk result (into.new.items ≡ into.old.items ++ flat_map (λ at. line_text model.now (found_at (map found_seen list.now) at)) places.now) }
{
    for at in places {
        add_line(model, &list[*at], into)?;
    }
    Ok(())
}

// How many failing tests have the combination at a place.
fn count_at(list: &[Found], at: usize) -> u64
    ensures { result ≡ (found_at (map found_seen list.now) at).1 }
{
    match list.get(at) {
        Some(found) => found.failing,
        None => 0,
    }
}

// Sorts places by falling number of failing tests.
fn sort_by_count(list: &[Found], places: &mut Vec<usize>) -> Result<(), NoMemory>
    requires { All (λ at. at < length list.now) places.old.items }
    ensures sorted { OnOk result (places.new.items ≡ by_falling_weight (λ at. (found_at (map found_seen list.now) at).1) places.old.items) }
    ensures each { IsPermutation places.old.items places.new.items }
{
    let key = |at: &usize| -> Reverse<u64>
        ensures { result ≡ record { 0 = (found_at (map found_seen list.entry.now) at.now).1 } }
    { Reverse(count_at(list, *at)) };
    places.sort_by_key(key)?;
    Ok(())
}

// The places of a list of so many items.
fn places_of(alloc: Global, count: usize) -> Result<Vec<usize>, NoMemory>
    ensures { IfOk result (λ places. places.items ≡ range_with_len 0 count) }
{
    let places = (0..count).collect::<Vec<usize>>(alloc)?;
    Ok(places)
}

// The places of combinations by falling number of failing tests.
fn falling_places(alloc: Global, list: &[Found]) -> Result<Vec<usize>, NoMemory>
    ensures places { IfOk result (λ places. places.items ≡ falling_places (map found_seen list.now)) }
    ensures exist { IfOk result (λ places. All (λ at. at < length list.now) places.items) }
{
    let mut places = places_of(alloc, list.len())?;
    sort_by_count(list, &mut places)?;
    Ok(places)
}

/// The text of combinations of values that only failing tests have, a line for each, by falling number of failing tests.
/// They have to be of the model.
///
/// # Errors
///
/// `NoMemory` where memory was refused.
pub(crate) fn suspects_text(
    alloc: Global,
    model: &TestModel,
    list: &[Found],
) -> Result<Vec<u8>, NoMemory>
    requires { All (λ found. ArePairsOf model.now found.tuple) list.now }
    ensures { IfOk result (λ text. text.items ≡ suspects_text model.now (map found_seen list.now)) }
{
    let places = falling_places(alloc, list)?;
    let mut text = Vec::new(alloc);
    add_lines(model, list, places.as_slice(), &mut text)?;
    Ok(text)
}
