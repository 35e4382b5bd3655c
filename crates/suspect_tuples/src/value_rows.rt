ghost use Rattle.std.specs.Prelude.{◌≡◌, ◌<◌, ◌^◌, ◌++◌, ◌∷◌, [], ℕ, All, length, map, slice_index_or, if◌then◌else◌, IfOk, OnOk};
ghost use Rattle.suspect_tuples.specs.ValueRows.{AreNumbers, AreValueRows, KeepsNumbers, is_value};

use crate::row_list::RowList;
use crate::row_set::RowSet;
use cov_model::{ParamNo, ValueNo};
use std::alloc::Global;
use value_text::{NoMemory, OwnedList};

// The rows of a list that give a parameter a value.
#[derive(Drop)]
pub(crate) enum ValueRows {
    // Their numbers, where they are fewer than one row in 64, rounded down.
    Few(Vec<u32>),
    // A bit for each row of the list.
    Many(RowSet),
}

// So many empty lists.
fn no_numbers(alloc: Global, count: ValueNo) -> Result<Vec<Vec<u32>>, NoMemory>
    ensures long { IfOk result (λ lists. length lists.items ≡ count) }
    ensures empty { IfOk result (λ lists. All (λ list. list.items ≡ []) lists.items) }
{
    let mut lists = Vec::new(alloc);
    while lists.len() < count as usize {
        lists.push(Vec::new(alloc))?;
    }
    Ok(lists)
}

// Adds the number of a row to the list of the value that it gives, if there is such a list.
fn add_number(
    lists: &mut Vec<Vec<u32>>,
    value: Option<ValueNo>,
    number: u32,
) -> Result<(), NoMemory>
    ensures long { OnOk result (length lists.new.items ≡ length lists.old.items) }
    ensures each { OnOk result ((v : ℕ) → v < length lists.old.items → slice_index_or (map (λ list. list.items) lists.new.items) v []
        ≡ slice_index_or (map (λ list. list.items) lists.old.items) v [] ++ (if is_value value v then number ∷ [] else [])) }
{
    let Some(value) = value else {
        return Ok(());
    };
    if (value as usize) < lists.len() {
        lists[value as usize].push(number)?;
    }
    Ok(())
}

// For each of the `count` values of a parameter, the numbers of the rows that give it.
fn numbers_by_value(
    alloc: Global,
    rows: &RowList<'_>,
    param: ParamNo,
    count: ValueNo,
) -> Result<Vec<Vec<u32>>, NoMemory>
    requires wide { All (λ row. param < length row) rows.now }
    requires few { length rows.now < 2 ^ 32 }
    ensures { IfOk result (λ lists. AreNumbers rows.now param count (length rows.now) (map (λ list. list.items) lists.items)) }
{
    let mut lists = no_numbers(alloc, count)?;
    for at in 0..rows.len() {
        add_number(&mut lists, rows.row(at).get(param), at as u32)?;
    }
    Ok(lists)
}

// The rows of these numbers, of a list of so many rows.
fn kept_rows(alloc: Global, count: usize, numbers: &[u32]) -> Result<ValueRows, NoMemory>
    requires { All (λ number. number < count) numbers.now }
    ensures { IfOk result (KeepsNumbers numbers.now) }
{
    if numbers.len() < count / 64 {
        return Ok(ValueRows::Few(numbers.to_vec(alloc)?));
    }
    Ok(ValueRows::Many(RowSet::of(alloc, count, numbers)?))
}

// The rows that give a parameter each of its `count` values. The rows are walked once.
pub(crate) fn value_rows(
    alloc: Global,
    rows: &RowList<'_>,
    param: ParamNo,
    count: ValueNo,
) -> Result<OwnedList<ValueRows>, NoMemory>
    requires wide { All (λ row. param < length row) rows.now }
    requires few { length rows.now < 2 ^ 32 }
    ensures { IfOk result (λ sets. AreValueRows rows.now param count sets) }
{
    let lists = numbers_by_value(alloc, rows, param, count)?;
    let mut sets = OwnedList::new(alloc);
    for value in 0..lists.len() {
        sets.push(kept_rows(alloc, rows.len(), lists[value].as_slice())?)?;
    }
    Ok(sets)
}
