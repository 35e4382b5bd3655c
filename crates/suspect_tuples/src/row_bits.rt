ghost use Rattle.std.specs.Prelude.{◌≡◌, ◌<◌, ◌^◌, ◌++◌, ◌∷◌, [], ℕ, List, Option, None, true, All, length, remove, slice_index_or, IfOk, IfSome};
ghost use Rattle.std.specs.Option.{option_copied};
ghost use Rattle.cov_model.specs.Fits.{FitsModel};
ghost use Rattle.definitions.specs.believed.Demand.{is_among};
ghost use Rattle.suspect_tuples.specs.Edges.{is_had};
ghost use Rattle.suspect_tuples.specs.RowBits.{MarksHaving, has_at};
ghost use Rattle.suspect_tuples.specs.RowTables.{AreParamSets, AreRowBits};
ghost use Rattle.suspect_tuples.specs.Sets.{AreWide};
ghost use Rattle.suspect_tuples.specs.ValueRows.{AreGiven, AreMany, rows_of, words_in};

use crate::row_list::RowList;
use crate::row_set::{RowSet, word_count};
use crate::value_rows::{ValueRows, value_rows};
use cov_model::{ParamNo, TestModel, ValueNo};
use std::alloc::Global;
use std::marker::Model;
use value_text::{NoMemory, OwnedList};

// Rows that are looked up by what they give: for each parameter and each of its values those that give it. Where many do
// they are looked up 64 at once. Contracts see the list of the rows.
#[derive(Drop)]
pub(crate) struct RowBits<'r, 'a> {
    rows: &'r RowList<'a>,
    all: RowSet,
    giving: OwnedList<OwnedList<ValueRows>>,
}

impl<'r, 'a> Model for RowBits<'r, 'a> {
    ghost use Rattle.std.specs.Prelude.{List, Option, ℕ};
    ghost use Rattle.suspect_tuples.specs.RowTables.{AreRowBits};

    ghost Value = { List (List (Option ℕ)) };

    ghost view = { λ bits. bits.rows.now };

    ghost invariant = { λ bits. AreRowBits bits.rows.now bits.all bits.giving };
}

// The rows that give each parameter each of its values.
fn param_sets(
    alloc: Global,
    model: &TestModel,
    rows: &RowList<'_>,
) -> Result<OwnedList<OwnedList<ValueRows>>, NoMemory>
    requires wide { AreWide model.now rows.now }
    requires few { length rows.now < 2 ^ 32 }
    ensures { IfOk result (λ sets. AreParamSets model.now rows.now (length model.now.params) sets) }
{
    let params = model.params().as_slice();
    let mut sets = OwnedList::new(alloc);
    for param in 0..params.len() {
        let count = params[param].values.len() as ValueNo;
        sets.push(value_rows(alloc, rows, param as ParamNo, count)?)?;
    }
    Ok(sets)
}

// The rows that are kept for a pair.
fn rows_of(giving: &OwnedList<OwnedList<ValueRows>>, pair: (ParamNo, ValueNo)) -> Option<&ValueRows>
    ensures { option_copied result ≡ rows_of giving.now pair }
{
    let Some(values) = giving.get(pair.0 as usize) else {
        return None;
    };
    values.get(pair.1 as usize)
}

// The numbers of the rows that have a pair of a tuple, the first that few rows have.
fn few_rows<'g>(
    giving: &'g OwnedList<OwnedList<ValueRows>>,
    tuple: &[(ParamNo, ValueNo)],
) -> Option<&'g [u32]>
    ensures few { IfSome result (λ numbers. (rows : List (List (Option ℕ))) (at : ℕ) → AreGiven rows giving.now → has_at rows tuple.now at ≡ true → is_among numbers.now at ≡ true) }
    ensures many { result ≡ None → AreMany giving.now tuple.now }
{
    for pair in tuple {
        match rows_of(giving, *pair) {
            None => return Some(&[]),
            Some(ValueRows::Few(numbers)) => return Some(numbers.as_slice()),
            Some(ValueRows::Many(_)) => {}
        }
    }
    None
}

// A word of the rows that have a pair that many rows have.
fn word_of(giving: &OwnedList<OwnedList<ValueRows>>, pair: (ParamNo, ValueNo), k: usize) -> u64
    ensures { result ≡ slice_index_or (words_in (rows_of giving.now pair)) k 0 }
{
    match rows_of(giving, pair) {
        Some(ValueRows::Many(set)) => set.word(k),
        _ => 0,
    }
}

// Of those of the 64 rows of a number that a word marks, those that contain the tuple too.
fn narrowed(
    giving: &OwnedList<OwnedList<ValueRows>>,
    k: usize,
    word: u64,
    tuple: &[(ParamNo, ValueNo)],
) -> u64
    requires { AreMany giving.now tuple.now }
    ensures { (rows : List (List (Option ℕ))) (before : List (ℕ × ℕ)) → AreGiven rows giving.now → MarksHaving rows before k word → MarksHaving rows (before ++ tuple.now) k result }
{
    let mut narrowed = word;
    for pair in tuple {
        narrowed &= word_of(giving, *pair, k);
    }
    narrowed
}

// Whether one of the rows contains both tuples, each of whose pairs many rows have.
fn has_by_words(
    rows: &RowList<'_>,
    all: &RowSet,
    giving: &OwnedList<OwnedList<ValueRows>>,
    first: &[(ParamNo, ValueNo)],
    second: &[(ParamNo, ValueNo)],
) -> bool
    requires kept { AreRowBits rows.now all.now giving.now }
    requires first { AreMany giving.now first.now }
    requires second { AreMany giving.now second.now }
    ensures { result ≡ is_had rows.now (first.now ++ second.now) }
{
    for k in 0..word_count(rows.len()) {
        let before = narrowed(giving, k, all.word(k), first);
        if narrowed(giving, k, before, second) != 0 {
            return true;
        }
    }
    false
}

// Whether one of the rows contains both tuples, of which all have these numbers.
fn has_among(
    rows: &RowList<'_>,
    numbers: &[u32],
    first: &[(ParamNo, ValueNo)],
    second: &[(ParamNo, ValueNo)],
) -> bool
    requires { (at : ℕ) → has_at rows.now (first.now ++ second.now) at ≡ true → is_among numbers.now at ≡ true }
    ensures { result ≡ is_had rows.now (first.now ++ second.now) }
{
    for number in numbers {
        let at = *number as usize;
        if rows.has_at(at, first) && rows.has_at(at, second) {
            return true;
        }
    }
    false
}

impl<'r, 'a> RowBits<'r, 'a> {
    // These rows, to be looked up.
    pub(crate) fn new(
        alloc: Global,
        model: &TestModel,
        rows: &'r RowList<'a>,
    ) -> Result<RowBits<'r, 'a>, NoMemory>
        requires fit { All (λ row. FitsModel model.now row) rows.now }
        requires few { length rows.now < 2 ^ 32 }
        ensures { IfOk result (λ bits. bits ≡ rows.now) }
    {
        let all = RowSet::all(alloc, rows.len())?;
        let giving = param_sets(alloc, model, rows)?;
        Ok(RowBits { rows, all, giving })
    }

    // Whether one of the rows contains both tuples.
    fn has_both(&self, first: &[(ParamNo, ValueNo)], second: &[(ParamNo, ValueNo)]) -> bool
        ensures { result ≡ is_had self.now (first.now ++ second.now) }
    {
        if let Some(numbers) = few_rows(&self.giving, first) {
            return has_among(self.rows, numbers, first, second);
        }
        if let Some(numbers) = few_rows(&self.giving, second) {
            return has_among(self.rows, numbers, first, second);
        }
        has_by_words(self.rows, &self.all, &self.giving, first, second)
    }

    // Whether one of the rows contains the tuple.
    pub(crate) fn has(&self, tuple: &[(ParamNo, ValueNo)]) -> bool
        ensures { result ≡ is_had self.now tuple.now }
    {
        self.has_both(&[], tuple)
    }

    // Whether one of the rows contains the tuple without the pair at a place.
    pub(crate) fn has_without(&self, tuple: &[(ParamNo, ValueNo)], left_out: usize) -> bool
        requires { left_out < length tuple.now }
        ensures { result ≡ is_had self.now (remove tuple.now left_out) }
    {
        self.has_both(&tuple[..left_out], &tuple[left_out + 1..])
    }
}
