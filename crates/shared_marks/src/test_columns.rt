ghost use Rattle.std.specs.Prelude.{◌≡◌, ◌+◌, ◌*◌, ◌<◌, ◌^◌, ◌++◌, [], true, ℕ, All, filter, length, map, slice_index_or, IfOk, OnOk};
ghost use Rattle.cov_model.specs.Fits.{FitsModel};
ghost use Rattle.cov_model.specs.believed.Slices.{slice_of};
ghost use Rattle.tuple_index.specs.Places.{ways};
ghost use Rattle.tuple_index.specs.Plan.{plan_of};
ghost use Rattle.shared_marks.specs.TestColumns.{ColumnsView, AreColumns, ArePlain, HasNoNegative, digit_in, is_plain, is_positive, place_in};
ghost use Rattle.shared_marks.specs.Digits.{own_slice};

use crate::digits::{digit_of, has_no_negative, radix_of};
use crate::served::is_test;
use cov_model::{Cells, ParamNo, Slice, TestModel};
use row_text::FileRow;
use std::alloc::Global;
use std::marker::Model;
use tuple_index::Plan;
use value_text::NoMemory;

// Tests without a negative value, which are marked together: for each parameter a column that has for each test the
// place of its value among those of the parameter that aren't negative. A column is empty until it is asked for: late in a
// file few sets are left, so most columns never are.
#[derive(Drop)]
pub(crate) struct TestColumns<'a> {
    rows: Vec<&'a Cells>,
    places: Vec<Vec<u16>>,
}

impl<'a> Model for TestColumns<'a> {
    ghost use Rattle.std.specs.Prelude.{map};
    ghost use Rattle.shared_marks.specs.TestColumns.{ColumnsView};

    ghost Value = { ColumnsView };

    ghost view = { λ a. record { tests = map (λ row. row.now) a.rows.items; places = map (λ column. column.items) a.places.items } };
}

// Whether a row has no negative value.
pub(crate) fn is_positive(model: &TestModel, cells: &Cells) -> bool
    requires { FitsModel model.now cells.now }
    ensures { result ≡ is_positive (slice_of model.now cells.now) }
{
    match model.slice_of(cells) {
        Slice::Positive => true,
        Slice::Negative(_, _) => false,
    }
}

// Whether a row is a test without a negative value. Where no parameter has one, no value of the row is looked at for it.
fn is_plain(model: &TestModel, cells: &Cells, none_negative: bool) -> bool
    requires fits { FitsModel model.now cells.now }
    requires none { none_negative ≡ true → HasNoNegative model.now }
    ensures { result ≡ is_plain model.now cells.now }
{
    if none_negative {
        return is_test(model, cells);
    }
    is_positive(model, cells) && is_test(model, cells)
}

// So many columns without a place.
fn no_columns(alloc: Global, count: usize) -> Result<Vec<Vec<u16>>, NoMemory>
    ensures long { IfOk result (λ columns. length columns.items ≡ count) }
    ensures empty { IfOk result (λ columns. All (λ column. column.items ≡ []) columns.items) }
{
    let mut columns = Vec::new(alloc);
    while columns.len() < count {
        columns.push(Vec::new(alloc))?;
    }
    Ok(columns)
}

// The tests without a negative value among rows of a file.
fn plain_rows<'a>(
    alloc: Global,
    model: &TestModel,
    plan: &Plan,
    rows: &'a [FileRow],
) -> Result<Vec<&'a Cells>, NoMemory>
    requires plan { plan.now ≡ plan_of model.now }
    requires fits { All (λ row. FitsModel model.now row.cells) rows.now }
    ensures { IfOk result (λ tests. map (λ row. row.now) tests.items ≡ filter (is_plain model.now) (map (λ row. row.cells) rows.now)) }
{
    let none_negative = has_no_negative(model, plan);
    let mut tests = Vec::new(alloc);
    for row in rows {
        if is_plain(model, &row.cells, none_negative) {
            tests.push(&row.cells)?;
        }
    }
    Ok(tests)
}

// Adds the place of the value that each of these tests gives a parameter.
fn push_places(
    column: &mut Vec<u16>,
    model: &TestModel,
    plan: &Plan,
    p: ParamNo,
    tests: &[&Cells],
) -> Result<(), NoMemory>
    requires plan { plan.now ≡ plan_of model.now }
    requires param { p < length model.now.params }
    requires plain { ArePlain model.now (map (λ row. row.now) tests.now) }
    ensures { OnOk result (column.new.items ≡ column.old.items ++ map (digit_in model.now p) (map (λ row. row.now) tests.now)) }
{
    column.reserve(tests.len())?;
    for test in tests {
        column.push(digit_of(model, plan, *test, Slice::Positive, p).place)?;
    }
    Ok(())
}

impl<'a> TestColumns<'a> {
    // The tests without a negative value among rows of a file, with no column filled yet.
    pub(crate) fn of(
        alloc: Global,
        model: &TestModel,
        plan: &Plan,
        rows: &'a [FileRow],
    ) -> Result<TestColumns<'a>, NoMemory>
        requires plan { plan.now ≡ plan_of model.now }
        requires fits { All (λ row. FitsModel model.now row.cells) rows.now }
        ensures tests { IfOk result (λ columns. columns.tests ≡ filter (is_plain model.now) (map (λ row. row.cells) rows.now)) }
        ensures columns { IfOk result (AreColumns model.now) }
    {
        let tests = plain_rows(alloc, model, plan, rows)?;
        let places = no_columns(alloc, model.params().len())?;
        Ok(TestColumns {
            rows: tests,
            places,
        })
    }

    // Fills the column of a parameter, where it is empty.
    pub(crate) fn fill(
        &mut self,
        model: &TestModel,
        plan: &Plan,
        p: ParamNo,
    ) -> Result<(), NoMemory>
        requires plan { plan.now ≡ plan_of model.now }
        requires param { p < length model.now.params }
        requires columns { AreColumns model.now self.old }
        ensures tests { OnOk result (self.new.tests ≡ self.old.tests) }
        ensures columns { OnOk result (AreColumns model.now self.new) }
        ensures column { OnOk result (slice_index_or self.new.places p [] ≡ map (digit_in model.now p) self.old.tests) }
    {
        if !self.places[p as usize].is_empty() {
            return Ok(());
        }
        push_places(
            &mut self.places[p as usize],
            model,
            plan,
            p,
            self.rows.as_slice(),
        )?;
        Ok(())
    }

    // The number of tests.
    pub(crate) fn len(&self) -> usize
        ensures { result ≡ length self.now.tests }
    {
        self.rows.len()
    }

    // The column of a parameter.
    pub(crate) fn column(&self, p: ParamNo) -> &[u16]
        requires { p < length self.now.places }
        ensures { result.now ≡ slice_index_or self.now.places p [] }
    {
        self.places[p as usize].as_slice()
    }
}

// Adds a digit to each number, whose radix this is.
pub(crate) fn add_digits(numbers: &mut [u32], radix: u32, digits: &[u16])
    requires long { length digits.now ≡ length numbers.old }
    requires few { (at : ℕ) → at < length numbers.old → slice_index_or numbers.old at 0 * radix + slice_index_or digits.now at 0 < 2 ^ 26 }
    ensures long { length numbers.new ≡ length numbers.old }
    ensures each { (at : ℕ) → at < length numbers.old → slice_index_or numbers.new at 0 ≡ slice_index_or numbers.old at 0 * radix + slice_index_or digits.now at 0 }
{
    for at in 0..numbers.len() {
        numbers[at] = numbers[at] * radix + u32::from(digits[at]);
    }
}

// Puts for each test the place of its values of some members, whose columns are filled for it.
pub(crate) fn put_places(
    model: &TestModel,
    plan: &Plan,
    members: &[ParamNo],
    columns: &mut TestColumns<'_>,
    into: &mut [u32],
) -> Result<(), NoMemory>
    requires plan { plan.now ≡ plan_of model.now }
    requires columns { AreColumns model.now columns.old }
    requires exist { All (λ p. p < length model.now.params) members.now }
    requires room { length into.old ≡ length columns.old.tests }
    requires few { All (λ row. place_in model.now members.now row < 2 ^ 26) columns.old.tests }
    requires some { All (λ row. 0 < ways (own_slice model.now row) members.now) columns.old.tests }
    ensures places { OnOk result (into.new ≡ map (place_in model.now members.now) columns.old.tests) }
    ensures tests { OnOk result (columns.new.tests ≡ columns.old.tests) }
    ensures columns { OnOk result (AreColumns model.now columns.new) }
{
    into.fill(0);
    for p in members {
        columns.fill(model, plan, *p)?;
        add_digits(into, radix_of(model, plan, *p), columns.column(*p));
    }
    Ok(())
}
