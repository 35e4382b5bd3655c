ghost use Rattle.std.specs.Prelude.{◌≡◌, ◌^◌, ◌<◌, ◌≤◌, All, false, true, length, map, not, slice_index_or};
ghost use Rattle.std.specs.List.{filter, range_with_len};
ghost use Rattle.cov_model.specs.believed.Meaning.{no_value, value_at};
ghost use Rattle.cov_model.specs.believed.Rows.{value_in};
ghost use Rattle.cov_model.specs.believed.Slices.{positive_values, slice_of};
ghost use Rattle.cov_model.specs.believed.Sound.{param_at};
ghost use Rattle.cov_model.specs.believed.Valid.{is_valid};
ghost use Rattle.tuple_index.specs.Places.{place, place_of, values_in, ways};
ghost use Rattle.tuple_index.specs.Plan.{plan_of};
ghost use Rattle.shared_marks.specs.Digits.{AreDigits, IsDigit, is_fixed};
ghost use Rattle.shared_marks.specs.TestColumns.{HasNoNegative};

use cov_model::{Cells, ParamNo, Slice, TestModel, Value, ValueNo};
use tuple_index::Plan;

// The value that a row gives a parameter: its place among the parameter's values in the row's slice, and how
// many these are.
#[derive(Drop, Clone, Copy)]
pub(crate) struct Digit {
    pub(crate) place: u16,
    pub(crate) radix: u16,
}

// Whether a slice leaves a parameter one value alone, its negative one.
fn is_fixed(slice: Slice, p: ParamNo) -> bool
    ensures { result ≡ is_fixed slice p }
{
    match slice {
        Slice::Positive => false,
        Slice::Negative(q, _) => p == q,
    }
}

// How many of the values before one aren't negative.
fn count_positive(values: &[Value], v: ValueNo) -> u16
    requires { v ≤ length values.now }
    ensures { result ≡ length (filter (λ w. not (slice_index_or values.now w no_value).negative) (range_with_len 0 v)) }
{
    let mut count = 0;
    for w in 0..v {
        if !values[w as usize].negative {
            count += 1;
        }
    }
    count
}

// The values of a parameter.
fn values_of(model: &TestModel, p: ParamNo) -> &[Value]
    requires { p < length model.now.params }
    ensures { result.now ≡ (param_at model.now.params p).values }
{
    model.params().as_slice()[p as usize].values.as_slice()
}

// How many values of a parameter aren't negative.
pub(crate) fn radix_of(model: &TestModel, plan: &Plan, p: ParamNo) -> u32
    requires plan { plan.now ≡ plan_of model.now }
    requires param { p < length model.now.params }
    ensures value { result ≡ length (positive_values model.now p) }
    ensures few { result < 2 ^ 12 }
{
    model.assert_invariant();
    plan.value_count(p, Slice::Positive) as u32
}

// Whether no parameter has a negative value.
pub(crate) fn has_no_negative(model: &TestModel, plan: &Plan) -> bool
    requires { plan.now ≡ plan_of model.now }
    ensures { result ≡ true → HasNoNegative model.now }
{
    model.assert_invariant();
    let count = model.params().len() as ParamNo;
    for p in 0..count {
        if radix_of(model, plan, p) as usize != values_of(model, p).len() {
            return false;
        }
    }
    true
}

// The digit of a value that isn't negative, where its parameter may have any such value.
fn positive_digit(model: &TestModel, plan: &Plan, p: ParamNo, v: ValueNo) -> Digit
    requires plan { plan.now ≡ plan_of model.now }
    requires param { p < length model.now.params }
    requires value { v < length (param_at model.now.params p).values }
    requires sign { (value_at model.now p v).negative ≡ false }
    ensures place { result.place ≡ place_of (positive_values model.now p) v }
    ensures radix { result.radix ≡ length (positive_values model.now p) }
{
    let values = values_of(model, p);
    let radix = radix_of(model, plan, p) as u16;
    // most parameters have no negative value
    let place = if radix as usize == values.len() {
        v
    } else {
        count_positive(values, v)
    };
    Digit { place, radix }
}

// The digit of the value that a valid row gives a parameter.
pub(crate) fn digit_of(
    model: &TestModel,
    plan: &Plan,
    cells: &Cells,
    slice: Slice,
    p: ParamNo,
) -> Digit
    requires plan { plan.now ≡ plan_of model.now }
    requires row { is_valid model.now cells.now ≡ true }
    requires slice { slice ≡ slice_of model.now cells.now }
    requires param { p < length model.now.params }
    ensures { IsDigit model.now cells.now p result }
{
    if is_fixed(slice, p) {
        return Digit { place: 0, radix: 1 };
    }
    positive_digit(model, plan, p, cells.get(p).unwrap_or(0))
}

// Puts the digits of the values of a valid row.
pub(crate) fn put_digits(
    model: &TestModel,
    plan: &Plan,
    cells: &Cells,
    slice: Slice,
    into: &mut [Digit],
)
    requires plan { plan.now ≡ plan_of model.now }
    requires row { is_valid model.now cells.now ≡ true }
    requires slice { slice ≡ slice_of model.now cells.now }
    requires room { length into.old ≡ 256 }
    ensures { AreDigits model.now cells.now into.new }
{
    model.assert_invariant();
    let count = model.params().len() as ParamNo;
    for p in 0..count {
        into[p as usize] = digit_of(model, plan, cells, slice, p);
    }
}

// The place of the values that a row gives some parameters, among all choices of their values in the row's
// slice.
pub(crate) fn place_in_slice(
    model: &TestModel,
    cells: &Cells,
    members: &[ParamNo],
    digits: &[Digit],
) -> u32
    requires exist { All (λ p. p < length model.now.params) members.now }
    requires digits { AreDigits model.now cells.now digits.now }
    requires few { place (values_in (plan_of model.now) (slice_of model.now cells.now)) members.now (map (value_in cells.now) members.now) < 2 ^ 26 }
    requires some { 0 < ways (values_in (plan_of model.now) (slice_of model.now cells.now)) members.now }
    ensures { result ≡ place (values_in (plan_of model.now) (slice_of model.now cells.now)) members.now (map (value_in cells.now) members.now) }
{
    let _ = model;
    let _ = cells;
    let mut place: u32 = 0;
    for p in members {
        let digit = digits[*p as usize];
        place = place * u32::from(digit.radix) + u32::from(digit.place);
    }
    place
}
