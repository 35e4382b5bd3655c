ghost use Rattle.std.specs.Prelude.{◌≡◌, ◌<◌, ◌≤◌, All, IfSome, None, length, true};
ghost use Rattle.cov_model.specs.believed.Sound.{IsSound, param_at};
ghost use Rattle.definitions.specs.believed.Demand.{demanded_sets};
ghost use Rattle.definitions.specs.SliceRows.{IsSliceOf};
ghost use Rattle.tuple_index.specs.Kept.{IsKept};
ghost use Rattle.tuple_index.specs.Places.{RisesFrom, values_in};
ghost use Rattle.tuple_index.specs.Plan.{plan_of};
ghost use Rattle.uncovered_table.specs.Bits.{tuple_count};
ghost use Rattle.uncovered_table.specs.Digits.{HasAllValues, is_own, own_values};
ghost use Rattle.uncovered_table.specs.Kept.{last_column};
ghost use Rattle.uncovered_table.specs.Lasts.{lower, lowest};
ghost use Rattle.uncovered_table.specs.Places.{set_at, slice_start};

use cov_model::{ParamNo, Slice, TestModel, ValueNo};
use std::marker::Model;
use tuple_index::Plan;

/// A slice of a model, with the model's plan. Contracts see the model and the slice.
#[derive(Drop)]
pub(crate) struct SlicePart<'a> {
    of: &'a TestModel,
    by: &'a Plan,
    slice: Slice,
}

impl<'a> Model for SlicePart<'a> {
    ghost use Rattle.std.specs.Coded.{codes};
    ghost use Rattle.cov_model.specs.contracts.model.TestModel as tested;
    ghost use Rattle.uncovered_table.specs.Kept.{IsPartOf, SliceView};

    ghost Value = { SliceView };

    ghost coded = { Prim.hlevel (codes, tested.the_row.coded) };

    ghost view = { λ a. record { model = a.of.now; slice = a.slice } };

    ghost invariant = { λ a. IsPartOf a.of.now a.slice a.by.now };
}

// Of the last member so far and the next one, the one that comes later in column order.
fn later(plan: &Plan, slice: Slice, last: Option<ParamNo>, p: ParamNo) -> ParamNo
    requires own { p < length plan.now.positives }
    requires last { IfSome last (λ q. q < length plan.now.positives) }
    ensures value { result ≡ lower (λ r. length (values_in plan.now slice r)) last p }
    ensures own { result < length plan.now.positives }
{
    match last {
        Some(q) => {
            if plan.value_count(p, slice) <= plan.value_count(q, slice) {
                p
            } else {
                q
            }
        }
        None => p,
    }
}

// The last member of a set in column order: of those with the fewest values in the slice the last.
fn last_member(plan: &Plan, slice: Slice, members: &[ParamNo]) -> Option<ParamNo>
    requires { All (λ p. p < length plan.now.positives) members.now }
    ensures value { result ≡ lowest (λ r. length (values_in plan.now slice r)) members.now }
    ensures own { IfSome result (λ p. p < length plan.now.positives) }
{
    let mut last = None;
    for p in members {
        last = Some(later(plan, slice, last, *p));
    }
    last
}

impl<'a> SlicePart<'a> {
    // This slice of this model.
    pub(crate) fn new(model: &'a TestModel, plan: &'a Plan, slice: Slice) -> SlicePart<'a>
        requires plan { plan.now ≡ plan_of model.now }
        requires slice { IsSliceOf model.now slice }
        ensures { result ≡ record { model = model.now; slice = slice } }
    {
        SlicePart {
            of: model,
            by: plan,
            slice,
        }
    }

    // The model.
    pub(crate) fn model(&self) -> &TestModel
        ensures { result.now ≡ self.now.model }
    {
        self.of
    }

    // Says again what is kept of the model, its plan and the slice. Does nothing when it runs.
    pub(crate) fn assert_invariant(&self)
        ensures sound { IsSound self.now.model }
        ensures kept { IsKept (plan_of self.now.model) }
        ensures own { IsSliceOf self.now.model self.now.slice }
    {
        self.of.assert_invariant();
        self.by.assert_invariant();
    }

    // The number of parameters.
    pub(crate) fn param_count(&self) -> usize
        ensures { result ≡ length self.now.model.params }
    {
        self.of.params().len()
    }

    // The number of demanded sets.
    pub(crate) fn set_count(&self) -> u32
        ensures { result ≡ length (demanded_sets self.now.model) }
    {
        self.by.set_count()
    }

    // The parameters of a set.
    pub(crate) fn members(&self, set: u32) -> &[ParamNo]
        requires { set < length (demanded_sets self.now.model) }
        ensures value { result.now ≡ set_at self.now.model set }
        ensures rising { RisesFrom 0 (length self.now.model.params) result.now }
        ensures exist { All (λ p. p < length self.now.model.params) result.now }
        ensures few { length result.now ≤ 256 }
    {
        self.of.assert_invariant();
        self.by.assert_invariant();
        self.by.members(set)
    }

    // The first rank of the tuples of a set in the slice, and how many there are.
    pub(crate) fn ranks(&self, set: u32) -> (u32, u32)
        requires { set < length (demanded_sets self.now.model) }
        ensures count { result.1 ≡ tuple_count self.now.model self.now.slice set }
        ensures start { 0 < result.1 → result.0 ≡ slice_start self.now.model (set_at self.now.model set) self.now.slice }
    {
        self.by.assert_invariant();
        self.by.slice_ranks(set, self.slice)
    }

    // The first of these ranks, where the set has tuples in the slice. Those of the positive slice are the first of all.
    pub(crate) fn first_rank(&self, set: u32) -> u32
        requires { set < length (demanded_sets self.now.model) }
        ensures { 0 < tuple_count self.now.model self.now.slice set → result ≡ slice_start self.now.model (set_at self.now.model set) self.now.slice }
    {
        match self.slice {
            Slice::Positive => 0,
            Slice::Negative(..) => self.ranks(set).0,
        }
    }

    // The last parameter of a set in the column order of the slice.
    pub(crate) fn last_column(&self, set: u32) -> Option<ParamNo>
        requires { set < length (demanded_sets self.now.model) }
        ensures value { result ≡ last_column self.now.model self.now.slice (set_at self.now.model set) }
        ensures own { IfSome result (λ p. p < length self.now.model.params) }
    {
        self.by.assert_invariant();
        last_member(self.by, self.slice, self.members(set))
    }

    // How many values a parameter has in the slice.
    pub(crate) fn value_count(&self, p: ParamNo) -> u32
        requires { p < length self.now.model.params }
        ensures { result ≡ length (own_values self.now.model self.now.slice p) }
    {
        self.assert_invariant();
        self.by.value_count(p, self.slice) as u32
    }

    // How many values a parameter has.
    pub(crate) fn all_values(&self, p: ParamNo) -> u16
        requires { p < length self.now.model.params }
        ensures { result ≡ length (param_at self.now.model.params p).values }
    {
        self.of.value_count(p)
    }

    // Whether each value of a parameter is one of the slice, and so its own digit.
    pub(crate) fn has_all_values(&self, p: ParamNo) -> bool
        requires { p < length self.now.model.params }
        ensures { result ≡ true → HasAllValues self.now.model self.now.slice p }
    {
        self.assert_invariant();
        self.value_count(p) == u32::from(self.all_values(p))
    }

    // Whether a value of a parameter is one of the slice.
    pub(crate) fn has_value(&self, p: ParamNo, v: ValueNo) -> bool
        requires param { p < length self.now.model.params }
        requires value { v < length (param_at self.now.model.params p).values }
        ensures { result ≡ is_own self.now.model self.now.slice p v }
    {
        match self.slice {
            Slice::Negative(q, w) if p == q => v == w,
            _ => !self.of.is_negative(p, v),
        }
    }
}
