ghost use Rattle.std.specs.Prelude.{◌≡◌, ◌<◌, true, false, None, [], IfOk, length, slice_index_or};
ghost use Rattle.cov_model.specs.Fits.{FitsModel};
ghost use Rattle.cov_model.specs.Preference.{OrdersValues};
ghost use Rattle.cov_model.specs.believed.Slices.{slice_values};
ghost use Rattle.cov_model.specs.believed.Sound.{param_at};
ghost use Rattle.definitions.specs.believed.Completion.{is_extendable};
ghost use Rattle.definitions.specs.believed.Demand.{is_among};
ghost use Rattle.definitions.specs.SliceRows.{IsOfSlice, IsSliceOf};
ghost use Rattle.model_lint.specs.Changes.{IsTestOf};
ghost use Rattle.model_lint.specs.believed.Tests.{has_test};
ghost use Rattle.model_lint.specs.Seeking.{in_negative, in_slice_of, in_some_negative, is_cell_of};

use crate::completer::{Completer, Sought};
use cov_model::{Cells, ParamNo, Prefs, Slice, TestModel, ValueNo};
use std::alloc::Global;
use value_text::NoMemory;

// Whether a value of a parameter is one of a slice.
fn is_listed(model: &TestModel, slice: Slice, p: ParamNo, v: ValueNo) -> bool
    requires parameter { p < length model.now.params }
    requires value { v < length (param_at model.now.params p).values }
    requires slice { IsSliceOf model.now slice }
    ensures { result ≡ is_among (slice_index_or (slice_values model.now slice) p []) v }
{
    match slice {
        Slice::Positive => !model.is_negative(p, v),
        Slice::Negative(q, w) => {
            if p == q {
                w == v
            } else {
                !model.is_negative(p, v)
            }
        }
    }
}

// Whether a cell of a parameter has no value, or one of a slice.
fn is_cell_of(model: &TestModel, slice: Slice, p: ParamNo, cells: &Cells) -> bool
    requires parameter { p < length model.now.params }
    requires fits { FitsModel model.now cells.now }
    requires slice { IsSliceOf model.now slice }
    ensures { result ≡ is_cell_of model.now slice p (slice_index_or cells.now p None) }
{
    match cells.get(p) {
        Some(v) => is_listed(model, slice, p, v),
        None => true,
    }
}

// Whether each value that a partial row gives is one of a slice. Where one isn't, the partial row isn't extendable
// there.
pub(crate) fn is_of_slice(model: &TestModel, slice: Slice, cells: &Cells) -> bool
    requires fits { FitsModel model.now cells.now }
    requires slice { IsSliceOf model.now slice }
    ensures yes { result ≡ true → IsOfSlice model.now slice cells.now }
    ensures no { result ≡ false → is_extendable model.now slice cells.now ≡ false }
{
    model.assert_invariant();
    let count = cells.len() as ParamNo;
    for p in 0..count {
        if !is_cell_of(model, slice, p, cells) {
            return false;
        }
    }
    true
}

// What seeks tests of a model: its preferences too, of which the answers don't depend.
#[derive(Drop)]
pub(crate) struct Seeker<'a, C> {
    pub(crate) alloc: Global,
    pub(crate) completer: &'a C,
    pub(crate) model: &'a TestModel,
    pub(crate) prefs: &'a Prefs,
}

impl<C: Completer> Seeker<'_, C> {
    // Whether a partial row is extendable in a slice. Where it is, the other cells become a test of the slice with it.
    pub(crate) fn seek_in(
        &self,
        slice: Slice,
        cells: &Cells,
        into: &mut Cells,
    ) -> Result<bool, NoMemory>
        requires orders { OrdersValues self.now.model.now self.now.prefs.now }
        requires slice { IsSliceOf self.now.model.now slice }
        requires fits { FitsModel self.now.model.now cells.now }
        requires long { length into.old ≡ length self.now.model.now.params }
        ensures found { IfOk result (λ found. found ≡ is_extendable self.now.model.now slice cells.now) }
        ensures test { IfOk result (λ found. found ≡ true → IsTestOf self.now.model.now slice cells.now into.new) }
        ensures long { length into.new ≡ length into.old }
    {
        if !is_of_slice(self.model, slice, cells) {
            return Ok(false);
        }
        let sought = Sought {
            model: self.model,
            prefs: self.prefs,
            slice,
        };
        self.completer.complete(self.alloc, &sought, cells, into)
    }

    // Whether a partial row is extendable in the slice of a value, where it is negative. The other cells may change.
    fn seek_value(
        &self,
        p: ParamNo,
        v: ValueNo,
        cells: &Cells,
        into: &mut Cells,
    ) -> Result<bool, NoMemory>
        requires orders { OrdersValues self.now.model.now self.now.prefs.now }
        requires parameter { p < length self.now.model.now.params }
        requires value { v < length (param_at self.now.model.now.params p).values }
        requires fits { FitsModel self.now.model.now cells.now }
        requires long { length into.old ≡ length self.now.model.now.params }
        ensures found { IfOk result (λ found. found ≡ in_slice_of self.now.model.now cells.now p v) }
        ensures long { length into.new ≡ length into.old }
    {
        if !self.model.is_negative(p, v) {
            return Ok(false);
        }
        self.seek_in(Slice::Negative(p, v), cells, into)
    }

    // The same in the slices of the negative values of a parameter.
    fn seek_negative(&self, p: ParamNo, cells: &Cells, into: &mut Cells) -> Result<bool, NoMemory>
        requires orders { OrdersValues self.now.model.now self.now.prefs.now }
        requires parameter { p < length self.now.model.now.params }
        requires fits { FitsModel self.now.model.now cells.now }
        requires long { length into.old ≡ length self.now.model.now.params }
        ensures found { IfOk result (λ found. found ≡ in_negative self.now.model.now cells.now p) }
        ensures long { length into.new ≡ length into.old }
    {
        self.model.assert_invariant();
        let count = self.model.value_count(p);
        for v in 0..count {
            if self.seek_value(p, v, cells, into)? {
                return Ok(true);
            }
        }
        Ok(false)
    }

    // The same in all negative slices.
    pub(crate) fn seek_negatives(&self, cells: &Cells, into: &mut Cells) -> Result<bool, NoMemory>
        requires orders { OrdersValues self.now.model.now self.now.prefs.now }
        requires fits { FitsModel self.now.model.now cells.now }
        requires long { length into.old ≡ length self.now.model.now.params }
        ensures found { IfOk result (λ found. found ≡ in_some_negative self.now.model.now cells.now) }
        ensures long { length into.new ≡ length into.old }
    {
        let count = self.model.params().len() as ParamNo;
        for p in 0..count {
            if self.seek_negative(p, cells, into)? {
                return Ok(true);
            }
        }
        Ok(false)
    }
}

// Whether a test of the model contains a partial row. The other cells may change.
pub(crate) fn seek_test<C: Completer>(
    alloc: Global,
    completer: &C,
    model: &TestModel,
    cells: &Cells,
    into: &mut Cells,
) -> Result<bool, NoMemory>
    requires fits { FitsModel model.now cells.now }
    requires long { length into.old ≡ length model.now.params }
    ensures found { IfOk result (λ found. found ≡ has_test model.now cells.now) }
    ensures long { length into.new ≡ length into.old }
{
    model.assert_invariant();
    let prefs = Prefs::new(alloc, model, None)?;
    let seeker = Seeker {
        alloc,
        completer,
        model,
        prefs: &prefs,
    };
    if seeker.seek_in(Slice::Positive, cells, into)? {
        return Ok(true);
    }
    seeker.seek_negatives(cells, into)
}
