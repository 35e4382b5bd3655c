ghost use Rattle.std.specs.Prelude.{◌≡◌, ◌<◌, ◌∷◌, ◌++◌, [], if◌then◌else◌, All, IfOk, IfSome, OnOk, is_none, length, map};
ghost use Rattle.cov_model.specs.Fits.{FitsModel};
ghost use Rattle.cov_model.specs.believed.Sound.{param_at};
ghost use Rattle.definitions.specs.SliceRows.{IsSliceOf};
ghost use Rattle.model_lint.specs.Tests.{unused_in};
ghost use Rattle.model_lint.specs.believed.Tests.{IsConflict, has_test, is_unused, no_values, slice_with, unused_values};
ghost use Rattle.model_lint.specs.Unused.{IsExplained, value_of};

use crate::completer::{Asker, Completer};
use crate::conflict::conflict_of;
use crate::finding::{RuleNumbers, UnusedList, UnusedValue};
use crate::seeking::{is_of_slice, seek_test};
use cov_model::{Cells, ParamNo, Slice, TestModel, ValueNo};
use std::alloc::Global;
use value_text::{NoMemory, OwnedList};

// The slice of a value: its own of a negative one, else the positive one.
fn slice_with(model: &TestModel, p: ParamNo, v: ValueNo) -> Slice
    requires parameter { p < length model.now.params }
    requires value { v < length (param_at model.now.params p).values }
    ensures is { result ≡ slice_with model.now (p, v) }
    ensures own { IsSliceOf model.now result }
{
    if model.is_negative(p, v) {
        Slice::Negative(p, v)
    } else {
        Slice::Positive
    }
}

// What is asked about values of a model.
#[derive(Drop)]
struct Values<'a, C> {
    alloc: Global,
    completer: &'a C,
    model: &'a TestModel,
}

impl<C: Completer> Values<'_, C> {
    // Whether a test contains a partial row. One question about the positive slice is asked first, which most values
    // answer.
    fn is_in_test<A: Asker>(&self, asker: &mut A, cells: &Cells) -> Result<bool, NoMemory>
        requires fits { FitsModel self.now.model.now cells.now }
        requires asker { A.about asker.old ≡ self.now.model.now }
        ensures found { IfOk result (λ found. found ≡ has_test self.now.model.now cells.now) }
        ensures asker { A.about asker.new ≡ A.about asker.old }
    {
        self.model.assert_invariant();
        if is_of_slice(self.model, Slice::Positive, cells) && asker.ask(cells) {
            return Ok(true);
        }
        let mut row = Cells::empty(self.alloc, self.model.params().len())?;
        seek_test(self.alloc, self.completer, self.model, cells, &mut row)
    }

    // Constraints that no row of a slice which contains a partial row meets together, if no test contains it.
    fn conflict<A: Asker>(
        &self,
        asker: &mut A,
        slice: Slice,
        cells: &Cells,
    ) -> Result<Option<RuleNumbers>, NoMemory>
        requires slice { IsSliceOf self.now.model.now slice }
        requires fits { FitsModel self.now.model.now cells.now }
        requires asker { A.about asker.old ≡ self.now.model.now }
        ensures none { IfOk result (λ found. is_none found ≡ has_test self.now.model.now cells.now) }
        ensures conflict { IfOk result (λ found. IfSome found (IsConflict self.now.model.now slice cells.now)) }
        ensures asker { A.about asker.new ≡ A.about asker.old }
    {
        if self.is_in_test(asker, cells)? {
            return Ok(None);
        }
        conflict_of(self.alloc, self.completer, self.model, slice, cells)
    }

    // Adds a value if it is in no test. The room has a place for each parameter.
    fn add_value<A: Asker>(
        &self,
        asker: &mut A,
        p: ParamNo,
        v: ValueNo,
        room: &mut Cells,
        list: &mut UnusedList,
    ) -> Result<(), NoMemory>
        requires parameter { p < length self.now.model.now.params }
        requires value { v < length (param_at self.now.model.now.params p).values }
        requires asker { A.about asker.old ≡ self.now.model.now }
        requires room { length room.old ≡ length self.now.model.now.params }
        requires explained { All (IsExplained self.now.model.now) list.old }
        ensures values { OnOk result (map value_of list.new ≡ map value_of list.old ++ (if is_unused self.now.model.now (p, v) then (p, v) ∷ [] else [])) }
        ensures explained { OnOk result (All (IsExplained self.now.model.now) list.new) }
        ensures asker { A.about asker.new ≡ A.about asker.old }
        ensures room { length room.new ≡ length room.old }
    {
        room.clear();
        room.set_cell(p, v);
        let slice = slice_with(self.model, p, v);
        if let Some(constraints) = self.conflict(asker, slice, room)? {
            list.push(UnusedValue {
                parameter: p,
                value: v,
                constraints,
            })?;
        }
        Ok(())
    }

    // Adds the values of a parameter that are in no test. The room has a place for each parameter.
    fn add_unused<A: Asker>(
        &self,
        asker: &mut A,
        p: ParamNo,
        room: &mut Cells,
        list: &mut UnusedList,
    ) -> Result<(), NoMemory>
        requires parameter { p < length self.now.model.now.params }
        requires asker { A.about asker.old ≡ self.now.model.now }
        requires room { length room.old ≡ length self.now.model.now.params }
        requires explained { All (IsExplained self.now.model.now) list.old }
        ensures values { OnOk result (map value_of list.new ≡ map value_of list.old ++ unused_in self.now.model.now p) }
        ensures explained { OnOk result (All (IsExplained self.now.model.now) list.new) }
        ensures asker { A.about asker.new ≡ A.about asker.old }
        ensures room { length room.new ≡ length room.old }
    {
        let count = self.model.value_count(p);
        for v in 0..count {
            self.add_value(asker, p, v, room, list)?;
        }
        Ok(())
    }
}

/// The values that are in no test, by parameter and by value, each with constraints that no row of its slice with it
/// meets together, of which none can be left out. The asker has to be of the model. It is asked one question a value,
/// and for each value that is told at most two partial rows a constraint are completed (this project's rule).
///
/// # Errors
///
/// `NoMemory` where memory is refused.
pub fn unused_values<C: Completer, A: Asker>(
    alloc: Global,
    completer: &C,
    asker: &mut A,
    model: &TestModel,
) -> Result<UnusedList, NoMemory>
    requires { A.about asker.old ≡ model.now }
    ensures values { IfOk result (λ list. map value_of list ≡ unused_values model.now) }
    ensures explained { IfOk result (All (IsExplained model.now)) }
    ensures asker { A.about asker.new ≡ A.about asker.old }
{
    model.assert_invariant();
    let count = model.params().len() as ParamNo;
    let mut room = Cells::empty(alloc, model.params().len())?;
    let mut list = OwnedList::new(alloc);
    let values = Values {
        alloc,
        completer,
        model,
    };
    for p in 0..count {
        values.add_unused(asker, p, &mut room, &mut list)?;
    }
    Ok(list)
}

/// Constraints that no row of valid values meets together, of which none can be left out, if no row is valid; `None`
/// exactly where some row is. The asker has to be of the model (this project's rule).
///
/// # Errors
///
/// `NoMemory` where memory is refused.
pub fn no_test<C: Completer, A: Asker>(
    alloc: Global,
    completer: &C,
    asker: &mut A,
    model: &TestModel,
) -> Result<Option<RuleNumbers>, NoMemory>
    requires { A.about asker.old ≡ model.now }
    ensures none { IfOk result (λ found. is_none found ≡ has_test model.now (no_values model.now)) }
    ensures conflict { IfOk result (λ found. IfSome found (IsConflict model.now Slice.Positive (no_values model.now))) }
    ensures asker { A.about asker.new ≡ A.about asker.old }
{
    let none = Cells::empty(alloc, model.params().len())?;
    let values = Values {
        alloc,
        completer,
        model,
    };
    values.conflict(asker, Slice::Positive, &none)
}
