ghost use Rattle.std.specs.Prelude.{◌≡◌, ◌<◌, ◌+◌, ◌∷◌, ◌++◌, [], if◌then◌else◌, true, false, None, Ok, IfOk, IfSome, OnOk, is_none, length};
ghost use Rattle.std.specs.List.{filter};
ghost use Rattle.cov_model.specs.Fits.{FitsModel};
ghost use Rattle.cov_model.specs.believed.Valid.{is_row, is_valid};
ghost use Rattle.cov_model.specs.Preference.{OrdersValues};
ghost use Rattle.definitions.specs.believed.Completion.{has_slice, is_extendable};
ghost use Rattle.definitions.specs.SliceRows.{IsSliceOf};
ghost use Rattle.model_lint.specs.Changes.{IsTestOf, is_marked};
ghost use Rattle.model_lint.specs.Marks.{IsFalseOn, IsThinTo};
ghost use Rattle.model_lint.specs.believed.Tests.{IsConflict, part, rule_numbers};

use crate::changing::{changed_model, kept_alone};
use crate::completer::Completer;
use crate::finding::RuleNumbers;
use crate::seeking::Seeker;
use cov_model::{Cells, Prefs, RowWhy, Slice, TestModel};
use std::alloc::Global;
use value_text::{NoMemory, OwnedList};

// The number of a constraint that is false on a row with at most one negative value, if there is one.
fn false_rule(model: &TestModel, row: &Cells) -> Option<u32>
    requires row { is_row model.now row.now ≡ true }
    requires few { has_slice model.now row.now ≡ true }
    ensures none { result ≡ None → is_valid model.now row.now ≡ true }
    ensures some { IfSome result (IsFalseOn model.now row.now) }
{
    model.assert_invariant();
    match model.row_fault(row) {
        Some(RowWhy::Rule(number)) => Some(number),
        _ => None,
    }
}

// A partial row of which constraints are sought that no row of a slice which contains it meets together. The
// preferences are the model's; the answers don't depend on them.
#[derive(Drop)]
struct Gathering<'a, C> {
    alloc: Global,
    completer: &'a C,
    model: &'a TestModel,
    prefs: &'a Prefs,
    slice: Slice,
    cells: &'a Cells,
}

impl<C: Completer> Gathering<'_, C> {
    // Whether a row of the slice that meets the marked constraints contains the partial row. Where one does, the other
    // cells become one.
    fn seek_marked(&self, marks: &[bool], into: &mut Cells) -> Result<bool, NoMemory>
        requires orders { OrdersValues self.now.model.now self.now.prefs.now }
        requires slice { IsSliceOf self.now.model.now self.now.slice }
        requires fits { FitsModel self.now.model.now self.now.cells.now }
        requires long { length into.old ≡ length self.now.model.now.params }
        ensures found { IfOk result (λ found. found ≡ is_extendable (part self.now.model.now (is_marked marks.now)) self.now.slice self.now.cells.now) }
        ensures test { IfOk result (λ found. found ≡ true → IsTestOf (part self.now.model.now (is_marked marks.now)) self.now.slice self.now.cells.now into.new) }
        ensures long { length into.new ≡ length into.old }
    {
        let changes = kept_alone(self.alloc, marks)?;
        let part = changed_model(self.alloc, self.model, changes.as_slice())?;
        let seeker = Seeker {
            alloc: self.alloc,
            completer: self.completer,
            model: &part,
            prefs: self.prefs,
        };
        seeker.seek_in(self.slice, self.cells, into)
    }

    // Marks constraints until no row of the slice that meets them contains the partial row. `false` exactly where one
    // that meets every constraint contains it.
    fn gather(&self, row: &mut Cells, marks: &mut [bool]) -> Result<bool, NoMemory>
        requires orders { OrdersValues self.now.model.now self.now.prefs.now }
        requires slice { IsSliceOf self.now.model.now self.now.slice }
        requires fits { FitsModel self.now.model.now self.now.cells.now }
        requires row { length row.old ≡ length self.now.model.now.params }
        requires marks { length marks.old ≡ length self.now.model.now.rules }
        ensures enough { result ≡ Ok true → is_extendable (part self.now.model.now (is_marked marks.new)) self.now.slice self.now.cells.now ≡ false }
        ensures none { result ≡ Ok false → is_extendable self.now.model.now self.now.slice self.now.cells.now ≡ true }
        ensures row { length row.new ≡ length row.old }
        ensures marks { length marks.new ≡ length marks.old }
    {
        self.model.assert_invariant();
        let mut found = self.seek_marked(marks, row)?;
        'marking: while found {
            match false_rule(self.model, row) {
                Some(number) => marks[number as usize - 1] = true,
                None => return Ok(false),
            }
            found = self.seek_marked(marks, row)?;
        }
        Ok(true)
    }

    // Takes the mark of the constraint at a place away, if the others are enough.
    fn thin_at(&self, row: &mut Cells, marks: &mut [bool], i: usize) -> Result<(), NoMemory>
        requires orders { OrdersValues self.now.model.now self.now.prefs.now }
        requires slice { IsSliceOf self.now.model.now self.now.slice }
        requires fits { FitsModel self.now.model.now self.now.cells.now }
        requires row { length row.old ≡ length self.now.model.now.params }
        requires thin { IsThinTo self.now.model.now self.now.slice self.now.cells.now marks.old i }
        requires within { i < length marks.old }
        ensures thin { OnOk result (IsThinTo self.now.model.now self.now.slice self.now.cells.now marks.new (i + 1)) }
        ensures row { length row.new ≡ length row.old }
        ensures marks { length marks.new ≡ length marks.old }
    {
        if !marks[i] {
            return Ok(());
        }
        marks[i] = false;
        let needed = self.seek_marked(marks, row)?;
        marks[i] = needed;
        Ok(())
    }

    // Takes the marks away that aren't needed.
    fn thin(&self, row: &mut Cells, marks: &mut [bool]) -> Result<(), NoMemory>
        requires orders { OrdersValues self.now.model.now self.now.prefs.now }
        requires slice { IsSliceOf self.now.model.now self.now.slice }
        requires fits { FitsModel self.now.model.now self.now.cells.now }
        requires row { length row.old ≡ length self.now.model.now.params }
        requires enough { IsThinTo self.now.model.now self.now.slice self.now.cells.now marks.old 0 }
        ensures thin { OnOk result (IsThinTo self.now.model.now self.now.slice self.now.cells.now marks.new (length marks.new)) }
        ensures marks { length marks.new ≡ length marks.old }
    {
        for i in 0..marks.len() {
            self.thin_at(row, marks, i)?;
        }
        Ok(())
    }
}

// Whether the constraint of a number is marked.
fn is_marked(marks: &[bool], number: u32) -> bool
    ensures { result ≡ is_marked marks.now number }
{
    match marks.get((number as usize).saturating_sub(1)) {
        Some(mark) => *mark,
        None => false,
    }
}

// Adds the number of a constraint if it is marked.
fn add_marked(numbers: &mut RuleNumbers, marks: &[bool], number: u32) -> Result<(), NoMemory>
    ensures { OnOk result (numbers.new ≡ numbers.old ++ (if is_marked marks.now number then number ∷ [] else [])) }
{
    if is_marked(marks, number) {
        return numbers.push(number);
    }
    Ok(())
}

// The numbers of the marked constraints.
fn marked_numbers(alloc: Global, model: &TestModel, marks: &[bool]) -> Result<RuleNumbers, NoMemory>
    ensures { IfOk result (λ numbers. numbers ≡ filter (is_marked marks.now) (rule_numbers model.now)) }
{
    let mut numbers = OwnedList::new(alloc);
    for rule in model.rules().as_slice() {
        add_marked(&mut numbers, marks, rule.number)?;
    }
    Ok(numbers)
}

/// Constraints that no row of a slice which contains a partial row meets together, of which none can be left out;
/// `None` exactly where the partial row is extendable in the slice. Completes at most two partial rows a constraint
/// (this project's rule).
///
/// # Errors
///
/// `NoMemory` where memory is refused.
pub fn conflict_of<C: Completer>(
    alloc: Global,
    completer: &C,
    model: &TestModel,
    slice: Slice,
    cells: &Cells,
) -> Result<Option<RuleNumbers>, NoMemory>
    requires slice { IsSliceOf model.now slice }
    requires fits { FitsModel model.now cells.now }
    ensures none { IfOk result (λ found. is_none found ≡ is_extendable model.now slice cells.now) }
    ensures conflict { IfOk result (λ found. IfSome found (IsConflict model.now slice cells.now)) }
{
    model.assert_invariant();
    let prefs = Prefs::new(alloc, model, None)?;
    let mut row = Cells::empty(alloc, model.params().len())?;
    let mut marks = vec![in alloc; false; model.rules().len()]?;
    let gathering = Gathering {
        alloc,
        completer,
        model,
        prefs: &prefs,
        slice,
        cells,
    };
    if !gathering.gather(&mut row, marks.as_mut_slice())? {
        return Ok(None);
    }
    gathering.thin(&mut row, marks.as_mut_slice())?;
    let numbers = marked_numbers(alloc, model, marks.as_slice())?;
    Ok(Some(numbers))
}
