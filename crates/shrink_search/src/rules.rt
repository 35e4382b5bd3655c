ghost use Rattle.std.specs.Prelude.{◌≡◌, ◌<◌, ◌≤◌, length, IfOk};

use crate::fitting::put_value;
use crate::suite::Suite;
use crate::tuples::Target;
use crate::values::{Digit, SliceValues};
use compiled_rules::CompiledRules;
use cov_model::{Body, Cells, ParamNo, Pred, Rule, Term, TestModel, Truth, ValueNo};
use packed_lists::PackedLists;
use std::alloc::Global;
use std::marker::Model;
use value_text::NoMemory;

// Whether rows keep the constraints that name a parameter.
pub(crate) struct RowRules<'a> {
    model: &'a TestModel,
    rules: CompiledRules<'a>,
    // by parameter the constraints that name it, and by constraint the parameters that it names
    naming: PackedLists,
    named: PackedLists,
    room: Cells,
}

// Its parts are dropped here, and not anew wherever a search may end.
impl Drop for RowRules<'_> {
    fn drop(self) {
        let RowRules {
            model: _,
            rules: _,
            naming: _,
            named: _,
            room: _,
        } = self;
    }
}

impl<'a> Model for RowRules<'a> {
    ghost use Rattle.std.specs.Prelude.{◌≡◌};
    ghost use Rattle.std.specs.Coded.{codes};
    ghost use Rattle.cov_model.specs.believed.Sound.{ModelView};
    ghost use Rattle.cov_model.specs.Fits.{FitsModel};
    ghost use Rattle.cov_model.specs.contracts.model.TestModel as tested;

    ghost Value = { ModelView };

    ghost coded = { Prim.hlevel (codes, tested.the_row.coded) };

    ghost view = { λ a. a.model.now };

    ghost invariant = { λ a. (a.rules ≡ a.model.now) × FitsModel a.model.now a.room };
}

// Puts the parameters that a term names behind others.
fn push_term(term: &Term, list: &mut Vec<u16>) -> Result<(), NoMemory> {
    match term {
        Term::ParamIs(p, _, q) => {
            list.push(*p)?;
            list.push(*q)?;
        }
        Term::ValueIs(p, _, _)
        | Term::OneOf(p, _)
        | Term::Like(p, _)
        | Term::Negative(p)
        | Term::Positive(p) => list.push(*p)?,
    }
    Ok(())
}

// Puts the parameters that a predicate names behind others.
#[cycle(push)]
fn push_pred(pred: &Pred, list: &mut Vec<u16>) -> Result<(), NoMemory> {
    match pred {
        Pred::Term(term) => push_term(term, list),
        Pred::Not(inner) => push_pred(inner, list),
        Pred::All(parts) | Pred::Any(parts) => push_preds(parts.as_slice(), list),
    }
}

// Puts the parameters that predicates name behind others.
#[cycle(push)]
fn push_preds(parts: &[Pred], list: &mut Vec<u16>) -> Result<(), NoMemory> {
    for part in parts {
        push_pred(part, list)?;
    }
    Ok(())
}

// The parameters that a constraint names, rising and each once.
fn params_of(alloc: Global, rule: &Rule) -> Result<Vec<u16>, NoMemory> {
    let mut list = Vec::new(alloc);
    match &rule.body {
        Body::Plain(pred) => push_pred(pred, &mut list)?,
        Body::IfThen(premise, pred) => {
            push_pred(premise, &mut list)?;
            push_pred(pred, &mut list)?;
        }
        Body::IfElse(premise, pred, other) => {
            push_pred(premise, &mut list)?;
            push_pred(pred, &mut list)?;
            push_pred(other, &mut list)?;
        }
    }
    list.sort()?;
    list.dedup();
    Ok(list)
}

// By constraint the parameters that it names.
fn named_by(alloc: Global, model: &TestModel) -> Result<PackedLists, NoMemory> {
    let mut named = PackedLists::new(alloc);
    for rule in model.rules().as_slice() {
        let list = params_of(alloc, rule)?;
        named.push(list.as_slice())?;
    }
    Ok(named)
}

// By parameter the numbers of the constraints that name it.
fn naming_each(
    alloc: Global,
    model: &TestModel,
    named: &PackedLists,
) -> Result<PackedLists, NoMemory> {
    let mut naming = PackedLists::new(alloc);
    let count = model.params().len() as ParamNo;
    for p in 0..count {
        let mut list = Vec::new(alloc);
        let mut number: u16 = 0;
        for i in 0..named.len() {
            number = number.saturating_add(1);
            if named.list(i).contains(&p) {
                list.push(number)?;
            }
        }
        naming.push(list.as_slice())?;
    }
    Ok(naming)
}

// How many numbers a list has.
fn count_items(lists: &PackedLists, list: usize) -> usize {
    if list < lists.len() {
        lists.list(list).len()
    } else {
        0
    }
}

// The number at a place of a list.
fn item(lists: &PackedLists, list: usize, at: usize) -> Option<u16> {
    if list < lists.len() {
        lists.list(list).get(at).copied()
    } else {
        None
    }
}

// The digit that a tuple gives a parameter.
fn digit_in(targets: &[Target], p: ParamNo) -> Option<Digit> {
    for target in targets {
        if target.param == p {
            return Some(target.digit);
        }
    }
    None
}

impl<'a> RowRules<'a> {
    // The constraints of a model.
    pub(crate) fn new(alloc: Global, model: &'a TestModel) -> Result<RowRules<'a>, NoMemory> {
        let rules = CompiledRules::new(alloc, model)?;
        let named = named_by(alloc, model)?;
        let naming = naming_each(alloc, model, &named)?;
        let room = Cells::empty(alloc, model.params().len())?;
        Ok(RowRules {
            model,
            rules,
            naming,
            named,
            room,
        })
    }

    // Whether a constraint names a parameter.
    pub(crate) fn name(&self, p: ParamNo) -> bool {
        (p as usize) < self.naming.len() && !self.naming.list(p as usize).is_empty()
    }

    // Whether a row keeps the constraints that name a parameter, where these digits stand in place of its own.
    pub(crate) fn allow(
        &mut self,
        suite: &Suite<'_>,
        values: &SliceValues,
        row: usize,
        targets: &[Target],
        p: ParamNo,
    ) -> bool {
        for at in 0..count_items(&self.naming, p as usize) {
            let Some(rule) = item(&self.naming, p as usize, at) else {
                return true;
            };
            self.load(suite, values, row, targets, rule);
            if self.is_broken(rule) {
                return false;
            }
        }
        true
    }

    // Puts the values of a row that a constraint names, where these digits stand in place of the row's own.
    fn load(
        &mut self,
        suite: &Suite<'_>,
        values: &SliceValues,
        row: usize,
        targets: &[Target],
        rule: u16,
    ) {
        let list = (rule as usize).saturating_sub(1);
        for at in 0..count_items(&self.named, list) {
            let Some(p) = item(&self.named, list, at) else {
                return;
            };
            let digit = digit_in(targets, p).unwrap_or(suite.digit(p, row));
            if let Some(v) = values.value(p, digit) {
                self.put(p, v);
            }
        }
    }

    // Gives a parameter a value.
    fn put(&mut self, p: ParamNo, v: ValueNo) {
        put_value(self.model, &mut self.room, p, v);
    }

    // Whether a constraint is false on the values.
    fn is_broken(&self, rule: u16) -> bool {
        let number = u32::from(rule);
        if number == 0 || number as usize > self.model.rules().len() {
            return false;
        }
        self.rules.truth(number, &self.room) == Truth::No
    }
}
