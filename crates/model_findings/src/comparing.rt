ghost use Rattle.std.specs.Prelude.{◌≡◌, ◌<◌, ◌∷◌, ◌||◌, [], true, IfOk, length};
ghost use Rattle.std.specs.List.{list_all};
ghost use Rattle.cov_model.specs.Fits.{FitsModel};
ghost use Rattle.cov_model.specs.believed.Kleene.{term_params};
ghost use Rattle.cov_model.specs.believed.Rows.{is_assigned, with_value};
ghost use Rattle.cov_model.specs.believed.Sound.{IsLiteralOf, IsSoundTerm, param_at};
ghost use Rattle.model_lint.specs.believed.Tests.{no_values};
ghost use Rattle.model_findings.specs.believed.Comparisons.{is_always_true, is_constant, is_ever, is_for_some, is_never_true, is_so, is_unknown, is_unknown_element};

use cov_model::{Cells, Literal, ParamNo, Rel, Term, TestModel, Truth, ValueNo};
use model_lint::copy_literal;
use std::alloc::Global;
use value_text::NoMemory;

// A term of a constraint, of which is asked whether it is ever true, or ever false.
#[derive(Drop)]
struct Asked<'a> {
    model: &'a TestModel,
    term: &'a Term,
    truth: bool,
}

impl Asked<'_> {
    // Whether the term is so of the values of a partial row, which gives each of its parameters one.
    fn is_so(&self, cells: &Cells) -> bool
        requires sound { IsSoundTerm self.now.model.now.params self.now.term.now }
        requires fits { FitsModel self.now.model.now cells.now }
        requires assigned { list_all (is_assigned cells.now) (term_params self.now.term.now) ≡ true }
        ensures { result ≡ is_so self.now.model.now self.now.term.now self.now.truth cells.now }
    {
        match self.model.term_truth(self.term, cells) {
            Truth::Yes => self.truth,
            Truth::No | Truth::Unknown => !self.truth,
        }
    }

    // Whether it is so of some value of its only parameter.
    fn is_for_some(&self, p: ParamNo, room: &mut Cells) -> bool
        requires sound { IsSoundTerm self.now.model.now.params self.now.term.now }
        requires only { term_params self.now.term.now ≡ p ∷ [] }
        requires parameter { p < length self.now.model.now.params }
        requires room { length room.old ≡ length self.now.model.now.params }
        ensures is { result ≡ is_for_some self.now.model.now (p ∷ []) (is_so self.now.model.now self.now.term.now self.now.truth) (no_values self.now.model.now) }
        ensures room { length room.new ≡ length room.old }
    {
        let count = self.model.value_count(p);
        for v in 0..count {
            room.clear();
            room.set_cell(p, v);
            if self.is_so(room) {
                return true;
            }
        }
        false
    }

    // Whether it is so of a value of the first of its two parameters and some value of the second.
    fn is_with_some(&self, p: ParamNo, v: ValueNo, q: ParamNo, room: &mut Cells) -> bool
        requires sound { IsSoundTerm self.now.model.now.params self.now.term.now }
        requires both { term_params self.now.term.now ≡ p ∷ q ∷ [] }
        requires first { p < length self.now.model.now.params }
        requires second { q < length self.now.model.now.params }
        requires value { v < length (param_at self.now.model.now.params p).values }
        requires room { length room.old ≡ length self.now.model.now.params }
        ensures is { result ≡ is_for_some self.now.model.now (q ∷ []) (is_so self.now.model.now self.now.term.now self.now.truth) (with_value (no_values self.now.model.now) p v) }
        ensures room { length room.new ≡ length room.old }
    {
        let count = self.model.value_count(q);
        for w in 0..count {
            room.clear();
            room.set_cell(p, v);
            room.set_cell(q, w);
            if self.is_so(room) {
                return true;
            }
        }
        false
    }

    // Whether it is so of some values of its two parameters.
    fn is_for_some_two(&self, p: ParamNo, q: ParamNo, room: &mut Cells) -> bool
        requires sound { IsSoundTerm self.now.model.now.params self.now.term.now }
        requires both { term_params self.now.term.now ≡ p ∷ q ∷ [] }
        requires first { p < length self.now.model.now.params }
        requires second { q < length self.now.model.now.params }
        requires room { length room.old ≡ length self.now.model.now.params }
        ensures is { result ≡ is_for_some self.now.model.now (p ∷ q ∷ []) (is_so self.now.model.now self.now.term.now self.now.truth) (no_values self.now.model.now) }
        ensures room { length room.new ≡ length room.old }
    {
        let count = self.model.value_count(p);
        for v in 0..count {
            if self.is_with_some(p, v, q, room) {
                return true;
            }
        }
        false
    }
}

// Whether a term is true, or false, of some values of its parameters. The room has a place for each parameter.
fn is_ever(model: &TestModel, term: &Term, truth: bool, room: &mut Cells) -> bool
    requires sound { IsSoundTerm model.now.params term.now }
    requires room { length room.old ≡ length model.now.params }
    ensures is { result ≡ is_ever model.now term.now truth }
    ensures room { length room.new ≡ length room.old }
{
    let asked = Asked { model, term, truth };
    match term {
        Term::ValueIs(p, _, _) => asked.is_for_some(*p, room),
        Term::ParamIs(p, _, q) => asked.is_for_some_two(*p, *q, room),
        Term::OneOf(p, _) => asked.is_for_some(*p, room),
        Term::Like(p, _) => asked.is_for_some(*p, room),
        Term::Negative(p) => asked.is_for_some(*p, room),
        Term::Positive(p) => asked.is_for_some(*p, room),
    }
}

// Whether a term is the same for every value of its parameters.
fn is_fixed(model: &TestModel, term: &Term, room: &mut Cells) -> bool
    requires sound { IsSoundTerm model.now.params term.now }
    requires room { length room.old ≡ length model.now.params }
    ensures is { result ≡ (is_never_true model.now term.now || is_always_true model.now term.now) }
    ensures room { length room.new ≡ length room.old }
{
    !is_ever(model, term, true, room) || !is_ever(model, term, false, room)
}

// Whether an element of an IN list equals no value of its parameter.
pub(crate) fn is_unknown_element(
    alloc: Global,
    model: &TestModel,
    p: ParamNo,
    literal: &Literal,
    room: &mut Cells,
) -> Result<bool, NoMemory>
    requires parameter { p < length model.now.params }
    requires literal { IsLiteralOf (param_at model.now.params p) literal.now }
    requires room { length room.old ≡ length model.now.params }
    ensures is { IfOk result (λ unknown. unknown ≡ is_unknown_element model.now p literal.now) }
    ensures room { length room.new ≡ length room.old }
{
    let equal = Term::ValueIs(p, Rel::Eq, copy_literal(alloc, literal)?);
    Ok(!is_ever(model, &equal, true, room))
}

// Whether no value of its parameter meets the literal of a comparison by `=`, `<>` or LIKE.
pub(crate) fn is_unknown(model: &TestModel, term: &Term, room: &mut Cells) -> bool
    requires sound { IsSoundTerm model.now.params term.now }
    requires room { length room.old ≡ length model.now.params }
    ensures is { result ≡ is_unknown model.now term.now }
    ensures room { length room.new ≡ length room.old }
{
    match term {
        Term::ValueIs(_, Rel::Eq, _) => !is_ever(model, term, true, room),
        Term::ValueIs(_, Rel::Ne, _) => !is_ever(model, term, false, room),
        Term::Like(_, _) => !is_ever(model, term, true, room),
        _ => false,
    }
}

// Whether a term is the same for every value of its parameters, though not for want of a literal among the values.
pub(crate) fn is_constant(model: &TestModel, term: &Term, room: &mut Cells) -> bool
    requires sound { IsSoundTerm model.now.params term.now }
    requires room { length room.old ≡ length model.now.params }
    ensures is { result ≡ is_constant model.now term.now }
    ensures room { length room.new ≡ length room.old }
{
    match term {
        Term::ValueIs(_, Rel::Eq, _) => !is_ever(model, term, false, room),
        Term::ValueIs(_, Rel::Ne, _) => !is_ever(model, term, true, room),
        Term::ValueIs(_, Rel::Gt | Rel::Ge | Rel::Lt | Rel::Le, _) => is_fixed(model, term, room),
        Term::ParamIs(_, _, _) => is_fixed(model, term, room),
        Term::OneOf(_, _) => !is_ever(model, term, false, room),
        Term::Like(_, _) => !is_ever(model, term, false, room),
        Term::Negative(_) => false,
        Term::Positive(_) => false,
    }
}
