ghost use Rattle.std.specs.Prelude.{◌≡◌, ◌<◌, ◌++◌, All, OnOk, length, map};
ghost use Rattle.cov_model.specs.believed.Sound.{IsLiteralOf, IsSoundTerm, param_at};
ghost use Rattle.model_findings.specs.believed.Comparisons.{is_unknown};
ghost use Rattle.model_findings.specs.Findings.{IsExplained, fact_of};
ghost use Rattle.model_findings.specs.believed.Findings.{UnknownValue, constant_facts, element_facts, fact_if, told_from, unknown_facts};

use crate::comparing::{is_constant, is_unknown, is_unknown_element};
use crate::finding::{Finding, FindingList};
use cov_model::{Cells, Literal, ParamNo, Term, TestModel};
use std::alloc::Global;
use value_text::NoMemory;

// The constraint of a number, about whose terms findings are added. The room that calls are given has a place for each
// parameter.
#[derive(Drop)]
pub(crate) struct Constraint<'a> {
    pub(crate) alloc: Global,
    pub(crate) model: &'a TestModel,
    pub(crate) number: u32,
}

impl Constraint<'_> {
    // Adds an element of an IN list if no value of its parameter equals it.
    fn add_element(
        &self,
        place: usize,
        p: ParamNo,
        i: usize,
        literal: &Literal,
        room: &mut Cells,
        list: &mut FindingList,
    ) -> Result<(), NoMemory>
        requires parameter { p < length self.now.model.now.params }
        requires literal { IsLiteralOf (param_at self.now.model.now.params p) literal.now }
        requires room { length room.old ≡ length self.now.model.now.params }
        requires explained { All (IsExplained self.now.model.now) list.old }
        ensures facts { OnOk result (map fact_of list.new ≡ map fact_of list.old ++ element_facts self.now.model.now self.now.number place p i literal.now) }
        ensures explained { OnOk result (All (IsExplained self.now.model.now) list.new) }
        ensures room { length room.new ≡ length room.old }
    {
        if is_unknown_element(self.alloc, self.model, p, literal, room)? {
            list.push(Finding::UnknownElement(self.number, place, i))?;
        }
        Ok(())
    }

    // Adds the elements of an IN list that no value of its parameter equals.
    fn add_elements(
        &self,
        place: usize,
        p: ParamNo,
        literals: &[Literal],
        room: &mut Cells,
        list: &mut FindingList,
    ) -> Result<(), NoMemory>
        requires parameter { p < length self.now.model.now.params }
        requires literals { All (IsLiteralOf (param_at self.now.model.now.params p)) literals.now }
        requires room { length room.old ≡ length self.now.model.now.params }
        requires explained { All (IsExplained self.now.model.now) list.old }
        ensures facts { OnOk result (map fact_of list.new ≡ map fact_of list.old ++ told_from (element_facts self.now.model.now self.now.number place p) 0 literals.now) }
        ensures explained { OnOk result (All (IsExplained self.now.model.now) list.new) }
        ensures room { length room.new ≡ length room.old }
    {
        for i in 0..literals.len() {
            self.add_element(place, p, i, &literals[i], room, list)?;
        }
        Ok(())
    }

    // Adds a comparison with what no value of its parameter is.
    fn add_comparison(
        &self,
        place: usize,
        term: &Term,
        room: &mut Cells,
        list: &mut FindingList,
    ) -> Result<(), NoMemory>
        requires sound { IsSoundTerm self.now.model.now.params term.now }
        requires room { length room.old ≡ length self.now.model.now.params }
        requires explained { All (IsExplained self.now.model.now) list.old }
        ensures facts { OnOk result (map fact_of list.new ≡ map fact_of list.old ++ fact_if (is_unknown self.now.model.now term.now) (UnknownValue self.now.number place)) }
        ensures explained { OnOk result (All (IsExplained self.now.model.now) list.new) }
        ensures room { length room.new ≡ length room.old }
    {
        if is_unknown(self.model, term, room) {
            list.push(Finding::UnknownValue(self.number, place))?;
        }
        Ok(())
    }

    // Adds what the term at a place compares with and no value of its parameter is.
    fn add_unknown(
        &self,
        place: usize,
        term: &Term,
        room: &mut Cells,
        list: &mut FindingList,
    ) -> Result<(), NoMemory>
        requires sound { IsSoundTerm self.now.model.now.params term.now }
        requires room { length room.old ≡ length self.now.model.now.params }
        requires explained { All (IsExplained self.now.model.now) list.old }
        ensures facts { OnOk result (map fact_of list.new ≡ map fact_of list.old ++ unknown_facts self.now.model.now self.now.number place term.now) }
        ensures explained { OnOk result (All (IsExplained self.now.model.now) list.new) }
        ensures room { length room.new ≡ length room.old }
    {
        match term {
            Term::OneOf(p, literals) => {
                self.add_elements(place, *p, literals.as_slice(), room, list)
            }
            Term::ValueIs(_, _, _)
            | Term::ParamIs(_, _, _)
            | Term::Like(_, _)
            | Term::Negative(_)
            | Term::Positive(_) => self.add_comparison(place, term, room, list),
        }
    }

    // The same of each term.
    pub(crate) fn add_each_unknown(
        &self,
        terms: &[&Term],
        room: &mut Cells,
        list: &mut FindingList,
    ) -> Result<(), NoMemory>
        requires sound { All (IsSoundTerm self.now.model.now.params) (map (λ t. t.now) terms.now) }
        requires room { length room.old ≡ length self.now.model.now.params }
        requires explained { All (IsExplained self.now.model.now) list.old }
        ensures facts { OnOk result (map fact_of list.new ≡ map fact_of list.old ++ told_from (unknown_facts self.now.model.now self.now.number) 0 (map (λ t. t.now) terms.now)) }
        ensures explained { OnOk result (All (IsExplained self.now.model.now) list.new) }
        ensures room { length room.new ≡ length room.old }
    {
        for i in 0..terms.len() {
            self.add_unknown(i, terms[i], room, list)?;
        }
        Ok(())
    }

    // Adds the term at a place if it is the same for every value of its parameters, though not for want of a value.
    fn add_constant(
        &self,
        place: usize,
        term: &Term,
        room: &mut Cells,
        list: &mut FindingList,
    ) -> Result<(), NoMemory>
        requires sound { IsSoundTerm self.now.model.now.params term.now }
        requires room { length room.old ≡ length self.now.model.now.params }
        requires explained { All (IsExplained self.now.model.now) list.old }
        ensures facts { OnOk result (map fact_of list.new ≡ map fact_of list.old ++ constant_facts self.now.model.now self.now.number place term.now) }
        ensures explained { OnOk result (All (IsExplained self.now.model.now) list.new) }
        ensures room { length room.new ≡ length room.old }
    {
        if is_constant(self.model, term, room) {
            list.push(Finding::ConstantComparison(self.number, place))?;
        }
        Ok(())
    }

    // The same of each term.
    pub(crate) fn add_each_constant(
        &self,
        terms: &[&Term],
        room: &mut Cells,
        list: &mut FindingList,
    ) -> Result<(), NoMemory>
        requires sound { All (IsSoundTerm self.now.model.now.params) (map (λ t. t.now) terms.now) }
        requires room { length room.old ≡ length self.now.model.now.params }
        requires explained { All (IsExplained self.now.model.now) list.old }
        ensures facts { OnOk result (map fact_of list.new ≡ map fact_of list.old ++ told_from (constant_facts self.now.model.now self.now.number) 0 (map (λ t. t.now) terms.now)) }
        ensures explained { OnOk result (All (IsExplained self.now.model.now) list.new) }
        ensures room { length room.new ≡ length room.old }
    {
        for i in 0..terms.len() {
            self.add_constant(i, terms[i], room, list)?;
        }
        Ok(())
    }
}
