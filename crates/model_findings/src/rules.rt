ghost use Rattle.std.specs.Prelude.{◌≡◌, ◌<◌, ◌≤◌, ◌&&◌, ◌++◌, All, OnOk, length, map, slice_index_or};
ghost use Rattle.std.specs.List.{flat_map};
ghost use Rattle.cov_model.specs.Sound.{no_rule, rule_at};
ghost use Rattle.model_lint.specs.believed.Constraints.{never_applies, never_excludes};
ghost use Rattle.model_findings.specs.Findings.{IsExplained, fact_of};
ghost use Rattle.model_findings.specs.believed.Findings.{NeverExcludes, PremiseNeverHolds, fact_if, rule_facts, term_facts};

use crate::constraint::Constraint;
use crate::finding::{Finding, FindingList};
use crate::terms::terms_of;
use cov_model::{Cells, TestModel};
use model_lint::{Completer, never_applies, never_excludes};
use std::alloc::Global;
use value_text::NoMemory;

// The constraints of a model, about which findings are added; those that exclude nothing where all is asked for.
#[derive(Drop)]
pub(crate) struct Rules<'a, C> {
    pub(crate) alloc: Global,
    pub(crate) completer: &'a C,
    pub(crate) model: &'a TestModel,
    pub(crate) all: bool,
}

impl<C: Completer> Rules<'_, C> {
    // Adds a constraint that never excludes.
    fn add_idle(&self, number: u32, list: &mut FindingList) -> Result<(), NoMemory>
        requires least { 1 ≤ number }
        requires most { number ≤ length self.now.model.now.rules }
        requires explained { All (IsExplained self.now.model.now) list.old }
        ensures facts { OnOk result (map fact_of list.new ≡ map fact_of list.old
            ++ fact_if (self.now.all && never_excludes self.now.model.now (rule_at self.now.model.now number)) (NeverExcludes number)) }
        ensures explained { OnOk result (All (IsExplained self.now.model.now) list.new) }
    {
        if self.all && never_excludes(self.alloc, self.completer, self.model, number)? {
            list.push(Finding::NeverExcludes(number))?;
        }
        Ok(())
    }

    // Adds a constraint whose condition never holds.
    fn add_unmet(&self, number: u32, list: &mut FindingList) -> Result<(), NoMemory>
        requires least { 1 ≤ number }
        requires most { number ≤ length self.now.model.now.rules }
        requires explained { All (IsExplained self.now.model.now) list.old }
        ensures facts { OnOk result (map fact_of list.new ≡ map fact_of list.old
            ++ fact_if (never_applies self.now.model.now (rule_at self.now.model.now number)) (PremiseNeverHolds number)) }
        ensures explained { OnOk result (All (IsExplained self.now.model.now) list.new) }
    {
        if never_applies(self.alloc, self.completer, self.model, number)? {
            list.push(Finding::PremiseNeverHolds(number))?;
        }
        Ok(())
    }

    // Adds what is so of the terms of the constraint at a place.
    fn add_terms(&self, i: usize, room: &mut Cells, list: &mut FindingList) -> Result<(), NoMemory>
        requires within { i < length self.now.model.now.rules }
        requires room { length room.old ≡ length self.now.model.now.params }
        requires explained { All (IsExplained self.now.model.now) list.old }
        ensures facts { OnOk result (map fact_of list.new ≡ map fact_of list.old ++ term_facts self.now.model.now (slice_index_or self.now.model.now.rules i no_rule)) }
        ensures explained { OnOk result (All (IsExplained self.now.model.now) list.new) }
        ensures room { length room.new ≡ length room.old }
    {
        self.model.assert_invariant();
        let rule = &self.model.rules().as_slice()[i];
        let terms = terms_of(self.alloc, &rule.body)?;
        let constraint = Constraint {
            alloc: self.alloc,
            model: self.model,
            number: rule.number,
        };
        constraint.add_each_unknown(terms.as_slice(), room, list)?;
        constraint.add_each_constant(terms.as_slice(), room, list)
    }

    // Adds what is so of the constraint at a place.
    fn add_rule(&self, i: usize, room: &mut Cells, list: &mut FindingList) -> Result<(), NoMemory>
        requires within { i < length self.now.model.now.rules }
        requires room { length room.old ≡ length self.now.model.now.params }
        requires explained { All (IsExplained self.now.model.now) list.old }
        ensures facts { OnOk result (map fact_of list.new ≡ map fact_of list.old ++ rule_facts self.now.model.now self.now.all (slice_index_or self.now.model.now.rules i no_rule)) }
        ensures explained { OnOk result (All (IsExplained self.now.model.now) list.new) }
        ensures room { length room.new ≡ length room.old }
    {
        self.model.assert_invariant();
        let number = self.model.rules().as_slice()[i].number;
        self.add_terms(i, room, list)?;
        self.add_idle(number, list)?;
        self.add_unmet(number, list)
    }

    // Adds what is so of each constraint.
    pub(crate) fn add_rules(&self, room: &mut Cells, list: &mut FindingList) -> Result<(), NoMemory>
        requires room { length room.old ≡ length self.now.model.now.params }
        requires explained { All (IsExplained self.now.model.now) list.old }
        ensures facts { OnOk result (map fact_of list.new ≡ map fact_of list.old ++ flat_map (rule_facts self.now.model.now self.now.all) self.now.model.now.rules) }
        ensures explained { OnOk result (All (IsExplained self.now.model.now) list.new) }
    {
        for i in 0..self.model.rules().len() {
            self.add_rule(i, room, list)?;
        }
        Ok(())
    }
}
