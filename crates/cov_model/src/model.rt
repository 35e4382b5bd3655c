ghost use Rattle.std.specs.Prelude.{◌≡◌, ◌<◌, true, map, length};
ghost use Rattle.value_text.specs.believed.Numbers.{is_number};
ghost use Rattle.cov_model.specs.Views.{rule_view};
ghost use Rattle.cov_model.specs.believed.Sound.{IsSound, IsSoundParam, IsSoundValue, first_name, param_at};
ghost use Rattle.cov_model.specs.believed.Meaning.{value_at};

use crate::constraint::RuleList;
use crate::demand::Demand;
use crate::parameter::{Param, ParamList, ParamNo, Value, ValueNo};
use std::marker::Model;

/// A sound test model: what a model file describes (PICT's guide; the ACTS guide for relations).
///
/// It is sound from its making on, as `IsSound` says, and every accessor hands that on.
#[derive(Drop)]
pub struct TestModel {
    all_params: ParamList,
    all_rules: RuleList,
    wanted: Demand,
    mark: u8,
    folds: bool,
}

impl Model for TestModel {
    ghost use Rattle.std.specs.Coded.{codes};
    ghost use Rattle.std.specs.Prelude.{map};
    ghost use Rattle.cov_model.specs.believed.Sound.{ModelView, IsSound};
    ghost use Rattle.cov_model.specs.Views.{rule_view};
    ghost use Rattle.cov_model.specs.Stored.{pred_code};
    ghost use Rattle.cov_model.specs.contracts.constraint.Pred as predicate;

    ghost Value = { ModelView };

    ghost coded = { Prim.hlevel (codes, pred_code predicate.the_row.coded) };

    ghost view = { λ a. record { params = a.all_params; rules = map rule_view a.all_rules; demand = a.wanted; prefix = a.mark; fold = a.folds } };

    ghost invariant = { λ a. IsSound (record { params = a.all_params; rules = map rule_view a.all_rules; demand = a.wanted; prefix = a.mark; fold = a.folds }) };
}

impl TestModel {
    /// The model of these parts, which have to be sound together. Takes no memory.
    pub fn new(
        params: ParamList,
        rules: RuleList,
        demand: Demand,
        prefix: u8,
        fold: bool,
    ) -> TestModel
        requires { IsSound (record { params = params; rules = map rule_view rules; demand = demand; prefix = prefix; fold = fold }) }
        ensures { result ≡ record { params = params; rules = map rule_view rules; demand = demand; prefix = prefix; fold = fold } }
    {
        TestModel {
            all_params: params,
            all_rules: rules,
            wanted: demand,
            mark: prefix,
            folds: fold,
        }
    }

    /// Says again what every model keeps: it is sound. Does nothing when it runs.
    pub fn assert_invariant(&self)
        ensures { IsSound self.now }
    {
        // a use of a field brings into a proof what the type keeps
        let _ = &self.all_params;
    }

    /// The parameters, in order of declaration.
    pub fn params(&self) -> &ParamList
        ensures value { result.now ≡ self.now.params }
        ensures sound { IsSound self.now }
    {
        &self.all_params
    }

    /// The parameter of a number.
    pub fn param(&self, p: ParamNo) -> &Param
        requires { p < length self.now.params }
        ensures value { result.now ≡ param_at self.now.params p }
        ensures own { IsSoundParam self.now.prefix self.now.fold result.now }
        ensures sound { IsSound self.now }
    {
        &self.params().as_slice()[p as usize]
    }

    /// How many values a parameter has.
    pub fn value_count(&self, p: ParamNo) -> ValueNo
        requires { p < length self.now.params }
        ensures { result ≡ length (param_at self.now.params p).values }
    {
        self.param(p).values.len() as ValueNo
    }

    /// The value of a number of a parameter.
    pub fn value(&self, p: ParamNo, v: ValueNo) -> &Value
        requires parameter { p < length self.now.params }
        requires value { v < length (param_at self.now.params p).values }
        ensures value { result.now ≡ value_at self.now p v }
        ensures own { IsSoundValue self.now.prefix result.now }
        ensures number { (param_at self.now.params p).numeric ≡ true → is_number (first_name result.now) ≡ true }
    {
        &self.param(p).values.as_slice()[v as usize]
    }

    /// Whether a value of a parameter is negative: an invalid input (PICT's guide).
    pub fn is_negative(&self, p: ParamNo, v: ValueNo) -> bool
        requires parameter { p < length self.now.params }
        requires value { v < length (param_at self.now.params p).values }
        ensures { result ≡ (value_at self.now p v).negative }
    {
        self.value(p, v).negative
    }

    /// The constraints, in order; the one at place i has the number i + 1.
    pub fn rules(&self) -> &RuleList
        ensures value { map rule_view result.now ≡ self.now.rules }
        ensures sound { IsSound self.now }
    {
        &self.all_rules
    }

    /// What a suite has to cover.
    pub fn demand(&self) -> &Demand
        ensures value { result.now ≡ self.now.demand }
        ensures sound { IsSound self.now }
    {
        &self.wanted
    }

    /// The mark before the names of negative values, an ASCII byte.
    pub fn prefix(&self) -> u8
        ensures value { result ≡ self.now.prefix }
        ensures sound { IsSound self.now }
    {
        self.mark
    }

    /// Whether ASCII letters are folded before texts are compared.
    pub fn fold(&self) -> bool
        ensures value { result ≡ self.now.fold }
        ensures sound { IsSound self.now }
    {
        self.folds
    }
}
