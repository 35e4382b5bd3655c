ghost use Rattle.std.specs.Prelude.{◌≡◌, ◌<◌, ◌≤◌, [], length, slice_index_or, IfOk, IfSome};
ghost use Rattle.cov_model.specs.Fits.{FitsModel};
ghost use Rattle.cov_model.specs.believed.Kleene.{body_truth};
ghost use Rattle.cov_model.specs.Preference.{OrdersValues};
ghost use Rattle.cov_model.specs.believed.Sound.{IsSound, param_at};
ghost use Rattle.cov_model.specs.Sound.{rule_at};
ghost use Rattle.definitions.specs.believed.Completion.{preferred_values};
ghost use Rattle.definitions.specs.believed.Demand.{is_among};
ghost use Rattle.definitions.specs.believed.Search.{constrained_params};
ghost use Rattle.definitions.specs.SliceRows.{IsSliceOf};
ghost use Rattle.feasibility.specs.SafeValues.{AreSafe};
ghost use Rattle.feasibility.specs.Tree.{ListsValues, all_constrained, constrained_at, doubtful, members, undecided, undecided_by};

use crate::constrained::{Constrained, constrained_params};
use crate::doubtful::all_doubtful;
use crate::members::member_lists;
use crate::safe_values::most_nodes;
use crate::values::preferred_lists;
use compiled_rules::CompiledRules;
use cov_model::{Cells, ParamNo, Prefs, Slice, TestModel, Truth, ValueNo};
use packed_lists::PackedLists;
use std::alloc::Global;
use std::marker::Model;
use value_text::NoMemory;

/// What a plain search looks at in each node: the values of each parameter in the order in which
/// they are tried, the parameters that each constraint names, with the values that alone leave it
/// undecided, and the parameters that constraints name, with those that each value leaves undecided.
/// Where each of these has a safe value, by which alone each constraint that names it holds, it keeps
/// how many nodes a search visits at most.
#[derive(Drop)]
pub struct SearchTree<'a> {
    rules: CompiledRules<'a>,
    values: PackedLists,
    members: PackedLists,
    doubtful: Vec<PackedLists>,
    constrained: Vec<Constrained>,
    most_nodes: Option<u64>,
}

impl<'a> Model for SearchTree<'a> {
    ghost use Rattle.std.specs.Coded.{codes};
    ghost use Rattle.cov_model.specs.contracts.model.TestModel as tested;
    ghost use Rattle.feasibility.specs.Tree.{TreeView, IsTree};

    ghost Value = { TreeView };

    ghost coded = { Prim.hlevel (codes, tested.the_row.coded) };

    ghost view = { λ a. record { model = a.rules; values = a.values } };

    ghost invariant = { λ a. IsTree a.rules a.values a.members a.doubtful.items a.constrained.items a.most_nodes };
}

impl<'a> SearchTree<'a> {
    /// What a search of a slice of the model needs, each parameter's values in the order of the
    /// preferences, which have to be the model's.
    ///
    /// # Errors
    ///
    /// `NoMemory` where there is no room.
    pub fn new(
        alloc: Global,
        model: &'a TestModel,
        prefs: &Prefs,
        slice: Slice,
    ) -> Result<SearchTree<'a>, NoMemory>
        requires slice { IsSliceOf model.now slice }
        requires orders { OrdersValues model.now prefs.now }
        ensures { IfOk result (λ tree. tree ≡ record { model = model.now; values = preferred_values model.now prefs.now slice }) }
    {
        let values = preferred_lists(alloc, model, prefs, slice)?;
        let members = member_lists(alloc, model)?;
        let rules = CompiledRules::new(alloc, model)?;
        let doubtful = all_doubtful(alloc, &rules, &members)?;
        let constrained = constrained_params(alloc, &rules)?;
        let most = most_nodes(constrained.as_slice(), &values);
        Ok(SearchTree {
            rules,
            values,
            members,
            doubtful,
            constrained,
            most_nodes: most,
        })
    }

    /// What the tree keeps.
    pub fn assert_invariant(&self)
        ensures values { ListsValues self.now.model self.now.values }
        ensures sound { IsSound self.now.model }
    {
        let _model = self.rules.model();
    }

    /// The model.
    pub fn model(&self) -> &'a TestModel
        ensures { result.now ≡ self.now.model }
    {
        self.rules.model()
    }

    /// What is known of the constraint of this number on the cells.
    pub fn truth(&self, rule: u32, cells: &Cells) -> Truth
        requires first { 0 < rule }
        requires last { rule ≤ length self.now.model.rules }
        requires fits { FitsModel self.now.model cells.now }
        ensures { result ≡ body_truth self.now.model (rule_at self.now.model rule).body cells.now }
    {
        self.rules.truth(rule, cells)
    }

    /// How many values a parameter has.
    pub fn count_of(&self, q: ParamNo) -> ValueNo
        requires { q < length self.now.model.params }
        ensures { result ≡ length (param_at self.now.model.params q).values }
    {
        self.model().value_count(q)
    }

    /// The values of a parameter in the order in which they are tried.
    pub fn values_of(&self, p: ParamNo) -> &[ValueNo]
        requires { p < length self.now.model.params }
        ensures { result.now ≡ slice_index_or self.now.values p [] }
    {
        self.values.list(p as usize)
    }

    /// The parameters that the constraint of this number names.
    pub fn members_of(&self, rule: u32) -> &[ParamNo]
        requires first { 0 < rule }
        requires last { rule ≤ length self.now.model.rules }
        ensures { result.now ≡ members (length self.now.model.params) (rule_at self.now.model rule).body }
    {
        self.members.list(rule as usize - 1)
    }

    // The values of the parameter at a place of these that alone leave the constraint undecided.
    pub(crate) fn doubtful_of(&self, rule: u32, j: usize) -> &[ValueNo]
        requires first { 0 < rule }
        requires last { rule ≤ length self.now.model.rules }
        requires place { j < length (members (length self.now.model.params) (rule_at self.now.model rule).body) }
        ensures { result.now ≡ doubtful self.now.model (rule_at self.now.model rule).body
            (slice_index_or (members (length self.now.model.params) (rule_at self.now.model rule).body) j 0) }
    {
        let lists = &self.doubtful[rule as usize - 1];
        lists.list(j)
    }

    /// How many parameters constraints name.
    pub fn constrained_len(&self) -> usize
        ensures { result ≡ length (constrained_params self.now.model) }
    {
        self.constrained.len()
    }

    /// The constrained parameter at a place, and what its values leave undecided.
    pub fn constrained_at(&self, i: usize) -> &Constrained
        requires { i < length (constrained_params self.now.model) }
        ensures { result.now ≡ undecided_by self.now.model (constrained_at self.now.model i) }
    {
        &self.constrained[i]
    }

    // The most nodes that a search visits, where each parameter that constraints name has a safe value.
    pub(crate) fn most_nodes(&self) -> Option<u64>
        ensures { IfSome result (AreSafe (all_constrained self.now.model) self.now.values) }
    {
        self.most_nodes
    }

    /// Whether a constraint names a parameter.
    pub fn is_constrained(&self, q: ParamNo) -> bool
        ensures { result ≡ is_among (constrained_params self.now.model) q }
    {
        let count = self.constrained_len();
        for i in 0..count {
            let named = self.constrained_at(i);
            if named.param == q {
                return true;
            }
        }
        false
    }

    /// The constraints that this value of a parameter leaves undecided, of those that name the
    /// parameter.
    pub fn undecided(&self, q: ParamNo, v: ValueNo) -> &[u16]
        requires parameter { q < length self.now.model.params }
        requires value { v < length (param_at self.now.model.params q).values }
        ensures { result.now ≡ undecided self.now.model q v }
    {
        self.assert_invariant();
        let count = self.constrained_len();
        for i in 0..count {
            let named = self.constrained_at(i);
            if named.param == q {
                return named.undecided.list(v as usize);
            }
        }
        &[]
    }
}
