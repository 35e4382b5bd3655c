ghost use Rattle.std.specs.Prelude.{◌≡◌, ◌<◌, true, false, [], length, slice_index_or, All, IfSome};
ghost use Rattle.cov_model.specs.Fits.{FitsModel};
ghost use Rattle.definitions.specs.believed.Search.{breaks_a_rule, exceeds, is_failing};
ghost use Rattle.feasibility.specs.Answers.{searched};
ghost use Rattle.feasibility.specs.Live.{AreRules, IsUnbrokenBefore, breaks_one};
ghost use Rattle.feasibility.specs.SafeValues.{AreSafe, HasSafeValue};
ghost use Rattle.feasibility.specs.Tree.{no_values};

use crate::constrained::Constrained;
use crate::tree::SearchTree;
use cov_model::{Cells, ParamNo, ValueNo};
use definitions::Effort;
use packed_lists::PackedLists;

// Whether a parameter has a safe value among these.
fn has_safe_value(named: &Constrained, values: &[ValueNo]) -> bool
    requires { All (λ v. v < length named.now.undecided) values.now }
    ensures { result ≡ true → HasSafeValue named.now values.now }
{
    for v in values {
        if named.undecided.list(*v as usize).is_empty() {
            return true;
        }
    }
    false
}

// The most nodes that a search visits, if each of these parameters has a safe value: one, and one for each
// of their values.
pub(crate) fn most_nodes(constrained: &[Constrained], values: &PackedLists) -> Option<u64>
    requires listed { All (λ named. named.param < length values.now) constrained.now }
    requires exist { All (λ named. All (λ v. v < length named.undecided) (slice_index_or values.now named.param [])) constrained.now }
    ensures { IfSome result (AreSafe constrained.now values.now) }
{
    let mut most = 1u64;
    for named in constrained {
        let list = values.list(named.param as usize);
        if !has_safe_value(named, list) {
            return None;
        }
        most = most.checked_add(list.len() as u64)?;
    }
    Some(most)
}

// Whether so many nodes are more than a question may cost.
fn is_above(effort: Effort, cost: u64) -> bool
    ensures { result ≡ exceeds effort cost }
{
    match effort {
        Effort::Within(budget) => budget < cost,
        Effort::Full => false,
    }
}

impl<'a> SearchTree<'a> {
    // Whether one of these constraints is No on the cells; none is that names a parameter below this one with a value.
    fn breaks_one(&self, rules: &[u16], p: ParamNo, cells: &Cells) -> bool
        requires exist { AreRules self.now.model rules.now }
        requires fits { FitsModel self.now.model cells.now }
        requires seen { IsUnbrokenBefore self.now.model p cells.now }
        ensures { result ≡ breaks_one self.now.model rules.now cells.now }
    {
        for rule in rules {
            let rule = *rule as u32;
            if !self.names_earlier(rule, p, cells) && self.is_no(rule, cells) {
                return true;
            }
        }
        false
    }

    // Whether a constraint is No on the cells, if none is where no parameter has a value: then it is one that a
    // value of the cells leaves undecided.
    fn breaks_a_rule(&self, cells: &Cells) -> bool
        requires fits { FitsModel self.now.model cells.now }
        requires whole { breaks_a_rule self.now.model (no_values self.now.model) ≡ false }
        ensures { result ≡ breaks_a_rule self.now.model cells.now }
    {
        self.assert_invariant();
        let count = self.constrained_len();
        for i in 0..count {
            let named = self.constrained_at(i);
            if let Some(v) = cells.get(named.param) {
                let rules = named.undecided.list(v as usize);
                if self.breaks_one(rules, named.param, cells) {
                    return true;
                }
            }
        }
        false
    }

    /// Whether plain search finds a completion of the cells, where the node without values doesn't fail and each
    /// parameter that constraints name has a safe value: then it does unless a constraint is No on them, and
    /// visits each value once at most. `None` where a search is needed, or where it might cost more than a
    /// question may.
    pub fn found_at_once(&self, cells: &Cells, effort: Effort) -> Option<bool>
        requires fits { FitsModel self.now.model cells.now }
        requires node { is_failing self.now.model self.now.values (no_values self.now.model) ≡ false }
        ensures found { IfSome result (λ found. found ≡ (searched self.now cells.now).found) }
        ensures cost { IfSome result (λ _. exceeds effort (searched self.now cells.now).cost ≡ false) }
    {
        self.assert_invariant();
        let most = self.most_nodes()?;
        if is_above(effort, most) {
            return None;
        }
        Some(!self.breaks_a_rule(cells))
    }
}
