ghost use Rattle.std.specs.Prelude.{◌≡◌, ◌^◌, ◌<◌, ◌≤◌, true, false, Some, None, [], length, replicate, slice_index_or, slice_set};
ghost use Rattle.cov_model.specs.believed.Rows.{is_assigned, with_value};
ghost use Rattle.cov_model.specs.Fits.{FitsModel};
ghost use Rattle.cov_model.specs.believed.Sound.{param_at};
ghost use Rattle.definitions.specs.believed.Search.{breaks_a_rule};
ghost use Rattle.feasibility.specs.Live.{no_on};
ghost use Rattle.full_search.specs.Reasons.{Grows, GrowsBy, HasMembers, HasNoRow, IsPart};

use cov_model::{Cells, ParamNo, ValueNo};
use feasibility::SearchTree;

// The reason becomes one without a value.
pub(crate) fn clear(why: &mut Cells)
    requires { length why.old < 2 ^ 16 }
    ensures { why.new ≡ replicate (length why.old) None }
{
    let count = why.len() as ParamNo;
    for q in 0..count {
        why.clear_cell(q);
    }
}

// Adds to the reason the values that the path gives the parameters which a constraint names, but not that of the
// parameter that is branched on.
pub(crate) fn add_members(
    tree: &SearchTree<'_>,
    rule: u32,
    p: ParamNo,
    cells: &Cells,
    why: &mut Cells,
)
    requires first { 0 < rule }
    requires last { rule ≤ length tree.now.model.rules }
    requires long { length cells.now ≡ length tree.now.model.params }
    requires grows { Grows cells.now p why.old why.old }
    ensures grows { Grows cells.now p why.old why.new }
    ensures members { HasMembers tree.now.model rule p cells.now why.new }
{
    for q in tree.members_of(rule) {
        if *q != p {
            if let Some(w) = cells.get(*q) {
                why.set_cell(*q, w);
            }
        }
    }
}

// The least number of a constraint that is No on the cells, which it wasn't without this value of a parameter.
fn first_broken(tree: &SearchTree<'_>, p: ParamNo, v: ValueNo, cells: &Cells) -> u32
    requires parameter { p < length tree.now.model.params }
    requires value { v < length (param_at tree.now.model.params p).values }
    requires fits { FitsModel tree.now.model cells.now }
    requires given { slice_index_or cells.now p None ≡ Some v }
    requires before { breaks_a_rule tree.now.model (slice_set cells.now p None) ≡ false }
    requires broken { breaks_a_rule tree.now.model cells.now ≡ true }
    ensures first { 0 < result }
    ensures last { result ≤ length tree.now.model.rules }
    ensures broken { no_on tree.now.model cells.now result ≡ true }
{
    tree.assert_invariant();
    for rule in tree.undecided(p, v) {
        if tree.is_no(*rule as u32, cells) {
            return *rule as u32;
        }
    }
    1
}

// Adds to the reason why a value of a parameter that isn't live leads to no row: with it a constraint is No.
pub(crate) fn add_dead(
    tree: &SearchTree<'_>,
    p: ParamNo,
    v: ValueNo,
    cells: &mut Cells,
    why: &mut Cells,
)
    requires parameter { p < length tree.now.model.params }
    requires value { v < length (param_at tree.now.model.params p).values }
    requires fits { FitsModel tree.now.model cells.old }
    requires free { is_assigned cells.old p ≡ false }
    requires unbroken { breaks_a_rule tree.now.model cells.old ≡ false }
    requires dead { breaks_a_rule tree.now.model (with_value cells.old p v) ≡ true }
    requires grows { Grows cells.old p why.old why.old }
    ensures refuted { GrowsBy tree.now cells.old p v why.old why.new }
    ensures same { cells.new ≡ cells.old }
{
    cells.set_cell(p, v);
    let rule = first_broken(tree, p, v, cells);
    cells.clear_cell(p);
    add_members(tree, rule, p, cells, why);
}

// Adds the reason of a path with this value of a parameter to that of the path without it.
pub(crate) fn add_reason(
    tree: &SearchTree<'_>,
    p: ParamNo,
    v: ValueNo,
    cells: &Cells,
    below: &Cells,
    why: &mut Cells,
)
    requires parameter { p < length tree.now.model.params }
    requires long { length cells.now ≡ length tree.now.model.params }
    requires free { is_assigned cells.now p ≡ false }
    requires below { IsPart below.now (with_value cells.now p v) }
    requires grows { Grows cells.now p why.old why.old }
    ensures grows { Grows cells.now p why.old why.new }
    ensures part { IsPart below.now (with_value why.new p v) }
    ensures refuted { HasNoRow tree.now below.now → HasNoRow tree.now (with_value why.new p v) }
{
    tree.assert_invariant();
    let count = why.len() as ParamNo;
    for q in 0..count {
        if q != p {
            if let Some(w) = below.get(q) {
                why.set_cell(q, w);
            }
        }
    }
}
