ghost use Rattle.std.specs.Prelude.{◌≡◌, ◌-◌, ◌<◌, [], false, true, IfOk, OnOk, length, slice_index_or, sum};
ghost use Rattle.tuple_index.specs.Plan.{set_at};
ghost use Rattle.shared_marks.specs.declared.open_sets.Line.{Line};
ghost use Rattle.shared_marks.specs.Adding.{Adds, nothing};
ghost use Rattle.shared_marks.specs.OpenSets.{AreLines, AreOpen, IsLine, front};

use crate::seat::MarkSeat;
use crate::table::SharedMarks;
use cov_model::ParamNo;
use std::alloc::Global;
use tuple_index::Plan;
use value_text::NoMemory;

// The line of a demanded set: its number, how many demanded tuples the sets before it have, its last member,
// and whether it begins with other members than the set of the line before.
#[derive(Drop, Clone, Copy)]
pub(crate) struct Line {
    pub(crate) set: u32,
    pub(crate) base: u32,
    pub(crate) last: ParamNo,
    pub(crate) is_fresh: bool,
}

// The sets whose tuples aren't all marked yet: those of the lines, and all sets from number `upto` on.
#[derive(Drop)]
pub(crate) struct OpenSets {
    pub(crate) lines: Vec<Line>,
    pub(crate) upto: u32,
}

// The members of a set but the last.
pub(crate) fn front(members: &[ParamNo]) -> &[ParamNo]
    requires { 0 < length members.now }
    ensures { result.now ≡ front members.now }
{
    &members[..members.len() - 1]
}

// Whether two lists are the same.
fn are_same(one: &[ParamNo], other: &[ParamNo]) -> bool
    ensures { result ≡ true → one.now ≡ other.now }
{
    if one.len() != other.len() {
        return false;
    }
    for i in 0..one.len() {
        if one[i] != other[i] {
            return false;
        }
    }
    true
}

// Whether a set begins with other members than the set of the last line.
fn is_fresh(plan: &Plan, lines: &[Line], set: u32) -> bool
    requires lines { AreLines plan.now lines.now }
    requires set { set < length plan.now.sets }
    requires some { 0 < length (set_at plan.now set) }
    ensures { result ≡ false → (0 < length lines.now)
        × ((other : Line) → front (set_at plan.now set) ≡ front (set_at plan.now (slice_index_or lines.now (length lines.now - 1) other).set)) }
{
    if lines.is_empty() {
        return true;
    }
    let before = lines[lines.len() - 1].set;
    !are_same(front(plan.members(set)), front(plan.members(before)))
}

// The line of a set that has members, after these lines.
fn line_of(plan: &Plan, lines: &[Line], set: u32) -> Line
    requires lines { AreLines plan.now lines.now }
    requires set { set < length plan.now.sets }
    requires some { 0 < length (set_at plan.now set) }
    ensures number { result.set ≡ set }
    ensures line { IsLine plan.now result }
    ensures same { result.is_fresh ≡ false → (0 < length lines.now)
        × ((other : Line) → front (set_at plan.now set) ≡ front (set_at plan.now (slice_index_or lines.now (length lines.now - 1) other).set)) }
{
    let members = plan.members(set);
    Line {
        set,
        base: plan.base(set),
        last: members[members.len() - 1],
        is_fresh: is_fresh(plan, lines, set),
    }
}

impl OpenSets {
    // The sets without those whose places the table has all marked, which the seat then has seen. Sets from
    // the first one without a member on stay.
    pub(crate) fn find(
        alloc: Global,
        table: &SharedMarks,
        seat: &mut MarkSeat,
        plan: &Plan,
    ) -> Result<OpenSets, NoMemory>
        requires table { seat.old.table ≡ table.now.table }
        requires bits { table.now.bits ≡ sum plan.now.sizes }
        ensures in_play { IfOk result (λ sets. AreOpen plan.now sets.lines.items sets.upto seat.new.holds) }
        ensures seat { OnOk result (Adds nothing seat.old seat.new) }
    {
        let count = plan.set_count();
        let mut lines = Vec::new(alloc);
        for set in 0..count {
            if plan.members(set).is_empty() {
                return Ok(OpenSets { lines, upto: set });
            }
            let base = plan.base(set);
            if !table.are_marked(seat, base, base + plan.size(set)) {
                let line = line_of(plan, lines.as_slice(), set);
                lines.push(line)?;
            }
        }
        Ok(OpenSets { lines, upto: count })
    }

    // Whether no set is left.
    pub(crate) fn are_none(&self, plan: &Plan) -> bool
        ensures { result ≡ true → (self.now.lines.items ≡ []) × (self.now.upto ≡ length plan.now.sets) }
    {
        self.lines.is_empty() && self.upto == plan.set_count()
    }
}
