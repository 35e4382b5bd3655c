ghost use Rattle.std.specs.Prelude.{◌≡◌, ◌&&◌, ◌+◌, ◌≤◌, ◌<◌, true, All, [], ◌∷◌, length, slice_range, sum};
ghost use Rattle.cov_model.specs.Fits.{FitsModel};
ghost use Rattle.cov_model.specs.believed.Rows.{is_complete};
ghost use Rattle.cov_model.specs.believed.Slices.{slice_of};
ghost use Rattle.cov_model.specs.believed.Valid.{is_valid};
ghost use Rattle.definitions.specs.believed.Demand.{demanded_sets, demanded_tuples, is_among};
ghost use Rattle.row_text.specs.RowFiles.{suite_seen};
ghost use Rattle.tuple_index.specs.Places.{IsOwnSlice, has_part, start_of};
ghost use Rattle.tuple_index.specs.Plan.{plan_of, set_at};
ghost use Rattle.shared_marks.specs.Adding.{Marks};
ghost use Rattle.shared_marks.specs.Digits.{AreDigits};
ghost use Rattle.shared_marks.specs.Served.{IsServedRank, base_of, is_served_at, served_between};

use crate::digits::{Digit, place_in_slice, put_digits};
use crate::seat::MarkSeat;
use crate::table::SharedMarks;
use cov_model::{Cells, ParamNo, Slice, TestModel};
use row_text::{RowFile, is_complete};
use tuple_index::Plan;

// The most parameters that a model has.
const MOST_PARAMS: usize = 256;

/// The number of demanded tuples of a plan. Takes no memory.
pub fn count_tuples(plan: &Plan) -> u32
    ensures { result ≡ sum plan.now.sizes }
{
    let sets = plan.set_count();
    if sets == 0 {
        return 0;
    }
    plan.base(sets - 1) + plan.size(sets - 1)
}

// Whether a row of a file is a test: it is complete and valid.
pub(crate) fn is_test(model: &TestModel, cells: &Cells) -> bool
    requires { FitsModel model.now cells.now }
    ensures { result ≡ (is_complete cells.now && is_valid model.now cells.now) }
{
    model.assert_invariant();
    is_complete(cells) && model.row_fault(cells).is_none()
}

// Whether a set has tuples in a slice.
fn is_part(members: &[ParamNo], slice: Slice) -> bool
    ensures { result ≡ has_part members.now slice }
{
    match slice {
        Slice::Positive => true,
        Slice::Negative(q, _) => is_member(members, q),
    }
}

// Whether a parameter is one of a set.
fn is_member(members: &[ParamNo], q: ParamNo) -> bool
    ensures { result ≡ is_among members.now q }
{
    members.iter().any(|p| *p == q)
}

// How many tuples of a set stand in the slices before.
fn first_rank(plan: &Plan, set: u32, slice: Slice) -> u32
    requires set { set < length plan.now.sets }
    requires own { IsOwnSlice plan.now slice }
    requires part { has_part (set_at plan.now set) slice ≡ true }
    ensures { result ≡ start_of plan.now (set_at plan.now set) slice }
{
    match slice {
        Slice::Positive => 0,
        Slice::Negative(_, _) => plan.slice_ranks(set, slice).0,
    }
}

// The rank of the tuple of a set that a valid row serves: the tuple of the row's own values, if the row's
// negative value is in it.
fn served_rank(
    model: &TestModel,
    plan: &Plan,
    set: u32,
    cells: &Cells,
    slice: Slice,
    digits: &[Digit],
) -> Option<u32>
    requires plan { plan.now ≡ plan_of model.now }
    requires set { set < length (demanded_sets model.now) }
    requires row { is_valid model.now cells.now ≡ true }
    requires slice { slice ≡ slice_of model.now cells.now }
    requires digits { AreDigits model.now cells.now digits.now }
    ensures { IsServedRank model.now (set_at (plan_of model.now) set) cells.now result }
{
    plan.assert_invariant();
    let members = plan.members(set);
    if !is_part(members, slice) {
        return None;
    }
    Some(first_rank(plan, set, slice) + place_in_slice(model, cells, members, digits))
}

// Marks the place of the demanded tuple of a set that a test serves, if there is one.
fn mark_set(
    table: &SharedMarks,
    seat: &mut MarkSeat,
    model: &TestModel,
    plan: &Plan,
    set: u32,
    cells: &Cells,
    slice: Slice,
    digits: &[Digit],
)
    requires table { seat.old.table ≡ table.now.table }
    requires plan { plan.now ≡ plan_of model.now }
    requires bits { table.now.bits ≡ length (demanded_tuples model.now) }
    requires set { set < length (demanded_sets model.now) }
    requires test { (is_complete cells.now && is_valid model.now cells.now) ≡ true }
    requires slice { slice ≡ slice_of model.now cells.now }
    requires digits { AreDigits model.now cells.now digits.now }
    ensures { Marks (served_between model.now (cells.now ∷ []) (base_of model.now set) (base_of model.now (set + 1))) seat.old seat.new }
{
    plan.assert_invariant();
    match served_rank(model, plan, set, cells, slice, digits) {
        Some(rank) => table.mark_lightly(seat, plan.base(set) + rank),
        None => {}
    }
}

// Marks the places of the demanded tuples that a test serves, of the sets from number `from` on.
fn mark_sets(
    table: &SharedMarks,
    seat: &mut MarkSeat,
    model: &TestModel,
    plan: &Plan,
    from: u32,
    cells: &Cells,
    slice: Slice,
    digits: &[Digit],
)
    requires table { seat.old.table ≡ table.now.table }
    requires plan { plan.now ≡ plan_of model.now }
    requires bits { table.now.bits ≡ length (demanded_tuples model.now) }
    requires from { from ≤ length (demanded_sets model.now) }
    requires test { (is_complete cells.now && is_valid model.now cells.now) ≡ true }
    requires slice { slice ≡ slice_of model.now cells.now }
    requires digits { AreDigits model.now cells.now digits.now }
    ensures { Marks (served_between model.now (cells.now ∷ []) (base_of model.now from) (length (demanded_tuples model.now))) seat.old seat.new }
{
    for set in from..plan.set_count() {
        mark_set(table, seat, model, plan, set, cells, slice, digits);
    }
}

// Marks the place of each demanded tuple that a row serves, if it is a test.
pub(crate) fn mark_row(
    table: &SharedMarks,
    seat: &mut MarkSeat,
    model: &TestModel,
    plan: &Plan,
    cells: &Cells,
)
    requires table { seat.old.table ≡ table.now.table }
    requires plan { plan.now ≡ plan_of model.now }
    requires bits { table.now.bits ≡ length (demanded_tuples model.now) }
    requires fits { FitsModel model.now cells.now }
    ensures { Marks (is_served_at model.now (cells.now ∷ [])) seat.old seat.new }
{
    if !is_test(model, cells) {
        return;
    }
    let slice = model.slice_of(cells);
    let mut digits = [Digit { place: 0, radix: 0 }; MOST_PARAMS];
    put_digits(model, plan, cells, slice, &mut digits);
    mark_sets(table, seat, model, plan, 0, cells, slice, &digits);
}

impl SharedMarks {
    /// Marks the place of each demanded tuple that some test serves of the rows from number `from` up to but
    /// not including `to`, counted from 0. A test is a complete and valid row, and the place of a tuple is
    /// the base of its set plus its rank. What the seat has seen, and its share, stay. The seat has to be of
    /// this table, which has a place for each demanded tuple; plan and file have to be the model's. Takes no
    /// memory.
    pub fn mark_served(
        &self,
        seat: &mut MarkSeat,
        model: &TestModel,
        plan: &Plan,
        file: &RowFile,
        from: u32,
        to: u32,
    )
        requires table { seat.old.table ≡ self.now.table }
        requires plan { plan.now ≡ plan_of model.now }
        requires bits { self.now.bits ≡ length (demanded_tuples model.now) }
        requires fits { All (λ row. FitsModel model.now row.cells) file.now.rows }
        requires ordered { from ≤ to }
        requires within { to ≤ length file.now.rows }
        ensures { Marks (is_served_at model.now (slice_range (suite_seen file.now) from to)) seat.old seat.new }
    {
        let part = &file.rows.as_slice()[from as usize..to as usize];
        for row in part {
            mark_row(self, seat, model, plan, &row.cells);
        }
    }
}
