ghost use Rattle.std.specs.Prelude.{◌≡◌, ◌<◌, ◌≤◌, ◌^◌, ◌+◌, ◌%◌, ℕ, List, [], All, Option, Some, None, IfOk};
ghost use Rattle.std.specs.Prelude.{IfSome, MatchOption, find, length, map, not, option_map, slice_get, slice_index_or, sum, take};
ghost use Rattle.cov_model.specs.Fits.{FitsModel};
ghost use Rattle.cov_model.specs.believed.Valid.{is_valid};
ghost use Rattle.definitions.specs.believed.Demand.{demanded_tuples, tuples_of};
ghost use Rattle.definitions.specs.believed.Pairs.{pairs_of};
ghost use Rattle.definitions.specs.believed.Verdict.{first_uncovered};
ghost use Rattle.refutation.specs.Checking.{AreOfModel};
ghost use Rattle.refutation.specs.Reading.{omissions_meant};
ghost use Rattle.row_text.specs.RowFiles.{suite_seen};
ghost use Rattle.tuple_index.specs.Places.{RisesFrom};
ghost use Rattle.tuple_index.specs.Plan.{plan_of, set_at};
ghost use Rattle.proof_check.specs.Left.{AreUnservedFrom, IsFirstLeft, IsPlaceOf, NoneLeft, pairs_with};

use crate::listed::mark_unlisted;
use crate::workers::Workers;
use bit_table::BitTable;
use cov_model::{ParamNo, TestModel, Tuple, ValueNo};
use refutation::Omissions;
use row_text::RowFile;
use shared_marks::{Bits, mark_rows};
use std::alloc::Global;
use std::thread::Threads;
use tuple_index::Plan;
use value_text::NoMemory;
use worker_gate::Gate;

// The number of places that a word tells of.
const WORD_BITS: u32 = 64;

// Which of the `count` places from `from` on are left and not served, as the lowest bits of a word.
fn unserved_from(left: &BitTable, served: &Bits, from: u32, count: u32) -> u64
    requires long { length served.now ≡ length left.now }
    requires aligned { from % 64 ≡ 0 }
    requires some { 0 < count }
    requires few { count ≤ 64 }
    requires within { from + count ≤ length left.now }
    ensures { AreUnservedFrom left.now served.now from count result }
{
    left.marks_from(from, count) & !served.marks_from(from, count)
}

// The first place that is left and not served.
fn first_place(left: &BitTable, served: &Bits) -> Option<u32>
    requires { length served.now ≡ length left.now }
    ensures { MatchOption result (NoneLeft left.now served.now (length left.now)) (IsFirstLeft left.now served.now) }
{
    let end = left.len();
    let mut from = 0;
    while from < end {
        let count = WORD_BITS.min(end - from);
        let unserved = unserved_from(left, served, from, count);
        if unserved != 0 {
            return Some(from + unserved.trailing_zeros());
        }
        from += count;
    }
    None
}

// The set of the demanded tuple at a place.
fn set_holding(plan: &Plan, place: u32) -> u32
    requires { place < sum plan.now.sizes }
    ensures exists { result < length plan.now.sets }
    ensures low { sum (take result plan.now.sizes) ≤ place }
    ensures high { place < sum (take result plan.now.sizes) + slice_index_or plan.now.sizes result 0 }
{
    for set in 0..plan.set_count() {
        if place - plan.base(set) < plan.size(set) {
            return set;
        }
    }
    unreachable!()
}

// The tuple that gives the members of a set these values.
fn tuple_of(alloc: Global, members: &[ParamNo], values: &[ValueNo]) -> Result<Tuple, NoMemory>
    requires rising { RisesFrom 0 256 members.now }
    requires as_long { length values.now ≡ length members.now }
    ensures { IfOk result (λ tuple. tuple ≡ pairs_with members.now values.now) }
{
    let mut pairs = Vec::new(alloc);
    for (i, p) in members.iter().enumerate() {
        pairs.push((*p, values[i]))?;
    }
    Tuple::of(alloc, &pairs)
}

// The demanded tuple of a set that has this rank. There is room for its values.
fn tuple_in(
    alloc: Global,
    model: &TestModel,
    plan: &Plan,
    set: u32,
    rank: u32,
    values: &mut [ValueNo],
) -> Result<Tuple, NoMemory>
    requires plan { plan.now ≡ plan_of model.now }
    requires set { set < length plan.now.sets }
    requires rank { rank < slice_index_or plan.now.sizes set 0 }
    requires room { length values.old ≡ length (set_at plan.now set) }
    ensures { IfOk result (λ tuple. (cells : List (Option ℕ)) → slice_get (tuples_of model.now (set_at plan.now set)) rank ≡ Some cells
        → tuple ≡ pairs_of cells) }
{
    model.assert_invariant();
    plan.assert_invariant();
    plan.unrank(set, rank, values);
    tuple_of(alloc, plan.members(set), values)
}

// The demanded tuple at a place.
fn tuple_at(alloc: Global, model: &TestModel, plan: &Plan, place: u32) -> Result<Tuple, NoMemory>
    requires plan { plan.now ≡ plan_of model.now }
    requires place { place < length (demanded_tuples model.now) }
    ensures { IfOk result (λ tuple. tuple ≡ pairs_of (slice_index_or (demanded_tuples model.now) place [])) }
{
    plan.assert_invariant();
    let set = set_holding(plan, place);
    let mut values = vec![in alloc; 0; plan.members(set).len()]?;
    let rank = place - plan.base(set);
    tuple_in(alloc, model, plan, set, rank, values.as_mut_slice())
}

// The same at a place, if there is one.
fn tuple_if_any(
    alloc: Global,
    model: &TestModel,
    plan: &Plan,
    found: Option<u32>,
) -> Result<Option<Tuple>, NoMemory>
    requires plan { plan.now ≡ plan_of model.now }
    requires place { IfSome found (λ place. place < length (demanded_tuples model.now)) }
    ensures { IfOk result (λ tuple. tuple ≡ option_map (λ place. pairs_of (slice_index_or (demanded_tuples model.now) place [])) found) }
{
    match found {
        Some(place) => Ok(Some(tuple_at(alloc, model, plan, place)?)),
        None => Ok(None),
    }
}

// The first demanded tuple that no row of a file serves and no omission of a proof lists, by the order of the
// demanded tuples. Each row is marked once, by these workers, and each omission is looked up once: no tuple is
// compared with each of them.
pub(crate) fn first_uncovered<R: Threads + Sync, G: Gate + Sync>(
    workers: &Workers<'_, R, G>,
    alloc: Global,
    model: &TestModel,
    plan: &Plan,
    file: &RowFile,
    proof: &Omissions,
) -> Result<Option<Tuple>, NoMemory>
    requires plan { plan.now ≡ plan_of model.now }
    requires fits { All (λ row. FitsModel model.now row.cells) file.now.rows }
    requires few { length file.now.rows ≤ 2 ^ 20 }
    requires valid { find (λ row. not (is_valid model.now row)) (suite_seen file.now) ≡ None }
    requires of_model { All (λ omission. AreOfModel model.now omission.tuple) proof.now.omissions }
    ensures { IfOk result (λ found. found ≡ option_map pairs_of (first_uncovered model.now (suite_seen file.now) (omissions_meant proof.now.omissions))) }
{
    let left = mark_unlisted(alloc, model, plan, proof)?;
    let served = mark_rows(
        workers.rt,
        alloc,
        model,
        plan,
        file,
        workers.count,
        workers.gate,
    )?;
    tuple_if_any(alloc, model, plan, first_place(&left, &served))
}
