//! Workers who score the values of a column at the same time.

ghost use Rattle.std.specs.Prelude.{◌≡◌, length};
ghost use Rattle.tuple_index.specs.Plan.{plan_of};

use cov_model::{Cells, Slice, TestModel};
use scoring::score_all;
use std::alloc::Global;
use std::thread::Threads;
use test_models::{Counting, Meeting, WORKERS, is_positive_row, model_of};
use tuple_index::Plan;
use uncovered_table::Uncovered;
use worker_gate::Gate;

// Closes the row of the first values of A, B and C in column C.
fn close_first(model: &TestModel, table: &mut Uncovered, row: &mut Cells) -> bool
    requires model { table.old.model ≡ model.now }
    requires slice { table.old.slice ≡ Slice.Positive }
    requires row { length row.old ≡ 3 }
    ensures model { table.new.model ≡ model.now }
    ensures slice { table.new.slice ≡ Slice.Positive }
    ensures row { length row.new ≡ 3 }
{
    row.set_cell(0, 0);
    row.set_cell(1, 0);
    row.set_cell(2, 0);
    if model.params().len() != 3 || !is_positive_row(model, row) {
        return false;
    }
    table.close_row(row, 2);
    true
}

// The scores that so many workers give who come to this gate: those of the values of C in the row with the second
// value of B; nothing where there are no workers or more than 64.
fn scores_of<R: Threads + Sync, G: Gate + Sync>(
    rt: &R,
    model: &TestModel,
    table: &Uncovered,
    row: &mut Cells,
    workers: u32,
    gate: &G,
) -> Option<[u32; 2]>
    requires model { table.now.model ≡ model.now }
    requires slice { table.now.slice ≡ Slice.Positive }
    requires row { length row.old ≡ 3 }
{
    row.set_cell(1, 1);
    row.clear_cell(2);
    if model.params().len() != 3 || model.value_count(2) != 2 || !is_positive_row(model, row) {
        return None;
    }
    if workers == 0 || workers > 64 {
        return None;
    }
    let mut scores = [0, 0];
    score_all(rt, table, row, 2, &mut scores, workers, gate);
    Some(scores)
}

// The scores that they give once the first row is closed; nothing where memory was refused.
fn scores_in<R: Threads + Sync, G: Gate + Sync>(
    rt: &R,
    alloc: Global,
    model: &TestModel,
    table: &mut Uncovered,
    workers: u32,
    gate: &G,
) -> Option<[u32; 2]>
    requires model { table.old.model ≡ model.now }
    requires slice { table.old.slice ≡ Slice.Positive }
{
    let Ok(mut row) = Cells::empty(alloc, 3) else {
        return None;
    };
    if close_first(model, table, &mut row) {
        scores_of(rt, model, table, &mut row, workers, gate)
    } else {
        None
    }
}

// The same for a table in which all is open.
fn scores_at<R: Threads + Sync, G: Gate + Sync>(
    rt: &R,
    alloc: Global,
    model: &TestModel,
    plan: &Plan,
    workers: u32,
    gate: &G,
) -> Option<[u32; 2]>
    requires { plan.now ≡ plan_of model.now }
{
    match Uncovered::new(alloc, model, plan, Slice::Positive) {
        Ok(mut table) => scores_in(rt, alloc, model, &mut table, workers, gate),
        Err(_) => None,
    }
}

// The same for the plan of the model.
fn scores_of_model<R: Threads + Sync, G: Gate + Sync>(
    rt: &R,
    alloc: Global,
    model: &TestModel,
    workers: u32,
    gate: &G,
) -> Option<[u32; 2]> {
    match Plan::new(alloc, model) {
        Ok(plan) => scores_at(rt, alloc, model, &plan, workers, gate),
        Err(_) => None,
    }
}

// The same for a model of three parameters.
fn scores<R: Threads + Sync, G: Gate + Sync>(
    rt: &R,
    alloc: Global,
    workers: u32,
    gate: &G,
) -> Option<[u32; 2]> {
    match model_of(alloc, "A: 1, 2\nB: x, y\nC: u, v\n") {
        Ok(model) => scores_of_model(rt, alloc, &model, workers, gate),
        Err(_) => None,
    }
}

// The second row gains one tuple by the first value of C, and two by the second one. Each is scored by a
// worker of its own while the other is at work.
#[test]
fn two_workers_meet(rt: HostRuntime) {
    let gate = Meeting::new();
    assert!(rt; scores(&rt, rt.alloc(), 2, &gate) == Some([1, 2]));
    assert!(rt; gate.has_met());
}

// One worker scores both values, each of two scores one, and of more some score none.
#[test]
fn each_worker_comes_once(rt: HostRuntime) {
    for workers in WORKERS {
        let gate = Counting::new();
        let scores = scores(&rt, rt.alloc(), *workers, &gate);
        assert!(rt; scores == Some([1, 2]), "{workers}");
        assert!(rt; gate.has_each_once(*workers), "{workers}");
    }
}
