//! The marks of what the rows of a file serve.

ghost use Rattle.std.specs.Prelude.{◌≤◌, ◌^◌, All, length};
ghost use Rattle.cov_model.specs.Fits.{FitsModel};

use crate::files::{RowValues, file_of};
use cov_model::TestModel;
use row_text::RowFile;
use shared_marks::{Bits, SharedMarks, count_tuples, mark_rows};
use std::alloc::Global;
use std::thread::Threads;
use test_models::model_of;
use tuple_index::Plan;
use worker_gate::Gate;

// The marks of the tuples that the rows of a file serve, by so many workers, who come to this gate; nothing where
// there are no workers or more than 64, or memory was refused.
fn marks_of_file<R: Threads + Sync, G: Gate + Sync>(
    rt: &R,
    alloc: Global,
    model: &TestModel,
    file: &RowFile,
    workers: u32,
    gate: &G,
) -> Option<Bits>
    requires fits { All (λ row. FitsModel model.now row.cells) file.now.rows }
    requires few { length file.now.rows ≤ 2 ^ 12 }
{
    if workers == 0 || workers > 64 {
        return None;
    }
    let Ok(plan) = Plan::new(alloc, model) else {
        return None;
    };
    match mark_rows(rt, alloc, model, &plan, file, workers, gate) {
        Ok(bits) => Some(bits),
        Err(_) => None,
    }
}

// The same for these rows; nothing too where one of them isn't of the model.
fn marks_of_rows<R: Threads + Sync, G: Gate + Sync>(
    rt: &R,
    alloc: Global,
    model: &TestModel,
    rows: &[RowValues],
    workers: u32,
    gate: &G,
) -> Option<Bits> {
    match file_of(alloc, model, rows) {
        Some(file) => marks_of_file(rt, alloc, model, &file, workers, gate),
        None => None,
    }
}

/// The same under the model of a text.
pub(crate) fn marks_of<R: Threads + Sync, G: Gate + Sync>(
    rt: &R,
    alloc: Global,
    text: &str,
    rows: &[RowValues],
    workers: u32,
    gate: &G,
) -> Option<Bits> {
    match model_of(alloc, text) {
        Ok(model) => marks_of_rows(rt, alloc, &model, rows, workers, gate),
        Err(_) => None,
    }
}

// The marks of the tuples that the rows of a file from one number up to another serve, put by one seat; nothing where
// there are no such rows, or memory was refused.
fn marks_of_part(
    alloc: Global,
    model: &TestModel,
    file: &RowFile,
    from: u32,
    to: u32,
) -> Option<Bits>
    requires { All (λ row. FitsModel model.now row.cells) file.now.rows }
{
    if from > to || to as usize > file.rows.len() {
        return None;
    }
    let Ok(plan) = Plan::new(alloc, model) else {
        return None;
    };
    let Ok((table, mut seat)) = SharedMarks::new(alloc, count_tuples(&plan)) else {
        return None;
    };
    table.mark_served(&mut seat, model, &plan, file, from, to);
    Some(table.close(seat))
}

/// The same for rows under the model of a text; nothing too where one of them isn't of the model.
pub(crate) fn marks_of_range(
    alloc: Global,
    text: &str,
    rows: &[RowValues],
    from: u32,
    to: u32,
) -> Option<Bits> {
    let Ok(model) = model_of(alloc, text) else {
        return None;
    };
    match file_of(alloc, &model, rows) {
        Some(file) => marks_of_part(alloc, &model, &file, from, to),
        None => None,
    }
}

// Whether the marks of so many places are those of these.
fn are_places(bits: &Bits, count: u32, places: &[u32]) -> bool {
    if bits.len() != count {
        return false;
    }
    for place in 0..bits.len() {
        if bits.has(place) != places.contains(&place) {
            return false;
        }
    }
    true
}

/// The same where there are marks.
pub(crate) fn are_marked(marks: Option<Bits>, count: u32, places: &[u32]) -> bool {
    match marks {
        Some(bits) => are_places(&bits, count, places),
        None => false,
    }
}
