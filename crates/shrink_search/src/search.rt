ghost use Rattle.std.specs.Prelude.{All, IfOk};
ghost use Rattle.cov_model.specs.Fits.{FitsModel};
ghost use Rattle.shrink_search.specs.Fewer.{AreFewer};

use crate::best::BestRows;
use crate::completer::Completer;
use crate::forcing::ForcedRow;
use crate::found::{FewerRows, FoundRows};
use crate::rules::RowRules;
use crate::seeds::{fix_seeds, holders};
use crate::slice_rows::{SliceRows, by_slice};
use crate::slice_search::SliceSearch;
use crate::spreading::spread_slice;
use crate::suite::Suite;
use crate::task::Task;
use crate::tuples::SliceTuples;
use crate::values::SliceValues;
use crate::words::Words;
use cov_model::{Cells, ParamNo, Rows, Slice, TestModel, ValueNo};
use std::alloc::Global;
use tuple_index::Plan;
use value_text::NoMemory;

// The most rows of a slice among which is searched: a number of rows and two more have 16 bits.
pub(crate) const MOST_ROWS: usize = 65_533;

/// How long is searched, and by which random words.
#[derive(Debug, Drop, Clone, Copy, PartialEq, Eq)]
pub struct SearchOpts {
    /// How many moves are tried for each number of rows.
    pub rounds: u64,
    /// The number of the random words, which are those of `Lcg64Xsh32::new(random, 2)`.
    pub random: u64,
    /// Whether values that can change without a loss are drawn anew, once no shorter suite is looked for.
    pub spread: bool,
}

/// Searches for fewer rows that serve the demanded tuples which the given rows serve (tabu search by single values).
/// The given rows have to fit the model; shorter suites are found where they are complete, valid and distinct. Each
/// row of the answer fits the model and stands for a given row, and they are in the order of the given rows. The first
/// given row that contains a seed row stays, and keeps the values that the seed row gives. Plan and seeds have to be
/// the model's. The answer is a function of the arguments and of what the completer answers.
///
/// # Errors
///
/// `NoMemory` where memory is refused.
pub fn search_fewer<C: Completer>(
    alloc: Global,
    model: &TestModel,
    plan: &Plan,
    rows: &Rows,
    seeds: &Rows,
    opts: &SearchOpts,
    completer: &mut C,
) -> Result<FewerRows, NoMemory>
    requires fits { All (FitsModel model.now) rows.now }
    ensures { IfOk result (λ fewer. AreFewer model.now rows.now fewer.numbers.items fewer.rows) }
{
    let holders = holders(alloc, rows, seeds)?;
    let slices = slices_of(alloc, model, rows)?;
    let groups = by_slice(alloc, slices.as_slice())?;
    let mut found = FoundRows::new(alloc, model.params().len(), rows.len())?;
    let task = Task {
        model,
        plan,
        rows,
        seeds,
        holders: holders.as_slice(),
        opts: *opts,
    };
    let mut words = Words::new(opts.random);
    search_slices(
        alloc,
        task,
        groups.as_slice(),
        &mut words,
        completer,
        &mut found,
    )?;
    if opts.spread {
        spread_slices(alloc, task, groups.as_slice(), &mut words, &mut found)?;
    }
    found.list(alloc, model, rows)
}

// The slice of each row.
fn slices_of(alloc: Global, model: &TestModel, rows: &Rows) -> Result<Vec<Slice>, NoMemory>
    requires fits { All (FitsModel model.now) rows.now }
{
    let mut slices = Vec::with_capacity(alloc, rows.len())?;
    let mut room = Cells::empty(alloc, model.params().len())?;
    for number in 0..rows.len() {
        room.copy_from_slice(rows.row(number));
        slices.push(model.slice_of(&room))?;
    }
    Ok(slices)
}

// Searches in each slice.
fn search_slices<C: Completer>(
    alloc: Global,
    task: Task<'_>,
    groups: &[SliceRows],
    words: &mut Words,
    completer: &mut C,
    found: &mut FoundRows,
) -> Result<(), NoMemory> {
    for group in groups {
        completer.enter(group.slice)?;
        search_slice(alloc, task, group, words, completer, found)?;
    }
    Ok(())
}

// Spreads the values of the rows that were found in each slice.
fn spread_slices(
    alloc: Global,
    task: Task<'_>,
    groups: &[SliceRows],
    words: &mut Words,
    found: &mut FoundRows,
) -> Result<(), NoMemory> {
    for group in groups {
        spread_slice(alloc, task, group, words, found)?;
    }
    Ok(())
}

// Searches in a slice.
fn search_slice<C: Completer>(
    alloc: Global,
    task: Task<'_>,
    group: &SliceRows,
    words: &mut Words,
    completer: &mut C,
    found: &mut FoundRows,
) -> Result<(), NoMemory> {
    let params = task.model.params().len();
    let numbers = group.numbers.as_slice();
    let values = SliceValues::new(alloc, task.model, group.slice)?;
    let tuples = SliceTuples::new(alloc, task.plan, group.slice, &values, params)?;
    let best = search_tuples(alloc, task, &values, &tuples, numbers, words, completer)?;
    put_found(&best, &values, params, found);
    Ok(())
}

// The fewest rows that were found for the tuples of a slice.
fn search_tuples<C: Completer>(
    alloc: Global,
    task: Task<'_>,
    values: &SliceValues,
    tuples: &SliceTuples,
    numbers: &[u32],
    words: &mut Words,
    completer: &mut C,
) -> Result<BestRows, NoMemory> {
    let params = task.model.params().len();
    let mut best = BestRows::new(alloc, params, numbers.len())?;
    let forced = ForcedRow::new(alloc, params)?;
    let rules = RowRules::new(alloc, task.model)?;
    let mut suite = Suite::new(alloc, tuples, params, numbers.len(), task.seeds.len() > 0)?;
    put_rows(task, numbers, values, &mut suite);
    fix_seeds(task, numbers, &mut suite);
    suite.keep(&mut best);
    if numbers.len() > MOST_ROWS {
        return Ok(best);
    }
    let least = suite.begin().max(suite.held_count()).max(1);
    let mut search = SliceSearch {
        tuples,
        values,
        suite,
        rules,
        forced,
        targets: Vec::new(alloc),
        last: None,
        moves: 0,
    };
    search.run(task.opts.rounds, least, words, completer, &mut best)?;
    Ok(best)
}

// Puts the given rows of a slice into a suite.
fn put_rows(task: Task<'_>, numbers: &[u32], values: &SliceValues, suite: &mut Suite<'_>) {
    for number in numbers {
        let at = *number as usize;
        if at < task.rows.len() {
            let row = suite.count();
            suite.push(*number);
            put_row(task.rows.row(at), row, values, suite);
        }
    }
}

// Puts the digits of a row.
fn put_row(cells: &[Option<ValueNo>], row: usize, values: &SliceValues, suite: &mut Suite<'_>) {
    let mut p: ParamNo = 0;
    for cell in cells {
        if let Some(v) = cell {
            if let Some(digit) = values.digit(p, *v) {
                suite.put(p, row, digit);
            }
        }
        p = p.saturating_add(1);
    }
}

// Puts the rows that were found.
fn put_found(best: &BestRows, values: &SliceValues, params: usize, found: &mut FoundRows) {
    for row in 0..best.count() {
        let number = best.origin(row);
        found.keep(number);
        for p in 0..params.min(ParamNo::MAX as usize) as ParamNo {
            if let Some(v) = values.value(p, best.digit(p as usize, row)) {
                found.put(number, p, v);
            }
        }
    }
}
