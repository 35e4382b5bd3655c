ghost use Rattle.std.specs.Prelude.{◌≡◌, ◌<◌, ◌^◌, ◌++◌, ◌∷◌, [], ◌&&◌, true, not, is_some, map, length, if◌then◌else◌, All, IfOk, IfSome, OnOk};
ghost use Rattle.std.specs.List.{filter, list_any};
ghost use Rattle.cov_model.specs.Fits.{FitsModel};
ghost use Rattle.cov_model.specs.believed.Meaning.{given_value};
ghost use Rattle.cov_model.specs.Preference.{OrdersValues};
ghost use Rattle.cov_model.specs.believed.Rows.{is_assigned};
ghost use Rattle.cov_model.specs.believed.Valid.{negatives};
ghost use Rattle.definitions.specs.believed.Completion.{can_be_served, has_slice};
ghost use Rattle.definitions.specs.believed.Search.{first_over};
ghost use Rattle.definitions.specs.believed.Seeds.{asked_seeds, dropped_lines, kept_seeds, seed_rows};
ghost use Rattle.definitions.specs.believed.Growth.{is_of_slice};
ghost use Rattle.definitions.specs.SliceRows.{IsSliceOf};
ghost use Rattle.row_text.specs.RowFiles.{row_seen, seeds_seen};
ghost use Rattle.ipog_grow.specs.Rows.{with_row, with_seed};
ghost use Rattle.ipog_grow.specs.SeedQuestions.{AreQuestionsFor};
ghost use Rattle.feasibility.specs.Ends.{Ends};

use crate::distinct::RowSet;
use crate::suite::LineList;
use cov_model::{Cells, ParamNo, Prefs, Rows, Slice, TestModel};
use definitions::Effort;
use feasibility::{Answer, SearchFault, over_budget};
use full_search::Questions;
use row_text::{FileRow, FileRowList, RowFile};
use std::alloc::Global;
use value_text::NoMemory;

// The seed rows, split: those that are kept, and the lines of those that aren't.
#[derive(Drop)]
pub(crate) struct SplitSeeds {
    pub(crate) kept: Rows,
    pub(crate) dropped: LineList,
}

// Questions, and the slice that they are about.
struct SeedQuestions<'a> {
    slice: Slice,
    questions: Questions<'a>,
}

// The questions are dropped here, and not anew wherever the seeds may end.
impl Drop for SeedQuestions<'_> {
    fn drop(self) {
        let SeedQuestions {
            slice: _,
            questions: _,
        } = self;
    }
}

// Whether a partial row gives no parameter a value.
fn is_blank(cells: &Cells) -> bool
    requires { length cells.now < 2 ^ 16 }
    ensures { result ≡ not (list_any is_some cells.now) }
{
    let count = cells.len() as ParamNo;
    for p in 0..count {
        if cells.get(p).is_some() {
            return false;
        }
    }
    true
}

// Whether a partial row gives a parameter a negative value.
fn is_negative(model: &TestModel, p: ParamNo, cells: &Cells) -> bool
    requires parameter { p < length model.now.params }
    requires fits { FitsModel model.now cells.now }
    ensures { result ≡ (is_assigned cells.now p && (given_value model.now cells.now p).negative) }
{
    match cells.get(p) {
        Some(v) => {
            let param = &model.params().as_slice()[p as usize];
            param.values.as_slice()[v as usize].negative
        }
        None => false,
    }
}

// Whether at most one value of a partial row is negative.
fn is_of_some_slice(model: &TestModel, cells: &Cells) -> bool
    requires { FitsModel model.now cells.now }
    ensures { result ≡ has_slice model.now cells.now }
{
    let count = model.params().len() as ParamNo;
    let mut found: u32 = 0;
    for p in 0..count {
        if is_negative(model, p, cells) {
            found += 1;
        }
    }
    found <= 1
}

// Puts a seed row behind others, unless it gives no value or an earlier one is the same.
fn add_seed(
    alloc: Global,
    seed: &FileRow,
    known: &mut RowSet,
    list: &mut FileRowList,
) -> Result<(), NoMemory>
    requires short { length seed.now.cells < 2 ^ 16 }
    requires same { All (λ other. length other ≡ length seed.now.cells) known.old }
    ensures known { OnOk result (known.new ≡ with_row known.old seed.now.cells) }
    ensures list { OnOk result (map row_seen list.new ≡ with_seed known.old (map row_seen list.old) (row_seen seed.now)) }
    ensures long { OnOk result (All (λ other. length other ≡ length seed.now.cells) known.new) }
{
    if !known.add(alloc, seed.cells.as_slice())? {
        return Ok(());
    }
    if is_blank(&seed.cells) {
        return Ok(());
    }
    let cells = seed.cells.copy(alloc)?;
    list.push(FileRow {
        line: seed.line,
        cells,
    })
}

// The distinct seed rows that give some parameter a value, each by its first occurrence.
fn distinct_seeds(
    alloc: Global,
    model: &TestModel,
    seeds: &[FileRow],
) -> Result<FileRowList, NoMemory>
    requires { All (λ seed. FitsModel model.now seed.cells) seeds.now }
    ensures seeds { IfOk result (λ list. map row_seen list ≡ seed_rows (map row_seen seeds.now)) }
    ensures fit { IfOk result (λ list. All (λ seed. FitsModel model.now seed.cells) list) }
{
    model.assert_invariant();
    let mut known = RowSet::new(alloc);
    let mut list = FileRowList::new(alloc);
    for seed in seeds {
        add_seed(alloc, seed, &mut known, &mut list)?;
    }
    Ok(list)
}

// The questions about a slice: the last ones, if they are about this slice, else new ones.
fn questions_of<'a>(
    alloc: Global,
    model: &'a TestModel,
    prefs: &'a Prefs,
    slice: Slice,
    effort: Effort,
    last: Option<SeedQuestions<'a>>,
) -> Result<SeedQuestions<'a>, NoMemory>
    requires slice { IsSliceOf model.now slice }
    requires orders { OrdersValues model.now prefs.now }
    requires last { IfSome last (AreQuestionsFor model.now prefs.now effort) }
    ensures slice { IfOk result (λ one. one.slice ≡ slice) }
    ensures questions { IfOk result (AreQuestionsFor model.now prefs.now effort) }
{
    if let Some(one) = last {
        if one.slice == slice {
            return Ok(one);
        }
    }
    let questions = Questions::new(alloc, model, prefs, slice, effort)?;
    Ok(SeedQuestions { slice, questions })
}

// Whether a seed row is kept: at most one value is negative, and the row is extendable. It is asked by the
// last questions, or by new ones, which are the last then.
fn is_kept<'a>(
    alloc: Global,
    model: &'a TestModel,
    prefs: &'a Prefs,
    cells: &Cells,
    effort: Effort,
    last: &mut Option<SeedQuestions<'a>>,
) -> Result<bool, SearchFault>
    requires fits { FitsModel model.now cells.now }
    requires orders { OrdersValues model.now prefs.now }
    requires last { IfSome last.old (AreQuestionsFor model.now prefs.now effort) }
    ensures last { IfSome last.new (AreQuestionsFor model.now prefs.now effort) }
    ensures kept { IfOk result (λ kept. kept ≡ can_be_served model.now cells.now) }
    ensures asked { Ends result (first_over model.now prefs.now effort (filter (has_slice model.now) (cells.now ∷ []))) }
{
    model.assert_invariant();
    if !is_of_some_slice(model, cells) {
        return Ok(false);
    }
    let slice = model.slice_of(cells);
    let Ok(mut one) = questions_of(alloc, model, prefs, slice, effort, last.take()) else {
        return Err(SearchFault::NoMemory);
    };
    let answer = one.questions.ask(cells);
    *last = Some(one);
    match answer {
        Answer::Yes => Ok(true),
        Answer::No => Ok(false),
        Answer::Spent => Err(over_budget(alloc, cells)),
    }
}

// Puts a seed row behind those that are kept, or its line behind those of the others.
fn place_seed<'a>(
    alloc: Global,
    model: &'a TestModel,
    prefs: &'a Prefs,
    seed: &FileRow,
    effort: Effort,
    last: &mut Option<SeedQuestions<'a>>,
    split: &mut SplitSeeds,
) -> Result<(), SearchFault>
    requires fits { FitsModel model.now seed.now.cells }
    requires orders { OrdersValues model.now prefs.now }
    requires last { IfSome last.old (AreQuestionsFor model.now prefs.now effort) }
    requires long { All (λ row. length row ≡ length model.now.params) split.old.kept }
    ensures last { IfSome last.new (AreQuestionsFor model.now prefs.now effort) }
    ensures kept { OnOk result (split.new.kept ≡ split.old.kept ++ filter (can_be_served model.now) (seed.now.cells ∷ [])) }
    ensures dropped { OnOk result (split.new.dropped ≡ split.old.dropped ++ (if can_be_served model.now seed.now.cells then [] else seed.now.line ∷ [])) }
    ensures asked { Ends result (first_over model.now prefs.now effort (filter (has_slice model.now) (seed.now.cells ∷ []))) }
{
    if !is_kept(alloc, model, prefs, &seed.cells, effort, last)? {
        return match split.dropped.push(seed.line) {
            Ok(()) => Ok(()),
            Err(_) => Err(SearchFault::NoMemory),
        };
    }
    match split.kept.push(seed.cells.as_slice()) {
        Ok(()) => Ok(()),
        Err(_) => Err(SearchFault::NoMemory),
    }
}

// Asks of each of these seed rows, in order, whether it is kept.
fn split_each(
    alloc: Global,
    model: &TestModel,
    prefs: &Prefs,
    seeds: &[FileRow],
    effort: Effort,
) -> Result<SplitSeeds, SearchFault>
    requires fits { All (λ seed. FitsModel model.now seed.cells) seeds.now }
    requires orders { OrdersValues model.now prefs.now }
    ensures kept { IfOk result (λ split. split.kept ≡ filter (can_be_served model.now) (map (λ seed. seed.1) (map row_seen seeds.now))) }
    ensures dropped { IfOk result (λ split. split.dropped ≡ map (λ seed. seed.0) (filter (λ seed. not (can_be_served model.now seed.1)) (map row_seen seeds.now))) }
    ensures asked { Ends result (first_over model.now prefs.now effort (filter (has_slice model.now) (map (λ seed. seed.1) (map row_seen seeds.now)))) }
{
    let mut split = SplitSeeds {
        kept: Rows::new(alloc),
        dropped: LineList::new(alloc),
    };
    let mut last = None;
    for seed in seeds {
        place_seed(alloc, model, prefs, seed, effort, &mut last, &mut split)?;
    }
    Ok(split)
}

// Asks of each seed row of a file that counts, in order, whether it is kept.
pub(crate) fn split_seeds(
    alloc: Global,
    model: &TestModel,
    prefs: &Prefs,
    seeds: &RowFile,
    effort: Effort,
) -> Result<SplitSeeds, SearchFault>
    requires fits { All (λ seed. FitsModel model.now seed.cells) seeds.now.rows }
    requires orders { OrdersValues model.now prefs.now }
    ensures kept { IfOk result (λ split. split.kept ≡ kept_seeds model.now (seeds_seen seeds.now)) }
    ensures dropped { IfOk result (λ split. split.dropped ≡ dropped_lines model.now (seeds_seen seeds.now)) }
    ensures asked { Ends result (first_over model.now prefs.now effort (asked_seeds model.now (seeds_seen seeds.now))) }
{
    let Ok(distinct) = distinct_seeds(alloc, model, seeds.rows.as_slice()) else {
        return Err(SearchFault::NoMemory);
    };
    split_each(alloc, model, prefs, distinct.as_slice(), effort)
}

// Copies of the kept seeds of a slice, in order.
pub(crate) fn seeds_of_slice(
    alloc: Global,
    model: &TestModel,
    kept: &Rows,
    slice: Slice,
) -> Result<Rows, NoMemory>
    requires fit { All (FitsModel model.now) kept.now }
    requires few { All (λ seed. has_slice model.now seed ≡ true) kept.now }
    ensures { IfOk result (λ rows. rows ≡ filter (is_of_slice model.now slice) kept.now) }
{
    let mut rows = Rows::new(alloc);
    let mut seed = Cells::empty(alloc, model.params().len())?;
    for i in 0..kept.len() {
        seed.copy_from_slice(kept.row(i));
        if model.slice_of(&seed) == slice {
            rows.push(seed.as_slice())?;
        }
    }
    Ok(rows)
}
