ghost use Rattle.std.specs.Prelude.{◌≡◌, true, All, IfOk};
ghost use Rattle.cov_model.specs.Preference.{OrdersValues};
ghost use Rattle.cov_model.specs.believed.Valid.{is_valid};
ghost use Rattle.shorter_suites.specs.believed.Bounds.{least_needed};
ghost use Rattle.shorter_suites.specs.believed.Shrinking.{IsShrunk};
ghost use Rattle.shrink_search.specs.Fewer.{AreFewer};
ghost use Rattle.tuple_index.specs.Plan.{plan_of};

use crate::accepting::is_shrunk;
use crate::first_rows::{first_rows, given_numbers};
use crate::least::least_needed;
use crate::planned_model::PlannedModel;
use crate::served::marks_of;
use cov_model::Rows;
use definitions::Effort;
use row_completer::RowCompleter;
use shrink_search::{FewerRows, SearchOpts, search_fewer};
use std::alloc::Global;
use value_text::NoMemory;

/// How long is searched, by which random words, and what a question to the search for valid rows may cost.
#[derive(Debug, Drop, Clone, Copy, PartialEq, Eq)]
pub struct ShrinkOpts {
    /// The number of the random words.
    pub random: u64,
    /// How many moves are tried for each number of rows.
    pub rounds: u64,
    /// Whether cells whose change would lose no combination take other values, once no shorter suite is looked for.
    pub spread: bool,
    /// What one question may cost. Where a question costs more, a move isn't made.
    pub effort: Effort,
}

/// Fewer rows, each in place of a given row.
#[derive(Drop)]
pub struct Shrunk {
    /// The rows.
    pub rows: Rows,
    /// The numbers of the given rows in whose places they are, counted from 0, rising.
    pub numbers: Vec<usize>,
    /// How many rows any suite needs that serves what the given rows serve.
    pub least: u64,
    /// Whether the rows are those that the search proposed. Else the comparison refused these, and the
    /// rows are the distinct ones of the given rows.
    pub proposed: bool,
}

impl Shrunk {
    fn new(fewer: FewerRows, least: u64, proposed: bool) -> Shrunk
        ensures rows { result.rows ≡ fewer.rows }
        ensures numbers { result.numbers.items ≡ fewer.numbers.items }
        ensures least { result.least ≡ least }
    {
        let FewerRows { numbers, rows } = fewer;
        Shrunk {
            rows,
            numbers,
            least,
            proposed,
        }
    }
}

// What the search proposes in place of the given rows, of which these are the distinct ones.
fn propose(
    alloc: Global,
    of: &PlannedModel<'_>,
    given: &Rows,
    first: &FewerRows,
    seeds: &Rows,
    opts: &ShrinkOpts,
) -> Result<FewerRows, NoMemory>
    requires orders { OrdersValues of.now.model.now of.now.prefs.now }
    requires first { AreFewer of.now.model.now given.now first.now.numbers.items first.now.rows }
    ensures { IfOk result (λ found.
        AreFewer of.now.model.now given.now found.numbers.items found.rows) }
{
    let _ = given;
    let mut completer = RowCompleter::new(alloc, of.model, of.prefs, opts.effort);
    let search = SearchOpts {
        rounds: opts.rounds,
        random: opts.random,
        spread: opts.spread,
    };
    let found = search_fewer(
        alloc,
        of.model,
        of.plan,
        &first.rows,
        seeds,
        &search,
        &mut completer,
    )?;
    let numbers = given_numbers(alloc, first.numbers.as_slice(), found.numbers.as_slice())?;
    Ok(FewerRows {
        numbers,
        rows: found.rows,
    })
}

/// At most as many rows as are given, each valid and no two the same, which serve each demanded tuple
/// that the given rows serve; each seed row that a given row contains is contained in one of them
/// (this project's rule). The given rows have to be valid; plan and preference orders have to be the
/// model's. The result is a function of the arguments.
///
/// # Errors
///
/// `NoMemory` where memory is refused.
pub fn shrink(
    alloc: Global,
    of: &PlannedModel<'_>,
    given: &Rows,
    seeds: &Rows,
    opts: &ShrinkOpts,
) -> Result<Shrunk, NoMemory>
    requires plan { of.now.plan.now ≡ plan_of of.now.model.now }
    requires orders { OrdersValues of.now.model.now of.now.prefs.now }
    requires valid { All (λ row. is_valid of.now.model.now row ≡ true) given.now }
    ensures shrunk { IfOk result (λ shrunk.
        IsShrunk of.now.model.now given.now seeds.now shrunk.rows) }
    ensures least { IfOk result (λ shrunk.
        shrunk.least ≡ least_needed of.now.model.now given.now) }
    ensures origin { IfOk result (λ shrunk.
        AreFewer of.now.model.now given.now shrunk.numbers.items shrunk.rows) }
{
    let first = first_rows(alloc, of.model, given)?;
    let found = propose(alloc, of, given, &first, seeds, opts)?;
    let marks = marks_of(alloc, of.model, of.plan, given)?;
    let least = least_needed(of.model, of.plan, &marks);
    if is_shrunk(alloc, of, given, seeds, &marks, &found.rows)? {
        return Ok(Shrunk::new(found, least, true));
    }
    Ok(Shrunk::new(first, least, false))
}
