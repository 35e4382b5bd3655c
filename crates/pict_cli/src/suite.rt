ghost use Rattle.std.specs.Prelude.{◌≡◌, ◌≤◌, ◌++◌, ◌+◌, ◌^◌, ℕ, true, length, map, take, sum, All, None, Some, IfOk, IfErr, IfSome, OnOk, option_map, slice_index_or};
ghost use Rattle.cov_model.specs.Fits.{FitsModel};
ghost use Rattle.cov_model.specs.believed.Valid.{is_row};
ghost use Rattle.definitions.specs.believed.Statistics.{statistics};
ghost use Rattle.ipog_grow.specs.Suites.{IsSuiteOf};
ghost use Rattle.row_text.specs.RowFiles.{seeds_seen};
ghost use Rattle.row_text.specs.Told.{statistics_seen};
ghost use Rattle.row_text.specs.Turns.{AreMadeFor};
ghost use Rattle.tuple_index.specs.Kept.{IsKept};
ghost use Rattle.tuple_index.specs.Plan.{plan_of};
ghost use Rattle.tuple_index.specs.believed.PlanFault.{limit_passed};
ghost use Rattle.pict_cli.specs.Options.{settings_seen};
ghost use Rattle.pict_cli.specs.Ranges.{FitRun};
ghost use Rattle.pict_cli.specs.believed.RowSources.{dropped_note, dropped_notes};
ghost use Rattle.pict_cli.specs.believed.Runs.{IsProof, growth_of, orders_of, growth_over, spent_at};
ghost use Rattle.pict_cli.specs.Steps.{StopsWork};

use crate::growing::grow;
use crate::options::Opts;
use crate::proof::text_of;
use command_line::Stop;
use cov_model::{Rows, TestModel};
use ipog_grow::Suite;
use model_lex::{Note, NoteCode, NoteList};
use row_text::{RowFile, Stats, Turns};
use shared_marks::count_tuples;
use std::alloc::Global;
use std::thread::Threads;
use tuple_index::Plan;
use value_text::NoMemory;

/// A suite with all that its printing takes.
#[derive(Drop)]
pub(crate) struct ReadySuite {
    /// Its rows.
    pub rows: Rows,
    /// Its statistics.
    pub stats: Stats,
    /// The text of its proof, where one is asked for; else no text.
    pub proof: Vec<u8>,
    /// What the printing of a report takes.
    pub turns: Turns,
}

// The statistics of a suite.
fn stats_of(plan: &Plan, suite: &Suite) -> Stats
    ensures sets { result.sets ≡ length plan.now.sets }
    ensures tuples { result.tuples ≡ sum plan.now.sizes }
    ensures omitted { result.omitted ≡ length suite.now.omitted.omissions }
    ensures kept { result.kept ≡ suite.now.kept }
    ensures tests { result.tests ≡ length suite.now.rows }
{
    Stats {
        sets: u64::from(plan.set_count()),
        tuples: u64::from(count_tuples(plan)),
        omitted: suite.omitted.len() as u64,
        kept: u64::from(suite.kept),
        tests: suite.rows.len() as u64,
    }
}

// Adds a note on each seed row that isn't kept. Where there is no room the first of the notes stand.
fn push_dropped(notes: &mut NoteList, lines: &[u32]) -> Result<(), NoMemory>
    ensures added { OnOk result (notes.new ≡ notes.old ++ map dropped_note lines.now) }
    ensures refused { IfErr result (λ _. (count : ℕ) × (notes.new ≡ notes.old ++ take count (map dropped_note lines.now))) }
{
    for line in lines {
        notes.push(Note {
            line: *line,
            code: NoteCode::RowDropped,
        })?;
    }
    Ok(())
}

/// The suite of a model within its plan, from seed rows, ready to be printed. Notes on the seed rows that aren't
/// kept are added once there is a suite.
///
/// # Errors
///
/// `Spent` where a question costs too much, `OutOfMemory` where memory was refused.
pub(crate) fn make_suite<R: Threads + Sync>(
    rt: &R,
    alloc: Global,
    model: &TestModel,
    plan: &Plan,
    seeds: &RowFile,
    opts: &Opts<'_>,
    seed_word: u64,
    notes: &mut NoteList,
) -> Result<ReadySuite, Stop>
    requires plan { plan.now ≡ plan_of model.now }
    requires within { limit_passed model.now ≡ None }
    requires seeds { All (λ seed. FitsModel model.now seed.cells) seeds.now.rows }
    requires few { length seeds.now.rows ≤ 2 ^ 20 }
    requires fit { FitRun (settings_seen opts.now) }
    ensures rows { IfOk result (λ ready. ready.rows ≡ (growth_of (settings_seen opts.now) seed_word model.now (seeds_seen seeds.now)).rows) }
    ensures stats { IfOk result (λ ready. statistics_seen ready.stats ≡ statistics model.now (orders_of (settings_seen opts.now) seed_word model.now) (seeds_seen seeds.now)) }
    ensures proof { IfOk result (λ ready. IfSome opts.now.proof (λ _. IsProof (settings_seen opts.now) seed_word model.now (seeds_seen seeds.now) ready.proof.items)) }
    ensures turns { IfOk result (λ ready. AreMadeFor model.now ready.turns) }
    ensures answered { OnOk result (growth_over (settings_seen opts.now) seed_word model.now (seeds_seen seeds.now) ≡ None) }
    ensures notes { OnOk result (notes.new ≡ notes.old ++ dropped_notes model.now (seeds_seen seeds.now)) }
    ensures stops { IfErr result (StopsWork
        (spent_at opts.now.effort (growth_over (settings_seen opts.now) seed_word model.now (seeds_seen seeds.now)))
        (dropped_notes model.now (seeds_seen seeds.now)) notes.old notes.new) }
{
    let suite = grow(rt, alloc, model, plan, seeds, opts, seed_word)?;
    let stats = stats_of(plan, &suite);
    let proof = text_of(alloc, opts, &suite.omitted)?;
    let turns = Turns::new(alloc, model)?;
    push_dropped(notes, suite.dropped.as_slice())?;
    Ok(ReadySuite {
        rows: suite.rows,
        stats,
        proof,
        turns,
    })
}
