ghost use Rattle.std.specs.Prelude.{◌≡◌, ◌≤◌, ◌^◌, ℕ, [], map, length, All, Option, None, Some, List, option_map, IfOk, IfErr, OnOk};
ghost use Rattle.cov_model.specs.Fits.{FitsModel};
ghost use Rattle.cov_model.specs.believed.Sound.{ModelView};
ghost use Rattle.definitions.specs.declared.effort.Effort.TheVariants.{Full};
ghost use Rattle.definitions.specs.believed.Settings.{Settings};
ghost use Rattle.feasibility.specs.Ends.{EndsBy};
ghost use Rattle.ipog_grow.specs.Suites.{IsSuiteOf};
ghost use Rattle.row_text.specs.RowFiles.{seeds_seen};
ghost use Rattle.tuple_index.specs.Plan.{plan_of};
ghost use Rattle.command_line.specs.Settings.{shuffle_seen};
ghost use Rattle.pict_cli.specs.Options.{settings_seen};
ghost use Rattle.pict_cli.specs.Ranges.{FitRun};
ghost use Rattle.pict_cli.specs.believed.Runs.{orders_of, growth_over, shuffled_by, spent_at};
ghost use Rattle.pict_cli.specs.Steps.{IsDueOrNoMemory};

use crate::options::Opts;
use command_line::{Shuffle, Stop};
use cov_model::{Prefs, TestModel};
use definitions::Effort;
use feasibility::SearchFault;
use ipog_grow::{GrowOpts, Suite, generate};
use row_text::RowFile;
use std::alloc::Global;
use std::thread::Threads;
use tuple_index::Plan;
use worker_gate::OpenGate;

// The number that values are shuffled by, where they are; `seed_word` where no word gives one.
fn shuffle_number(shuffle: Shuffle, seed_word: u64) -> Option<u64>
    ensures { result ≡ shuffled_by (shuffle_seen shuffle) seed_word }
{
    match shuffle {
        Shuffle::Off => None,
        Shuffle::Bare => Some(seed_word),
        Shuffle::Number(number) => Some(number),
    }
}

/// Why a run stops whose search ended early: without a budget for want of memory alone.
pub(crate) fn stop_of_search(fault: SearchFault, effort: Effort) -> Stop
    requires { effort ≡ Full → fault ≡ SearchFault.NoMemory }
    ensures { (over : Option (List (Option ℕ))) → EndsBy over fault → IsDueOrNoMemory (spent_at effort over) result }
{
    match fault {
        SearchFault::Spent(question) => match effort {
            Effort::Within(budget) => Stop::Spent(budget, question.cells),
            Effort::Full => unreachable!(),
        },
        SearchFault::NoMemory => Stop::OutOfMemory,
    }
}

/// The suite of a model within its plan, from seed rows, as the options ask for it.
///
/// # Errors
///
/// `Spent` where a question costs too much, `OutOfMemory` where memory was refused.
pub(crate) fn grow<R: Threads + Sync>(
    rt: &R,
    alloc: Global,
    model: &TestModel,
    plan: &Plan,
    seeds: &RowFile,
    opts: &Opts<'_>,
    seed_word: u64,
) -> Result<Suite, Stop>
    requires plan { plan.now ≡ plan_of model.now }
    requires seeds { All (λ seed. FitsModel model.now seed.cells) seeds.now.rows }
    requires few { length seeds.now.rows ≤ 2 ^ 20 }
    requires fit { FitRun (settings_seen opts.now) }
    ensures suite { IfOk result (IsSuiteOf model.now (orders_of (settings_seen opts.now) seed_word model.now) (seeds_seen seeds.now) opts.now.effort (option_map (λ _. opts.now.form) opts.now.proof)) }
    ensures answered { OnOk result (growth_over (settings_seen opts.now) seed_word model.now (seeds_seen seeds.now) ≡ None) }
    ensures stops { IfErr result (IsDueOrNoMemory (spent_at opts.now.effort (growth_over (settings_seen opts.now) seed_word model.now (seeds_seen seeds.now)))) }
{
    let number = shuffle_number(opts.shuffle, seed_word);
    let prefs = Prefs::new(alloc, model, number)?;
    let grow_opts = GrowOpts {
        effort: opts.effort,
        workers: opts.workers,
        proof: opts.proof_form(),
    };
    match generate(rt, alloc, model, plan, &prefs, seeds, &grow_opts, &OpenGate) {
        Ok(suite) => Ok(suite),
        Err(fault) => Err(stop_of_search(fault, opts.effort)),
    }
}
