//! What a run tells on standard error.
ghost use Rattle.std.specs.Prelude.{◌≡◌, true, false, IfOk};
ghost use Rattle.jeldroft_generate.specs.Numbers.{TellsNumbers};

use crate::notes::Notes;
use crate::tests::Tests;
use cov_model::{Demand, TestModel};
use itoa::Buffer;
use jeldroft_args::Generate;
use jeldroft_files::Failure;
use jeldroft_words::{FewerTests, tell_fewer};
use outside_io::{Sink, put_pieces};
use refutation::Omissions;
use shared_marks::count_tuples;
use std::alloc::Global;
use tuple_index::Plan;

/// What the lines say that sum up.
#[derive(Debug, Drop, Clone, Copy)]
pub(crate) struct Summary {
    // How many tests there are.
    tests: u64,
    // How many parameters are combined, where that is so of each combination.
    strength: Option<u32>,
    // How many combinations of their values are demanded, and how many of them no test can have.
    combinations: u64,
    impossible: u64,
    /// The numbers of the tests, where they are in place of those that grew.
    pub fewer: Option<FewerTests>,
}

// How many parameters are combined, where no sub-model and no relation asks for more or fewer.
fn strength_of(demand: &Demand) -> Option<u32> {
    if demand.subs.is_empty() && demand.relations.is_empty() {
        Some(demand.order)
    } else {
        None
    }
}

impl Summary {
    /// What is said of tests, and of the combinations that no test can have.
    pub(crate) fn of(model: &TestModel, plan: &Plan, tests: &Tests, omitted: &Omissions) -> Summary
        ensures { result.fewer ≡ tests.now.fewer }
    {
        Summary {
            tests: tests.rows.len() as u64,
            strength: strength_of(model.demand()),
            combinations: u64::from(count_tuples(plan)),
            impossible: omitted.len() as u64,
            fewer: tests.fewer,
        }
    }

    // Writes how much the tests cover.
    fn tell_coverage<E: Sink>(&self, diag: &mut E) {
        put_count(self.tests, " test", diag);
        let covers = if self.tests == 1 {
            " covers "
        } else {
            " cover "
        };
        let _ = put_pieces(diag, &[covers]);
        put_number(self.combinations.saturating_sub(self.impossible), diag);
        let _ = put_pieces(diag, &[" of "]);
        put_count(self.combinations, " combination", diag);
        if let Some(strength) = self.strength {
            let _ = put_pieces(diag, &[" of "]);
            put_count(u64::from(strength), " parameter", diag);
        }
        if self.impossible > 0 {
            let _ = put_pieces(diag, &["; no test can have the other "]);
            put_number(self.impossible, diag);
            let _ = put_pieces(diag, &[" (--proof lists them)"]);
        }
        let _ = put_pieces(diag, &["\n"]);
    }

    // Writes how much the tests cover, and behind it the line on fewer tests, where they are in place of those that grew.
    fn tell<E: Sink>(&self, diag: &mut E)
        ensures { TellsNumbers self.now.fewer (E.seen diag.new) }
    {
        self.tell_coverage(diag);
        match self.fewer {
            Some(fewer) => tell_fewer(fewer, diag),
            None => {}
        }
    }
}

// Writes a number, with a comma before each three digits.
fn put_number<E: Sink>(number: u64, diag: &mut E) {
    let mut buffer = Buffer::new();
    let digits = buffer.format(number).as_bytes();
    for (place, digit) in digits.iter().enumerate() {
        if place > 0 && (digits.len() - place) % 3 == 0 {
            let _ = diag.put(b",");
        }
        let _ = diag.put(&[*digit]);
    }
}

// Writes a number of things.
fn put_count<E: Sink>(number: u64, thing: &str, diag: &mut E) {
    put_number(number, diag);
    let ending = if number == 1 { "" } else { "s" };
    let _ = put_pieces(diag, &[thing, ending]);
}

// Writes the warnings on the file of seeds: on its cells, and on the seeds that aren't kept.
fn tell_seeds<E: Sink>(file: &str, notes: &Notes, diag: &mut E) {
    notes.files.tell_table(file, diag);
    for seed in notes.dropped.as_slice() {
        seed.tell(file, diag);
    }
}

// Writes the warnings.
fn tell_warnings<E: Sink>(alloc: Global, args: &Generate, notes: &Notes, diag: &mut E) {
    notes
        .files
        .tell_model(alloc, args.model.name.as_str(), diag);
    let _ = diag.put(notes.findings.as_slice());
    if let Some(seeds) = &args.seeds {
        tell_seeds(seeds.as_str(), notes, diag);
    }
}

// Sums up, on a terminal, unless that is left out.
fn sum_up<E: Sink>(summary: &Summary, args: &Generate, terminal: bool, diag: &mut E)
    ensures { terminal ≡ true → args.now.quiet ≡ false → TellsNumbers summary.now.fewer (E.seen diag.new) }
{
    if args.quiet || !terminal {
        return;
    }
    summary.tell(diag);
}

/// Tells what a run found: the warnings, unless they are left out; why there is no table; else, on a terminal, the lines
/// that sum up, unless they are left out.
pub(crate) fn tell<E: Sink>(
    alloc: Global,
    args: &Generate,
    notes: &Notes,
    end: &Result<Summary, Failure<'_>>,
    terminal: bool,
    diag: &mut E,
)
    ensures { terminal ≡ true → args.now.quiet ≡ false → IfOk end.now (λ summary. TellsNumbers summary.fewer (E.seen diag.new)) }
{
    if !args.no_warnings {
        tell_warnings(alloc, args, notes, diag);
    }
    match end {
        Ok(summary) => sum_up(summary, args, terminal, diag),
        Err(failure) => notes.files.tell_failure(alloc, failure, diag),
    }
}
