ghost use Rattle.std.specs.Prelude.{◌≡◌, ◌≢◌, ◌⊎◌, ℕ, List, Option, true, None, All, IfErr, IfSome};
ghost use Rattle.outside_io.specs.believed.Seen.{SinkSeen};
ghost use Rattle.outside_io.specs.believed.Puts.{Puts};
ghost use Rattle.cov_model.specs.believed.Valid.{is_row};
ghost use Rattle.row_text.specs.Told.{statistics_seen};
ghost use Rattle.row_text.specs.Turns.{AreMadeFor};
ghost use Rattle.pict_cli.specs.believed.Ends.{CountsOut, Prints, end_of, moment};
ghost use Rattle.pict_cli.specs.Ends.{Leaves};
ghost use Rattle.pict_cli.specs.Options.{output_seen, settings_seen};
ghost use Rattle.pict_cli.specs.believed.Runs.{IsProof, WritesProof, suite_text};

use crate::modes::Output;
use crate::options::Opts;
use crate::proof::write_proof;
use crate::suite::ReadySuite;
use command_line::{FileKind, Stop};
use cov_model::TestModel;
use outside_io::{Folder, Sink, WriteAnswer};
use row_text::{put_report, put_stats};

// Writes what is printed of a suite.
fn put_suite<O: Sink>(
    model: &TestModel,
    output: Output,
    ready: &mut ReadySuite,
    out: &mut O,
) -> WriteAnswer
    requires rows { All (λ row. is_row model.now row ≡ true) ready.old.rows }
    requires turns { AreMadeFor model.now ready.old.turns }
    ensures { Puts result (O.seen out.old) (O.seen out.new) (suite_text (output_seen output) model.now ready.old.rows (statistics_seen ready.old.stats)) }
{
    match output {
        Output::Report => put_report(model, &ready.rows, &mut ready.turns, out),
        Output::Statistics => put_stats(&ready.stats, out),
    }
}

// How a run ends whose text was written to `out` so.
pub(crate) fn written(answer: WriteAnswer) -> Result<(), Stop>
    ensures prints { (text : List ℕ) (before after : SinkSeen) → Puts answer before after text → Prints text before after (end_of result) }
    ensures faults { (text : List ℕ) (before after : SinkSeen) → Puts answer before after text → CountsOut (end_of result) before after }
    ensures stops { IfErr result (λ stop. stop ≡ Stop.CannotWriteReport) }
{
    match answer {
        WriteAnswer::Done => Ok(()),
        WriteAnswer::Failed => Err(Stop::CannotWriteReport),
    }
}

// Writes what is printed of a suite, and ends the run.
fn print<O: Sink>(
    model: &TestModel,
    output: Output,
    ready: &mut ReadySuite,
    out: &mut O,
) -> Result<(), Stop>
    requires rows { All (λ row. is_row model.now row ≡ true) ready.old.rows }
    requires turns { AreMadeFor model.now ready.old.turns }
    ensures prints { Prints (suite_text (output_seen output) model.now ready.old.rows (statistics_seen ready.old.stats)) (O.seen out.old) (O.seen out.new) (end_of result) }
    ensures faults { CountsOut (end_of result) (O.seen out.old) (O.seen out.new) }
    ensures stops { IfErr result (λ stop. stop ≡ Stop.CannotWriteReport) }
{
    written(put_suite(model, output, ready, out))
}

/// Writes the proof of a suite to its file, where the options ask for one, and then what is printed of it. Takes no
/// memory.
///
/// # Errors
///
/// `CannotWrite` where the folder failed, `CannotWriteReport` where `out` did.
pub(crate) fn write_suite<F: Folder, O: Sink>(
    model: &TestModel,
    opts: &Opts<'_>,
    output: Output,
    ready: &mut ReadySuite,
    files: &mut F,
    out: &mut O,
) -> Result<(), Stop>
    requires rows { All (λ row. is_row model.now row ≡ true) ready.old.rows }
    requires turns { AreMadeFor model.now ready.old.turns }
    ensures stops { IfErr result (λ stop. (stop ≡ Stop.CannotWriteReport) ⊎ ((stop ≡ Stop.CannotWrite FileKind.Proof) × ((settings_seen opts.now).proof ≢ None))) }
    ensures prints { Prints (suite_text (output_seen output) model.now ready.old.rows (statistics_seen ready.old.stats)) (O.seen out.old) (O.seen out.new) (end_of result) }
    ensures writes { (seed : ℕ) (seeds : List (ℕ × List (Option ℕ))) → (IfSome opts.now.proof (λ _. IsProof (settings_seen opts.now) seed model.now seeds ready.old.proof.items))
        → WritesProof (settings_seen opts.now) seed model.now seeds (F.seen files.old) (F.seen files.new) (end_of result) }
    ensures leaves { (name : List ℕ) → Leaves (settings_seen opts.now) name (moment (F.seen files.old) (O.seen out.old)) (moment (F.seen files.new) (O.seen out.new)) (end_of result) }
{
    if let Some(name) = opts.proof {
        write_proof(name, ready.proof.as_slice(), files)?;
    }
    print(model, output, ready, out)
}
