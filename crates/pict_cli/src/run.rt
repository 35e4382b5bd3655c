ghost use Rattle.std.specs.Prelude.{◌≡◌, ◌≤◌, length, ℕ, List, [], Option, Some, None, Ok, Err};
ghost use Rattle.definitions.specs.believed.Diagnostics.{word_line};
ghost use Rattle.definitions.specs.believed.Limits.{ModelFile, most_bytes};
ghost use Rattle.definitions.specs.believed.Settings.{Settings};
ghost use Rattle.command_line.specs.Settings.{shuffle_seen};
ghost use Rattle.command_line.specs.believed.Told.{Tells, end_status};
ghost use Rattle.command_line.specs.believed.Words.{texts};
ghost use Rattle.pict_cli.specs.Ends.{Leaves};
ghost use Rattle.pict_cli.specs.believed.Ends.{end_of, moment};
ghost use Rattle.pict_cli.specs.believed.Modes.{RowSource, row_source};
ghost use Rattle.pict_cli.specs.Options.{settings_seen};
ghost use Rattle.pict_cli.specs.Ranges.{FitRun};
ghost use Rattle.pict_cli.specs.believed.Promises.{Covers, HasStatus, Proves, Unchanged, world};
ghost use Rattle.pict_cli.specs.believed.Runs.{IsRun, RunsModel, used_seed};
ghost use Rattle.pict_cli.specs.believed.Steps.{HoldsMade};
ghost use Rattle.pict_cli.specs.Steps.{Ran, RanOn};
ghost use Rattle.pict_cli.specs.believed.Words.{IsWordFault, asked_by, model_file};

use crate::making::{read_made, write_made};
use crate::options::Opts;
use crate::words::read_command;
use crate::working::run_model;
use command_line::{FileKind, FileNames, Shuffle, Stop, load_model, tell};
use cov_model::TestModel;
use model_lex::NoteList;
use outside_io::{Folder, Sink};
use std::alloc::Global;
use std::thread::Threads;
use value_text::OwnedList;

// The seed that is told, since no word gave it.
fn told_seed(shuffle: Shuffle, seed_word: u64) -> Option<u64>
    ensures { result ≡ used_seed (shuffle_seen shuffle) seed_word }
{
    match shuffle {
        Shuffle::Bare => Some(seed_word),
        Shuffle::Off | Shuffle::Number(_) => None,
    }
}

// The exit status of a run that ended so.
fn status_of(end: &Result<(), Stop>) -> u8
    ensures { result ≡ end_status end.now }
{
    match end {
        Ok(()) => 0,
        Err(stop) => stop.status(),
    }
}

// How a run ended, with the notes that are told.
#[derive(Drop)]
struct Ended {
    // Those on the model file.
    notes: NoteList,
    // Those on the row file.
    row_notes: NoteList,
    // Its end.
    end: Result<(), Stop>,
}

impl Ended {
    // A run that stopped before it had a model.
    fn stopped(alloc: Global, stop: Stop) -> Ended
        ensures notes { result.notes ≡ [] }
        ensures row_notes { result.row_notes ≡ [] }
        ensures end { result.end ≡ Err stop }
    {
        Ended {
            notes: OwnedList::new(alloc),
            row_notes: OwnedList::new(alloc),
            end: Err(stop),
        }
    }
}

// Does with a model that was read, with these notes, what the options ask for.
fn go_on<R: Threads + Sync, F: Folder, O: Sink>(
    rt: &R,
    alloc: Global,
    model: &TestModel,
    notes: NoteList,
    opts: &Opts<'_>,
    files: &mut F,
    out: &mut O,
    seed_word: u64,
) -> Ended
    requires { FitRun (settings_seen opts.now) }
    ensures notes { result.notes ≡ notes }
    ensures runs { (source : RowSource) → row_source (settings_seen opts.now) (F.seen files.old).files ≡ Some source → RunsModel (settings_seen opts.now) seed_word model.now source result.row_notes
        (moment (F.seen files.old) (O.seen out.old)) (moment (F.seen files.new) (O.seen out.new)) result.end }
    ensures leaves { (name : List ℕ) → Leaves (settings_seen opts.now) name (moment (F.seen files.old) (O.seen out.old)) (moment (F.seen files.new) (O.seen out.new)) (end_of result.end) }
{
    let mut row_notes = OwnedList::new(alloc);
    let end = run_model(
        rt,
        alloc,
        model,
        opts,
        seed_word,
        files,
        out,
        &mut row_notes,
    );
    Ended {
        notes,
        row_notes,
        end,
    }
}

// Reads the model file, and does with its model what the options ask for.
fn run_on_file<R: Threads + Sync, F: Folder, O: Sink>(
    rt: &R,
    alloc: Global,
    opts: &Opts<'_>,
    files: &mut F,
    out: &mut O,
    seed_word: u64,
) -> Ended
    requires fit { FitRun (settings_seen opts.now) }
    requires unmade { (settings_seen opts.now).make ≡ None }
    ensures { RanOn ((F.seen files.old).files opts.now.model.now) (settings_seen opts.now) seed_word opts.now.model.now
        (moment (F.seen files.old) (O.seen out.old)) (moment (F.seen files.new) (O.seen out.new)) result.notes result.row_notes result.end }
{
    match load_model(alloc, opts.model, &opts.opts, files) {
        Ok((model, notes)) => go_on(rt, alloc, &model, notes, opts, files, out, seed_word),
        Err(stop) => Ended::stopped(alloc, stop),
    }
}

// Reads a made model from its text, and does with it what the options ask for.
fn run_on_text<R: Threads + Sync, F: Folder, O: Sink>(
    rt: &R,
    alloc: Global,
    text: &str,
    opts: &Opts<'_>,
    files: &mut F,
    out: &mut O,
    seed_word: u64,
) -> Ended
    requires fit { FitRun (settings_seen opts.now) }
    requires within { length text.now ≤ most_bytes ModelFile }
    ensures { RanOn (Some (Some text.now)) (settings_seen opts.now) seed_word opts.now.model.now
        (moment (F.seen files.old) (O.seen out.old)) (moment (F.seen files.new) (O.seen out.new)) result.notes result.row_notes result.end }
{
    match read_made(alloc, text.as_bytes(), &opts.opts) {
        Ok((model, notes)) => go_on(rt, alloc, &model, notes, opts, files, out, seed_word),
        Err(stop) => Ended::stopped(alloc, stop),
    }
}

// Writes the made model of a number to the model file, and does with that model what the options ask for.
fn run_making<R: Threads + Sync, F: Folder, O: Sink>(
    rt: &R,
    alloc: Global,
    number: u64,
    opts: &Opts<'_>,
    files: &mut F,
    out: &mut O,
    seed_word: u64,
) -> Ended
    requires fit { FitRun (settings_seen opts.now) }
    requires number { (settings_seen opts.now).make ≡ Some number }
    ensures { Ran (settings_seen opts.now) seed_word opts.now.model.now
        (moment (F.seen files.old) (O.seen out.old)) (moment (F.seen files.new) (O.seen out.new)) result.notes result.row_notes result.end }
{
    match write_made(alloc, number, opts.model, files) {
        Ok(text) => run_on_text(rt, alloc, text.as_str(), opts, files, out, seed_word),
        Err(stop) => Ended::stopped(alloc, stop),
    }
}

// Gets the model, and does with it what the options ask for.
fn run<R: Threads + Sync, F: Folder, O: Sink>(
    rt: &R,
    alloc: Global,
    opts: &Opts<'_>,
    files: &mut F,
    out: &mut O,
    seed_word: u64,
) -> Ended
    requires { FitRun (settings_seen opts.now) }
    ensures { Ran (settings_seen opts.now) seed_word opts.now.model.now
        (moment (F.seen files.old) (O.seen out.old)) (moment (F.seen files.new) (O.seen out.new)) result.notes result.row_notes result.end }
{
    match opts.make {
        Some(number) => run_making(rt, alloc, number, opts, files, out, seed_word),
        None => run_on_file(rt, alloc, opts, files, out, seed_word),
    }
}

/// Runs `pict` on its words, those behind the program's name, and gives the exit status.
///
/// The steps come in this order: words, read of the model file, model, limits of the plan, read of the row file, row
/// file, growth or measuring, write of the proof file, write to `out`. A run that makes its model writes it to the model
/// file in place of reading that, and goes on with the bytes that it wrote. One that looks for suspicious tuples makes
/// no plan: behind its row file comes the limit of candidates. But for the making and the writing of a model all
/// memory is taken before the first byte is written. `seed_word` is the number of a shuffle that no word gives.
/// Statuses: 0 where the text was written whole, 1 where memory was refused, 2 where a question of the search costs
/// more than the budget, never where the words ask for no budget, 3 where the words have no reading, 4 and 5 where the
/// model or a constraint of it is refused, 6 where the row file is, 7 where a read of the folder failed, 8 where a
/// write of the folder or `out` did, 9 where something is above its limit. What is told goes to `diag`, whose faults
/// change nothing.
///
/// A folder tells what a name holds, the bytes of a file or that there is none, and a sink what was
/// written to it, as those in memory do (`run_pict_in_memory` of `runs_in_memory`). Real ones tell nothing, and of them only
/// the clauses speak that have no such premise.
pub fn run_pict<R: Threads + Sync, F: Folder, O: Sink, E: Sink>(
    rt: &R,
    alloc: Global,
    words: &[String],
    files: &mut F,
    out: &mut O,
    diag: &mut E,
    seed_word: u64,
) -> u8
    // The headline: after status 0 of a run that prints rows the model file spells a model, every printed row is valid,
    // and every demanded tuple is served by a printed row, or no row serves it, and then the proof, where the words ask
    // for one, lists it with a tree that refutes it. No row is printed twice, and no more rows than there are demanded
    // tuples that some row serves, and kept seeds; each kept seed is contained in one; and the checker accepts the rows
    // with the proof. After status 0 of any run the proof file holds the whole proof.
    ensures headline { result ≡ 0 → Covers (texts words.now) (world (F.seen files.old) (O.seen out.old) (E.seen diag.old)) (world (F.seen files.new) (O.seen out.new) (E.seen diag.new)) }
    ensures proof { result ≡ 0 → Proves (texts words.now) seed_word
        (world (F.seen files.old) (O.seen out.old) (E.seen diag.old)) (world (F.seen files.new) (O.seen out.new) (E.seen diag.new)) }

    // What a run does, by what its words ask for: why it ends so, what it prints, writes and tells, and whose count of
    // faults rose where it blames a file or `out`. Why its reading of the model ends so is said where the folder tells
    // what the model file held, or the run makes its model; and why a run on a model ends so, and what it prints, where
    // the folder tells what the row file held too. What `out` and `diag` got is said of each that tells what it held
    // before, and what the written files hold where the folder tells it at the end.
    ensures run { (s : Settings) → asked_by (texts words.now) ≡ Ok s → IsRun s seed_word (model_file words.now)
        (moment (F.seen files.old) (O.seen out.old)) (moment (F.seen files.new) (O.seen out.new)) (E.seen diag.old) (E.seen diag.new) result }

    // Words that have no reading: the first that has none is told by this index.
    ensures words { (index : ℕ) → IsWordFault (texts words.now) index →
        (result ≡ 3) × Tells (E.seen diag.old) (E.seen diag.new) (word_line index) }

    // With every status but 1 and 8 the model file holds the made model at the end, where the words ask for one: unless
    // the proof was written over it. Premise: the folder tells that name at the end.
    ensures made { (s : Settings) (n : ℕ) → asked_by (texts words.now) ≡ Ok s → s.make ≡ Some n → HoldsMade s n (model_file words.now) (F.seen files.new).files result }

    // Which status comes, and what stays as it was.
    ensures statuses { HasStatus (texts words.now) seed_word
        (world (F.seen files.old) (O.seen out.old) (E.seen diag.old)) (world (F.seen files.new) (O.seen out.new) (E.seen diag.new)) result }
    ensures unchanged { Unchanged (texts words.now) (world (F.seen files.old) (O.seen out.old) (E.seen diag.old)) (world (F.seen files.new) (O.seen out.new) (E.seen diag.new)) result }
{
    let opts = match read_command(words) {
        Ok(opts) => opts,
        Err(fault) => {
            let end = Err(Stop::BadWord(fault.index));
            let _ = tell(None, &[], &[], &end, &FileNames::none(), diag);
            return 3;
        }
    };
    let ended = run(rt, alloc, &opts, files, out, seed_word);
    let seed = told_seed(opts.shuffle, seed_word);
    let notes = ended.notes.as_slice();
    let row_notes = ended.row_notes.as_slice();
    let _ = tell(seed, notes, row_notes, &ended.end, &opts.names(), diag);
    status_of(&ended.end)
}
