ghost use Rattle.std.specs.Prelude.{◌≡◌, ◌+◌, ◌<◌, [], length, take, Ok, MatchResult, IfSome, None, is_none, option_map};
ghost use Rattle.definitions.specs.believed.Settings as defined;
ghost use Rattle.definitions.specs.believed.Words as believed_reading;
ghost use Rattle.command_line.specs.Settings.{setting_seen};
ghost use Rattle.command_line.specs.Words.{HasFault};
ghost use Rattle.command_line.specs.believed.Words.{TellsFault, texts};
ghost use Rattle.pict_cli.specs.Options.{settings_seen, command_seen, IsReading, is_faulty_at};
ghost use Rattle.pict_cli.specs.believed.Runs.{file_names};

use crate::kinds::Kinds;
use command_line::{
    FileNames, Setting, Shuffle, default_opts, has_equal_marks, is_last_mark, setting_of,
    word_number,
};
use definitions::Effort;
use model_lex::ModelOpts;
use refutation::ProofForm;

// The most nodes that one question may visit where no word says it.
const USUAL_BUDGET: u64 = 1_000_000;

/// What the words of a command ask for (PICT's guide; this project's rules). It borrows the words.
#[derive(Drop, Clone, Copy)]
pub struct Opts<'w> {
    /// The name of the model file.
    pub model: &'w str,
    /// How the model file is to be read.
    pub opts: ModelOpts,
    /// The file of seed rows.
    pub seeds: Option<&'w str>,
    /// How values are shuffled.
    pub shuffle: Shuffle,
    /// Whether statistics are printed in place of rows.
    pub stats: bool,
    /// The number of workers.
    pub workers: u32,
    /// What one question may cost.
    pub effort: Effort,
    /// The file that the proof is written to.
    pub proof: Option<&'w str>,
    /// The form of the proof file.
    pub form: ProofForm,
    /// The suite that is measured, in place of generating one.
    pub measure: Option<&'w str>,
    /// The number of the model that is made and written to the model file.
    pub make: Option<u64>,
    /// The suite with results in which suspicious tuples are looked for, in place of generating one.
    pub suspect: Option<&'w str>,
}

/// A command line that has no reading.
#[derive(Debug, Drop, Clone, Copy, PartialEq, Eq)]
pub struct WordFault {
    /// The number of the first word without a reading, from 1; 2^32 - 1 stands for a greater one too.
    pub index: u32,
}

impl<'w> Opts<'w> {
    // What holds for a model file without further words.
    fn of(model: &'w str) -> Opts<'w>
        ensures model { result.model.now ≡ model.now }
        ensures settings { settings_seen result ≡ defined.defaults }
    {
        Opts {
            model,
            opts: default_opts(),
            seeds: None,
            shuffle: Shuffle::Off,
            stats: false,
            workers: 1,
            effort: Effort::Within(USUAL_BUDGET),
            proof: None,
            form: ProofForm::One,
            measure: None,
            make: None,
            suspect: None,
        }
    }

    /// The names of the files of the run.
    pub(crate) fn names(&self) -> FileNames<'w>
        ensures { result ≡ file_names self.now.model.now (settings_seen self.now) }
    {
        let proof = match self.proof {
            Some(name) => name,
            None => "",
        };
        let rows = match self.row_file() {
            Some(name) => name,
            None => "",
        };
        FileNames {
            model: self.model,
            rows,
            proof,
        }
    }

    /// The form of the proof, where one is asked for.
    pub(crate) fn proof_form(&self) -> Option<ProofForm>
        ensures { result ≡ option_map (λ _. self.now.form) self.now.proof }
    {
        match self.proof {
            Some(_) => Some(self.form),
            None => None,
        }
    }

    // Sets one thing more.
    fn set(&mut self, setting: Setting<'w>)
        ensures model { self.new.model ≡ self.old.model }
        ensures settings { settings_seen self.new ≡ defined.set (settings_seen self.old) (setting_seen setting.entry) }
    {
        match setting {
            Setting::Order(order) => self.opts.order = order,
            Setting::Separator(mark) => self.opts.marks.separator = mark,
            Setting::Alias(mark) => self.opts.marks.alias = mark,
            Setting::Prefix(mark) => self.opts.marks.prefix = mark,
            Setting::CaseCounts => self.opts.fold = false,
            Setting::SeedFile(name) => self.seeds = Some(name),
            Setting::ShuffleValues(shuffle) => self.shuffle = shuffle,
            Setting::Statistics => self.stats = true,
            Setting::Workers(workers) => self.workers = workers,
            Setting::Budget(effort) => self.effort = effort,
            Setting::ProofFile(name) => self.proof = Some(name),
            Setting::ProofFormat(form) => self.form = form,
            Setting::MeasureFile(name) => self.measure = Some(name),
            Setting::Make(number) => self.make = Some(number),
            Setting::SuspectFile(name) => self.suspect = Some(name),
        }
    }
}

// What the options so far ask for, and what they are about.
#[derive(Drop, Clone, Copy)]
struct Reading<'w> {
    opts: Opts<'w>,
    kinds: Kinds,
}

impl<'w> Reading<'w> {
    // The reading with the option of this number from 0 behind those so far; `None` exactly where this option
    // has no reading.
    fn with_option(self, options: &'w [String], place: usize) -> Option<Reading<'w>>
        requires place { place < length options.now }
        requires reads { IsReading self.opts self.kinds (take place (texts options.now)) }
        ensures faulty { is_none result ≡ is_faulty_at (texts options.now) place }
        ensures reads { IfSome result (λ more. IsReading more.opts more.kinds (take (place + 1) (texts options.now))) }
        ensures model { IfSome result (λ more. more.opts.model ≡ self.entry.opts.model) }
    {
        let word = options[place].as_str();
        let Some(setting) = setting_of(word) else {
            return None;
        };
        let kind = Kinds::of(&setting);
        if kind.exclude_each_other(self.kinds) {
            return None;
        }
        let mut opts = self.opts;
        opts.set(setting);
        if is_last_mark(options, place) && has_equal_marks(opts.opts.marks) {
            return None;
        }
        Some(Reading {
            opts,
            kinds: self.kinds.join(kind),
        })
    }
}

// What options ask for, of this model file; the first of them is the second word.
fn read_options<'w>(model: &'w str, options: &'w [String]) -> Result<Opts<'w>, WordFault>
    ensures { MatchResult result
        (λ opts. (believed_reading.first_faulty 2 [] (texts options.now) ≡ None) × (opts.model.now ≡ model.now)
        × (settings_seen opts ≡ believed_reading.set_by (texts options.now)))
        (λ fault. HasFault (believed_reading.first_faulty 2 [] (texts options.now)) fault.index) }
{
    let mut reading = Reading {
        opts: Opts::of(model),
        kinds: Kinds::none(),
    };
    for place in 0..options.len() {
        let Some(more) = reading.with_option(options, place) else {
            return Err(WordFault {
                index: word_number(place.saturating_add(1)),
            });
        };
        reading = more;
    }
    Ok(reading.opts)
}

/// What the words of `pict` ask for, those behind the program's name. Takes no memory.
///
/// # Errors
///
/// The first word that has no reading; the first where there is none.
pub fn read_words<'w>(words: &'w [String]) -> Result<Opts<'w>, WordFault>
    ensures { MatchResult result
        (λ opts. believed_reading.read_words (texts words.now) ≡ Ok (command_seen opts))
        (λ fault. TellsFault (believed_reading.read_words (texts words.now)) fault.index) }
{
    match words {
        [name, options @ ..] if !name.is_empty() => read_options(name.as_str(), options),
        _ => Err(WordFault { index: 1 }),
    }
}
