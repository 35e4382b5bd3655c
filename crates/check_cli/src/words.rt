ghost use Rattle.std.specs.Prelude.{◌≡◌, ◌==◌, ◌+◌, ◌<◌, [], true, length, take, slice_index_or, Ok, MatchResult, IfSome, None, is_none, option_map};
ghost use Rattle.definitions.specs.believed.Settings as defined;
ghost use Rattle.definitions.specs.believed.Words as reading;
ghost use Rattle.command_line.specs.Settings.{setting_seen};
ghost use Rattle.command_line.specs.Words.{HasFault};
ghost use Rattle.command_line.specs.believed.Words.{TellsFault, texts};
ghost use Rattle.check_cli.specs.Words.{command_seen, names_seen, settings_seen};
ghost use Rattle.check_cli.specs.WordSteps.{IsReading, is_faulty_at};

use command_line::{
    FileNames, Setting, WordFault, default_opts, has_equal_marks, is_last_mark, missing_name,
    setting_of,
};
use model_lex::ModelOpts;

/// What the words of the checker ask for (PICT's guide; this project's rules). It borrows the words.
#[derive(Drop, Clone, Copy)]
pub struct CheckOpts<'w> {
    /// The name of the model file.
    pub model: &'w str,
    /// The name of the report.
    pub report: &'w str,
    /// The name of the proof file.
    pub proof: &'w str,
    /// How the model file is to be read.
    pub opts: ModelOpts,
    /// The number of workers.
    pub workers: u32,
}

impl<'w> CheckOpts<'w> {
    // What holds for three files without further words.
    fn of(model: &'w str, report: &'w str, proof: &'w str) -> CheckOpts<'w>
        ensures names { names_seen result ≡ record { model = model.now; rows = report.now; proof = proof.now } }
        ensures settings { settings_seen result ≡ defined.defaults }
    {
        CheckOpts {
            model,
            report,
            proof,
            opts: default_opts(),
            workers: 1,
        }
    }

    // The names of the files of the run; the report is its file of rows.
    pub(crate) fn names(&self) -> FileNames<'w>
        ensures { result ≡ names_seen self.now }
    {
        FileNames {
            model: self.model,
            rows: self.report,
            proof: self.proof,
        }
    }

    // Sets one thing more, if the checker knows it; whether it does.
    fn set(&mut self, setting: Setting<'_>) -> bool
        ensures known { result ≡ reading.is_of_checker (setting_seen setting.entry) }
        ensures names { names_seen self.new ≡ names_seen self.old }
        ensures settings { result ≡ true → settings_seen self.new ≡ defined.set (settings_seen self.old) (setting_seen setting.entry) }
    {
        match setting {
            Setting::Order(order) => self.opts.order = order,
            Setting::Separator(mark) => self.opts.marks.separator = mark,
            Setting::Alias(mark) => self.opts.marks.alias = mark,
            Setting::Prefix(mark) => self.opts.marks.prefix = mark,
            Setting::CaseCounts => self.opts.fold = false,
            Setting::Workers(workers) => self.workers = workers,
            Setting::SeedFile(_)
            | Setting::ShuffleValues(_)
            | Setting::Statistics
            | Setting::Budget(_)
            | Setting::ProofFile(_)
            | Setting::ProofFormat(_)
            | Setting::MeasureFile(_)
            | Setting::Make(_)
            | Setting::SuspectFile(_) => return false,
        }
        true
    }

    // The options with that of this number from 0 behind those so far; `None` exactly where this one has no reading.
    fn with_option(self, options: &'w [String], place: usize) -> Option<CheckOpts<'w>>
        requires place { place < length options.now }
        requires reads { IsReading self (take place (texts options.now)) }
        ensures faulty { is_none result ≡ is_faulty_at (texts options.now) place }
        ensures reads { IfSome result (λ more. IsReading more (take (place + 1) (texts options.now))) }
        ensures names { IfSome result (λ more. names_seen more ≡ names_seen self.entry) }
    {
        let word = options[place].as_str();
        let Some(setting) = setting_of(word) else {
            return None;
        };
        let mut opts = self;
        if !opts.set(setting) {
            return None;
        }
        if is_last_mark(options, place) && has_equal_marks(opts.opts.marks) {
            return None;
        }
        Some(opts)
    }
}

// What options ask for behind those so far, of which the first is the fourth word.
fn read_options<'w>(names: CheckOpts<'w>, options: &'w [String]) -> Result<CheckOpts<'w>, WordFault>
    requires { settings_seen names ≡ defined.defaults }
    ensures { MatchResult result
        (λ opts. (reading.first_faulty_for_checker 4 [] (texts options.now) ≡ None) × (names_seen opts ≡ names_seen names.entry)
        × (settings_seen opts ≡ reading.set_by (texts options.now)))
        (λ fault. HasFault (reading.first_faulty_for_checker 4 [] (texts options.now)) fault.index) }
{
    let mut opts = names;
    for place in 0..options.len() {
        let Some(more) = opts.with_option(options, place) else {
            return Err(WordFault::at(place.saturating_add(3)));
        };
        opts = more;
    }
    Ok(opts)
}

/// What the words of the checker ask for, those behind the program's name: MODEL, REPORT and PROOF, which are names
/// whatever their first character, and the options `/o`, `/d`, `/a`, `/n`, `/c` and `/workers`. Takes no memory.
///
/// # Errors
///
/// The first word that has no reading; a name that is missing counts as one.
pub fn read_check_words<'w>(words: &'w [String]) -> Result<CheckOpts<'w>, WordFault>
    ensures { MatchResult result
        (λ opts. reading.read_check_words (texts words.now) ≡ Ok (command_seen opts))
        (λ fault. TellsFault (reading.read_check_words (texts words.now)) fault.index) }
{
    if let Some(place) = missing_name(words, 3) {
        return Err(WordFault::at(place));
    }
    let names = CheckOpts::of(words[0].as_str(), words[1].as_str(), words[2].as_str());
    read_options(names, &words[3..])
}
