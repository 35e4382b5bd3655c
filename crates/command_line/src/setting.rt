ghost use Rattle.std.specs.Prelude.{◌≡◌, ◌<◌, ℕ, List, true};
ghost use Rattle.std.specs.List.{after_first};
ghost use Rattle.std.specs.Option.{option_map};
ghost use Rattle.cov_model.specs.believed.Names.{is_letter, is_digit, reserved, is_mark};
ghost use Rattle.definitions.specs.believed.Settings as defined;
ghost use Rattle.value_text.specs.believed.Numbers.{count_of};
ghost use Rattle.refutation.specs.believed.Proofs.{format_of};
ghost use Rattle.command_line.specs.Settings.{setting_seen, order_seen};

use definitions::Effort;
use model_lex::OrderWord;
use refutation::ProofForm;
use value_text::{read_count, same_text};

// The most nodes that one question may visit, 2^40.
const MOST_NODES: u64 = 1_099_511_627_776;

// The greatest order, which is the most parameters that a model may have.
const MOST_ORDER: u64 = 256;

// The most workers.
const MOST_WORKERS: u64 = 64;

/// How values are shuffled (PICT's guide).
#[derive(Debug, Drop, Clone, Copy, PartialEq, Eq)]
pub enum Shuffle {
    /// Not at all.
    Off,
    /// By a seed that the run makes up.
    Bare,
    /// By this seed.
    Number(u64),
}

/// What one word sets (PICT's guide; this project's rules).
#[derive(Drop, Clone, Copy)]
pub enum Setting<'w> {
    /// The order.
    Order(OrderWord),
    /// The mark between values.
    Separator(u8),
    /// The mark between the names of a value.
    Alias(u8),
    /// The mark before a negative value.
    Prefix(u8),
    /// The file of seed rows.
    SeedFile(&'w str),
    /// How values are shuffled.
    ShuffleValues(Shuffle),
    /// Texts are compared by letter case.
    CaseCounts,
    /// Statistics are printed in place of rows.
    Statistics,
    /// The number of workers.
    Workers(u32),
    /// What one question may cost.
    Budget(Effort),
    /// The file that the proof is written to.
    ProofFile(&'w str),
    /// The form of the proof file.
    ProofFormat(ProofForm),
    /// The suite that is measured.
    MeasureFile(&'w str),
    /// The number of the model that is made.
    Make(u64),
    /// The suite with results in which suspicious tuples are looked for.
    SuspectFile(&'w str),
}

// Whether a word has a name before its first colon, in letters of either case.
pub(crate) fn is_named(word: &str, name: &str) -> bool
    ensures { result ≡ defined.is_named word.now name.now }
{
    match word.split_once(':') {
        Some((given, _)) => same_text(given, name, true),
        None => false,
    }
}

// Whether a character may stand between values, between names, or before a negative value.
fn is_mark(byte: u8) -> bool
    ensures { result ≡ is_mark byte }
{
    byte.is_ascii_punctuation() && !b"\"#():<>@[\\]{}".contains(&byte)
}

// The mark that a value gives.
fn mark_of(value: &str) -> Option<u8>
    ensures { result ≡ defined.mark_of value.now }
{
    match value.as_bytes() {
        [byte] if is_mark(*byte) => Some(*byte),
        _ => None,
    }
}

/// The file that the value of an option names; `None` exactly where it is empty.
pub fn file_of<'w>(value: &'w str) -> Option<&'w str>
    ensures { option_map (λ file. file.now) result ≡ defined.file_of value.now }
{
    if value.is_empty() { None } else { Some(value) }
}

// The order that a value gives.
fn order_word_of(value: &str) -> Option<OrderWord>
    ensures { option_map order_seen result ≡ defined.order_word_of value.now }
{
    if same_text(value, "max", true) {
        return Some(OrderWord::Max);
    }
    match read_count(value, 1, MOST_ORDER) {
        Some(order) => Some(OrderWord::Number(order as u32)),
        None => None,
    }
}

// What one question may cost, as a value gives it.
fn effort_of(value: &str) -> Option<Effort>
    ensures { result ≡ defined.effort_of value.now }
{
    if same_text(value, "max", true) {
        return Some(Effort::Full);
    }
    match read_count(value, 1, MOST_NODES) {
        Some(nodes) => Some(Effort::Within(nodes)),
        None => None,
    }
}

// The form of a proof file that a value gives.
fn form_of(value: &str) -> Option<ProofForm>
    ensures { option_map format_of result ≡ count_of value.now 1 2 }
{
    match read_count(value, 1, 2) {
        Some(1) => Some(ProofForm::One),
        Some(_) => Some(ProofForm::Two),
        None => None,
    }
}

// What a word without a colon sets.
fn bare_setting<'w>(word: &str) -> Option<Setting<'w>>
    ensures { option_map setting_seen result ≡ defined.bare_setting word.now }
{
    if same_text(word, "/r", true) {
        Some(Setting::ShuffleValues(Shuffle::Bare))
    } else if same_text(word, "/c", true) {
        Some(Setting::CaseCounts)
    } else if same_text(word, "/s", true) {
        Some(Setting::Statistics)
    } else {
        None
    }
}

// What a word with a colon sets, by the value behind the colon.
fn valued_setting<'w>(word: &str, value: &'w str) -> Option<Setting<'w>>
    ensures { option_map setting_seen result ≡ defined.valued_setting word.now value.now }
{
    if is_named(word, "/o") {
        Some(Setting::Order(order_word_of(value)?))
    } else if is_named(word, "/d") {
        Some(Setting::Separator(mark_of(value)?))
    } else if is_named(word, "/a") {
        Some(Setting::Alias(mark_of(value)?))
    } else if is_named(word, "/n") {
        Some(Setting::Prefix(mark_of(value)?))
    } else if is_named(word, "/e") {
        Some(Setting::SeedFile(file_of(value)?))
    } else if is_named(word, "/r") {
        Some(Setting::ShuffleValues(Shuffle::Number(read_count(value, 0, u64::MAX)?)))
    } else if is_named(word, "/workers") {
        Some(Setting::Workers(read_count(value, 1, MOST_WORKERS)? as u32))
    } else if is_named(word, "/budget") {
        Some(Setting::Budget(effort_of(value)?))
    } else if is_named(word, "/proof") {
        Some(Setting::ProofFile(file_of(value)?))
    } else if is_named(word, "/proofformat") {
        Some(Setting::ProofFormat(form_of(value)?))
    } else if is_named(word, "/measure") {
        Some(Setting::MeasureFile(file_of(value)?))
    } else if is_named(word, "/make") {
        Some(Setting::Make(read_count(value, 0, u64::MAX)?))
    } else if is_named(word, "/suspect") {
        Some(Setting::SuspectFile(file_of(value)?))
    } else {
        None
    }
}

/// What a word sets by itself; `None` exactly where it is no option, or its value is out of range.
pub fn setting_of<'w>(word: &'w str) -> Option<Setting<'w>>
    ensures { option_map setting_seen result ≡ defined.setting_of word.now }
{
    match word.split_once(':') {
        Some((_, value)) => valued_setting(word, value),
        None => bare_setting(word),
    }
}
