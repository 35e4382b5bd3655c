//! What the words gave for single arguments.
ghost use Rattle.std.specs.Prelude.{◌≡◌, IfOk, option_map};
ghost use Rattle.jeldroft_args.specs.Readings.{rows_given};
ghost use Rattle.jeldroft_args.specs.believed.Readings as readings;
ghost use Rattle.jeldroft_args.specs.believed.Rules.{is_standard_input, is_used};
ghost use Rattle.jeldroft_args.specs.believed.Settings as defined;

use crate::argument::{Argument, ArgumentKind};
use crate::delimiter::Delimiter;
use crate::format::{FindingFormat, Format};
use crate::marks::{Marks, mark_of};
use crate::model_file::ModelFile;
use crate::proof_output::ProofOutput;
use crate::shrinking::Shrinking;
use crate::strength::Strength;
use clap::ArgMatches;
use std::alloc::Global;
use value_text::{NoMemory, Text, read_count};

// The most moves for each number of tests, and the most nodes of a query.
const MOST: u64 = 1 << 40;

// The value that an argument got, if it got one.
pub(crate) fn value_of<'a>(matches: &ArgMatches<'a>, argument: Argument) -> Option<&'a str>
    ensures { option_map (λ t. t.now) result ≡ readings.value_of argument (rows_given matches.now) }
{
    matches.get_str(argument.name())
}

// Whether an option without a value was used.
pub(crate) fn is_on(matches: &ArgMatches<'_>, argument: Argument) -> bool
    ensures { result ≡ readings.is_on argument (rows_given matches.now) }
{
    match value_of(matches, argument) {
        Some(text) => text == "true",
        None => false,
    }
}

// Whether the words used an option.
pub(crate) fn is_used(matches: &ArgMatches<'_>, argument: Argument) -> bool
    ensures { result ≡ is_used argument (rows_given matches.now) }
{
    match argument.kind() {
        ArgumentKind::Flag => is_on(matches, argument),
        _ => value_of(matches, argument).is_some(),
    }
}

// Whether an argument names standard input.
pub(crate) fn is_standard_input(matches: &ArgMatches<'_>, argument: Argument) -> bool
    ensures { result ≡ is_standard_input argument (rows_given matches.now) }
{
    match value_of(matches, argument) {
        Some(text) => text == "-",
        None => false,
    }
}

pub(crate) fn length_of(text: &str) -> Option<u32>
    ensures { result ≡ readings.length_of text.now }
{
    match read_count(text, 2, 3) {
        Some(length) => Some(length as u32),
        None => None,
    }
}

pub(crate) fn proof_format_of(text: &str) -> Option<u32>
    ensures { result ≡ readings.proof_format_of text.now }
{
    match read_count(text, 1, 2) {
        Some(format) => Some(format as u32),
        None => None,
    }
}

pub(crate) fn threads_of(text: &str) -> Option<u32>
    ensures { result ≡ readings.threads_of text.now }
{
    match read_count(text, 1, 64) {
        Some(threads) => Some(threads as u32),
        None => None,
    }
}

pub(crate) fn rounds_of(text: &str) -> Option<u64>
    ensures { result ≡ readings.rounds_of text.now }
{
    read_count(text, 0, MOST)
}

pub(crate) fn budget_of(text: &str) -> Option<u64>
    ensures { result ≡ readings.budget_of text.now }
{
    read_count(text, 1, MOST)
}

pub(crate) fn number_of(text: &str) -> Option<u64>
    ensures { result ≡ readings.number_of text.now }
{
    read_count(text, 0, u64::MAX)
}

// The delimiter or prefix that an option says, or the usual one.
fn mark_or(matches: &ArgMatches<'_>, argument: Argument, usual: u8) -> u8
    ensures { result ≡ readings.read_or readings.mark_of usual
        (readings.value_of argument (rows_given matches.now)) }
{
    match value_of(matches, argument) {
        Some(text) => mark_of(text).unwrap_or(usual),
        None => usual,
    }
}

pub(crate) fn marks(matches: &ArgMatches<'_>) -> Marks
    ensures { result ≡ readings.marks_in (rows_given matches.now) }
{
    Marks {
        separator: mark_or(matches, Argument::Separator, b','),
        alias: mark_or(matches, Argument::AliasSeparator, b'|'),
        invalid: mark_or(matches, Argument::InvalidMark, b'~'),
    }
}

// The name of a file that has to be named.
pub(crate) fn file(
    alloc: Global,
    matches: &ArgMatches<'_>,
    argument: Argument,
) -> Result<Text, NoMemory>
    ensures { IfOk result (λ name. name ≡ defined.file_in argument (rows_given matches.now)) }
{
    Text::copy(alloc, value_of(matches, argument).unwrap_or(""))
}

// The name of a file that may be named, or of a column.
pub(crate) fn optional_name(
    alloc: Global,
    matches: &ArgMatches<'_>,
    argument: Argument,
) -> Result<Option<Text>, NoMemory>
    ensures { IfOk result (λ name. name ≡ readings.value_of argument (rows_given matches.now)) }
{
    match value_of(matches, argument) {
        Some(text) => Ok(Some(Text::copy(alloc, text)?)),
        None => Ok(None),
    }
}

pub(crate) fn model(alloc: Global, matches: &ArgMatches<'_>) -> Result<ModelFile, NoMemory>
    ensures { IfOk result (λ model. model ≡ defined.model_in (rows_given matches.now)) }
{
    let name = file(alloc, matches, Argument::Model)?;
    Ok(ModelFile {
        name,
        case_sensitive: is_on(matches, Argument::CaseSensitive),
        marks: marks(matches),
    })
}

pub(crate) fn strength(matches: &ArgMatches<'_>) -> Strength
    ensures { result ≡ defined.strength_in (rows_given matches.now) }
{
    let usual = Strength::Number(2);
    match value_of(matches, Argument::Strength) {
        Some(text) => Strength::of(text).unwrap_or(usual),
        None => usual,
    }
}

pub(crate) fn length(matches: &ArgMatches<'_>) -> u32
    ensures { result ≡ defined.length_in (rows_given matches.now) }
{
    match value_of(matches, Argument::SequenceLength) {
        Some(text) => length_of(text).unwrap_or(2),
        None => 2,
    }
}

pub(crate) fn delimiter(matches: &ArgMatches<'_>) -> Option<Delimiter>
    ensures { result ≡ defined.delimiter_in (rows_given matches.now) }
{
    Delimiter::of(value_of(matches, Argument::Delimiter)?)
}

fn proof_format(matches: &ArgMatches<'_>) -> u32
    ensures { result ≡ defined.proof_format_in (rows_given matches.now) }
{
    match value_of(matches, Argument::ProofFormat) {
        Some(text) => proof_format_of(text).unwrap_or(1),
        None => 1,
    }
}

pub(crate) fn proof(
    alloc: Global,
    matches: &ArgMatches<'_>,
) -> Result<Option<ProofOutput>, NoMemory>
    ensures { IfOk result (λ proof. proof ≡ defined.proof_in (rows_given matches.now)) }
{
    let format = proof_format(matches);
    match value_of(matches, Argument::Proof) {
        Some(text) => {
            let name = Text::copy(alloc, text)?;
            Ok(Some(ProofOutput { name, format }))
        }
        None => Ok(None),
    }
}

pub(crate) fn table_format(matches: &ArgMatches<'_>) -> Format
    ensures { result ≡ defined.table_format_in (rows_given matches.now) }
{
    match value_of(matches, Argument::TableFormat) {
        Some(text) => Format::of_table(text).unwrap_or(Format::Tsv),
        None => Format::Tsv,
    }
}

pub(crate) fn format(matches: &ArgMatches<'_>) -> Format
    ensures { result ≡ defined.format_in (rows_given matches.now) }
{
    match value_of(matches, Argument::Format) {
        Some(text) => Format::of(text).unwrap_or(Format::Text),
        None => Format::Text,
    }
}

pub(crate) fn finding_format(matches: &ArgMatches<'_>) -> FindingFormat
    ensures { result ≡ defined.finding_format_in (rows_given matches.now) }
{
    match value_of(matches, Argument::FindingFormat) {
        Some(text) => FindingFormat::of(text).unwrap_or(FindingFormat::Text),
        None => FindingFormat::Text,
    }
}

fn rounds(matches: &ArgMatches<'_>) -> u64
    ensures { result ≡ defined.rounds_in (rows_given matches.now) }
{
    match value_of(matches, Argument::Rounds) {
        Some(text) => rounds_of(text).unwrap_or(10_000),
        None => 10_000,
    }
}

fn random(matches: &ArgMatches<'_>) -> u64
    ensures { result ≡ defined.random_in (rows_given matches.now) }
{
    match value_of(matches, Argument::Random) {
        Some(text) => number_of(text).unwrap_or(0),
        None => 0,
    }
}

pub(crate) fn shrinking(matches: &ArgMatches<'_>) -> Shrinking
    ensures { result ≡ defined.shrinking_in (rows_given matches.now) }
{
    Shrinking {
        spread: is_on(matches, Argument::Spread),
        rounds: rounds(matches),
        random: random(matches),
    }
}

pub(crate) fn shuffle(matches: &ArgMatches<'_>) -> Option<u64>
    ensures { result ≡ defined.shuffle_in (rows_given matches.now) }
{
    number_of(value_of(matches, Argument::Shuffle)?)
}

pub(crate) fn budget(matches: &ArgMatches<'_>) -> Option<u64>
    ensures { result ≡ defined.budget_in (rows_given matches.now) }
{
    budget_of(value_of(matches, Argument::Budget)?)
}

pub(crate) fn threads(matches: &ArgMatches<'_>) -> u32
    ensures { result ≡ defined.threads_in (rows_given matches.now) }
{
    match value_of(matches, Argument::Threads) {
        Some(text) => threads_of(text).unwrap_or(1),
        None => 1,
    }
}
