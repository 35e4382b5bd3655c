//! Which values and options go together.
ghost use Rattle.std.specs.Prelude.{◌≡◌, Some, None, map, is_none, IfOk, MatchResult, option_map};
ghost use Rattle.jeldroft_args.specs.Readings.{rows_given};
ghost use Rattle.jeldroft_args.specs.believed.Readings as readings;
ghost use Rattle.jeldroft_args.specs.Faults.{HasNone};
ghost use Rattle.jeldroft_args.specs.believed.Names.{overwritten};
ghost use Rattle.jeldroft_args.specs.declared.command.Command.{Command as Asked};
ghost use Rattle.jeldroft_args.specs.believed.Settings.{command_in};
ghost use Rattle.jeldroft_args.specs.believed.Rules as defined;

use crate::args_fault::ArgsFault;
use crate::argument::Argument;
use crate::asked::asked;
use crate::command::Command;
use crate::command_name::CommandName;
use crate::delimiter::Delimiter;
use crate::format::{FindingFormat, Format};
use crate::given;
use crate::marks::mark_of;
use crate::names::overwritten;
use crate::strength::Strength;
use clap::ArgMatches;
use std::alloc::{AllocError, Global};
use value_text::NoMemory;

// Options that mean nothing without another one.
static NEEDS: [(Argument, Argument); 4] = [
    (Argument::Spread, Argument::Shrink),
    (Argument::Rounds, Argument::Shrink),
    (Argument::Random, Argument::Shrink),
    (Argument::ProofFormat, Argument::Proof),
];

// Options that exclude each other.
static EXCLUSIONS: [(Argument, Argument); 1] = [(Argument::Report, Argument::Output)];

// The arguments that name files that are read.
static INPUTS: [Argument; 8] = [
    Argument::Model,
    Argument::Table,
    Argument::TableProof,
    Argument::Results,
    Argument::Events,
    Argument::ActsFile,
    Argument::Seeds,
    Argument::Report,
];

// The arguments that name files that are written.
static OUTPUTS: [Argument; 2] = [Argument::Output, Argument::Proof];

// Whether a value has a reading as that of an argument.
fn has_reading(argument: Argument, text: &str) -> bool
    ensures { result ≡ readings.has_reading argument text.now }
{
    match argument {
        Argument::Model | Argument::Table | Argument::Results | Argument::ResultColumn => {
            !text.is_empty()
        }
        Argument::TableProof
        | Argument::Events
        | Argument::ActsFile
        | Argument::Seeds
        | Argument::Proof
        | Argument::Output
        | Argument::Report => !text.is_empty() && text != "-",
        Argument::Strength => Strength::of(text).is_some(),
        Argument::SequenceLength => given::length_of(text).is_some(),
        Argument::ProofFormat => given::proof_format_of(text).is_some(),
        Argument::TableFormat => Format::of_table(text).is_some(),
        Argument::Format => Format::of(text).is_some(),
        Argument::FindingFormat => FindingFormat::of(text).is_some(),
        Argument::Shuffle | Argument::Random => given::number_of(text).is_some(),
        Argument::Rounds => given::rounds_of(text).is_some(),
        Argument::Budget => given::budget_of(text).is_some(),
        Argument::Threads => given::threads_of(text).is_some(),
        Argument::Separator | Argument::AliasSeparator | Argument::InvalidMark => {
            mark_of(text).is_some()
        }
        Argument::Delimiter => Delimiter::of(text).is_some(),
        Argument::Shrink
        | Argument::Spread
        | Argument::All
        | Argument::CaseSensitive
        | Argument::NoWarnings
        | Argument::Quiet => true,
    }
}

// Whether the value of an argument has a reading, if it got one.
fn is_read(matches: &ArgMatches<'_>, argument: Argument) -> bool
    ensures { result ≡ defined.is_read (rows_given matches.now) argument }
{
    match given::value_of(matches, argument) {
        Some(text) => has_reading(argument, text),
        None => true,
    }
}

// The first argument whose value has no reading.
fn unread(command: CommandName, matches: &ArgMatches<'_>) -> Option<Argument>
    ensures { result ≡ defined.unread command (rows_given matches.now) }
{
    for argument in command.arguments() {
        if !is_read(matches, *argument) {
            return Some(*argument);
        }
    }
    None
}

// The options of a command that mean nothing without another one.
fn needs_of(command: CommandName) -> &'static [(Argument, Argument)]
    ensures { result.now ≡ defined.needs_of command }
{
    match command {
        CommandName::Generate => &NEEDS,
        _ => &[],
    }
}

// Whether the first option of a pair is used without the second one.
fn is_unmet(matches: &ArgMatches<'_>, pair: (Argument, Argument)) -> bool
    ensures { result ≡ defined.is_unmet (rows_given matches.now) pair }
{
    given::is_used(matches, pair.0) && !given::is_used(matches, pair.1)
}

fn unmet_need(command: CommandName, matches: &ArgMatches<'_>) -> Option<(Argument, Argument)>
    ensures { result ≡ defined.unmet_need command (rows_given matches.now) }
{
    for pair in needs_of(command) {
        if is_unmet(matches, *pair) {
            return Some(*pair);
        }
    }
    None
}

// The options of a command that exclude each other.
fn exclusions_of(command: CommandName) -> &'static [(Argument, Argument)]
    ensures { result.now ≡ defined.exclusions_of command }
{
    match command {
        CommandName::Sequence => &EXCLUSIONS,
        _ => &[],
    }
}

// Whether both options of a pair are used.
fn are_both_used(matches: &ArgMatches<'_>, pair: (Argument, Argument)) -> bool
    ensures { result ≡ defined.are_both_used (rows_given matches.now) pair }
{
    given::is_used(matches, pair.0) && given::is_used(matches, pair.1)
}

fn excluded_pair(command: CommandName, matches: &ArgMatches<'_>) -> Option<(Argument, Argument)>
    ensures { result ≡ defined.excluded_pair command (rows_given matches.now) }
{
    for pair in exclusions_of(command) {
        if are_both_used(matches, *pair) {
            return Some(*pair);
        }
    }
    None
}

// Whether standard input is named twice.
fn reads_input_twice(matches: &ArgMatches<'_>) -> bool
    ensures { result ≡ defined.reads_input_twice (rows_given matches.now) }
{
    given::is_standard_input(matches, Argument::Model)
        && (given::is_standard_input(matches, Argument::Table)
            || given::is_standard_input(matches, Argument::Results))
}

// The names that some arguments got.
fn names_in<'a>(
    alloc: Global,
    arguments: &[Argument],
    matches: &ArgMatches<'a>,
) -> Result<Vec<&'a str>, NoMemory>
    ensures { IfOk result (λ names. map (λ n. n.now) names.items
        ≡ defined.names_in arguments.now (rows_given matches.now)) }
{
    let mut names = Vec::new(alloc);
    for argument in arguments {
        if let Some(name) = given::value_of(matches, *argument) {
            names.push(name)?;
        }
    }
    Ok(names)
}

// The first output that has the name of an input, or of a later output.
fn overwritten_in<'a>(alloc: Global, matches: &ArgMatches<'a>) -> Result<Option<&'a str>, NoMemory>
    ensures { IfOk result (λ name. option_map (λ n. n.now) name
        ≡ overwritten (defined.names_in defined.inputs (rows_given matches.now))
        (defined.names_in defined.outputs (rows_given matches.now))) }
{
    let inputs = names_in(alloc, &INPUTS, matches)?;
    let outputs = names_in(alloc, &OUTPUTS, matches)?;
    Ok(overwritten(inputs.as_slice(), outputs.as_slice()))
}

// Why a command doesn't go with these values and options, if it doesn't.
#[derive(Drop, Clone, Copy)]
enum RuleFault<'a> {
    Unread(Argument),
    Unmet(Argument, Argument),
    Excluded(Argument, Argument),
    InputTwice,
    EqualMarks,
    Overwritten(&'a str),
}

fn fault_in<'a>(
    alloc: Global,
    command: CommandName,
    matches: &ArgMatches<'a>,
) -> Result<Option<RuleFault<'a>>, NoMemory>
    ensures { IfOk result (λ fault.
        is_none fault ≡ defined.is_allowed command (rows_given matches.now)) }
{
    if let Some(argument) = unread(command, matches) {
        return Ok(Some(RuleFault::Unread(argument)));
    }
    if let Some((one, other)) = unmet_need(command, matches) {
        return Ok(Some(RuleFault::Unmet(one, other)));
    }
    if let Some((one, other)) = excluded_pair(command, matches) {
        return Ok(Some(RuleFault::Excluded(one, other)));
    }
    if reads_input_twice(matches) {
        return Ok(Some(RuleFault::InputTwice));
    }
    if given::marks(matches).are_equal() {
        return Ok(Some(RuleFault::EqualMarks));
    }
    match overwritten_in(alloc, matches)? {
        Some(name) => Ok(Some(RuleFault::Overwritten(name))),
        None => Ok(None),
    }
}

// The text for standard error where a value has no reading.
fn unread_text(
    alloc: Global,
    argument: Argument,
    matches: &ArgMatches<'_>,
) -> Result<String, AllocError> {
    let text = given::value_of(matches, argument).unwrap_or("");
    let shown = argument.shown(alloc)?;
    let wanted = argument.wanted();
    format!(in alloc; "jeldroft: error: invalid value '{text}' for '{shown}': {wanted}\n")
}

// The text for standard error where values and options don't go together.
fn rule_text(
    alloc: Global,
    fault: RuleFault<'_>,
    matches: &ArgMatches<'_>,
) -> Result<String, AllocError> {
    match fault {
        RuleFault::Unread(argument) => unread_text(alloc, argument, matches),
        RuleFault::Unmet(one, other) => {
            let (one, other) = (one.name(), other.name());
            format!(in alloc; "jeldroft: error: '--{one}' can only be used with '--{other}'\n")
        }
        RuleFault::Excluded(one, other) => {
            let (one, other) = (one.name(), other.name());
            format!(in alloc; "jeldroft: error: '--{one}' cannot be used with '--{other}'\n")
        }
        RuleFault::InputTwice => {
            format!(in alloc; "jeldroft: error: standard input ('-') can be read only once\n")
        }
        RuleFault::EqualMarks => {
            format!(in alloc;
                "jeldroft: error: the delimiters and the prefix of invalid values \
                have to differ\n"
            )
        }
        RuleFault::Overwritten(name) => {
            format!(in alloc;
                "jeldroft: error: '{name}' is written, and is read too or written \
                twice\n"
            )
        }
    }
}

// The refusal of words whose values and options don't go together.
fn refusal(alloc: Global, fault: RuleFault<'_>, matches: &ArgMatches<'_>) -> ArgsFault
    ensures { HasNone {X = Asked} None result }
{
    match rule_text(alloc, fault, matches) {
        Ok(text) => ArgsFault::Refused(text),
        Err(_) => ArgsFault::OutOfMemory,
    }
}

/// What is asked of a command with these matches, where each value has a reading and the options go
/// together.
pub(crate) fn ask(
    alloc: Global,
    command: CommandName,
    matches: &ArgMatches<'_>,
) -> Result<Command, ArgsFault>
    ensures { MatchResult result
        (λ asked. command_in command (rows_given matches.now) ≡ Some asked)
        (HasNone (command_in command (rows_given matches.now))) }
{
    if let Some(fault) = fault_in(alloc, command, matches)? {
        return Err(refusal(alloc, fault, matches));
    }
    Ok(asked(alloc, command, matches)?)
}
