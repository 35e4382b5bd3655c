//! What each command is asked for.
ghost use Rattle.std.specs.Prelude.{◌≡◌, IfOk};
ghost use Rattle.jeldroft_args.specs.Readings.{rows_given};
ghost use Rattle.jeldroft_args.specs.believed.Settings as defined;

use crate::argument::Argument;
use crate::check::Check;
use crate::command::Command;
use crate::command_name::CommandName;
use crate::generate::Generate;
use crate::given;
use crate::import::Import;
use crate::lint::Lint;
use crate::measure::Measure;
use crate::sequence::Sequence;
use crate::show::Show;
use crate::shrink::Shrink;
use crate::suspect::Suspect;
use clap::ArgMatches;
use std::alloc::Global;
use value_text::NoMemory;

fn generate(alloc: Global, matches: &ArgMatches<'_>) -> Result<Generate, NoMemory>
    ensures { IfOk result (λ asked. asked ≡ defined.generate_in (rows_given matches.now)) }
{
    let seeds = given::optional_name(alloc, matches, Argument::Seeds)?;
    let output = given::optional_name(alloc, matches, Argument::Output)?;
    let proof = given::proof(alloc, matches)?;
    let model = given::model(alloc, matches)?;
    let shrinking = if given::is_on(matches, Argument::Shrink) {
        Some(given::shrinking(matches))
    } else {
        None
    };
    Ok(Generate {
        model,
        strength: given::strength(matches),
        seeds,
        delimiter: given::delimiter(matches),
        proof,
        format: given::table_format(matches),
        output,
        shrinking,
        shuffle: given::shuffle(matches),
        budget: given::budget(matches),
        threads: given::threads(matches),
        no_warnings: given::is_on(matches, Argument::NoWarnings),
        quiet: given::is_on(matches, Argument::Quiet),
    })
}

fn check(alloc: Global, matches: &ArgMatches<'_>) -> Result<Check, NoMemory>
    ensures { IfOk result (λ asked. asked ≡ defined.check_in (rows_given matches.now)) }
{
    let table = given::file(alloc, matches, Argument::Table)?;
    let proof = given::optional_name(alloc, matches, Argument::TableProof)?;
    let model = given::model(alloc, matches)?;
    Ok(Check {
        model,
        table,
        proof,
        strength: given::strength(matches),
        delimiter: given::delimiter(matches),
        threads: given::threads(matches),
    })
}

fn shrink(alloc: Global, matches: &ArgMatches<'_>) -> Result<Shrink, NoMemory>
    ensures { IfOk result (λ asked. asked ≡ defined.shrink_in (rows_given matches.now)) }
{
    let table = given::file(alloc, matches, Argument::Table)?;
    let seeds = given::optional_name(alloc, matches, Argument::Seeds)?;
    let output = given::optional_name(alloc, matches, Argument::Output)?;
    let model = given::model(alloc, matches)?;
    Ok(Shrink {
        model,
        table,
        strength: given::strength(matches),
        seeds,
        delimiter: given::delimiter(matches),
        format: given::table_format(matches),
        output,
        shrinking: given::shrinking(matches),
        budget: given::budget(matches),
        no_warnings: given::is_on(matches, Argument::NoWarnings),
        quiet: given::is_on(matches, Argument::Quiet),
    })
}

fn show(alloc: Global, matches: &ArgMatches<'_>) -> Result<Show, NoMemory>
    ensures { IfOk result (λ asked. asked ≡ defined.show_in (rows_given matches.now)) }
{
    let table = given::file(alloc, matches, Argument::Table)?;
    let proof = given::optional_name(alloc, matches, Argument::TableProof)?;
    let output = given::optional_name(alloc, matches, Argument::Output)?;
    let model = given::model(alloc, matches)?;
    Ok(Show {
        model,
        table,
        proof,
        strength: given::strength(matches),
        delimiter: given::delimiter(matches),
        format: given::format(matches),
        output,
        threads: given::threads(matches),
        no_warnings: given::is_on(matches, Argument::NoWarnings),
    })
}

fn lint(alloc: Global, matches: &ArgMatches<'_>) -> Result<Lint, NoMemory>
    ensures { IfOk result (λ asked. asked ≡ defined.lint_in (rows_given matches.now)) }
{
    let model = given::model(alloc, matches)?;
    Ok(Lint {
        model,
        all: given::is_on(matches, Argument::All),
        format: given::finding_format(matches),
    })
}

fn measure(alloc: Global, matches: &ArgMatches<'_>) -> Result<Measure, NoMemory>
    ensures { IfOk result (λ asked. asked ≡ defined.measure_in (rows_given matches.now)) }
{
    let table = given::file(alloc, matches, Argument::Table)?;
    let output = given::optional_name(alloc, matches, Argument::Output)?;
    let model = given::model(alloc, matches)?;
    Ok(Measure {
        model,
        table,
        strength: given::strength(matches),
        delimiter: given::delimiter(matches),
        output,
        budget: given::budget(matches),
        threads: given::threads(matches),
    })
}

fn suspect(alloc: Global, matches: &ArgMatches<'_>) -> Result<Suspect, NoMemory>
    ensures { IfOk result (λ asked. asked ≡ defined.suspect_in (rows_given matches.now)) }
{
    let results = given::file(alloc, matches, Argument::Results)?;
    let result = given::optional_name(alloc, matches, Argument::ResultColumn)?;
    let output = given::optional_name(alloc, matches, Argument::Output)?;
    let model = given::model(alloc, matches)?;
    Ok(Suspect {
        model,
        results,
        strength: given::strength(matches),
        result,
        delimiter: given::delimiter(matches),
        output,
    })
}

fn sequence(alloc: Global, matches: &ArgMatches<'_>) -> Result<Sequence, NoMemory>
    ensures { IfOk result (λ asked. asked ≡ defined.sequence_in (rows_given matches.now)) }
{
    let events = given::file(alloc, matches, Argument::Events)?;
    let report = given::optional_name(alloc, matches, Argument::Report)?;
    let output = given::optional_name(alloc, matches, Argument::Output)?;
    Ok(Sequence {
        events,
        length: given::length(matches),
        report,
        output,
    })
}

fn import(alloc: Global, matches: &ArgMatches<'_>) -> Result<Import, NoMemory>
    ensures { IfOk result (λ asked. asked ≡ defined.import_in (rows_given matches.now)) }
{
    let file = given::file(alloc, matches, Argument::ActsFile)?;
    let output = given::optional_name(alloc, matches, Argument::Output)?;
    Ok(Import {
        file,
        case_sensitive: given::is_on(matches, Argument::CaseSensitive),
        output,
    })
}

// What is asked of a command with these matches.
pub(crate) fn asked(
    alloc: Global,
    command: CommandName,
    matches: &ArgMatches<'_>,
) -> Result<Command, NoMemory>
    ensures { IfOk result (λ asked. asked ≡ defined.asked_of command (rows_given matches.now)) }
{
    match command {
        CommandName::Generate => Ok(Command::Generate(generate(alloc, matches)?)),
        CommandName::Check => Ok(Command::Check(check(alloc, matches)?)),
        CommandName::Shrink => Ok(Command::Shrink(shrink(alloc, matches)?)),
        CommandName::Show => Ok(Command::Show(show(alloc, matches)?)),
        CommandName::Lint => Ok(Command::Lint(lint(alloc, matches)?)),
        CommandName::Measure => Ok(Command::Measure(measure(alloc, matches)?)),
        CommandName::Suspect => Ok(Command::Suspect(suspect(alloc, matches)?)),
        CommandName::Sequence => Ok(Command::Sequence(sequence(alloc, matches)?)),
        CommandName::Import => Ok(Command::Import(import(alloc, matches)?)),
    }
}
