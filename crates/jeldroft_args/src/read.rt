ghost use Rattle.std.specs.Prelude.{◌≡◌, Some, None, map, IfOk, IfErr, MatchResult, option_map};
ghost use Rattle.std.specs.String.{string_bytes};
ghost use Rattle.clap.specs.Words.{kind_of, subcommand_rows_of};
ghost use Rattle.jeldroft_args.specs.Readings.{rows_given};
ghost use Rattle.jeldroft_args.specs.Faults.{FitsKind, HasCause, HasNone};
ghost use Rattle.jeldroft_args.specs.declared.command.Command.{Command as Asked};
ghost use Rattle.jeldroft_args.specs.Ranges.{IsInRange};
ghost use Rattle.jeldroft_args.specs.believed.Settings as defined;

use crate::args_fault::ArgsFault;
use crate::command::Command;
use crate::command_name::CommandName;
use crate::program::program;
use crate::rules::ask;
use clap::error::ErrorKind;
use clap::{ArgMatches, Error};
use std::alloc::Global;

// The command that a word names.
fn command_named(commands: &[CommandName], word: &str) -> Option<CommandName>
    ensures { result ≡ defined.command_named commands.now word.now }
{
    for command in commands {
        if command.text() == word {
            return Some(*command);
        }
    }
    None
}

// The command that a parse met, with its matches.
fn met<'m, 'w>(matches: &'m ArgMatches<'w>) -> Option<(&'w str, &'m ArgMatches<'w>)>
    ensures { option_map (λ pair. (pair.0.now, rows_given pair.1.now)) result
        ≡ subcommand_rows_of matches.now }
{
    matches.subcommand()
}

// The refusal of words that name no command.
fn no_command(alloc: Global) -> ArgsFault
    ensures { HasNone {X = Asked} None result }
{
    match String::from_str(alloc, "jeldroft: error: a command is missing\n") {
        Ok(text) => ArgsFault::Refused(text),
        Err(_) => ArgsFault::OutOfMemory,
    }
}

// What is asked for where a parse gave these matches.
fn ask_met(
    alloc: Global,
    commands: &[CommandName],
    matches: &ArgMatches<'_>,
) -> Result<Command, ArgsFault>
    ensures { MatchResult result
        (λ asked. defined.asked_in commands.now (subcommand_rows_of matches.now) ≡ Some asked)
        (HasNone (defined.asked_in commands.now (subcommand_rows_of matches.now))) }
{
    let Some((word, given)) = met(matches) else {
        return Err(no_command(alloc));
    };
    let Some(command) = command_named(commands, word) else {
        return Err(no_command(alloc));
    };
    ask(alloc, command, given)
}

// What an error of the parse comes to. Help that comes without being asked for has no line of an
// error.
fn fault_from(alloc: Global, error: &Error) -> ArgsFault
    ensures { FitsKind (kind_of error.now) result }
{
    let kind = error.kind();
    let text = match kind {
        ErrorKind::OutOfMemory => return ArgsFault::OutOfMemory,
        ErrorKind::DisplayHelp
        | ErrorKind::DisplayVersion
        | ErrorKind::DisplayHelpOnMissingArgumentOrSubcommand => format!(in alloc; "{error}"),
        _ => format!(in alloc; "jeldroft: {error}"),
    };
    match text {
        Ok(text) => match kind {
            ErrorKind::DisplayHelp | ErrorKind::DisplayVersion => ArgsFault::Shown(text),
            _ => ArgsFault::Refused(text),
        },
        Err(_) => ArgsFault::OutOfMemory,
    }
}

/// What the words behind the program's name ask for, of a program with these commands (GNU's form
/// of options; which there are is this project's rule).
///
/// # Errors
///
/// `Shown` where help or the version is asked for, `Refused` where the words are no command line of
/// the program, a value has no reading, or options don't go together, and `OutOfMemory`.
pub fn read_args<'w>(
    alloc: Global,
    commands: &[CommandName],
    words: &'w [String],
) -> Result<Command, ArgsFault>
    ensures asked { IfOk result (λ asked.
        defined.settings_of commands.now (map string_bytes words.now) ≡ Some asked) }
    ensures in_range { IfOk result IsInRange }
    ensures cause { IfErr result (HasCause commands.now (map string_bytes words.now)) }
{
    let program = program(alloc, commands)?;
    match program.try_get_matches_from(words) {
        Ok(matches) => ask_met(alloc, commands, &matches),
        Err(error) => Err(fault_from(alloc, &error)),
    }
}
