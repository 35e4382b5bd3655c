//! The program as `clap` takes it.
ghost use Rattle.std.specs.Prelude.{◌≡◌, [], false, IfOk};
ghost use Rattle.clap.specs.Words.{app_of};
ghost use Rattle.clap.specs.declared.builder.command.Command.TheViews.{out-Command as fields_of};
ghost use Rattle.jeldroft_args.specs.believed.Programs.{program_of, shape_of_command};

use crate::command_name::CommandName;
use clap::Command;
use std::alloc::{AllocError, Global};

// The version that `--version` prints.
const VERSION: &str = "1.0.0";

// A command of the program, with its arguments.
fn subcommand<'a>(alloc: Global, name: CommandName) -> Result<Command<'a>, AllocError>
    ensures shape { IfOk result (λ made.
        app_of made ≡ record { top = shape_of_command name; subs = [] }) }
    ensures local { IfOk result (λ made. (fields_of made).has_globals ≡ false) }
{
    let text: &'a str = name.text();
    let about: &'a str = name.about();
    let mut command = Command::new(alloc, text).about(about);
    for argument in name.arguments() {
        command = command.arg(argument.arg(alloc))?;
    }
    Ok(command)
}

// The program without its commands.
fn top<'a>(alloc: Global) -> Result<Command<'a>, AllocError>
    ensures { IfOk result (λ made. app_of made ≡ program_of []) }
{
    let top = Command::new(alloc, "jeldroft")
        .bin_name("jeldroft")?
        .about("Combinatorial testing: makes, checks and shows tables of tests")
        .version(VERSION)
        .no_binary_name(true)
        .disable_help_subcommand(true)
        .arg_required_else_help(true)
        .subcommand_required(true);
    Ok(top)
}

/// The program with these commands.
pub(crate) fn program<'a>(
    alloc: Global,
    commands: &[CommandName],
) -> Result<Command<'a>, AllocError>
    ensures { IfOk result (λ made. app_of made ≡ program_of commands.now) }
{
    let mut program = top(alloc)?;
    for name in commands {
        program = program.subcommand(subcommand(alloc, *name)?)?;
    }
    Ok(program)
}
