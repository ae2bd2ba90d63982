//! The table of commands, as `clap` takes it.
ghost use Rattle.std.specs.Prelude.{map, fold, IfOk};
ghost use Rattle.clap.specs.Words.{with_subcommand};
ghost use Rattle.lto_words.specs.Table.{Builds, alone, rule, shape};
ghost use Rattle.lto_words.specs.Table as table;

use crate::argument::{Argument, BATCH, GEN, INDEX, LINK, RUN};
use clap::Command;
use std::alloc::{AllocError, Global};

/// The commands, each with its arguments.
const COMMANDS: [(&str, &[Argument]); 5] = [
    ("link", &LINK),
    ("batch", &BATCH),
    ("index", &INDEX),
    ("run", &RUN),
    ("gen", &GEN),
];

/// A command with these arguments.
fn command<'a>(
    alloc: Global,
    name: &'a str,
    arguments: &[Argument],
) -> Result<Command<'a>, AllocError>
    ensures { IfOk result (Builds (alone (table.command name.entry.now (map rule arguments.now)))) }
{
    let mut command = Command::new(alloc, name);
    for argument in arguments {
        command = match command.arg(argument.to_arg(alloc)) {
            Ok(command) => command,
            Err(error) => return Err(error),
        };
    }
    Ok(command)
}

/// The program without its commands.
fn program<'a>(alloc: Global) -> Command<'a>
    ensures { Builds table.program result }
{
    Command::new(alloc, "thinlto")
        .no_binary_name(true)
        .disable_help_flag(true)
        .disable_help_subcommand(true)
        .subcommand_required(true)
}

/// The program with these commands.
fn with_commands<'a>(
    alloc: Global,
    commands: &[(&'a str, &[Argument])],
) -> Result<Command<'a>, AllocError>
    ensures { IfOk result (Builds (fold with_subcommand table.program (map shape commands.now))) }
{
    let mut program = program(alloc);
    for &(name, arguments) in commands {
        let Ok(command) = command(alloc, name, arguments) else {
            return Err(AllocError);
        };
        program = match program.subcommand(command) {
            Ok(program) => program,
            Err(error) => return Err(error),
        };
    }
    Ok(program)
}

/// The program with all its commands.
#[tactic(auto, unfolding(crate::specs::Table::thinlto))]
pub(crate) fn thinlto<'a>(alloc: Global) -> Result<Command<'a>, AllocError>
    ensures { IfOk result (Builds table.thinlto) }
{
    with_commands(alloc, &COMMANDS)
}
