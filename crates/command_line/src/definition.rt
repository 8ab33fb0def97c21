//! The definition for `clap`: loops make its value from the rows of the commands.
ghost use Rattle.std.specs.Prelude.{◌≡◌, IfOk, false};
ghost use Rattle.clap.specs.Words.{app_of, rule_of};
ghost use Rattle.clap.specs.declared.builder.command.Command.TheViews.{out-Command as fields_of};
ghost use Rattle.command_line.specs.CommandLine.{bare_app, hubris_app, most_seed, most_steps, number_parser};
ghost use Rattle.command_line.specs.Table.{app_of_row, rule_of_argument, with_rows};

use crate::commands::Argument::{Flag, OptionalWord, Seed, Setting, Steps, Turn, Word};
use crate::commands::{Argument, COMMANDS, CommandRow};
use clap::builder::ValueParser;
use clap::{Arg, ArgAction, Command};
use std::alloc::{AllocError, Global};

fn seed_parser<'a>() -> ValueParser<'a>
    ensures { result ≡ number_parser most_seed }
{
    clap::value_parser!(u32)
}

fn turns_parser<'a>() -> ValueParser<'a>
    ensures { result ≡ number_parser most_steps }
{
    clap::value_parser!(u32).range(0..=1_000_000_000)
}

fn arg_of<'a>(alloc: Global, argument: Argument) -> Arg<'a>
    ensures rule { rule_of result ≡ rule_of_argument argument }
    ensures local { result.global ≡ false }
{
    match argument {
        Word(name) => Arg::new(alloc, name).required(true),
        Seed => Arg::new(alloc, "seed")
            .required(true)
            .value_parser(seed_parser()),
        Turn(name) => Arg::new(alloc, name)
            .required(true)
            .value_parser(turns_parser()),
        OptionalWord(name) => Arg::new(alloc, name),
        Steps => Arg::new(alloc, "steps")
            .long("steps")
            .required(true)
            .value_parser(turns_parser()),
        Setting(name) => Arg::new(alloc, name).long(name),
        Flag(name) => Arg::new(alloc, name).long(name).action(ArgAction::SetTrue),
    }
}

fn command_of<'a>(alloc: Global, row: &CommandRow) -> Result<Command<'a>, AllocError>
    ensures shape { IfOk result (λ c. app_of c ≡ app_of_row row.now) }
    ensures local { IfOk result (λ c. (fields_of c).has_globals ≡ false) }
{
    let mut command = Command::new(alloc, row.name);
    for argument in row.arguments {
        command = command.arg(arg_of(alloc, *argument))?;
    }
    Ok(command)
}

// The program before its commands are added; one of them is required. clap's own `help` is
// disabled, since it would only print.
fn bare_program<'a>(alloc: Global) -> Command<'a>
    ensures { app_of result ≡ bare_app }
{
    Command::new(alloc, "hubris")
        .subcommand_required(true)
        .disable_help_subcommand(true)
}

fn with_commands<'a>(
    alloc: Global,
    program: Command<'a>,
    rows: &[CommandRow],
) -> Result<Command<'a>, AllocError>
    ensures { IfOk result (λ c. app_of c ≡ with_rows (app_of program.entry) rows.now) }
{
    let mut program = program;
    for row in rows {
        let command = command_of(alloc, row)?;
        program = program.subcommand(command)?;
    }
    Ok(program)
}

/// The program's command line: one of the commands above is required.
pub fn hubris_command<'a>(alloc: Global) -> Result<Command<'a>, AllocError>
    ensures shape { IfOk result (λ c. app_of c ≡ hubris_app) }
{
    with_commands(alloc, bare_program(alloc), &COMMANDS)
}
