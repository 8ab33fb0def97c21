//! The commands of a text, line by line.

ghost use Rattle.std.specs.Prelude.{◌≡◌, OnOk, IfOk, IfErr, IfSome, Ok, Err, Option, Result};
ghost use Rattle.std.specs.List.{All};
ghost use Rattle.debug_core.specs.Reading.{AsksForFew, Refuses, commands_or_fault, stated, with_said};

use crate::command::{Command, CommandFault};
use crate::line::said;
use std::alloc::Global;
use text_lines::Lines;

const MOST: usize = 1024;

/// Adds the command of a line, if it has one, or returns why the line is refused.
fn take(
    commands: &mut Vec<Command>,
    said: Result<Option<Command>, u8>,
    line: usize,
) -> Result<(), CommandFault>
    ensures ok { OnOk result (with_said commands.old.items said ≡ Ok commands.new.items) }
    ensures err { IfErr result (λ e. Refuses e line (with_said commands.old.items said)) }
{
    match said {
        Err(cause) => Err(CommandFault::Refused { cause, line }),
        Ok(None) => Ok(()),
        Ok(Some(command)) => {
            if commands.len() >= MOST {
                return Err(CommandFault::Refused { cause: 4, line });
            }
            match commands.push(command) {
                Err(_) => Err(CommandFault::Memory),
                Ok(()) => Ok(()),
            }
        }
    }
}

fn commands_of(alloc: Global, bytes: &[u8]) -> Result<Vec<Command>, CommandFault>
    ensures ok { IfOk result (λ v. commands_or_fault bytes.now ≡ Ok v.items) }
    ensures refused { IfErr result (λ e.
        IfSome (stated e) (λ t. commands_or_fault bytes.now ≡ Err t)) }
{
    let mut commands = Vec::new(alloc);
    let mut number = 0usize;
    let mut lines = Lines::of(bytes);
    'lines: while let Some(line) = lines.next() {
        number += 1;
        match take(&mut commands, said(line), number) {
            Err(fault) => return Err(fault),
            Ok(()) => {}
        }
    }
    Ok(commands)
}

/// The commands of a text.
#[derive(Drop)]
pub struct Commands {
    commands: Vec<Command>,
    ghost few: { All AsksForFew commands.items },
}

impl Commands {
    ghost use Rattle.debug_core.specs.Listed.{listed};

    /// Reads the commands of a text. Refuses the text with the first cause in the order of
    /// docs/FORMATS.md, Commands, and its line; lines are counted from 1. Fails with `Memory` if
    /// memory runs out.
    pub fn read(alloc: Global, bytes: &[u8]) -> Result<Commands, CommandFault>
        ensures ok { IfOk result (λ c. commands_or_fault bytes.now ≡ Ok (listed c)) }
        ensures refused { IfErr result (λ e.
            IfSome (stated e) (λ t. commands_or_fault bytes.now ≡ Err t)) }
    {
        match commands_of(alloc, bytes) {
            Err(fault) => Err(fault),
            Ok(commands) => Ok(Commands { commands }),
        }
    }

    /// The commands in their order.
    pub fn as_slice(&self) -> &[Command]
        ensures same { result.now ≡ listed self.now }
        ensures few { All AsksForFew result.now }
    {
        &self.commands
    }
}
