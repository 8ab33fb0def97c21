//! The words after the program's name.
ghost use Rattle.std.specs.Prelude.{◌≡◌, ◌≤◌, IfOk, IfErr, Some, true, false, map, string_bytes};
ghost use Rattle.command_line.specs.CommandLine.{is_accepted, job_of, most_steps};
ghost use Rattle.command_line.specs.Asking.{asked, steps_of};

use crate::definition::hubris_command;
use crate::job::{Job, job_by};
use clap::error::ErrorKind;
use std::alloc::Global;

/// Why words give no job.
#[derive(Clone, Copy, Drop)]
pub enum Refusal {
    /// The definition does not accept the words, or `help` is asked about a word that names no
    /// command. The options of clap for help and for the version are not accepted either.
    NotAccepted,
    /// Memory ran out.
    Memory,
}

fn refusal_by(kind: ErrorKind) -> Refusal
    ensures { result ≡ Refusal.NotAccepted → ¬ (kind ≡ ErrorKind.OutOfMemory) }
{
    match kind {
        ErrorKind::OutOfMemory => Refusal::Memory,
        _ => Refusal::NotAccepted,
    }
}

/// The job that the words ask for. The first word is the program's name (docs/FORMATS.md, Command
/// line).
///
/// # Errors
///
/// `NotAccepted` only if the definition does not accept the words, and `Memory` if memory ran out.
pub fn read_words<'a>(alloc: Global, words: &'a [String]) -> Result<Job<'a>, Refusal>
    ensures accepted { IfOk result (λ _. is_accepted (map string_bytes words.now) ≡ true) }
    ensures job { IfOk result (λ j. job_of (map string_bytes words.now) ≡ Some (asked j)) }
    ensures few { IfOk result (λ j. steps_of j ≤ most_steps) }
    ensures refused { IfErr result (λ e. e ≡ Refusal.NotAccepted →
        is_accepted (map string_bytes words.now) ≡ false) }
{
    let command = match hubris_command(alloc) {
        Ok(command) => command,
        Err(_) => return Err(Refusal::Memory),
    };
    let matches = match command.try_get_matches_from(words) {
        Ok(matches) => matches,
        Err(error) => return Err(refusal_by(error.kind())),
    };
    match matches.subcommand() {
        Some((name, inner)) => match job_by(name, inner) {
            Some(job) => Ok(job),
            None => Err(Refusal::NotAccepted),
        },
        None => Err(Refusal::NotAccepted),
    }
}
