//! What is true of all words that are accepted, for proofs about the program. Nothing runs here.
ghost use Rattle.std.specs.Prelude.{◌≡◌, List, true};
ghost use Rattle.clap.specs.Walk.{Text as Words};
ghost use Rattle.clap.specs.Simple.{subcommand_of};
ghost use Rattle.command_line.specs.CommandLine.{hubris_app, is_accepted};
ghost use Rattle.command_line.specs.Required.{IsWhole};

/// Words that are accepted name a command of the program and have each value that the command
/// requires. A number of turns is at most 1,000,000,000.
pub fn every_accepted_command_is_whole()
    ensures { (words : List Words) → is_accepted words ≡ true →
        IsWhole (subcommand_of hubris_app words) }
{}
