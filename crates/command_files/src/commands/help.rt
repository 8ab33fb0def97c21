//! What the commands are, and what one of them takes and answers.
ghost use Rattle.std.specs.Prelude.{◌≡◌};
ghost use Rattle.outside_io.specs.Seen.{FilesSeen};
ghost use Rattle.command_files.specs.Sources.{no_files};
ghost use Rattle.command_files.specs.Answer.{AnswersBy};
ghost use Rattle.command_files.specs.Pushed.{Pushed};
ghost use Rattle.command_files.specs.Verdict.{Helps, helped};

use command_line::CommandName;
use help_text::push_help;
use outside_io::Sink;

fn tell_help<S: Sink>(about: Option<CommandName>, out: &mut S) -> u8
    ensures { Pushed (S.seen out.old) (S.seen out.new) (helped about) result }
{
    match push_help(about, out) {
        Ok(()) => 0,
        Err(_) => 4,
    }
}

/// `help [COMMAND]`. No file is read.
pub fn help<S: Sink>(about: Option<CommandName>, out: &mut S) -> u8
    ensures { (before after : FilesSeen) → after.contents ≡ before.contents →
        AnswersBy no_files (Helps about) before after (S.seen out.old) (S.seen out.new) result }
{
    tell_help(about, out)
}
