//! Which parts of the text `help` pushes, by what it is asked about.
ghost use Rattle.std.specs.Prelude.{◌≡◌, map};
ghost use Rattle.outside_io.specs.Outside.{HasCause, Pushes};
ghost use Rattle.help_text.specs.Help.{help_text, parts_of, parts_on};

use crate::texts::{
    APPLICATION_CAUSES, ARRIVAL_CAUSES, AUDIT, BUILD, COMMANDS, COMMANDS_CAUSES, COVER, DEBUG, GO,
    HELP, IMAGE_CAUSES, LCOV, LIMITS, LINE_CAUSES, LIST, LIVE, MIGRATE, OUTCOMES, PICTURE, RESUME,
    RUN, SAMPLE, SAVE, SCRIPT_CAUSES, SESSION, SOURCE_CAUSES, STATE_CAUSES, STATUSES, SWEEP,
    TIMELINE, TRACE_CAUSES,
};
use command_line::CommandName;
use outside_io::{Failed, Sink, push_lines};

/// The parts of the help on a command: its words and files (for a session also each of its
/// commands, for a sweep also each line and word), the limits, the statuses, and the causes of its
/// files.
fn parts_on(command: CommandName) -> &'static [&'static [&'static str]]
    ensures { map (λ part. map (λ line. line.now) part.now) result.now ≡ parts_on command }
{
    match command {
        CommandName::Build => &[BUILD, LIMITS, STATUSES, APPLICATION_CAUSES, SOURCE_CAUSES],
        CommandName::Run => &[RUN, LIMITS, STATUSES, IMAGE_CAUSES, SCRIPT_CAUSES],
        CommandName::Go => &[
            GO,
            LIMITS,
            STATUSES,
            APPLICATION_CAUSES,
            SOURCE_CAUSES,
            SCRIPT_CAUSES,
        ],
        CommandName::List => &[LIST, LIMITS, STATUSES, IMAGE_CAUSES],
        CommandName::Sample => &[SAMPLE, LIMITS, STATUSES],
        CommandName::Migrate => &[MIGRATE, LIMITS, STATUSES, IMAGE_CAUSES],
        CommandName::Audit => &[AUDIT, LIMITS, STATUSES, TRACE_CAUSES],
        CommandName::Save => &[SAVE, LIMITS, STATUSES, IMAGE_CAUSES, SCRIPT_CAUSES],
        CommandName::Resume => &[
            RESUME,
            LIMITS,
            STATUSES,
            IMAGE_CAUSES,
            SCRIPT_CAUSES,
            STATE_CAUSES,
        ],
        CommandName::Debug => &[
            DEBUG,
            SESSION,
            LIMITS,
            STATUSES,
            IMAGE_CAUSES,
            SCRIPT_CAUSES,
            COMMANDS_CAUSES,
        ],
        CommandName::Cover => &[
            COVER,
            LIMITS,
            STATUSES,
            IMAGE_CAUSES,
            SCRIPT_CAUSES,
            APPLICATION_CAUSES,
            SOURCE_CAUSES,
        ],
        CommandName::Sweep => &[
            SWEEP,
            OUTCOMES,
            LIMITS,
            STATUSES,
            IMAGE_CAUSES,
            SCRIPT_CAUSES,
            ARRIVAL_CAUSES,
        ],
        CommandName::Timeline => &[
            TIMELINE,
            LIMITS,
            STATUSES,
            IMAGE_CAUSES,
            SCRIPT_CAUSES,
            APPLICATION_CAUSES,
        ],
        CommandName::Live => &[
            LIVE,
            SESSION,
            LIMITS,
            STATUSES,
            IMAGE_CAUSES,
            SCRIPT_CAUSES,
            LINE_CAUSES,
        ],
        CommandName::Picture => &[
            PICTURE,
            LIMITS,
            STATUSES,
            IMAGE_CAUSES,
            SCRIPT_CAUSES,
            APPLICATION_CAUSES,
        ],
        CommandName::Lcov => &[
            LCOV,
            LIMITS,
            STATUSES,
            APPLICATION_CAUSES,
            SOURCE_CAUSES,
            SCRIPT_CAUSES,
        ],
        CommandName::Help => &[HELP, STATUSES],
    }
}

/// The parts of the help on the program, or on a command.
fn parts(about: Option<CommandName>) -> &'static [&'static [&'static str]]
    ensures { map (λ part. map (λ line. line.now) part.now) result.now ≡ parts_of about }
{
    match about {
        None => &[COMMANDS],
        Some(command) => parts_on(command),
    }
}

/// Pushes the text of `help`, with one push for each line (docs/FORMATS.md, Command line). After a
/// failing push nothing more is pushed.
pub fn push_help<S: Sink>(about: Option<CommandName>, out: &mut S) -> Result<(), Failed>
    ensures bytes { Pushes (S.seen out.old).written (S.seen out.new).written (help_text about)
        result }
    ensures cause { HasCause (S.seen out.old).faults (S.seen out.new).faults result }
{
    for part in parts(about) {
        push_lines(part, out)?;
    }
    Ok(())
}
