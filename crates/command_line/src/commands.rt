//! The table of commands. A row defines the command for `clap` and gives its name.
ghost use Rattle.std.specs.Prelude.{◌≡◌};
ghost use Rattle.command_line.specs.CommandLine.{command_by, named_in};
ghost use Rattle.command_line.specs.Table.{commands_of};

use self::Argument::{Flag, OptionalWord, Seed, Setting, Steps, Turn, Word};
use crate::job::CommandName;

/// An argument of a command, with its name if this kind of argument can have different names.
#[derive(Clone, Copy)]
pub enum Argument {
    /// A word that must be there.
    Word(&'static str),
    /// A word that must be there, a seed.
    Seed,
    /// A word that must be there, the number of a turn.
    Turn(&'static str),
    /// A word that may be left out.
    OptionalWord(&'static str),
    /// `--steps N`, a number of turns, which must be there too.
    Steps,
    /// `--NAME VALUE`, which may be left out.
    Setting(&'static str),
    /// `--NAME`, without a value.
    Flag(&'static str),
}

/// A command, its name, and its arguments in their order.
#[derive(Clone, Copy)]
pub struct CommandRow {
    pub command: CommandName,
    pub name: &'static str,
    pub arguments: &'static [Argument],
}

/// Each command, as docs/FORMATS.md has it (Command line).
pub const COMMANDS: [CommandRow; 17] = [
    CommandRow {
        command: CommandName::Build,
        name: "build",
        arguments: &[Word("app"), Word("out")],
    },
    CommandRow {
        command: CommandName::Run,
        name: "run",
        arguments: &[
            Word("image"),
            Word("script"),
            Steps,
            Flag("all"),
            Flag("mem"),
        ],
    },
    CommandRow {
        command: CommandName::Go,
        name: "go",
        arguments: &[Word("app"), Word("script"), Steps, Flag("all"), Flag("mem")],
    },
    CommandRow {
        command: CommandName::List,
        name: "list",
        arguments: &[Word("image")],
    },
    CommandRow {
        command: CommandName::Sample,
        name: "sample",
        arguments: &[Seed, Turn("steps")],
    },
    CommandRow {
        command: CommandName::Migrate,
        name: "migrate",
        arguments: &[Word("image"), Word("out")],
    },
    CommandRow {
        command: CommandName::Audit,
        name: "audit",
        arguments: &[Word("trace")],
    },
    CommandRow {
        command: CommandName::Save,
        name: "save",
        arguments: &[Word("image"), Word("script"), Word("out"), Steps],
    },
    CommandRow {
        command: CommandName::Resume,
        name: "resume",
        arguments: &[
            Word("image"),
            Word("script"),
            Word("state"),
            Steps,
            Flag("all"),
            Flag("mem"),
        ],
    },
    CommandRow {
        command: CommandName::Debug,
        name: "debug",
        arguments: &[Word("image"), Word("script"), Word("commands")],
    },
    CommandRow {
        command: CommandName::Cover,
        name: "cover",
        arguments: &[Word("image"), Word("script"), Steps, Flag("labels")],
    },
    CommandRow {
        command: CommandName::Sweep,
        name: "sweep",
        arguments: &[
            Word("image"),
            Word("script"),
            Word("arrival"),
            Turn("from"),
            Turn("to"),
            Steps,
            Flag("mem"),
        ],
    },
    CommandRow {
        command: CommandName::Timeline,
        name: "timeline",
        arguments: &[Word("image"), Word("script"), Steps, Setting("names")],
    },
    CommandRow {
        command: CommandName::Live,
        name: "live",
        arguments: &[Word("image"), Word("script"), Word("commands")],
    },
    CommandRow {
        command: CommandName::Picture,
        name: "picture",
        arguments: &[
            Word("image"),
            Word("script"),
            Word("out"),
            Steps,
            Setting("names"),
        ],
    },
    CommandRow {
        command: CommandName::Lcov,
        name: "lcov",
        arguments: &[Word("app"), Word("script"), Word("out"), Steps],
    },
    CommandRow {
        command: CommandName::Help,
        name: "help",
        arguments: &[OptionalWord("command")],
    },
];

fn named_among(rows: &[CommandRow], word: &str) -> Option<CommandName>
    ensures { result ≡ named_in (commands_of rows.now) word.now }
{
    for row in rows {
        if word == row.name {
            return Some(row.command);
        }
    }
    None
}

/// The command that a word names, if it names one.
pub fn command_named(word: &str) -> Option<CommandName>
    ensures { result ≡ command_by word.now }
{
    named_among(&COMMANDS, word)
}
