//! From the matches of a command to the job that they ask for.
ghost use Rattle.std.specs.Prelude.{◌≡◌, ◌≤◌, ◌<◌, ◌^◌, ℕ, Some, IfSome, option_map, codes};
ghost use Rattle.clap.specs.Words.{rows_of, found_of, one_of};
ghost use Rattle.clap.specs.Walk.{first_of};
ghost use Rattle.command_line.specs.CommandLine.{asked_by, build_form, run_form, go_form, list_form, sample_form, migrate_form, audit_form, save_form, resume_form, debug_form, cover_form, sweep_form, timeline_form, live_form, picture_form, lcov_form, help_form, form_of, text_in, is_set, detail_in, number_in, most_steps};
ghost use Rattle.command_line.specs.Required.{IsNumber, HasSeed, HasSteps, HasTurns, AreTurns, HoldsAll, IsWhole};
ghost use Rattle.command_line.specs.Asking.{asked, steps_of};

use crate::commands::command_named;
use clap::ArgMatches;

/// What the output of a run has besides calls, events and faults: each instruction with the
/// registers after it; the memory after the run.
#[derive(Clone, Copy, Debug, PartialEq, Eq)]
pub struct Detail {
    pub instructions: bool,
    pub memory: bool,
}

/// The name of a command.
#[derive(Clone, Copy)]
pub enum CommandName {
    Build,
    Run,
    Go,
    List,
    Sample,
    Migrate,
    Audit,
    Save,
    Resume,
    Debug,
    Cover,
    Sweep,
    Timeline,
    Live,
    Picture,
    Lcov,
    Help,
}

/// Run IMAGE with SCRIPT for at most `steps` turns.
#[derive(Clone, Copy)]
pub struct RunJob<'a> {
    pub image: &'a str,
    pub script: &'a str,
    pub steps: u32,
    pub detail: Detail,
}

/// Build APP and run it as `Run` runs an image.
#[derive(Clone, Copy)]
pub struct GoJob<'a> {
    pub app: &'a str,
    pub script: &'a str,
    pub steps: u32,
    pub detail: Detail,
}

/// Save the state of the run of IMAGE with SCRIPT after at most `steps` turns to OUT.
#[derive(Clone, Copy)]
pub struct SaveJob<'a> {
    pub image: &'a str,
    pub script: &'a str,
    pub out: &'a str,
    pub steps: u32,
}

/// Go on from the state in STATE, with IMAGE and SCRIPT, up to turn `steps`.
#[derive(Clone, Copy)]
pub struct ResumeJob<'a> {
    pub image: &'a str,
    pub script: &'a str,
    pub state: &'a str,
    pub steps: u32,
    pub detail: Detail,
}

/// Carry out COMMANDS over the run of IMAGE with SCRIPT.
#[derive(Clone, Copy)]
pub struct DebugJob<'a> {
    pub image: &'a str,
    pub script: &'a str,
    pub commands: &'a str,
}

/// Count how often the run of IMAGE with SCRIPT executes each instruction, in at most `steps`
/// turns. With labels, IMAGE is the name of an application, which is built as by `Go`, and the
/// labels of its sources are shown.
#[derive(Clone, Copy)]
pub struct CoverJob<'a> {
    pub image: &'a str,
    pub script: &'a str,
    pub steps: u32,
    pub labels: bool,
}

/// Say how the run of IMAGE with SCRIPT ends in at most `steps` turns if the events of ARRIVAL come
/// too, for each arrival time that is at least `from` and below `to`; `memory` says whether with
/// its memory.
#[derive(Clone, Copy)]
pub struct SweepJob<'a> {
    pub image: &'a str,
    pub script: &'a str,
    pub arrival: &'a str,
    pub from: u32,
    pub to: u32,
    pub steps: u32,
    pub memory: bool,
}

/// Write the run of IMAGE with SCRIPT for at most `steps` turns as events that timeline viewers
/// read, with the task names of APP if it is given.
#[derive(Clone, Copy)]
pub struct TimelineJob<'a> {
    pub image: &'a str,
    pub script: &'a str,
    pub steps: u32,
    pub names: Option<&'a str>,
}

/// Carry out the lines of COMMANDS over the run of IMAGE with SCRIPT as they come.
#[derive(Clone, Copy)]
pub struct LiveJob<'a> {
    pub image: &'a str,
    pub script: &'a str,
    pub commands: &'a str,
}

/// Draw the run of IMAGE with SCRIPT for at most `steps` turns as a picture in OUT, with the task
/// names of APP if it is given.
#[derive(Clone, Copy)]
pub struct PictureJob<'a> {
    pub image: &'a str,
    pub script: &'a str,
    pub out: &'a str,
    pub steps: u32,
    pub names: Option<&'a str>,
}

/// Write to OUT how often the run of APP with SCRIPT executes each line of its sources, in at most
/// `steps` turns.
#[derive(Clone, Copy)]
pub struct LcovJob<'a> {
    pub app: &'a str,
    pub script: &'a str,
    pub out: &'a str,
    pub steps: u32,
}

/// What the program is asked to do. The names are those of files, and `steps` is at most
/// 1,000,000,000.
#[derive(Clone, Copy, Drop)]
pub enum Job<'a> {
    /// Build APP, and put the image under OUT.
    Build { app: &'a str, out: &'a str },
    Run(RunJob<'a>),
    Go(GoJob<'a>),
    /// List the contents of IMAGE.
    List { image: &'a str },
    /// Run the sample of a seed for at most `steps` turns.
    Sample { seed: u32, steps: u32 },
    /// Write IMAGE, of either form, in the form in which images are built, and put it under OUT.
    Migrate { image: &'a str, out: &'a str },
    /// Check whether TRACE can be the trace of a whole run.
    Audit { trace: &'a str },
    Save(SaveJob<'a>),
    Resume(ResumeJob<'a>),
    Debug(DebugJob<'a>),
    Cover(CoverJob<'a>),
    Sweep(SweepJob<'a>),
    Timeline(TimelineJob<'a>),
    Live(LiveJob<'a>),
    Picture(PictureJob<'a>),
    Lcov(LcovJob<'a>),
    /// Say what the commands are, or what one of them takes and answers.
    Help { about: Option<CommandName> },
}

fn text_of<'a>(matches: &ArgMatches<'a>, id: &str) -> &'a str
    ensures { result.now ≡ text_in id.now (rows_of (found_of matches.now)) }
{
    match matches.get_str(id) {
        Some(text) => text,
        None => "",
    }
}

// The value of an option that may be left out.
fn option_of<'a>(matches: &ArgMatches<'a>, id: &str) -> Option<&'a str>
    ensures { option_map (λ value. value.now) result ≡ first_of id.now
        (rows_of (found_of matches.now)) }
{
    matches.get_str(id)
}

fn flag_of(matches: &ArgMatches<'_>, id: &str) -> bool
    ensures { result ≡ is_set id.now (rows_of (found_of matches.now)) }
{
    text_of(matches, id) == "true"
}

fn detail_of(matches: &ArgMatches<'_>) -> Detail
    ensures { result ≡ detail_in (rows_of (found_of matches.now)) }
{
    Detail {
        instructions: flag_of(matches, "all"),
        memory: flag_of(matches, "mem"),
    }
}

fn number_of(matches: &ArgMatches<'_>, id: &str) -> u32
    ensures number { (most : ℕ) → most < 2 ^ 32 →
        IsNumber most (one_of id.now (rows_of (found_of matches.now))) →
        result ≡ number_in id.now (rows_of (found_of matches.now)) }
    ensures few { (most : ℕ) → most < 2 ^ 32 →
        IsNumber most (one_of id.now (rows_of (found_of matches.now))) → result ≤ most }
{
    match matches.get_one::<u32>(id) {
        Some(number) => number,
        None => 0,
    }
}

// The number of turns that clap found for an id.
fn turns_in(matches: &ArgMatches<'_>, id: &str) -> u32
    ensures number { HasTurns id.now (rows_of (found_of matches.now)) →
        result ≡ number_in id.now (rows_of (found_of matches.now)) }
    ensures few { HasTurns id.now (rows_of (found_of matches.now)) → result ≤ most_steps }
{
    number_of(matches, id)
}

// The number of turns that is asked for.
fn steps_in(matches: &ArgMatches<'_>) -> u32
    ensures number { HasSteps (rows_of (found_of matches.now)) →
        result ≡ number_in (codes "steps") (rows_of (found_of matches.now)) }
    ensures few { HasSteps (rows_of (found_of matches.now)) → result ≤ most_steps }
{
    turns_in(matches, "steps")
}

fn seed_in(matches: &ArgMatches<'_>) -> u32
    ensures { HasSeed (rows_of (found_of matches.now)) →
        result ≡ number_in (codes "seed") (rows_of (found_of matches.now)) }
{
    number_of(matches, "seed")
}

fn build_by<'a>(matches: &ArgMatches<'a>) -> Job<'a>
    ensures job { Some (asked result) ≡ build_form.asks (rows_of (found_of matches.now)) }
    ensures few { steps_of result ≡ 0 }
{
    Job::Build {
        app: text_of(matches, "app"),
        out: text_of(matches, "out"),
    }
}

fn run_by<'a>(matches: &ArgMatches<'a>) -> Job<'a>
    ensures job { HasSteps (rows_of (found_of matches.now)) →
        Some (asked result) ≡ run_form.asks (rows_of (found_of matches.now)) }
    ensures few { HasSteps (rows_of (found_of matches.now)) → steps_of result ≤ most_steps }
{
    Job::Run(RunJob {
        image: text_of(matches, "image"),
        script: text_of(matches, "script"),
        steps: steps_in(matches),
        detail: detail_of(matches),
    })
}

fn go_by<'a>(matches: &ArgMatches<'a>) -> Job<'a>
    ensures job { HasSteps (rows_of (found_of matches.now)) →
        Some (asked result) ≡ go_form.asks (rows_of (found_of matches.now)) }
    ensures few { HasSteps (rows_of (found_of matches.now)) → steps_of result ≤ most_steps }
{
    Job::Go(GoJob {
        app: text_of(matches, "app"),
        script: text_of(matches, "script"),
        steps: steps_in(matches),
        detail: detail_of(matches),
    })
}

fn list_by<'a>(matches: &ArgMatches<'a>) -> Job<'a>
    ensures job { Some (asked result) ≡ list_form.asks (rows_of (found_of matches.now)) }
    ensures few { steps_of result ≡ 0 }
{
    Job::List {
        image: text_of(matches, "image"),
    }
}

fn sample_by<'a>(matches: &ArgMatches<'a>) -> Job<'a>
    ensures job { HasSeed (rows_of (found_of matches.now)) →
        HasSteps (rows_of (found_of matches.now)) →
        Some (asked result) ≡ sample_form.asks (rows_of (found_of matches.now)) }
    ensures few { HasSteps (rows_of (found_of matches.now)) → steps_of result ≤ most_steps }
{
    Job::Sample {
        seed: seed_in(matches),
        steps: steps_in(matches),
    }
}

fn migrate_by<'a>(matches: &ArgMatches<'a>) -> Job<'a>
    ensures job { Some (asked result) ≡ migrate_form.asks (rows_of (found_of matches.now)) }
    ensures few { steps_of result ≡ 0 }
{
    Job::Migrate {
        image: text_of(matches, "image"),
        out: text_of(matches, "out"),
    }
}

fn audit_by<'a>(matches: &ArgMatches<'a>) -> Job<'a>
    ensures job { Some (asked result) ≡ audit_form.asks (rows_of (found_of matches.now)) }
    ensures few { steps_of result ≡ 0 }
{
    Job::Audit {
        trace: text_of(matches, "trace"),
    }
}

fn save_by<'a>(matches: &ArgMatches<'a>) -> Job<'a>
    ensures job { HasSteps (rows_of (found_of matches.now)) →
        Some (asked result) ≡ save_form.asks (rows_of (found_of matches.now)) }
    ensures few { HasSteps (rows_of (found_of matches.now)) → steps_of result ≤ most_steps }
{
    Job::Save(SaveJob {
        image: text_of(matches, "image"),
        script: text_of(matches, "script"),
        out: text_of(matches, "out"),
        steps: steps_in(matches),
    })
}

fn resume_by<'a>(matches: &ArgMatches<'a>) -> Job<'a>
    ensures job { HasSteps (rows_of (found_of matches.now)) →
        Some (asked result) ≡ resume_form.asks (rows_of (found_of matches.now)) }
    ensures few { HasSteps (rows_of (found_of matches.now)) → steps_of result ≤ most_steps }
{
    Job::Resume(ResumeJob {
        image: text_of(matches, "image"),
        script: text_of(matches, "script"),
        state: text_of(matches, "state"),
        steps: steps_in(matches),
        detail: detail_of(matches),
    })
}

fn debug_by<'a>(matches: &ArgMatches<'a>) -> Job<'a>
    ensures job { Some (asked result) ≡ debug_form.asks (rows_of (found_of matches.now)) }
    ensures few { steps_of result ≡ 0 }
{
    Job::Debug(DebugJob {
        image: text_of(matches, "image"),
        script: text_of(matches, "script"),
        commands: text_of(matches, "commands"),
    })
}

fn cover_by<'a>(matches: &ArgMatches<'a>) -> Job<'a>
    ensures job { HasSteps (rows_of (found_of matches.now)) →
        Some (asked result) ≡ cover_form.asks (rows_of (found_of matches.now)) }
    ensures few { HasSteps (rows_of (found_of matches.now)) → steps_of result ≤ most_steps }
{
    Job::Cover(CoverJob {
        image: text_of(matches, "image"),
        script: text_of(matches, "script"),
        steps: steps_in(matches),
        labels: flag_of(matches, "labels"),
    })
}

fn sweep_by<'a>(matches: &ArgMatches<'a>) -> Job<'a>
    ensures job { AreTurns (rows_of (found_of matches.now)) →
        Some (asked result) ≡ sweep_form.asks (rows_of (found_of matches.now)) }
    ensures few { AreTurns (rows_of (found_of matches.now)) → steps_of result ≤ most_steps }
{
    Job::Sweep(SweepJob {
        image: text_of(matches, "image"),
        script: text_of(matches, "script"),
        arrival: text_of(matches, "arrival"),
        from: turns_in(matches, "from"),
        to: turns_in(matches, "to"),
        steps: steps_in(matches),
        memory: flag_of(matches, "mem"),
    })
}

fn timeline_by<'a>(matches: &ArgMatches<'a>) -> Job<'a>
    ensures job { HasSteps (rows_of (found_of matches.now)) →
        Some (asked result) ≡ timeline_form.asks (rows_of (found_of matches.now)) }
    ensures few { HasSteps (rows_of (found_of matches.now)) → steps_of result ≤ most_steps }
{
    Job::Timeline(TimelineJob {
        image: text_of(matches, "image"),
        script: text_of(matches, "script"),
        steps: steps_in(matches),
        names: option_of(matches, "names"),
    })
}

fn live_by<'a>(matches: &ArgMatches<'a>) -> Job<'a>
    ensures job { Some (asked result) ≡ live_form.asks (rows_of (found_of matches.now)) }
    ensures few { steps_of result ≡ 0 }
{
    Job::Live(LiveJob {
        image: text_of(matches, "image"),
        script: text_of(matches, "script"),
        commands: text_of(matches, "commands"),
    })
}

fn picture_by<'a>(matches: &ArgMatches<'a>) -> Job<'a>
    ensures job { HasSteps (rows_of (found_of matches.now)) →
        Some (asked result) ≡ picture_form.asks (rows_of (found_of matches.now)) }
    ensures few { HasSteps (rows_of (found_of matches.now)) → steps_of result ≤ most_steps }
{
    Job::Picture(PictureJob {
        image: text_of(matches, "image"),
        script: text_of(matches, "script"),
        out: text_of(matches, "out"),
        steps: steps_in(matches),
        names: option_of(matches, "names"),
    })
}

fn lcov_by<'a>(matches: &ArgMatches<'a>) -> Job<'a>
    ensures job { HasSteps (rows_of (found_of matches.now)) →
        Some (asked result) ≡ lcov_form.asks (rows_of (found_of matches.now)) }
    ensures few { HasSteps (rows_of (found_of matches.now)) → steps_of result ≤ most_steps }
{
    Job::Lcov(LcovJob {
        app: text_of(matches, "app"),
        script: text_of(matches, "script"),
        out: text_of(matches, "out"),
        steps: steps_in(matches),
    })
}

fn help_by<'a>(matches: &ArgMatches<'a>) -> Option<Job<'a>>
    ensures job { option_map asked result ≡ help_form.asks (rows_of (found_of matches.now)) }
    ensures few { IfSome result (λ j. steps_of j ≡ 0) }
{
    match matches.get_str("command") {
        None => Some(Job::Help { about: None }),
        Some(word) => match command_named(word) {
            Some(name) => Some(Job::Help { about: Some(name) }),
            None => None,
        },
    }
}

// The job that a command asks for by its matches, if it asks for one.
fn job_of_command<'a>(command: CommandName, matches: &ArgMatches<'a>) -> Option<Job<'a>>
    ensures job { HoldsAll command (rows_of (found_of matches.now)) →
        (form_of command).asks (rows_of (found_of matches.now)) ≡ option_map asked result }
    ensures few { HoldsAll command (rows_of (found_of matches.now)) →
        IfSome result (λ j. steps_of j ≤ most_steps) }
{
    match command {
        CommandName::Build => Some(build_by(matches)),
        CommandName::Run => Some(run_by(matches)),
        CommandName::Go => Some(go_by(matches)),
        CommandName::List => Some(list_by(matches)),
        CommandName::Sample => Some(sample_by(matches)),
        CommandName::Migrate => Some(migrate_by(matches)),
        CommandName::Audit => Some(audit_by(matches)),
        CommandName::Save => Some(save_by(matches)),
        CommandName::Resume => Some(resume_by(matches)),
        CommandName::Debug => Some(debug_by(matches)),
        CommandName::Cover => Some(cover_by(matches)),
        CommandName::Sweep => Some(sweep_by(matches)),
        CommandName::Timeline => Some(timeline_by(matches)),
        CommandName::Live => Some(live_by(matches)),
        CommandName::Picture => Some(picture_by(matches)),
        CommandName::Lcov => Some(lcov_by(matches)),
        CommandName::Help => help_by(matches),
    }
}

/// The job that a command's name and matches ask for, if they ask for one.
pub fn job_by<'a>(name: &str, matches: &ArgMatches<'a>) -> Option<Job<'a>>
    ensures job { IsWhole (Some (name.now, rows_of (found_of matches.now))) →
        asked_by name.now (rows_of (found_of matches.now)) ≡ option_map asked result }
    ensures few { IsWhole (Some (name.now, rows_of (found_of matches.now))) →
        IfSome result (λ j. steps_of j ≤ most_steps) }
{
    let command = command_named(name)?;
    job_of_command(command, matches)
}
