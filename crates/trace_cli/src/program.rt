//! The whole program, from its words to its exit status.
ghost use Rattle.std.specs.Prelude.{◌≡◌, ◌≢◌, ◌≤◌, ℕ, List, [], map, Some, None, false};
ghost use Rattle.std.specs.Io.KnownBytes.{Appends};
ghost use Rattle.outside_io.specs.Outside.{Rose};
ghost use Rattle.kernel_abi.specs.Devices.{AreFresh};
ghost use Rattle.command_line.specs.CommandLine.{Asked, is_accepted};
ghost use Rattle.trace_cli.specs.Words.{texts_of, job_in, out_of};
ghost use Rattle.command_files.specs.Verdict.{Verdict};
ghost use Rattle.command_files.specs.Pushed.{Says};
ghost use Rattle.trace_cli.specs.Verdict.{IsVerdict, usage, usage_line};
ghost use Rattle.trace_cli.specs.Answer.{Answers, AnswersEach, IsComplete, TellsEach, GoesOn, IsDone, HasDone, HasRefused, HasUnread, HasFront};

use crate::commands::cover::cover_files;
use crate::commands::debug::debug_files;
use crate::commands::lcov::lcov_files;
use crate::commands::live::live_files;
use crate::commands::picture::picture_files;
use crate::commands::run::{go_files, run_files};
use crate::commands::sweep::sweep_files;
use crate::commands::timeline::timeline_files;
use board_commands::{resume_files, run_sample, save_file};
use command_files::{audit_file, build_file, help, list_file, migrate_file, tell};
use command_line::{Job, Refusal, read_words};
use devices::Device;
use outside_io::{Files, Sink};
use std::alloc::Global;

// Writes that the words are not accepted.
fn tell_usage<S: Sink>(out: &mut S) -> u8
    ensures { Says (S.seen out.old) (S.seen out.new) usage result }
{
    tell(
        "usage: hubris build, run, go, list, sample, migrate, audit, save, resume, debug, cover, sweep, timeline, live, picture, lcov or help\n".as_bytes(),
        2,
        out,
    )
}

// Does the job, with the function of its command.
fn answer<F: Files, S: Sink>(
    alloc: Global,
    words: &[String],
    files: &mut F,
    out: &mut S,
    devices: Vec<Box<dyn Device>>,
) -> u8
    requires fresh { AreFresh (map shown devices.items) }
    ensures answer { Answers (map shown devices.items) (texts_of words.now) (F.seen files.old)
        (F.seen files.new) (S.seen out.old) (S.seen out.new) result }
    ensures later { (F.seen files.old).read_faults ≤ (F.seen files.new).read_faults }
    ensures puts { (F.seen files.old).put_faults ≤ (F.seen files.new).put_faults }
    ensures no_put { out_of (job_in (texts_of words.now)) ≡ None →
        (F.seen files.new).put_faults ≡ (F.seen files.old).put_faults }
    ensures each { (job : Asked) → job_in (texts_of words.now) ≡ Some job →
        TellsEach (map shown devices.items) job (F.seen files.old) (F.seen files.new)
        (S.seen out.old) (S.seen out.new) result }
{
    match read_words(alloc, words) {
        Ok(Job::Build { app, out: name }) => build_file(alloc, app, name, files, out),
        Ok(Job::Run(job)) => run_files(alloc, &job, files, out, devices),
        Ok(Job::Go(job)) => go_files(alloc, &job, files, out, devices),
        Ok(Job::List { image }) => list_file(alloc, image, files, out),
        Ok(Job::Sample { seed, steps }) => run_sample(alloc, seed, steps, out),
        Ok(Job::Migrate { image, out: name }) => migrate_file(alloc, image, name, files, out),
        Ok(Job::Audit { trace }) => audit_file(alloc, trace, files, out),
        Ok(Job::Save(job)) => save_file(alloc, &job, files, out, devices),
        Ok(Job::Resume(job)) => resume_files(alloc, &job, files, out, devices),
        Ok(Job::Debug(job)) => debug_files(alloc, &job, files, out, devices),
        Ok(Job::Cover(job)) => cover_files(alloc, &job, files, out, devices),
        Ok(Job::Sweep(job)) => sweep_files(alloc, &job, files, out, devices),
        Ok(Job::Timeline(job)) => timeline_files(alloc, &job, files, out, devices),
        Ok(Job::Live(job)) => live_files(alloc, &job, files, out, devices),
        Ok(Job::Picture(job)) => picture_files(alloc, &job, files, out, devices),
        Ok(Job::Lcov(job)) => lcov_files(alloc, &job, files, out, devices),
        Ok(Job::Help { about }) => help(about, out),
        Err(Refusal::NotAccepted) => tell_usage(out),
        Err(Refusal::Memory) => 5,
    }
}

/// The whole program. `words` are those of the command line, the program's name first. Lines go to
/// `out`, one push each. The result is the exit status. `devices` are those of the run of every
/// command but `sample`: at most eight, each at a place of its own, to which nothing has come yet.
///
/// What each command takes, writes and puts is in docs/FORMATS.md, Command line. The status is
///
/// - 0: all was done. What the command writes was written whole, and what it puts is under OUT.
/// - 1: a file is refused, and `refused <name> <cause> <place>` was written.
/// - 2: the words are not accepted, and the usage line was written.
/// - 3: a file cannot be read, and `cannot read <name>` was written. If the file is the COMMANDS of
///   `live`, this line comes after the answers to the lines that came.
/// - 4: the output failed: the beginning of the text was written, and what is put is under OUT. Or
///   the put failed: nothing was written, and OUT is as it was.
/// - 5: memory is short, and nothing was written or put.
/// - 6: as 0, of `run`, `go`, `resume`, `sample`, `cover` or `timeline`, and the run ended because
///   the supervisor faulted. Other commands answer 0 then too.
/// - 7: of `audit`: the trace does not hold together, and `no <line>` was written: its first line,
///   counted from 1, that cannot follow.
/// - 8: as 0, of a `sweep` in which some arrival time makes a difference.
pub fn hubris_main_with<F: Files, S: Sink>(
    alloc: Global,
    words: &[String],
    files: &mut F,
    out: &mut S,
    devices: Vec<Box<dyn Device>>,
) -> u8
    requires fresh { AreFresh (map shown devices.items) }

    // If the words and the seen contents give a verdict, one of these happened. Its file was put,
    // and its whole text was pushed under its status. Or the sink's count of faults rose, the
    // status is 4, and a front of the text was pushed. Or the count of failed puts rose, the status
    // is 4, and nothing was pushed. Or memory is short, the status is 5, and nothing was pushed or
    // put. Or the count of failed reads rose, and the same holds of the line for a file that cannot
    // be read, after what was written before.
    ensures seen { AnswersEach (map shown devices.items) (texts_of words.now) (F.seen files.old)
        (F.seen files.new) (S.seen out.old) (S.seen out.new) result }
    ensures complete { ¬ Rose (F.seen files.old).read_faults (F.seen files.new).read_faults →
        ¬ Rose (F.seen files.old).put_faults (F.seen files.new).put_faults →
        ¬ Rose (S.seen out.old).faults (S.seen out.new).faults →
        (v : Verdict) → IsVerdict (map shown devices.items) (texts_of words.now)
        (F.seen files.old).contents v →
        IsComplete (F.seen files.old) (F.seen files.new) (S.seen out.old) (S.seen out.new) v
        result }

    // What `resume` writes: the run from each state that its file spells. So from what `save` puts,
    // it writes the rest of the same run.
    ensures each { (job : Asked) → job_in (texts_of words.now) ≡ Some job →
        TellsEach (map shown devices.items) job (F.seen files.old) (F.seen files.new)
        (S.seen out.old) (S.seen out.new) result }
    ensures goes_on { GoesOn (map shown devices.items) (texts_of words.now) (F.seen files.old)
        (F.seen files.new) (S.seen out.old) (S.seen out.new) result }

    // When each status comes, and what was pushed and put with it.
    ensures done { IsDone result → HasDone (map shown devices.items) (texts_of words.now)
        (F.seen files.old) (F.seen files.new) (S.seen out.old) (S.seen out.new) result }
    ensures refused { result ≡ 1 → HasRefused (map shown devices.items) (texts_of words.now)
        (F.seen files.old).contents (S.seen out.old) (S.seen out.new) }
    ensures no_command { result ≡ 2 → (is_accepted (texts_of words.now) ≡ false)
        × Appends (S.seen out.old).written (S.seen out.new).written usage_line }
    ensures unread { result ≡ 3 → HasUnread (map shown devices.items) (texts_of words.now)
        (F.seen files.old) (F.seen files.new) (S.seen out.old) (S.seen out.new) }
    ensures cut { result ≡ 4 → HasFront (map shown devices.items) (texts_of words.now)
        (F.seen files.old) (F.seen files.new) (S.seen out.old) (S.seen out.new) }
    ensures short { result ≡ 5 → ((S.seen out.new).written ≡ (S.seen out.old).written)
        × ((S.seen out.new).faults ≡ (S.seen out.old).faults)
        × ((F.seen files.new).contents ≡ (F.seen files.old).contents) }
    ensures known { result ≤ 8 }

    // Only the file under OUT is changed, and only under the statuses 0 and 4.
    ensures others { (name : List ℕ) → out_of (job_in (texts_of words.now)) ≢ Some name →
        (F.seen files.new).contents name ≡ (F.seen files.old).contents name }
    ensures kept { result ≢ 0 → result ≢ 4 →
        (F.seen files.new).contents ≡ (F.seen files.old).contents }
    ensures no_put { out_of (job_in (texts_of words.now)) ≡ None →
        (F.seen files.new).put_faults ≡ (F.seen files.old).put_faults }
    ensures later { ((F.seen files.old).read_faults ≤ (F.seen files.new).read_faults)
        × ((F.seen files.old).put_faults ≤ (F.seen files.new).put_faults) }
{
    answer(alloc, words, files, out, devices)
}

/// `hubris_main_with` when no run has a device; its clauses are the same.
pub fn hubris_main<F: Files, S: Sink>(
    alloc: Global,
    words: &[String],
    files: &mut F,
    out: &mut S,
) -> u8
    ensures seen { AnswersEach [] (texts_of words.now) (F.seen files.old) (F.seen files.new)
        (S.seen out.old) (S.seen out.new) result }
    ensures complete { ¬ Rose (F.seen files.old).read_faults (F.seen files.new).read_faults →
        ¬ Rose (F.seen files.old).put_faults (F.seen files.new).put_faults →
        ¬ Rose (S.seen out.old).faults (S.seen out.new).faults →
        (v : Verdict) → IsVerdict [] (texts_of words.now) (F.seen files.old).contents v →
        IsComplete (F.seen files.old) (F.seen files.new) (S.seen out.old) (S.seen out.new) v
        result }

    ensures each { (job : Asked) → job_in (texts_of words.now) ≡ Some job →
        TellsEach [] job (F.seen files.old) (F.seen files.new) (S.seen out.old) (S.seen out.new)
        result }
    ensures goes_on { GoesOn [] (texts_of words.now) (F.seen files.old) (F.seen files.new)
        (S.seen out.old) (S.seen out.new) result }

    ensures done { IsDone result → HasDone [] (texts_of words.now) (F.seen files.old)
        (F.seen files.new) (S.seen out.old) (S.seen out.new) result }
    ensures refused { result ≡ 1 → HasRefused [] (texts_of words.now) (F.seen files.old).contents
        (S.seen out.old) (S.seen out.new) }
    ensures no_command { result ≡ 2 → (is_accepted (texts_of words.now) ≡ false)
        × Appends (S.seen out.old).written (S.seen out.new).written usage_line }
    ensures unread { result ≡ 3 → HasUnread [] (texts_of words.now) (F.seen files.old)
        (F.seen files.new) (S.seen out.old) (S.seen out.new) }
    ensures cut { result ≡ 4 → HasFront [] (texts_of words.now) (F.seen files.old)
        (F.seen files.new) (S.seen out.old) (S.seen out.new) }
    ensures short { result ≡ 5 → ((S.seen out.new).written ≡ (S.seen out.old).written)
        × ((S.seen out.new).faults ≡ (S.seen out.old).faults)
        × ((F.seen files.new).contents ≡ (F.seen files.old).contents) }
    ensures known { result ≤ 8 }

    ensures others { (name : List ℕ) → out_of (job_in (texts_of words.now)) ≢ Some name →
        (F.seen files.new).contents name ≡ (F.seen files.old).contents name }
    ensures kept { result ≢ 0 → result ≢ 4 →
        (F.seen files.new).contents ≡ (F.seen files.old).contents }
    ensures no_put { out_of (job_in (texts_of words.now)) ≡ None →
        (F.seen files.new).put_faults ≡ (F.seen files.old).put_faults }
    ensures later { ((F.seen files.old).read_faults ≤ (F.seen files.new).read_faults)
        × ((F.seen files.old).put_faults ≤ (F.seen files.new).put_faults) }
{
    hubris_main_with(alloc, words, files, out, Vec::new(alloc))
}
