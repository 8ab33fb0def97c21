//! `run` and `go`: `audit` accepts what they write of a run that was written to its end.
ghost use Rattle.std.specs.Prelude.{◌≤◌, map};
ghost use Rattle.kernel_abi.specs.Devices.{AreFresh};
ghost use Rattle.command_line.specs.Asking.{asked_run, asked_go};
ghost use Rattle.outside_io.specs.Seen.{OnlyReads};
ghost use Rattle.trace_cli.specs.Answer.{AnswersJob};

use audit_runs::{memories_are_shown, texts_of_runs_are_good};
use command_line::{GoJob, RunJob};
use devices::Device;
use outside_io::{Files, Sink};
use std::alloc::Global;

/// `run IMAGE SCRIPT --steps N [--all] [--mem]`.
pub fn run_files<F: Files, S: Sink>(
    alloc: Global,
    job: &RunJob,
    files: &mut F,
    out: &mut S,
    devices: Vec<Box<dyn Device>>,
) -> u8
    requires fresh { AreFresh (map shown devices.items) }
    requires few { job.now.steps ≤ 1000000000 }
    ensures answer { AnswersJob (map shown devices.items) (asked_run job.now) (F.seen files.old)
        (F.seen files.new) (S.seen out.old) (S.seen out.new) result }
    ensures only_reads { OnlyReads (F.seen files.old) (F.seen files.new) }
{
    texts_of_runs_are_good();
    memories_are_shown();
    board_commands::run_files(alloc, job, files, out, devices)
}

/// `go APP SCRIPT --steps N [--all] [--mem]`.
pub fn go_files<F: Files, S: Sink>(
    alloc: Global,
    job: &GoJob,
    files: &mut F,
    out: &mut S,
    devices: Vec<Box<dyn Device>>,
) -> u8
    requires fresh { AreFresh (map shown devices.items) }
    requires few { job.now.steps ≤ 1000000000 }
    ensures answer { AnswersJob (map shown devices.items) (asked_go job.now) (F.seen files.old)
        (F.seen files.new) (S.seen out.old) (S.seen out.new) result }
    ensures only_reads { OnlyReads (F.seen files.old) (F.seen files.new) }
{
    texts_of_runs_are_good();
    memories_are_shown();
    board_commands::go_files(alloc, job, files, out, devices)
}
