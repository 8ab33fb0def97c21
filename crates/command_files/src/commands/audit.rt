//! The audit of a trace: from its file to what is written of it.
ghost use Rattle.std.specs.Prelude.{◌≡◌, ◌≤◌, length, None, IfOk, IfErr, string_bytes};
ghost use Rattle.trace_audit.specs.Judgements.{IsJudgement};
ghost use Rattle.outside_io.specs.Seen.{OnlyReads};
ghost use Rattle.command_files.specs.Contents.{trace_limit, trace_refusal};
ghost use Rattle.command_files.specs.Sources.{only, trace_file};
ghost use Rattle.command_files.specs.FileFaults.{IsFaultFor, IsNamedFaultOf};
ghost use Rattle.command_files.specs.Ready.{IsAuditOf};
ghost use Rattle.command_files.specs.Pushed.{Says};
ghost use Rattle.command_files.specs.Verdict.{Audits, audited, yes_line, no_line};
ghost use Rattle.command_files.specs.Answer.{AnswersBy};

use crate::file_faults::{FileFault, NamedFault, fault_named, refused_at_number};
use crate::lines::{tell, tell_named_fault};
use crate::sources::read_contents;
use outside_io::{Files, Sink};
use std::alloc::{AllocError, Global};
use trace_audit::{AuditFault, Judgement, audit};

/// The most bytes of a trace.
const TRACE_LIMIT: u32 = 16_777_216;

// The verdict on the bytes of a file.
fn audit_in(alloc: Global, bytes: &[u8]) -> Result<Judgement, FileFault>
    requires { length bytes.now ≤ trace_limit }
    ensures accepted { IfOk result (λ v. trace_refusal bytes.now ≡ None) }
    ensures verdict { IfOk result (IsJudgement bytes.now) }
    ensures file_fault { IfErr result (IsFaultFor (trace_refusal bytes.now)) }
{
    match audit(alloc, bytes) {
        Ok(verdict) => Ok(verdict),
        Err(AuditFault::Refused { cause, line }) => Err(refused_at_number(alloc, cause, line)),
        Err(AuditFault::Memory) => Err(FileFault::Memory),
    }
}

// The verdict on the trace under a name.
fn audit_under<F: Files>(alloc: Global, files: &mut F, name: &str) -> Result<Judgement, NamedFault>
    ensures audit { IfOk result (IsAuditOf (F.seen files.old).contents name.now) }
    ensures named_fault { IfErr result
        (IsNamedFaultOf (F.seen files.old) (F.seen files.new) (trace_file name.now)) }
    ensures only_reads { OnlyReads (F.seen files.old) (F.seen files.new) }
{
    let bytes = match read_contents(alloc, files, name, TRACE_LIMIT) {
        Ok(bytes) => bytes,
        Err(file_fault) => return Err(fault_named(alloc, name, file_fault)),
    };
    match audit_in(alloc, &bytes) {
        Ok(verdict) => Ok(verdict),
        Err(file_fault) => Err(fault_named(alloc, name, file_fault)),
    }
}

#[tactic(auto, unfolding(crate::specs::Verdict::yes_line))]
fn line_of_yes(alloc: Global, calls: u64, left: u64) -> Result<String, AllocError>
    ensures { IfOk result (λ line. string_bytes line ≡ yes_line calls left) }
{
    let line = format!(in alloc; "yes {calls} {left}\n")?;
    Ok(line)
}

#[tactic(auto, unfolding(crate::specs::Verdict::no_line))]
fn line_of_no(alloc: Global, line: u64) -> Result<String, AllocError>
    ensures { IfOk result (λ text. string_bytes text ≡ no_line line) }
{
    let text = format!(in alloc; "no {line}\n")?;
    Ok(text)
}

// Writes that a trace holds together.
fn tell_yes<S: Sink>(alloc: Global, calls: u64, left: u64, out: &mut S) -> u8
    ensures { Says (S.seen out.old) (S.seen out.new) (audited (Judgement.Yes calls left)) result }
{
    match line_of_yes(alloc, calls, left) {
        Ok(line) => tell(line.as_bytes(), 0, out),
        Err(_) => 5,
    }
}

// Writes that it does not, and where.
fn tell_no<S: Sink>(alloc: Global, line: u64, out: &mut S) -> u8
    ensures { Says (S.seen out.old) (S.seen out.new) (audited (Judgement.No line)) result }
{
    match line_of_no(alloc, line) {
        Ok(text) => tell(text.as_bytes(), 7, out),
        Err(_) => 5,
    }
}

// Writes what an audit found.
fn tell_audit<S: Sink>(alloc: Global, verdict: Judgement, out: &mut S) -> u8
    ensures { Says (S.seen out.old) (S.seen out.new) (audited verdict) result }
{
    match verdict {
        Judgement::Yes { calls, left } => tell_yes(alloc, calls, left, out),
        Judgement::No { line } => tell_no(alloc, line, out),
    }
}

/// `audit TRACE`.
pub fn audit_file<F: Files, S: Sink>(alloc: Global, trace: &str, files: &mut F, out: &mut S) -> u8
    ensures answer { AnswersBy (only (trace_file trace.now)) Audits (F.seen files.old)
        (F.seen files.new) (S.seen out.old) (S.seen out.new) result }
    ensures only_reads { OnlyReads (F.seen files.old) (F.seen files.new) }
{
    match audit_under(alloc, files, trace) {
        Ok(verdict) => tell_audit(alloc, verdict, out),
        Err(named_fault) => tell_named_fault(alloc, &named_fault, out),
    }
}
