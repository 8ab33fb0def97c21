//! The system call BORROW_INFO (Hubris Reference, on leases). Rows are those of docs/FORMATS.md,
//! Leases.
ghost use Rattle.std.specs.Prelude.{◌≡◌, ◌+◌, ◌*◌, ◌<◌, ◌≤◌, ◌^◌, ℕ, true, None, Some};
ghost use Rattle.kernel_abi.specs.declared.Note.TheVariants as note;
ghost use Rattle.task_table.specs.model.State.{Setup, Turn, Call};
ghost use Rattle.task_table.specs.model.Reading.{arguments, is_valid, is_ready};
ghost use Rattle.task_table.specs.model.Borrows.{moved, uninformed, lent, lease_range, grant_answered, informed_by, informed};
ghost use Rattle.task_table.specs.kept.Holds.{Holds, Stands, StandsForSome, kept_call, task_count, note_count, entries_of};
ghost use Rattle.task_table.specs.kept.Messages.{IsLent};
ghost use Rattle.task_table.specs.kept.Limits.{syscall_notes, turn_notes};
ghost use Rattle.task_table.specs.kept.Frames.{AddsNotes, AddsAtMost};
ghost use Rattle.task_table.specs.kept.Calls.{MayCall, Performs};
ghost use Rattle.lease_core.specs.Loans.{KeepsInformed, IsHeldAfter, MayInform};

use crate::NO_LEASE;
use crate::entries::{entry_of, is_lease_valid};
use kernel_abi::{Access, Borrow, InfoArgs, LeaseEntry, Note, Usage, dead_code};
use task_table::{Found, Kernel, OpenCall};

/// A caller gets a code, and zeros instead of attributes and length.
fn answer_nothing(k: &mut Kernel, caller: usize, code: u32)
    requires there { caller < task_count k.old }
    requires room { note_count k.old < turn_notes }
    ensures holds { (g : Setup) (t : Turn) → Holds g k.old t →
        Holds g k.new (uninformed caller code t) }
    ensures frame { AddsNotes k.old 1 k.new }
{
    k.answer(caller, &[code, 0, 0]);
}

/// Rows 3 and 4: the answer for a lease whose entry was read.
fn inform_entry(
    k: &mut Kernel,
    caller: usize,
    lender: usize,
    call: u32,
    lease: u32,
    entry: &LeaseEntry,
)
    requires there { caller < task_count k.old }
    requires lender { lender < task_count k.old }
    requires room { note_count k.old + 5 ≤ turn_notes }
    ensures holds { (g : Setup) (t : Turn) (c : Call) → Holds g k.old t → c.client.index ≡ lender →
        c.number ≡ call → Holds g k.new (grant_answered g caller lease c entry.now t) }
    ensures entries { is_valid (lease_range entry.now) ≡ true →
        entries_of k.new ≡ entries_of k.old }
    ensures frame { AddsAtMost k.old 5 k.new }
{
    if !is_lease_valid(entry) {
        k.misuse(lender, Usage::InvalidSlice);
        return answer_nothing(k, caller, NO_LEASE);
    }
    k.note(Note::Borrow {
        call,
        borrow: Borrow::Info,
        lease,
        offset: 0,
        moved: 0,
    });
    k.answer(caller, &[0, entry.attributes & 3, entry.len]);
}

/// Rows 2 to 4: the answer for a lease of a call that the caller has taken.
fn inform_of(k: &mut Kernel, caller: usize, lender: usize, call: &OpenCall, lease: u32)
    requires there { caller < task_count k.old }
    requires lender { lender < task_count k.old }
    requires room { note_count k.old + 5 ≤ turn_notes }
    requires fits { call.now.table + 12 * call.now.leases ≤ 2 ^ 32 }
    requires lent { (borrower : ℕ) × IsLent k.old lender borrower call.now }
    ensures holds { (g : Setup) (t : Turn) (c : Call) → Holds g k.old t → kept_call c ≡ call.now →
        c.client.index ≡ lender → Holds g k.new (informed_by g caller lease (Some c) t) }
    ensures held { (g : Setup) (t : Turn) (c : Call) → Holds g k.old t → kept_call c ≡ call.now →
        c.client.index ≡ lender → MayInform g lender t.state c lease →
        IsHeldAfter k.new t.state c lease }
    ensures frame { AddsAtMost k.old 5 k.new }
{
    if call.leases <= lease {
        return k.misuse(caller, Usage::LeaseOutOfRange);
    }
    match entry_of(k, lender, call, lease) {
        Err(at) => {
            k.deny(lender, at, Access::KernelRead);
            answer_nothing(k, caller, NO_LEASE);
        }
        Ok(entry) => inform_entry(k, caller, lender, call.number, lease, &entry),
    }
}

/// BORROW_INFO, of any caller, from row 1 on.
fn borrow_info_rows(k: &mut Kernel, caller: usize)
    requires there { caller < task_count k.old }
    requires room { note_count k.old + syscall_notes ≤ turn_notes }
    requires stood { StandsForSome k.old }
    ensures holds { (g : Setup) (t : Turn) → Stands g k.old t →
        Holds g k.new (informed g caller t) }
    ensures held { (g : Setup) (t : Turn) → Stands g k.old t → KeepsInformed g caller t k.new }
    ensures frame { AddsAtMost k.old syscall_notes k.new }
{
    let args = InfoArgs::of(&k.arguments(caller));
    match k.lookup(args.lender.number) {
        Found::Out => k.misuse(caller, Usage::BadTaskIndex),
        Found::Dead(generation) => answer_nothing(k, caller, dead_code(generation)),
        Found::Live(lender) => match k.taken(lender, caller) {
            None => answer_nothing(k, caller, NO_LEASE),
            Some(call) => inform_of(k, caller, lender, &call, args.lease),
        },
    }
}

/// BORROW_INFO: r4 is the id of the lender, r5 the lease. r4 is 0, r5 its attributes (bit 0 lends
/// for reading, bit 1 for writing) and r6 its length. If the lender has no such lease for the
/// caller, or faults by it, r4 is 1 and r5 and r6 are 0 (Hubris Reference, on leases). If r4 is 0,
/// the entry of the lease is kept from then on.
pub fn borrow_info(k: &mut Kernel, caller: usize)
    requires { MayCall k.old caller }
    ensures performs { Performs informed k.old caller k.new }
    ensures held { (g : Setup) (t : Turn) → Stands g k.old t → is_ready t.state caller ≡ true →
        KeepsInformed g caller t k.new }
{
    borrow_info_rows(k, caller);
}
