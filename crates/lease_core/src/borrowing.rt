//! The system calls BORROW_READ and BORROW_WRITE (Hubris Reference, on leases). Rows are those of
//! docs/FORMATS.md, Leases.
ghost use Rattle.std.specs.Prelude.{◌≡◌, ◌+◌, ◌*◌, ◌<◌, ◌≤◌, ◌^◌, ℕ, true, None, Some};
ghost use Rattle.kernel_abi.specs.declared.Note.TheVariants as note;
ghost use Rattle.task_table.specs.model.State.{Setup, Turn, Call};
ghost use Rattle.task_table.specs.model.Reading.{arguments, is_valid, is_ready};
ghost use Rattle.task_table.specs.model.Borrows.{reading, writing, moved, refused, lent, buffered, granted, part_of, borrowed_by, borrowed};
ghost use Rattle.task_table.specs.kept.Holds.{Holds, Stands, StandsForSome, kept_call, task_count, note_count, memory_of, entries_of};
ghost use Rattle.task_table.specs.kept.Messages.{IsLent};
ghost use Rattle.task_table.specs.kept.Limits.{syscall_notes, turn_notes};
ghost use Rattle.task_table.specs.kept.Frames.{AddsNotes, AddsAtMost};
ghost use Rattle.task_table.specs.kept.Calls.{MayCall, Performs};
ghost use Rattle.lease_core.specs.Loans.{way_of, IsBuffer, IsLeased, IsLoanOf, lent_answered, KeepsBorrowed, IsEntryRead, HoldsGranted, IsGranted, MayLend, StayKept};

use crate::NO_LEASE;
use crate::entries::{entry_of, is_lease_valid};
use crate::way::Way;
use kernel_abi::{Access, Borrow, BorrowArgs, LeaseEntry, Note, Usage, dead_code};
use task_table::{Found, Kernel, OpenCall, Slice};

/// A borrow of a lease: its way and its arguments, the borrower and the lender, and the number of
/// the lender's call.
#[derive(Clone, Copy)]
struct Loan {
    way: Way,
    args: BorrowArgs,
    borrower: usize,
    lender: usize,
    call: u32,
}

/// A borrower gets a code and the count 0, since nothing moved.
fn refuse(k: &mut Kernel, borrower: usize, code: u32)
    requires there { borrower < task_count k.old }
    requires room { note_count k.old < turn_notes }
    ensures holds { (g : Setup) (t : Turn) → Holds g k.old t →
        Holds g k.new (refused borrower code t) }
    ensures frame { AddsNotes k.old 1 k.new }
{
    k.answer(borrower, &[code, 0]);
}

/// Row 8: moves `count` bytes of a loan, at least one. The bytes of the lease begin at `leased`.
fn move_bytes(k: &mut Kernel, loan: &Loan, leased: u32, count: u32)
    requires some { 0 < count }
    requires leased { IsLeased loan.now.way (memory_of k.old) leased count }
    requires buffer { IsBuffer loan.now.way (memory_of k.old) loan.now.args.buffer_base count }
    ensures holds { (g : Setup) (t : Turn) (c : Call) → Holds g k.old t →
        Holds g k.new (moved (way_of loan.now.way).borrow c leased loan.now.args.buffer_base count
        t) }
    ensures stay { StayKept k.old loan.now leased count k.new }
    ensures frame { AddsNotes k.old 0 k.new }
{
    let own = loan.args.buffer_base;
    match loan.way {
        Way::Read => k.copy(leased, own, count),
        Way::Write => k.copy(own, leased, count),
    }
}

/// Row 8, the end: the borrow is noted, and the borrower gets the number of bytes that moved.
fn answer_lent(k: &mut Kernel, loan: &Loan, count: u32)
    requires there { loan.now.borrower < task_count k.old }
    requires room { note_count k.old + 2 ≤ turn_notes }
    ensures holds { (g : Setup) (t : Turn) → Holds g k.old t →
        Holds g k.new (lent_answered loan.now count t) }
    ensures entries { entries_of k.new ≡ entries_of k.old }
    ensures frame { AddsNotes k.old 2 k.new }
{
    k.note(Note::Borrow {
        call: loan.call,
        borrow: loan.way.borrow(),
        lease: loan.args.lease,
        offset: loan.args.offset,
        moved: count,
    });
    k.answer(loan.borrower, &[0, count]);
}

/// Rows 7 and 8: moves `count` bytes of the lease from `leased` on, at least one, if the regions of
/// the lender allow it.
fn lend_bytes(k: &mut Kernel, loan: &Loan, leased: u32, count: u32)
    requires borrower { loan.now.borrower < task_count k.old }
    requires lender { loan.now.lender < task_count k.old }
    requires room { note_count k.old + 5 ≤ turn_notes }
    requires some { 0 < count }
    requires valid { leased + count ≤ 2 ^ 32 }
    requires stood { StandsForSome k.old }
    requires buffer { IsBuffer loan.now.way (memory_of k.old) loan.now.args.buffer_base count }
    ensures holds { let x = loan.now in (g : Setup) (t : Turn) (c : Call) → Holds g k.old t →
        IsLoanOf x c → Holds g k.new (lent g (way_of x.way) x.borrower x.args c record
        { base = leased; len = count } t) }
    ensures stay { let x = loan.now in (g : Setup) (t : Turn) → Holds g k.old t →
        MayLend g x record { base = leased; len = count } → StayKept k.old x leased count k.new }
    ensures frame { AddsAtMost k.old 5 k.new }
{
    if let Some(at) = k.bad_byte(loan.lender, loan.way.lender_right(), leased, count) {
        k.deny(loan.lender, at, loan.way.lender_access());
        return refuse(k, loan.borrower, NO_LEASE);
    }
    move_bytes(k, loan, leased, count);
    answer_lent(k, loan, count);
}

/// Rows 7 and 8: moves as many bytes from the offset on as both the buffer and the lease have. The
/// buffer has been checked.
fn lend(k: &mut Kernel, loan: &Loan, entry: &LeaseEntry)
    requires borrower { loan.now.borrower < task_count k.old }
    requires lender { loan.now.lender < task_count k.old }
    requires room { note_count k.old + 5 ≤ turn_notes }
    requires valid { entry.now.base + entry.now.len ≤ 2 ^ 32 }
    requires inside { loan.now.args.offset ≤ entry.now.len }
    requires stood { StandsForSome k.old }
    requires buffer { IsBuffer loan.now.way (memory_of k.old) loan.now.args.buffer_base
        loan.now.args.buffer_length }
    ensures holds { let x = loan.now in (g : Setup) (t : Turn) (c : Call) → Holds g k.old t →
        IsLoanOf x c → Holds g k.new (lent g (way_of x.way) x.borrower x.args c
        (part_of x.args entry.now) t) }
    ensures stay { let x = loan.now in let part = part_of x.args entry.now in
        (g : Setup) (t : Turn) → Holds g k.old t → MayLend g x part →
        StayKept k.old x part.base part.len k.new }
    ensures frame { AddsAtMost k.old 5 k.new }
{
    let count = loan.args.buffer_length.min(entry.len - loan.args.offset);
    if count == 0 {
        // no byte moves: the lease may end at the end of the address space, and then the offset
        // gives no address
        answer_lent(k, loan, 0);
    } else {
        lend_bytes(k, loan, entry.base + loan.args.offset, count);
    }
}

/// Rows 6 to 8: the lease allows the borrow and has the offset. The borrower's buffer is checked.
fn borrow_into(k: &mut Kernel, loan: &Loan, entry: &LeaseEntry)
    requires borrower { loan.now.borrower < task_count k.old }
    requires lender { loan.now.lender < task_count k.old }
    requires room { note_count k.old + 5 ≤ turn_notes }
    requires valid { entry.now.base + entry.now.len ≤ 2 ^ 32 }
    requires inside { loan.now.args.offset ≤ entry.now.len }
    requires stood { StandsForSome k.old }
    ensures holds { let x = loan.now in (g : Setup) (t : Turn) (c : Call) → Holds g k.old t →
        IsLoanOf x c → Holds g k.new (buffered g (way_of x.way) x.borrower x.args c entry.now t) }
    ensures stay { let x = loan.now in let part = part_of x.args entry.now in
        (g : Setup) (t : Turn) → Holds g k.old t → IsGranted g x entry.now →
        StayKept k.old x part.base part.len k.new }
    ensures frame { AddsAtMost k.old 5 k.new }
{
    let buffer = Slice {
        base: loan.args.buffer_base,
        len: loan.args.buffer_length,
    };
    if !buffer.is_valid() {
        return k.misuse(loan.borrower, Usage::InvalidSlice);
    }
    if let Some(at) = k.bad_byte(loan.borrower, loan.way.own_right(), buffer.base, buffer.len) {
        return k.deny(loan.borrower, at, loan.way.own_access());
    }
    lend(k, loan, entry);
}

/// Row 3, second half, to row 8: the borrow of a lease whose entry was read.
fn borrow_entry(k: &mut Kernel, loan: &Loan, entry: &LeaseEntry)
    requires borrower { loan.now.borrower < task_count k.old }
    requires lender { loan.now.lender < task_count k.old }
    requires room { note_count k.old + 5 ≤ turn_notes }
    requires stood { StandsForSome k.old }
    ensures holds { let x = loan.now in (g : Setup) (t : Turn) (c : Call) → Holds g k.old t →
        IsLoanOf x c → Holds g k.new (granted g (way_of x.way) x.borrower x.args c entry.now t) }
    ensures stay { let x = loan.now in let part = part_of x.args entry.now in
        (g : Setup) (t : Turn) → Holds g k.old t → IsGranted g x entry.now →
        StayKept k.old x part.base part.len k.new }
    ensures frame { AddsAtMost k.old 5 k.new }
{
    if !is_lease_valid(entry) {
        k.misuse(loan.lender, Usage::InvalidSlice);
        return refuse(k, loan.borrower, NO_LEASE);
    }
    if entry.attributes & loan.way.bit() == 0 {
        return refuse(k, loan.borrower, NO_LEASE);
    }
    if entry.len < loan.args.offset {
        return k.misuse(loan.borrower, Usage::OffsetOutOfRange);
    }
    borrow_into(k, loan, entry);
}

/// Rows 2 to 8: a borrow from a lender whose call the borrower has taken.
fn borrow_from(k: &mut Kernel, loan: &Loan, call: &OpenCall)
    requires borrower { loan.now.borrower < task_count k.old }
    requires lender { loan.now.lender < task_count k.old }
    requires room { note_count k.old + 5 ≤ turn_notes }
    requires fits { call.now.table + 12 * call.now.leases ≤ 2 ^ 32 }
    requires lent { (borrower : ℕ) × IsLent k.old loan.now.lender borrower call.now }
    ensures holds { let x = loan.now in (g : Setup) (t : Turn) (c : Call) → Holds g k.old t →
        kept_call c ≡ call.now → IsLoanOf x c →
        Holds g k.new (borrowed_by g (way_of x.way) x.borrower x.args (Some c) t) }
    ensures held { let x = loan.now in (g : Setup) (t : Turn) (c : Call) → Holds g k.old t →
        kept_call c ≡ call.now → IsLoanOf x c → IsEntryRead g x.lender c x.args.lease →
        HoldsGranted g x c t.state k.new }
    ensures frame { AddsAtMost k.old 5 k.new }
{
    let lease = loan.args.lease;
    if call.leases <= lease {
        return k.misuse(loan.borrower, Usage::LeaseOutOfRange);
    }
    match entry_of(k, loan.lender, call, lease) {
        Err(at) => {
            k.deny(loan.lender, at, Access::KernelRead);
            refuse(k, loan.borrower, NO_LEASE);
        }
        Ok(entry) => borrow_entry(k, loan, &entry),
    }
}

/// A borrow in either direction, from row 1 on.
fn borrow(k: &mut Kernel, caller: usize, way: Way)
    requires there { caller < task_count k.old }
    requires room { note_count k.old + syscall_notes ≤ turn_notes }
    requires stood { StandsForSome k.old }
    ensures holds { (g : Setup) (t : Turn) → Stands g k.old t →
        Holds g k.new (borrowed g (way_of way) caller t) }
    ensures held { (g : Setup) (t : Turn) → Stands g k.old t →
        KeepsBorrowed g (way_of way) caller t k.new }
    ensures frame { AddsAtMost k.old syscall_notes k.new }
{
    let args = BorrowArgs::of(&k.arguments(caller));
    match k.lookup(args.lender.number) {
        Found::Out => k.misuse(caller, Usage::BadTaskIndex),
        Found::Dead(generation) => refuse(k, caller, dead_code(generation)),
        Found::Live(lender) => match k.taken(lender, caller) {
            None => refuse(k, caller, NO_LEASE),
            Some(call) => {
                let loan = Loan {
                    way,
                    args,
                    borrower: caller,
                    lender,
                    call: call.number,
                };
                borrow_from(k, &loan, &call);
            }
        },
    }
}

/// BORROW_READ: r4 is the id of the lender, r5 the lease, r6 an offset, r7 and r8 the caller's
/// buffer. As many bytes of the lease from the offset on as the buffer has are copied into it. r4
/// is 0 and r5 the number of bytes that moved. If the lender has no such lease for the caller, or
/// faults by it, r4 is 1 and r5 is 0 (Hubris Reference, on leases). If r4 is 0, the entry of the
/// lease is kept from then on, unless the borrow wrote one of its bytes.
pub fn borrow_read(k: &mut Kernel, caller: usize)
    requires { MayCall k.old caller }
    ensures performs { Performs (λ g. borrowed g reading) k.old caller k.new }
    ensures held { (g : Setup) (t : Turn) → Stands g k.old t → is_ready t.state caller ≡ true →
        KeepsBorrowed g reading caller t k.new }
{
    borrow(k, caller, Way::Read);
}

/// BORROW_WRITE: as BORROW_READ, but the bytes of the caller's buffer are copied into the lease
/// (Hubris Reference, on leases).
pub fn borrow_write(k: &mut Kernel, caller: usize)
    requires { MayCall k.old caller }
    ensures performs { Performs (λ g. borrowed g writing) k.old caller k.new }
    ensures held { (g : Setup) (t : Turn) → Stands g k.old t → is_ready t.state caller ≡ true →
        KeepsBorrowed g writing caller t k.new }
{
    borrow(k, caller, Way::Write);
}
