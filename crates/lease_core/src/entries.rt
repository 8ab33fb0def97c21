//! Entries of lease tables. Rows are those of docs/FORMATS.md, Leases.
ghost use Rattle.std.specs.Prelude.{◌≡◌, ◌+◌, ◌*◌, ◌<◌, ◌≤◌, ◌^◌, ℕ, None, Some, IfOk};
ghost use Rattle.task_table.specs.model.State.{Setup, Turn, Call};
ghost use Rattle.task_table.specs.model.Reading.{is_valid};
ghost use Rattle.task_table.specs.model.Borrows.{lent, lease_range};
ghost use Rattle.task_table.specs.kept.Holds.{Holds, kept_call, task_count, entries_of};
ghost use Rattle.task_table.specs.kept.Entries.{IsKeptFor};
ghost use Rattle.task_table.specs.kept.Messages.{IsLent};
ghost use Rattle.task_table.specs.kept.Frames.{AddsNotes};
ghost use Rattle.lease_core.specs.Loans.{IsEntry, IsEntryAt};

use kernel_abi::LeaseEntry;
use region_check::Right;
use task_table::{KeptEntry, Kernel, OpenCall};

/// Row 3, second half: whether the range of a lease ends inside the address space.
pub(crate) fn is_lease_valid(entry: &LeaseEntry) -> bool
    ensures { result ≡ is_valid (lease_range entry.now) }
{
    kernel_abi::Range::of(entry.base, u64::from(entry.len)).is_some()
}

/// Reads the entry of a lease of a call from memory, and keeps it. If the lender may not read it,
/// returns the first byte that it may not read.
fn read_entry(k: &mut Kernel, lender: usize, call: &OpenCall, lease: u32) -> Result<LeaseEntry, u32>
    requires there { lender < task_count k.old }
    requires listed { lease < call.now.leases }
    requires fits { call.now.table + 12 * call.now.leases ≤ 2 ^ 32 }
    requires lent { (borrower : ℕ) × IsLent k.old lender borrower call.now }
    ensures entry { (g : Setup) (t : Turn) → Holds g k.old t →
        IsEntryAt g t.state lender (call.now.table + 12 * lease) result }
    ensures kept { IfOk result (λ e. IsKeptFor (entries_of k.new) lender
        (call.now.table + 12 * lease) e) }
    ensures holds { (g : Setup) (t : Turn) → Holds g k.old t → Holds g k.new t }
    ensures frame { AddsNotes k.old 0 k.new }
{
    let base = call.table + 12 * lease;
    if let Some(bad) = k.bad_byte(lender, Right::Read, base, 12) {
        return Err(bad);
    }
    let entry = LeaseEntry {
        attributes: k.number(base, 4),
        base: k.number(base + 4, 4),
        len: k.number(base + 8, 4),
    };
    k.keep_entry(lender, KeptEntry { lease, base, entry });
    Ok(entry)
}

/// Row 3, first half: the entry of a lease of a call, or the first byte of it that the lender may
/// not read. After this the entry is kept.
pub(crate) fn entry_of(
    k: &mut Kernel,
    lender: usize,
    call: &OpenCall,
    lease: u32,
) -> Result<LeaseEntry, u32>
    requires there { lender < task_count k.old }
    requires listed { lease < call.now.leases }
    requires fits { call.now.table + 12 * call.now.leases ≤ 2 ^ 32 }
    requires lent { (borrower : ℕ) × IsLent k.old lender borrower call.now }
    ensures entry { (g : Setup) (t : Turn) (c : Call) → Holds g k.old t → kept_call c ≡ call.now →
        IsEntry g t.state lender c lease result }
    ensures kept { IfOk result (λ e. IsKeptFor (entries_of k.new) lender
        (call.now.table + 12 * lease) e) }
    ensures holds { (g : Setup) (t : Turn) → Holds g k.old t → Holds g k.new t }
    ensures frame { AddsNotes k.old 0 k.new }
{
    match k.kept_entry(lender, call.table + 12 * lease) {
        Some(entry) => Ok(entry),
        None => read_entry(k, lender, call, lease),
    }
}
