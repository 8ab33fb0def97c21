//! Entries of lease tables that were read and are kept, and where in memory they lie.

ghost use Rattle.std.specs.Prelude.{◌≡◌, ◌+◌, ◌≤◌, ◌^◌, ℕ, None, length, IfOk};
ghost use Rattle.task_table.specs.kept.Entries.{kept_at, AreLeft};

use kernel_abi::LeaseEntry;
use std::alloc::{AllocError, Global};

/// A kept entry of the lease table of a call: the index of its lease, its address, and its contents
/// in memory.
#[derive(Clone, Copy)]
pub struct KeptEntry {
    pub lease: u32,
    pub base: u32,
    pub entry: LeaseEntry,
}

impl KeptEntry {
    ghost use Rattle.std.specs.Prelude.{◌≡◌};
    ghost use Rattle.task_table.specs.kept.Entries.{meets};

    /// Whether any of `count` bytes from an address on is one of the entry's twelve bytes.
    fn meets(&self, addr: u32, count: usize) -> bool
        ensures { result ≡ meets self.now addr count }
    {
        let first = u64::from(self.base);
        u64::from(addr) < first + 12 && first < u64::from(addr).saturating_add(count as u64)
    }
}

/// The addresses at which a store of one to four bytes may begin that overlaps a kept entry: `span`
/// addresses from `low` on.
#[derive(Clone, Copy)]
pub(crate) struct Watch {
    low: u32,
    span: u64,
    ghost ends: { low + span ≤ 2 ^ 33 },
}

impl Watch {
    ghost use Rattle.std.specs.Prelude.{◌≡◌, ◌+◌, ◌≤◌, ◌⊎◌, ℕ, false};
    ghost use Rattle.task_table.specs.kept.Entries.{IsWatched};

    /// No address: no entry is kept.
    pub fn nowhere() -> Watch
        ensures { result.span ≡ 0 }
    {
        Watch { low: 0, span: 0 }
    }

    /// Whether a write of `count` bytes from an address on may overlap a kept entry. One comparison
    /// decides for up to four bytes, and for any number of bytes if no entry is kept.
    #[inline(always)]
    pub fn catches(&self, addr: u32, count: usize) -> bool
        ensures { result ≡ false → (base : ℕ) → IsWatched self.now.low self.now.span base →
            (base + 12 ≤ addr) ⊎ (addr + count ≤ base) }
    {
        if count <= 4 {
            u64::from(addr.wrapping_sub(self.low)) < self.span
        } else {
            self.span > 0
                && u64::from(addr) < u64::from(self.low) + self.span
                && u64::from(self.low) < u64::from(addr).saturating_add(count as u64)
        }
    }

    /// The same addresses, and those of one more entry.
    pub fn with(self, base: u32) -> Watch
        ensures new { IsWatched result.low result.span base }
        ensures old { (other : ℕ) → IsWatched self.low self.span other →
            IsWatched result.low result.span other }
    {
        let first = base.saturating_sub(3);
        let low = if self.span == 0 {
            first
        } else {
            self.low.min(first)
        };
        let end = (u64::from(self.low) + self.span).max(u64::from(base) + 12);
        Watch {
            low,
            span: end - u64::from(low),
        }
    }
}

/// No kept entry, for each of `count` tasks.
pub(crate) fn no_entries(alloc: Global, count: usize) -> Result<Vec<Option<KeptEntry>>, AllocError>
    ensures count { IfOk result (λ entries. length entries.items ≡ count) }
    ensures none { IfOk result (λ entries. (i : ℕ) → kept_at entries.items i ≡ None) }
{
    let mut entries = Vec::new(alloc);
    for _ in 0..count {
        entries.push(None)?;
    }
    Ok(entries)
}

/// Drops the entries that have any of `count` bytes from an address on, and returns the watched
/// addresses of the others.
pub(crate) fn drop_met(entries: &mut [Option<KeptEntry>], addr: u32, count: usize) -> Watch
    ensures { AreLeft entries.old addr count entries.new result.low result.span }
{
    let mut watch = Watch::nowhere();
    for task in 0..entries.len() {
        if let Some(kept) = entries[task] {
            if kept.meets(addr, count) {
                entries[task] = None;
            } else {
                watch = watch.with(kept.base);
            }
        }
    }
    watch
}
