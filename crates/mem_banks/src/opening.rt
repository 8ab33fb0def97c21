//! The banks of a new memory: one for each different region, and one for each stretch between
//! regions.

ghost use Rattle.std.specs.Prelude.{◌≡◌, ◌+◌, ◌<◌, ◌≤◌, ◌⊎◌, length, IfOk, replicate, All, Contains, ℕ};
ghost use Rattle.std.specs.List.Sorted.{IsPermutation, IsNonDecreasingBy};
ghost use Rattle.mem_banks.specs.Memory.{AreRegions};
ghost use Rattle.mem_banks.specs.Kept.{IsNext, IsAdded, IsFilled, IsLaidOut, AreZeros, spans_of};
ghost use Rattle.mem_banks.specs.Parts.{AreParts, AreSoFar};

use crate::bank::{Bank, PAGES, page};
use crate::{FLASH, RAM};
use std::alloc::{AllocError, Global};

/// The regions in the order of their bases, so that one pass over them can lay their banks.
fn in_order(alloc: Global, regions: &[(u32, u32)]) -> Result<Vec<(u32, u32)>, AllocError>
    ensures same { IfOk result (λ v. IsPermutation regions.now v.items) }
    ensures order { IfOk result (λ v. IsNonDecreasingBy (λ r. r.0) v.items) }
{
    let mut sorted = regions.to_vec(alloc)?;
    sorted.sort_unstable_by_key(|region| region.0);
    Ok(sorted)
}

/// A bank of this many zero bytes.
fn zeros(alloc: Global, base: u32, size: u32) -> Result<Bank, AllocError>
    ensures { IfOk result (λ b. (b.base ≡ base) × (b.bytes.items ≡ replicate size 0)) }
{
    let bytes = vec![in alloc; 0; size as usize]?;
    Ok(Bank { base, bytes })
}

/// Adds a bank of this many zero bytes.
fn add(alloc: Global, banks: &mut Vec<Bank>, base: u32, size: u32) -> Result<(), AllocError>
    ensures { IfOk result (λ _. IsAdded banks.old.items base size banks.new.items) }
{
    banks.push(zeros(alloc, base, size)?)?;
    Ok(())
}

/// Adds a bank of zero bytes from one address to another, unless they are the same address.
fn fill(alloc: Global, banks: &mut Vec<Bank>, from: u32, to: u32) -> Result<(), AllocError>
    ensures { IfOk result (λ _. IsFilled banks.old.items from to banks.new.items) }
{
    if from < to {
        add(alloc, banks, from, to - from)?;
    }
    Ok(())
}

/// Adds the banks from a base to an end: one for each different region there, and one for each
/// stretch between them. The regions are in the order of their bases.
fn lay(
    alloc: Global,
    banks: &mut Vec<Bank>,
    regions: &[(u32, u32)],
    base: u32,
    end: u32,
) -> Result<(), AllocError>
    requires order { base ≤ end }
    requires sorted { IsNonDecreasingBy (λ r. r.0) regions.now }
    requires inside { (r : ℕ × ℕ) → Contains regions.now r → base ≤ r.0 → r.0 < end → (0 < r.1)
        × (r.0 + r.1 ≤ end) }
    requires outside { (r : ℕ × ℕ) → Contains regions.now r → r.0 < base → r.0 + r.1 ≤ base }
    requires apart { (r s : ℕ × ℕ) → Contains regions.now r → Contains regions.now s → (r ≡ s)
        ⊎ ((r.0 + r.1 ≤ s.0) ⊎ (s.0 + s.1 ≤ r.0)) }
    requires sizes { (r : ℕ × ℕ) → Contains regions.now r → 0 < r.1 }
    requires place { IsNext banks.old.items base end }
    ensures laid { IfOk result (λ _. IsLaidOut banks.old.items banks.new.items base end) }
    ensures parts { IfOk result (λ _. AreSoFar regions.now (spans_of banks.old.items)
        (spans_of banks.new.items) base end end) }
{
    let mut at = base;
    for &(start, size) in regions {
        // Any other region has a bank already, since regions that overlap are the same, or it lies
        // elsewhere.
        if at <= start && start < end {
            fill(alloc, banks, at, start)?;
            add(alloc, banks, start, size)?;
            at = start + size;
        }
    }
    fill(alloc, banks, at, end)
}

/// The banks of this much flash and RAM, all of zero bytes. If there is no memory at all, there is
/// one empty bank, so that each entry of the table names a bank.
pub fn all_banks(
    alloc: Global,
    flash: u32,
    ram: u32,
    regions: &[(u32, u32)],
) -> Result<Vec<Bank>, AllocError>
    requires flash { flash ≤ 1048576 }
    requires ram { ram ≤ 262144 }
    requires regions { AreRegions flash ram regions.now }
    ensures zeros { IfOk result (λ b. AreZeros b.items flash ram) }
    ensures parts { IfOk result (λ b. AreParts regions.now (spans_of b.items)) }
{
    let sorted = in_order(alloc, regions)?;
    banks_over(alloc, flash, ram, &sorted)
}

/// The same for regions in the order of their bases.
fn banks_over(
    alloc: Global,
    flash: u32,
    ram: u32,
    regions: &[(u32, u32)],
) -> Result<Vec<Bank>, AllocError>
    requires flash { flash ≤ 1048576 }
    requires ram { ram ≤ 262144 }
    requires sorted { IsNonDecreasingBy (λ r. r.0) regions.now }
    requires regions { AreRegions flash ram regions.now }
    ensures zeros { IfOk result (λ b. AreZeros b.items flash ram) }
    ensures parts { IfOk result (λ b. AreParts regions.now (spans_of b.items)) }
{
    let mut banks = Vec::new(alloc);
    lay(alloc, &mut banks, regions, FLASH, FLASH + flash)?;
    lay(alloc, &mut banks, regions, RAM, RAM + ram)?;
    if banks.is_empty() {
        add(alloc, &mut banks, RAM, 0)?;
    }
    Ok(banks)
}

/// A list of this many zeros.
fn blank(alloc: Global, count: usize) -> Result<Vec<u16>, AllocError>
    ensures { IfOk result (λ t. t.items ≡ replicate count 0) }
{
    vec![in alloc; 0u16; count]
}

/// The table of pages: for each page the first bank that has a byte of it, or the first of all
/// banks if none has.
pub fn table_of(alloc: Global, banks: &[Bank]) -> Result<Vec<u16>, AllocError>
    requires { 0 < length banks.now }
    ensures pages { IfOk result (λ t. length t.items ≡ 8192) }
    ensures hints { IfOk result (λ t. All (λ k. k < length banks.now) t.items) }
{
    let mut table = blank(alloc, PAGES)?;
    mark_all(&mut table, banks);
    Ok(table)
}

/// Makes the entry of each page name the first bank that has a byte of it, if there is one.
fn mark_all(table: &mut [u16], banks: &[Bank])
    requires pages { length table.old ≡ 8192 }
    requires hints { All (λ k. k < length banks.now) table.old }
    ensures pages { length table.new ≡ 8192 }
    ensures hints { All (λ k. k < length banks.now) table.new }
{
    for k in 0..banks.len() {
        let i = banks.len() - 1 - k;
        if i < 65536 {
            mark(table, banks, i);
        }
    }
}

/// Makes the entry of each page of which bank `i` has a byte name this bank.
fn mark(table: &mut [u16], banks: &[Bank], i: usize)
    requires there { (i < length banks.now) × (i < 65536) }
    requires pages { length table.old ≡ 8192 }
    requires hints { All (λ k. k < length banks.now) table.old }
    ensures pages { length table.new ≡ 8192 }
    ensures hints { All (λ k. k < length banks.now) table.new }
{
    let bank = &banks[i];
    let len = bank.bytes.len();
    if len == 0 {
        return;
    }
    let last = (len - 1).min(0xF_FFFF) as u32;
    for n in 0..last / 256 + 2 {
        let at = (256 * n).min(last);
        table[page(bank.base.wrapping_add(at))] = i as u16;
    }
}
