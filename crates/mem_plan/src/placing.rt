//! Places regions in their order, packed from the base.

ghost use Rattle.std.specs.Prelude.{◌≡◌, ◌≤◌, ◌<◌, ◌+◌, ◌^◌, length, map, sum_by, All, List, IfOk, IfErr};
ghost use Rattle.std.specs.List.Sorted.{IsPermutation, IsSorted};
ghost use Rattle.mem_plan.specs.Faults.{IsTooSmall};
ghost use Rattle.mem_plan.specs.Order.{HasDistinctIndices, IsPacked, goes_before, numbered, size_of};
ghost use Rattle.mem_plan.specs.Placing.{IsAligned, IsMultiple, IsPlacement, IsPlan, KeepsApart, Span};
ghost use Rattle.mem_plan.specs.Sizes.{rounded, total};

use crate::made::{Plan, PlanFault};
use crate::sizes::{needed_of, rounded_all};
use std::alloc::{AllocError, Global};
use std::cmp::Reverse;

/// The sizes with their indices, in the order in which they are placed.
fn order_of(alloc: Global, rounded: &[u32]) -> Result<Vec<(Reverse<u32>, usize)>, AllocError>
    ensures permutation { IfOk result (λ v. IsPermutation (numbered 0 rounded.now) v.items) }
    ensures sorted { IfOk result (λ v. IsSorted goes_before v.items) }
{
    let mut order = Vec::new(alloc);
    for i in 0..rounded.len() {
        order.push((Reverse(rounded[i]), i))?;
    }
    order.sort()?;
    Ok(order)
}

/// Where each region begins, by its index, when they are packed from the base in this order.
fn packed(
    alloc: Global,
    order: &[(Reverse<u32>, usize)],
    base: u32,
    room: u32,
) -> Result<Vec<u32>, AllocError>
    requires fits { base + room ≤ 2 ^ 32 }
    requires room { sum_by size_of order.now ≤ room }
    requires positive { All (λ o. 1 ≤ size_of o) order.now }
    requires once { HasDistinctIndices order.now }
    requires below { All (λ o. o.1 < length order.now) order.now }
    ensures len { IfOk result (λ v. length v.items ≡ length order.now) }
    ensures at { IfOk result (λ v. IsPacked order.now base (length order.now) v.items) }
{
    let mut bases = Vec::from_elem(alloc, 0u32, order.len())?;
    let mut used = 0u32;
    for k in 0..order.len() {
        let (Reverse(size), index) = order[k];
        bases[index] = base + used;
        used += size;
    }
    Ok(bases)
}

/// Where regions of these sizes begin in the `room` bytes from the address `base` on. Each size is
/// in bytes, from 1 to 2^20, and is rounded up to a power of two of at least 256.
///
/// The error is `TooSmall` exactly if the rounded sizes sum to more than the room, and then no
/// other placement fits either. If the base is a multiple of 2^20, each region begins at a multiple
/// of its rounded size. The regions take the first bytes of the room (`packed`).
pub fn plan(alloc: Global, sizes: &[u32], base: u32, room: u32) -> Result<Plan, PlanFault>
    requires sizes { All (λ s. (1 ≤ s) × (s ≤ 1048576)) sizes.now }
    requires fits { base + room ≤ 2 ^ 32 }
    ensures len { IfOk result (λ p. length p.bases.items ≡ length sizes.now) }
    ensures placed { IfOk result (λ p. IsPlan base (map rounded sizes.now) p.bases.items) }
    ensures aligned { IfOk result (λ p.
        IsMultiple 1048576 base → IsAligned (map rounded sizes.now) p.bases.items) }
    ensures fits { IfOk result (λ p. total (map rounded sizes.now) ≤ room) }
    ensures apart { IfOk result (λ p.
        KeepsApart base room (map rounded sizes.now) p.bases.items) }
    ensures packed { IfOk result (λ p. let taken = map rounded sizes.now in
        KeepsApart base (total taken) taken p.bases.items) }

    ensures small { IfErr result (IsTooSmall (total (map rounded sizes.now)) room) }
    ensures none { IfErr result (λ e. (¬ (e ≡ PlanFault.Memory)) → (spans : List Span)
        → IsPlacement base room (map rounded sizes.now) spans → ⊥) }
{
    let rounded = rounded_all(alloc, sizes)?;
    let needed = needed_of(rounded.as_slice());
    if u64::from(room) < needed {
        return Err(PlanFault::TooSmall { needed });
    }
    let order = order_of(alloc, rounded.as_slice())?;
    let bases = packed(alloc, order.as_slice(), base, room)?;
    Ok(Plan { bases })
}
