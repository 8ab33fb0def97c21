//! Cause 20: devices that overlap.

ghost use Rattle.std.specs.Prelude.{◌≡◌, ◌+◌, ◌++◌, ◌∷◌, ◌≤◌, ◌<◌, [], ℕ, All, IfOk, IfSome, IsSome, List, None, OnOk, Some, false, map, option_map};
ghost use Rattle.std.specs.BTreeMap.{get};
ghost use Rattle.std.specs.List.{list_any};
ghost use Rattle.std.specs.Ordering.{nat_cmp};
ghost use Rattle.app_toml.specs.Apps.{DeviceData};
ghost use Rattle.app_toml.specs.Crossed.{meets, overlap};
ghost use Rattle.app_toml.specs.Places.{first_clash};
ghost use Rattle.app_toml.specs.Relations.{IsPlaced};
ghost use Rattle.app_toml.specs.Sites.{device_of, refusal_of};
ghost use Rattle.app_toml.specs.Spread.{IsByBase, IsSpread};

use crate::parts::DeviceSpec;
use crate::places::{PlacedCause, fault_at, index_place};
use std::alloc::{AllocError, Global};
use std::collections::BTreeMap;

/// Devices by their bases, each with its size.
type Bases = BTreeMap<u32, u32>;

/// The base and the size of the last one that begins below an address.
fn last_below(bases: &Bases, end: u32) -> Option<(u32, u32)>
    ensures there { IfSome result (λ p. (p.0 < end) × (get nat_cmp bases.now p.0 ≡ Some p.1)) }
    ensures last { IfSome result (λ p. (base : ℕ) → base < end →
        IsSome (get nat_cmp bases.now base) → base ≤ p.0) }
    ensures none { result ≡ None → (base : ℕ) → base < end → get nat_cmp bases.now base ≡ None }
{
    match bases.range(..end).next_back() {
        Some((base, size)) => Some((*base, *size)),
        None => None,
    }
}

/// Whether a device has a byte in common with one of those that are kept.
fn is_met(bases: &Bases, device: &DeviceSpec) -> bool
    requires { IsPlaced (device_of device.now) }
    ensures { (kept : List DeviceData) → IsByBase bases.now kept → IsSpread bases.now
        → result ≡ list_any (meets (device_of device.now)) kept }
{
    match last_below(bases, device.base + device.size) {
        Some((base, size)) => u64::from(device.base) < u64::from(base) + u64::from(size),
        None => false,
    }
}

/// Adds a device that has no byte in common with those that are kept.
fn keep(bases: &mut Bases, device: &DeviceSpec) -> Result<(), AllocError>
    requires { IsPlaced (device_of device.now) }
    ensures by_base { OnOk result ((kept : List DeviceData) → IsByBase bases.old kept →
        list_any (meets (device_of device.now)) kept ≡ false
        → All IsPlaced kept → IsByBase bases.new (kept ++ device_of device.now ∷ [])) }
    ensures spread { OnOk result ((kept : List DeviceData) → IsByBase bases.old kept →
        list_any (meets (device_of device.now)) kept ≡ false
        → IsSpread bases.old → IsSpread bases.new) }
{
    bases.insert(device.base, device.size)?;
    Ok(())
}

/// The first device that has a byte in common with an earlier one.
pub(crate) fn overlap(
    alloc: Global,
    devices: &[DeviceSpec],
) -> Result<Option<PlacedCause<'static>>, AllocError>
    requires { All IsPlaced (map device_of devices.now) }
    ensures { IfOk result (λ found. option_map refusal_of found ≡ first_clash overlap [] 0
        (map device_of devices.now)) }
{
    let mut bases = BTreeMap::new(alloc);
    for i in 0..devices.len() {
        let device = &devices[i];
        let met = is_met(&bases, device);
        if met {
            return Ok(fault_at(20, index_place("device", i)));
        }
        keep(&mut bases, device)?;
    }
    Ok(None)
}
