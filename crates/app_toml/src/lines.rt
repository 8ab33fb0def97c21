//! Causes 18 to 20: interrupt lines and devices.

ghost use Rattle.std.specs.Prelude.{◌≡◌, ◌==◌, IfOk, [], map, option_map};
ghost use Rattle.std.specs.List.{list_any};
ghost use Rattle.app_toml.specs.Crossed.{bad_device, is_placed, line_fault, line_twice};
ghost use Rattle.app_toml.specs.Held.{parts_of};
ghost use Rattle.app_toml.specs.Places.{first_clash, first_fault};
ghost use Rattle.app_toml.specs.Sites.{device_of, interrupt_of, refusal_of};

use crate::overlaps::overlap;
use crate::parts::{DeviceSpec, LineSpec, Parts};
use crate::places::{PlacedCause, fault_at, index_place};
use crate::unknowns::interrupt_place;
use region_check::is_size;
use std::alloc::{AllocError, Global};

fn has_line(line: u8, interrupts: &[LineSpec]) -> bool
    ensures { result ≡ list_any (λ e. e.line == line) (map interrupt_of interrupts.now) }
{
    for interrupt in interrupts {
        if interrupt.line == line {
            return true;
        }
    }
    false
}

fn line_twice(interrupts: &[LineSpec]) -> Option<PlacedCause<'static>>
    ensures { option_map refusal_of result
        ≡ first_clash line_twice [] 0 (map interrupt_of interrupts.now) }
{
    for i in 0..interrupts.len() {
        if has_line(interrupts[i].line, &interrupts[..i]) {
            return fault_at(18, interrupt_place(i, "line"));
        }
    }
    None
}

fn is_placed(d: &DeviceSpec) -> bool
    ensures { result ≡ is_placed (device_of d.now) }
{
    is_size(d.size)
        && d.base % d.size == 0
        && d.base >= 0x4000_0000
        && u64::from(d.base) + u64::from(d.size) <= 0x6000_0000
}

fn bad_device(devices: &[DeviceSpec]) -> Option<PlacedCause<'static>>
    ensures { option_map refusal_of result ≡ first_fault bad_device 0 (map device_of devices.now) }
{
    for i in 0..devices.len() {
        if !is_placed(&devices[i]) {
            return fault_at(19, index_place("device", i));
        }
    }
    None
}

/// The first fault of causes 18 to 20.
pub(crate) fn line_fault(
    alloc: Global,
    parts: &Parts,
) -> Result<Option<PlacedCause<'static>>, AllocError>
    ensures { IfOk result (λ found. option_map refusal_of found ≡ line_fault (parts_of parts.now)) }
{
    let line = line_twice(parts.interrupts.as_slice());
    if line.is_some() {
        return Ok(line);
    }
    let devices = parts.devices.as_slice();
    let device = bad_device(devices);
    if device.is_some() {
        return Ok(device);
    }
    let overlap = overlap(alloc, devices)?;
    Ok(overlap)
}
