//! Breakpoints: how far a task can go on without looking for them, and whether a turn was at one.
ghost use Rattle.std.specs.Prelude.{◌≡◌, ◌+◌, ◌≤◌};
ghost use Rattle.board_core.specs.fast.Breakpoints.{stands, hit_of, IsStretch};

use board_model::Turned;
use region_check::Region;

/// Bytes of a region of the flash, from an address on, from which a task can fetch without looking
/// for breakpoints.
#[derive(Clone, Copy)]
pub struct Stretch {
    pub base: u32,
    pub size: u32,
}

/// The stretch of a region around PC that holds no breakpoint; the whole region if there are none.
#[inline(always)]
pub fn stretch_of(breakpoints: &[u32], region: &Region, pc: u32) -> Stretch
    requires from { region.now.base ≤ pc }
    requires to { pc ≤ region.now.base + region.now.size }
    ensures { IsStretch breakpoints.now region.now.base region.now.size pc result.base result.size }
{
    if breakpoints.is_empty() {
        return Stretch {
            base: region.base,
            size: region.size,
        };
    }
    stretch_around(breakpoints, region, pc)
}

/// The same, also if there are some.
#[inline(never)]
fn stretch_around(breakpoints: &[u32], region: &Region, pc: u32) -> Stretch
    requires from { region.now.base ≤ pc }
    requires to { pc ≤ region.now.base + region.now.size }
    ensures { IsStretch breakpoints.now region.now.base region.now.size pc result.base result.size }
{
    let here = pc - region.base;
    let mut from = 0;
    let mut to = region.size;
    for breakpoint in breakpoints {
        if *breakpoint >= region.base {
            let at = *breakpoint - region.base;
            if at >= here {
                if at < to {
                    to = at;
                }
            } else if at >= from {
                from = at + 1;
            }
        }
    }
    Stretch {
        base: region.base + from,
        size: to - from,
    }
}

/// Whether an address is one of the breakpoints.
fn stands(breakpoints: &[u32], at: u32) -> bool
    ensures { result ≡ stands breakpoints.now at }
{
    breakpoints.iter().any(|breakpoint| *breakpoint == at)
}

/// If the PC of the task that a turn ran was at a breakpoint, that task and the PC.
pub fn hit_of(breakpoints: &[u32], turned: Turned) -> Option<(u16, u32)>
    ensures { result ≡ hit_of breakpoints.now turned }
{
    match turned {
        Turned::Idle => None,
        Turned::Ran { task, at } => if stands(breakpoints, at) {
            Some((task, at))
        } else {
            None
        },
    }
}
