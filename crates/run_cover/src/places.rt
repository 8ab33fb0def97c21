//! Places: the even addresses of the flash and of the RAM, where an instruction may stand, and
//! their numbers in a table.
ghost use Rattle.std.specs.Prelude.{◌≡◌, ◌<◌};
ghost use Rattle.run_cover.specs.Places.{address_of, place_of};

use mem_banks::{FLASH, RAM};

/// The number of places in the flash, which has at most 2^20 bytes.
const FLASH_PLACES: usize = 524_288;

/// The number of places in the flash and the RAM. The RAM has at most 2^18 bytes.
pub const PLACES: usize = 655_360;

/// The number of the place at an address, if there is one. The places of the flash come first.
pub fn place_of(addr: u32) -> Option<usize>
    ensures { result ≡ place_of addr }
{
    if addr % 2 != 0 {
        return None;
    }
    if FLASH <= addr && addr < FLASH + 0x10_0000 {
        return Some(((addr - FLASH) / 2) as usize);
    }
    if RAM <= addr && addr < RAM + 0x4_0000 {
        return Some(FLASH_PLACES + ((addr - RAM) / 2) as usize);
    }
    None
}

/// The address of the place with a number.
#[tactic(auto, unfolding(crate::specs::Places::address_of))]
pub fn address_of(place: usize) -> u32
    requires { place < 655360 }
    ensures { result ≡ address_of place }
{
    if place < FLASH_PLACES {
        FLASH + 2 * (place as u32)
    } else {
        RAM + 2 * ((place - FLASH_PLACES) as u32)
    }
}
