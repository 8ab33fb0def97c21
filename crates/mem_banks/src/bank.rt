//! Banks of bytes, and how an address is found in them.

ghost use Rattle.std.specs.Prelude.{◌≡◌, ◌+◌, ◌*◌, ◌<◌, length, take, drop, IfSome, IfNone, All};
ghost use Rattle.mem_banks.specs.Memory.{number_of};
ghost use Rattle.mem_banks.specs.Banks.{IsAt, IsNowhere};

/// The bytes of the address space from `base` on.
#[derive(Drop)]
pub struct Bank {
    pub base: u32,
    pub bytes: Vec<u8>,
}

/// A byte of a bank: the index of the bank, and the offset of the byte in it.
#[derive(Copy, Clone, Drop)]
pub struct Place {
    pub bank: usize,
    pub at: usize,
}

/// The number of pages, each of which has an entry in the table.
pub const PAGES: usize = 8192;

/// The index of an address's entry in the table of pages. No entry belongs to both flash and RAM.
#[inline(always)]
pub fn page(addr: u32) -> usize
    ensures { result < 8192 }
{
    (addr / 256 % 4096 + 4096 * (addr / 0x2000_0000 % 2)) as usize
}

/// Where an address is in the banks, found without the table.
#[cold]
#[inline(never)]
pub fn search(banks: &[Bank], addr: u32) -> Option<Place>
    ensures found { IfSome result (λ p. IsAt banks.now p.bank p.at addr) }
    ensures none { IfNone result (IsNowhere banks.now addr) }
{
    for k in 0..banks.len() {
        let bank = &banks[k];
        if addr >= bank.base {
            let at = (addr - bank.base) as usize;
            if at < bank.bytes.len() {
                return Some(Place { bank: k, at });
            }
        }
    }
    None
}

/// Where an address is in the banks. The table names the bank to look in first.
pub fn find(banks: &[Bank], table: &[u16], addr: u32) -> Option<Place>
    requires len { length table.now ≡ 8192 }
    requires hints { All (λ k. k < length banks.now) table.now }
    ensures found { IfSome result (λ p. IsAt banks.now p.bank p.at addr) }
    ensures none { IfNone result (IsNowhere banks.now addr) }
{
    let k = table[page(addr)] as usize;
    let bank = &banks[k];
    if addr >= bank.base {
        let at = (addr - bank.base) as usize;
        if at < bank.bytes.len() {
            return Some(Place { bank: k, at });
        }
    }
    search(banks, addr)
}

/// The number that the two bytes from a place on spell, the lowest byte first, if the bank has
/// both.
#[inline(always)]
pub fn whole_half(bytes: &[u8], at: usize) -> u16
    requires { at + 1 < length bytes.now }
    ensures { result ≡ number_of (take 2 (drop at bytes.now)) }
{
    u16::from(bytes[at]) + 256 * u16::from(bytes[at + 1])
}

/// The number that the four bytes from a place on spell, the lowest byte first, if the bank has all
/// of them.
#[inline(always)]
pub fn whole_word(bytes: &[u8], at: usize) -> u32
    requires { at + 3 < length bytes.now }
    ensures { result ≡ number_of (take 4 (drop at bytes.now)) }
{
    let low = u32::from(bytes[at]) + 256 * u32::from(bytes[at + 1]);
    let high = u32::from(bytes[at + 2]) + 256 * u32::from(bytes[at + 3]);
    low + 65536 * high
}
