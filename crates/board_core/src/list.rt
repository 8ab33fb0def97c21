//! The boxes of devices that a board was handed.
ghost use Rattle.std.specs.Prelude.{◌≡◌, ◌≢◌, ◌<◌, ◌+◌, ◌-◌, ◌*◌, ◌%◌, ◌^◌, ◌⊎◌, [], true, false, length, map, slice_get, None, MatchOption};
ghost use Rattle.kernel_abi.specs.Devices.{looked, after_load, after_store, given_out, after_input, fed_by, IsSettable, is_behind, behind, device_at, with_device, device_number, devices_loaded, devices_stored, device_out, devices_fed, feed_answer};
ghost use Rattle.task_table.specs.model.Asking.{asks, asks_at};
ghost use Rattle.board_core.specs.Data.{data_of, IsPlace, IsOffset};

use devices::Device;
use kernel_abi::{Fed, Given, Kind};

/// Devices; each has 256 addresses, from its first one on.
#[derive(Drop)]
pub struct Devices {
    list: Vec<Box<dyn Device>>,
}

/// The offset of an address from a device's first address, if the address is one of the device's.
fn offset_of(device: &Box<dyn Device>, addr: u32) -> Option<u32>
    ensures { MatchOption result (is_behind addr (shown device.now) ≡ false)
        (λ off. IsOffset (shown device.now) addr off) }
{
    let base = device.base();
    if base <= addr && addr - base < 256 {
        Some(addr - base)
    } else {
        None
    }
}

/// A device's first address.
fn base_of(device: &Box<dyn Device>) -> u32
    ensures { result ≡ (shown device.now).base }
{
    device.base()
}

/// What a device shows at an offset.
fn look_at(device: &Box<dyn Device>, off: u32) -> u32
    requires { off < 256 }
    ensures { result ≡ looked (shown device.now) off }
{
    device.look(off)
}

/// Tells a device that a load at an offset has taken what it showed.
fn take_from(device: &mut Box<dyn Device>, off: u32)
    requires { off < 256 }
    ensures { shown device.new ≡ after_load (shown device.old) off }
{
    device.took(off)
}

/// Stores to a device at an offset.
fn store_to(device: &mut Box<dyn Device>, off: u32, value: u32) -> Option<u8>
    requires { off < 256 }
    ensures stored { shown device.new ≡ after_store (shown device.old) off }
    ensures out { result ≡ given_out (shown device.old).kind off value }
{
    device.store(off, value)
}

/// Feeds a device.
fn feed_to(device: &mut Box<dyn Device>, byte: u8) -> Fed
    ensures after { shown device.new ≡ after_input (shown device.old) byte }
    ensures told { result ≡ fed_by (shown device.old).kind (shown device.old).queue }
{
    device.input(byte)
}

fn kind_of(device: &Box<dyn Device>) -> Kind
    ensures { result ≡ (shown device.now).kind }
{
    device.kind()
}

fn count_of(device: &Box<dyn Device>) -> u32
    ensures { result ≡ (shown device.now).count }
{
    device.count()
}

fn queued_in(device: &Box<dyn Device>, k: usize) -> Option<u8>
    ensures { result ≡ slice_get (shown device.now).queue k }
{
    device.queued(k)
}

/// Whether a device asks for an interrupt: a port while a byte waits, a console always.
fn asks(device: &Box<dyn Device>) -> bool
    ensures { result ≡ asks (shown device.now).kind (shown device.now).queue }
{
    match kind_of(device) {
        Kind::Console => true,
        Kind::Port => queued_in(device, 0).is_some(),
    }
}

fn set_to(device: &mut Box<dyn Device>, count: u32, queue: &[u8])
    requires { IsSettable (shown device.old).kind count queue.now }
    ensures { shown device.new ≡ record (shown device.old) { count = count; queue = queue.now } }
{
    device.set(count, queue)
}

/// The low n bytes of a word.
fn low_bytes(word: u32, n: u32) -> u32
    requires { (n ≡ 1) ⊎ (n ≡ 2) ⊎ (n ≡ 4) }
    ensures { result ≡ word % 2 ^ (8 * n) }
{
    match n {
        1 => word % 0x100,
        2 => word % 0x1_0000,
        _ => word,
    }
}

impl Devices {
    pub fn of(list: Vec<Box<dyn Device>>) -> Devices
        ensures { data_of shown result ≡ map shown list.items }
    {
        Devices { list }
    }

    pub fn len(&self) -> usize
        ensures { result ≡ length (data_of shown self.now) }
    {
        self.list.len()
    }

    /// The offset of an address from the k-th device's first address, if it is one of that
    /// device's.
    fn offset(&self, k: usize, addr: u32) -> Option<u32>
        requires { k < length (data_of shown self.now) }
        ensures { MatchOption result (is_behind addr (device_at (data_of shown self.now) k) ≡ false)
            (λ off. IsOffset (device_at (data_of shown self.now) k) addr off) }
    {
        offset_of(&self.list[k], addr)
    }

    /// The k-th device's first address.
    pub fn base(&self, k: usize) -> u32
        requires { k < length (data_of shown self.now) }
        ensures { result ≡ (device_at (data_of shown self.now) k).base }
    {
        base_of(&self.list[k])
    }

    fn look(&self, k: usize, off: u32) -> u32
        requires there { k < length (data_of shown self.now) }
        requires off { off < 256 }
        ensures { result ≡ looked (device_at (data_of shown self.now) k) off }
    {
        look_at(&self.list[k], off)
    }

    fn take(&mut self, k: usize, off: u32)
        requires there { k < length (data_of shown self.old) }
        requires off { off < 256 }
        ensures { data_of shown self.new ≡ with_device (data_of shown self.old) k
            (after_load (device_at (data_of shown self.old) k) off) }
    {
        take_from(&mut self.list[k], off);
    }

    fn store_in(&mut self, k: usize, off: u32, value: u32) -> Option<u8>
        requires there { k < length (data_of shown self.old) }
        requires off { off < 256 }
        ensures stored { data_of shown self.new ≡ with_device (data_of shown self.old) k
            (after_store (device_at (data_of shown self.old) k) off) }
        ensures out { result ≡ given_out (device_at (data_of shown self.old) k).kind off value }
    {
        store_to(&mut self.list[k], off, value)
    }

    fn feed_into(&mut self, k: usize, byte: u8) -> Fed
        requires there { k < length (data_of shown self.old) }
        ensures after { data_of shown self.new ≡ with_device (data_of shown self.old) k
            (after_input (device_at (data_of shown self.old) k) byte) }
        ensures told { result ≡ fed_by (device_at (data_of shown self.old) k).kind
            (device_at (data_of shown self.old) k).queue }
    {
        feed_to(&mut self.list[k], byte)
    }

    /// Which device is behind an address, and the offset of the address from the device's first
    /// one.
    fn place(&self, addr: u32) -> Option<(usize, u32)>
        ensures { MatchOption result (behind addr (data_of shown self.now) ≡ None)
            (λ p. IsPlace (data_of shown self.now) addr p.0 p.1) }
    {
        let len = self.len();
        let mut k = 0;
        while k < len {
            if let Some(off) = self.offset(k, addr) {
                return Some((k, off));
            }
            k += 1;
        }
        None
    }

    /// Whether the k-th device asks for an interrupt.
    fn asks(&self, k: usize) -> bool
        requires { k < length (data_of shown self.now) }
        ensures { let d = device_at (data_of shown self.now) k in result ≡ asks d.kind d.queue }
    {
        asks(&self.list[k])
    }

    /// Whether the device behind an address asks for an interrupt. Where no device is, nothing
    /// does.
    pub fn asks_at(&self, addr: u32) -> bool
        ensures { result ≡ asks_at (data_of shown self.now) addr }
    {
        match self.place(addr) {
            Some((k, _)) => self.asks(k),
            None => false,
        }
    }

    /// What n bytes from an address on show, if a device is behind it.
    pub fn number(&self, addr: u32, n: u32) -> Option<u32>
        requires { (n ≡ 1) ⊎ (n ≡ 2) ⊎ (n ≡ 4) }
        ensures { result ≡ device_number (data_of shown self.now) addr n }
    {
        let (k, off) = self.place(addr)?;
        let word = self.look(k, off);
        Some(low_bytes(word, n))
    }

    /// Tells the device behind an address, if there is one, that a load there has taken what it
    /// showed.
    pub fn taken(&mut self, addr: u32)
        ensures { data_of shown self.new ≡ devices_loaded (data_of shown self.old) addr }
    {
        if let Some((k, off)) = self.place(addr) {
            self.take(k, off);
        }
    }

    /// Stores a value to the device behind an address, and returns what the device gives out.
    pub fn store(&mut self, addr: u32, value: u32) -> Option<Given>
        ensures stored { data_of shown self.new ≡ devices_stored (data_of shown self.old) addr }
        ensures out { result ≡ device_out (data_of shown self.old) addr value }
    {
        let (k, off) = self.place(addr)?;
        let byte = self.store_in(k, off, value)?;
        Some(Given { device: k, byte })
    }

    /// Feeds a byte from outside to the k-th device; None if there is no such device.
    pub fn feed(&mut self, k: usize, byte: u8) -> Option<Fed>
        ensures after { data_of shown self.new ≡ devices_fed (data_of shown self.old) k byte }
        ensures told { result ≡ feed_answer (data_of shown self.old) k }
    {
        if k < self.len() {
            Some(self.feed_into(k, byte))
        } else {
            None
        }
    }

    /// Whether there are no devices.
    pub fn is_empty(&self) -> bool
        ensures none { result ≡ true → data_of shown self.now ≡ [] }
        ensures some { result ≡ false → data_of shown self.now ≢ [] }
    {
        self.list.is_empty()
    }

    /// The k-th device's kind.
    pub fn kind(&self, k: usize) -> Kind
        requires { k < length (data_of shown self.now) }
        ensures { result ≡ (device_at (data_of shown self.now) k).kind }
    {
        kind_of(&self.list[k])
    }

    /// How many bytes were stored to the k-th device, modulo 2^32.
    pub fn count(&self, k: usize) -> u32
        requires { k < length (data_of shown self.now) }
        ensures { result ≡ (device_at (data_of shown self.now) k).count }
    {
        count_of(&self.list[k])
    }

    /// The j-th byte that waits in the k-th device.
    pub fn queued(&self, k: usize, j: usize) -> Option<u8>
        requires { k < length (data_of shown self.now) }
        ensures { result ≡ slice_get (device_at (data_of shown self.now) k).queue j }
    {
        queued_in(&self.list[k], j)
    }

    /// Sets the count and the bytes that wait of the k-th device.
    pub fn set(&mut self, k: usize, count: u32, queue: &[u8])
        requires there { k < length (data_of shown self.old) }
        requires fits { IsSettable (device_at (data_of shown self.old) k).kind count queue.now }
        ensures { data_of shown self.new ≡ with_device (data_of shown self.old) k record
            (device_at (data_of shown self.old) k) { count = count; queue = queue.now } }
    {
        set_to(&mut self.list[k], count, queue);
    }
}
