//! What a board shows of its devices between turns.
ghost use Rattle.std.specs.Prelude.{◌≡◌, ◌<◌, length, slice_get, take};
ghost use Rattle.std.specs.Option.{option_map};
ghost use Rattle.kernel_abi.specs.Devices.{device_at};
ghost use Rattle.task_table.specs.model.State.{State};
ghost use Rattle.task_table.specs.model.Asking.{asks_at};
ghost use Rattle.board_model.specs.Script.{Scenario};
ghost use Rattle.board_core.specs.Data.{data_of};
ghost use Rattle.board_core.specs.DeviceViews.{device_told};
ghost use Rattle.board_core.specs.Stands.{Stands};

use crate::board::Board;
use crate::list::Devices;
use arrayvec::ArrayVec;
use kernel_abi::Kind;

/// A device between turns: its kind, the first of its 256 addresses, how many bytes were stored to
/// it modulo 2^32, and the bytes that wait in it, at most 64, oldest first.
#[derive(Drop)]
pub struct DeviceView {
    pub kind: Kind,
    pub base: u32,
    pub count: u32,
    pub queue: ArrayVec<u8, 64>,
}

/// The first 64 bytes that wait in the k-th device.
fn queue(devices: &Devices, k: usize) -> ArrayVec<u8, 64>
    requires { k < length (data_of shown devices.now) }
    ensures { result.items ≡ take 64 (device_at (data_of shown devices.now) k).queue }
{
    let mut queue = ArrayVec::new();
    for j in 0..64 {
        match devices.queued(k, j) {
            Some(byte) => queue.push(byte),
            None => return queue,
        }
    }
    queue
}

/// What is shown of the k-th device.
fn view(devices: &Devices, k: usize) -> DeviceView
    requires { k < length (data_of shown devices.now) }
    ensures { let d = device_at (data_of shown devices.now) k in
        device_told result ≡ record d { queue = take 64 d.queue } }
{
    DeviceView {
        kind: devices.kind(k),
        base: devices.base(k),
        count: devices.count(k),
        queue: queue(devices, k),
    }
}

impl Board {
    /// How many devices there are.
    pub fn device_count(&self) -> usize
        ensures { (x : Scenario) (s : State) → Stands shown x self.now s →
            result ≡ length s.devices }
    {
        self.machine.space.devices.len()
    }

    /// The k-th device, or None past the last one.
    pub fn device(&self, k: usize) -> Option<DeviceView>
        ensures { (x : Scenario) (s : State) → Stands shown x self.now s →
            option_map device_told result ≡ slice_get s.devices k }
    {
        let devices = &self.machine.space.devices;
        if k >= devices.len() {
            return None;
        }
        Some(view(devices, k))
    }

    /// Whether the device behind an address asks for an interrupt. Where no device is, nothing
    /// does.
    pub fn asks_at(&self, addr: u32) -> bool
        ensures { (x : Scenario) (s : State) → Stands shown x self.now s →
            result ≡ asks_at s.devices addr }
    {
        self.machine.space.devices.asks_at(addr)
    }
}
