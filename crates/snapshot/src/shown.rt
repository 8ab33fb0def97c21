//! Makes the records of a saved state from a board's views.
ghost use Rattle.std.specs.Prelude.{◌≡◌, ◌≤◌};
ghost use Rattle.board_core.specs.DeviceViews.{device_told as data_of_view};
ghost use Rattle.snapshot.specs.Saved.{bit, health_number, fault_of, flags_number, timer_flag, timer_of, device_told};
ghost use Rattle.snapshot.specs.Shown.{sender_number, sender_id, shown_number, call_words, listen_words, shown_words, timer_shown, record_shown, line_shown};

use crate::records::{DeviceRecord, TaskRecord};
use board_core::{DeviceView, TaskView};
use kernel_abi::{Fault, Health};
use task_table::{FromId, Listening, OpenCall, Phase, Wait};
use words_core::Flags;

fn health_number(health: Health) -> u8
    ensures { result ≡ health_number health }
{
    match health {
        Health::Well => 0,
        Health::Stopped => 1,
        Health::Faulted(_) => 2,
    }
}

/// The fault, or all zeros if there is none.
fn fault_of(health: Health) -> Fault
    ensures { result ≡ fault_of health }
{
    match health {
        Health::Faulted(fault) => fault,
        Health::Well | Health::Stopped => Fault {
            number: 0,
            x: 0,
            y: 0,
        },
    }
}

fn bit(set: bool, value: u32) -> u32
    ensures value { result ≡ bit set value }
    ensures small { result ≤ value }
{
    if set { value } else { 0 }
}

fn flags_number(flags: Flags) -> u32
    ensures { result ≡ flags_number flags }
{
    bit(flags.n, 8) + bit(flags.z, 4) + bit(flags.c, 2) + bit(flags.v, 1)
}

fn sender_number(from: FromId) -> u8
    ensures { result ≡ sender_number from }
{
    match from {
        FromId::Any => 3,
        FromId::Kernel => 4,
        FromId::One(_) => 5,
    }
}

fn sender_id(from: FromId) -> u32
    ensures { result ≡ sender_id from }
{
    match from {
        FromId::Any | FromId::Kernel => 0,
        FromId::One(id) => u32::from(id.number),
    }
}

fn wait_number(wait: &Wait) -> u8
    ensures { result ≡ shown_number wait.now }
{
    match wait {
        Wait::Nothing => 0,
        Wait::Call(call) => match call.phase {
            Phase::Offered => 1,
            Phase::Taken => 2,
        },
        Wait::Listen(listening) => sender_number(listening.from),
    }
}

fn call_words(call: &OpenCall) -> [u32; 8]
    ensures { result ≡ call_words call.now }
{
    [
        call.number,
        u32::from(call.server.number) + 65536 * u32::from(call.operation),
        call.message.base,
        call.message.len,
        call.reply.base,
        call.reply.len,
        call.table,
        call.leases,
    ]
}

fn listen_words(listening: &Listening) -> [u32; 8]
    ensures { result ≡ listen_words listening.now }
{
    [
        listening.mask,
        sender_id(listening.from),
        listening.buffer.base,
        listening.buffer.len,
        0,
        0,
        0,
        0,
    ]
}

fn wait_words(wait: &Wait) -> [u32; 8]
    ensures { result ≡ shown_words wait.now }
{
    match wait {
        Wait::Nothing => [0; 8],
        Wait::Call(call) => call_words(call),
        Wait::Listen(listening) => listen_words(listening),
    }
}

/// Whether a timer is set (1 or 0), its deadline and its bits; zeros if none is set.
fn timer_of(timer: Option<(u64, u32)>) -> (u32, u64, u32)
    ensures flag { result.0 ≡ timer_flag (timer_shown timer) }
    ensures deadline { result.1 ≡ (timer_of (timer_shown timer)).deadline }
    ensures bits { result.2 ≡ (timer_of (timer_shown timer)).bits }
{
    match timer {
        None => (0, 0, 0),
        Some((deadline, bits)) => (1, deadline, bits),
    }
}

/// The record of a task.
pub(crate) fn record_of(view: &TaskView) -> TaskRecord
    ensures { result ≡ record_shown view.now }
{
    let fault = fault_of(view.health);
    let (timer, deadline, bits) = timer_of(view.timer);
    TaskRecord {
        generation: view.generation,
        health: health_number(view.health),
        fault: fault.number,
        wait: wait_number(&view.wait),
        x: fault.x,
        y: fault.y,
        registers: view.regs,
        flags: flags_number(view.flags),
        posted: view.posted,
        timer,
        deadline,
        bits,
        words: wait_words(&view.wait),
    }
}

/// The record of a device.
pub(crate) fn device_record_of(view: &DeviceView) -> DeviceRecord
    ensures { result ≡ device_told (data_of_view view.now) }
{
    let waiting = view.queue.as_slice();
    let mut queue = [0; 64];
    queue[..waiting.len()].copy_from_slice(waiting);
    DeviceRecord {
        count: view.count,
        queued: waiting.len() as u32,
        queue,
    }
}

/// The byte of an interrupt line.
pub(crate) fn line_number(line: Option<(bool, bool)>) -> u8
    ensures { result ≡ line_shown line }
{
    match line {
        None => 0,
        Some((enabled, pending)) => u8::from(enabled) + 2 * u8::from(pending),
    }
}
