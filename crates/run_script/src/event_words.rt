//! The event that words of a line say.

ghost use Rattle.std.specs.Prelude.{◌≡◌, ◌<◌, ◌-◌, ◌/◌, ◌∷◌, [], IfOk, Some, None, Result, Ok, Err};
ghost use Rattle.run_script.specs.Facts.{HasDevice, HasLine};
ghost use Rattle.run_script.specs.Words.{words};
ghost use Rattle.run_script.specs.Statements.{event_named, feed_of, irq_on, device_in, byte_in, line_in};

use crate::events::Event;
use crate::values::{byte_in, device_in, line_in};
use crate::words::{first_word, is_word};

fn irq_on(line: &[u8]) -> Result<Event, u8>
    ensures value { result ≡ irq_on (line_in line.now) }
    ensures line { IfOk result HasLine }
    ensures device { IfOk result HasDevice }
{
    match line_in(line) {
        None => Err(3),
        Some(line) => Ok(Event::Irq { line }),
    }
}

fn feed_of(device: &[u8], byte: &[u8]) -> Result<Event, u8>
    ensures value { result ≡ feed_of (device_in device.now) (byte_in byte.now) }
    ensures line { IfOk result HasLine }
    ensures device { IfOk result HasDevice }
{
    match (device_in(device), byte_in(byte)) {
        (Some(device), Some(byte)) => Ok(Event::Feed { device, byte }),
        _ => Err(3),
    }
}

fn tick_named(kind: &[u8]) -> Result<Event, u8>
    ensures value { result ≡ event_named (kind.now ∷ []) }
    ensures line { IfOk result HasLine }
    ensures device { IfOk result HasDevice }
{
    if is_word(kind, b"tick") {
        Ok(Event::Tick)
    } else {
        Err(2)
    }
}

fn irq_named(kind: &[u8], line: &[u8]) -> Result<Event, u8>
    ensures value { result ≡ event_named (kind.now ∷ line.now ∷ []) }
    ensures line { IfOk result HasLine }
    ensures device { IfOk result HasDevice }
{
    if is_word(kind, b"irq") {
        irq_on(line)
    } else {
        Err(2)
    }
}

fn byte_named(kind: &[u8], device: &[u8], byte: &[u8]) -> Result<Event, u8>
    ensures value { result ≡ event_named (kind.now ∷ device.now ∷ byte.now ∷ []) }
    ensures line { IfOk result HasLine }
    ensures device { IfOk result HasDevice }
{
    if is_word(kind, b"in") {
        feed_of(device, byte)
    } else {
        Err(2)
    }
}

/// The event that words name, or the cause 2 or 3.
pub(crate) fn event_named(text: &[u8]) -> Result<Event, u8>
    ensures value { result ≡ event_named (words text.now) }
    ensures line { IfOk result HasLine }
    ensures device { IfOk result HasDevice }
{
    let (kind, behind) = first_word(text);
    let (line, behind) = first_word(behind);
    let (byte, behind) = first_word(behind);
    let (more, _behind) = first_word(behind);
    if kind.is_empty() {
        Err(2)
    } else if line.is_empty() {
        tick_named(kind)
    } else if byte.is_empty() {
        irq_named(kind, line)
    } else if more.is_empty() {
        byte_named(kind, line, byte)
    } else {
        Err(2)
    }
}
