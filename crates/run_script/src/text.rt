//! The text of a script.

ghost use Rattle.std.specs.Prelude.{◌≡◌, ◌++◌, OnOk, decimal};
ghost use Rattle.std.specs.List.{flat_map};
ghost use Rattle.run_script.specs.Events.{script_data};
ghost use Rattle.run_script.specs.Texts.{event_line, event_text, period_line, script_text};

use crate::events::Event;
use crate::script::Script;
use itoa::Buffer;
use std::alloc::AllocError;

fn push_number(number: u32, out: &mut Vec<u8>) -> Result<(), AllocError>
    ensures { OnOk result (out.new.items ≡ out.old.items ++ decimal number) }
{
    let mut digits = Buffer::new();
    out.extend_from_slice(digits.format(number).as_bytes())
}

fn push_event(event: Event, out: &mut Vec<u8>) -> Result<(), AllocError>
    ensures { OnOk result (out.new.items ≡ out.old.items ++ event_text event) }
{
    match event {
        Event::Tick => out.extend_from_slice(b"tick"),
        Event::Irq { line } => {
            out.extend_from_slice(b"irq ")?;
            push_number(u32::from(line), out)
        }
        Event::Feed { device, byte } => {
            out.extend_from_slice(b"in ")?;
            push_number(u32::from(device), out)?;
            out.extend_from_slice(b" ")?;
            push_number(u32::from(byte), out)
        }
    }
}

#[tactic(auto, unfolding(crate::specs::Texts::event_line))]
fn push_line(listed: (u32, Event), out: &mut Vec<u8>) -> Result<(), AllocError>
    ensures { OnOk result (out.new.items ≡ out.old.items ++ event_line listed) }
{
    out.extend_from_slice(b"at ")?;
    push_number(listed.0, out)?;
    out.extend_from_slice(b" ")?;
    push_event(listed.1, out)?;
    out.extend_from_slice(b"\n")
}

fn push_period(every: Option<u32>, out: &mut Vec<u8>) -> Result<(), AllocError>
    ensures { OnOk result (out.new.items ≡ out.old.items ++ period_line every) }
{
    match every {
        None => Ok(()),
        Some(period) => {
            out.extend_from_slice(b"every ")?;
            push_number(period, out)?;
            out.extend_from_slice(b" tick\n")
        }
    }
}

fn push_lines(events: &[(u32, Event)], out: &mut Vec<u8>) -> Result<(), AllocError>
    ensures { OnOk result (out.new.items ≡ out.old.items ++ flat_map event_line events.now) }
{
    for listed in events {
        push_line(*listed, out)?;
    }
    Ok(())
}

impl Script {
    /// Appends the script's text to `out`: `every P tick` if there is a period, then each event on
    /// a line of its own, in the order of the list. Reading this text gives the same script
    /// (`script_text_is_read`).
    ///
    /// # Errors
    ///
    /// Only if memory runs out.
    #[tactic(auto, unfolding(crate::specs::Texts::script_text))]
    pub fn push_text(&self, out: &mut Vec<u8>) -> Result<(), AllocError>
        ensures { OnOk result (out.new.items ≡ out.old.items ++ script_text
            (script_data self.now)) }
    {
        push_period(self.every, out)?;
        push_lines(self.events.as_slice(), out)
    }
}
