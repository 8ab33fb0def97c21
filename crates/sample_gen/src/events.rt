//! The events of the sample's script.

ghost use Rattle.std.specs.Prelude.{◌≡◌, ℕ, IfOk};
ghost use Rattle.sample_gen.specs.Draws.{number};
ghost use Rattle.sample_gen.specs.Sample.{events_to};

use crate::numbers::Numbers;
use run_script::Event;
use std::alloc::{AllocError, Global};

/// The events and their turns. Takes their draws from `numbers`.
pub(crate) fn events(alloc: Global, numbers: &mut Numbers) -> Result<Vec<(u32, Event)>, AllocError>
    ensures { (seed : ℕ) → numbers.old.last ≡ number seed 127
        → IfOk result (λ v. v.items ≡ events_to seed 4096) }
{
    let mut events = Vec::with_capacity(alloc, 4096)?;
    for k in 1..4097 {
        let turn = 16 * k + numbers.draw(16);
        let line = numbers.draw(8) as u8;
        events.push((turn, Event::Irq { line }))?;
    }
    Ok(events)
}
