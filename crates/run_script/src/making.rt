//! Makes a script from its events.

ghost use Rattle.std.specs.Prelude.{◌≡◌, IfOk};
ghost use Rattle.run_script.specs.Events.{script_data};
ghost use Rattle.run_script.specs.Facts.{Facts};

use crate::events::Event;
use crate::script::Script;
use std::alloc::{AllocError, Global};

impl Script {
    /// The script with this period of ticks and with these events, each with its turn. No cause may
    /// refuse them (docs/FORMATS.md, Script).
    ///
    /// # Errors
    ///
    /// Only if memory runs out.
    pub fn of(
        alloc: Global,
        every: Option<u32>,
        events: &[(u32, Event)],
    ) -> Result<Script, AllocError>
        requires { Facts (record { every = every; events = events.now }) }
        ensures { IfOk result (λ s. script_data s ≡
            (record { every = every; events = events.now })) }
    {
        Ok(Script {
            every,
            events: Vec::from_slice(alloc, events)?,
        })
    }
}
