//! A script.

ghost use Rattle.run_script.specs.Facts.{Facts};

use crate::events::Event;

/// A script, as it is read from its text. `script_data` in the specs gives its contents.
#[derive(Drop)]
pub struct Script {
    pub(crate) every: Option<u32>,
    pub(crate) events: Vec<(u32, Event)>,
    ghost facts: { Facts (record { every = every; events = events.items }) },
}
