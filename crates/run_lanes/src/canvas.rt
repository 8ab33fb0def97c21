//! What is kept of a run for its picture (docs/FORMATS.md, Picture). All memory is allocated before
//! the first turn.
ghost use Rattle.std.specs.Prelude.{◌≤◌, [], IfOk};
ghost use Rattle.run_lanes.specs.Painted.{Painted, Paints};

use crate::activity::Activity;
use crate::columns::Columns;
use crate::events::add_events;
use crate::exchange::Exchange;
use crate::first::First;
use crate::watching::Watcher;
use kernel_abi::Note;
use outside_io::Failed;
use std::alloc::{AllocError, Global};

// What happened to tasks is written for this many faults and births.
const MOST_EVENTS: usize = 10;

/// What was counted of the turns so far.
#[derive(Drop)]
pub struct Canvas {
    pub columns: Columns,
    pub exchange: Exchange,
    /// Faults and births, each with its turn.
    pub events: First<(u32, Note)>,
}

impl Canvas {
    /// A canvas before the first turn, for this many tasks.
    ///
    /// # Errors
    ///
    /// Only if memory runs out.
    pub fn open(alloc: Global, tasks: usize) -> Result<Canvas, AllocError>
        requires { tasks ≤ 65536 }
        ensures { IfOk result (λ c. Painted tasks c []) }
    {
        let columns = Columns::open(alloc, tasks)?;
        let exchange = Exchange::open(alloc, tasks)?;
        let events = First::open(alloc, MOST_EVENTS)?;
        Ok(Canvas {
            columns,
            exchange,
            events,
        })
    }
}

/// Seeing never fails.
impl Watcher<()> for Canvas {
    ghost saw = { λ c _ turns d _. Paints c turns d };

    ghost broke = { λ _ _ _ _ _. ⊥ };

    fn see(
        &mut self,
        turn: u32,
        activities: &[Activity],
        notes: &[Note],
        _out: &mut (),
    ) -> Result<(), Failed> {
        self.columns.add(activities, notes);
        self.exchange.add(turn, notes);
        add_events(turn, notes, &mut self.events);
        Ok(())
    }

    fn see_idle(
        &mut self,
        _turn: u32,
        turns: u32,
        activities: &[Activity],
        _out: &mut (),
    ) -> Result<(), Failed> {
        self.columns.add_idle(turns, activities);
        Ok(())
    }

    fn sees_in_parts() {}
}
