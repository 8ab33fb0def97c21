//! What a task does in a turn, as one of seven activities.
ghost use Rattle.std.specs.Prelude.{◌≡◌, ◌≤◌, length};
ghost use Rattle.run_lanes.specs.Timeline.{activity_name};
ghost use Rattle.run_lanes.specs.Activities.{activity_number, activity_of, is_same};

use kernel_abi::Health;
use task_table::{Phase, Wait};

/// What a task does in a turn.
#[derive(Clone, Copy, PartialEq, Eq)]
pub enum Activity {
    /// The turn is the task's own.
    Runs,
    /// It is well and waits for nothing but its turn.
    Ready,
    /// It is the client of a call that is offered but not taken.
    Offers,
    /// It is the client of a call that is taken.
    Awaits,
    /// It listens.
    Listens,
    Faulted,
    Stopped,
}

impl Activity {
    /// Its number in the order of the activities, from 0 on.
    pub fn number(&self) -> u8
        ensures { result ≡ activity_number self.now }
    {
        match self {
            Activity::Runs => 0,
            Activity::Ready => 1,
            Activity::Offers => 2,
            Activity::Awaits => 3,
            Activity::Listens => 4,
            Activity::Faulted => 5,
            Activity::Stopped => 6,
        }
    }

    pub fn is_same(&self, other: Activity) -> bool
        ensures { result ≡ is_same self.now other }
    {
        self.number() == other.number()
    }

    /// Its name.
    pub fn name(&self) -> &'static str
        ensures name { result.now ≡ activity_name self.now }
        ensures short { length result.now ≤ 7 }
    {
        match self {
            Activity::Runs => "runs",
            Activity::Ready => "ready",
            Activity::Offers => "offers",
            Activity::Awaits => "awaits",
            Activity::Listens => "listens",
            Activity::Faulted => "faulted",
            Activity::Stopped => "stopped",
        }
    }
}

/// The activity of a task with this health that waits for this.
pub fn activity_of(health: Health, wait: Wait) -> Activity
    ensures { result ≡ activity_of health wait }
{
    match health {
        Health::Faulted(_) => Activity::Faulted,
        Health::Stopped => Activity::Stopped,
        Health::Well => match wait {
            Wait::Nothing => Activity::Ready,
            Wait::Listen(_) => Activity::Listens,
            Wait::Call(call) => match call.phase {
                Phase::Offered => Activity::Offers,
                Phase::Taken => Activity::Awaits,
            },
        },
    }
}
