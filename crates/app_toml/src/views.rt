//! What a description says.

ghost use Rattle.std.specs.Prelude.{◌≡◌, map};
ghost use Rattle.app_toml.specs.Accepted.{IsAccepted};
ghost use Rattle.app_toml.specs.Held.{app_of};
ghost use Rattle.app_toml.specs.Relations.{Relations};
ghost use Rattle.app_toml.specs.Sites.{device_of, interrupt_of, region_of, task_of};

use crate::app::App;
use crate::parts::{DeviceSpec, LineSpec, RegionSpec, TaskSpec};

impl App {
    /// How many bytes of flash the board has.
    pub fn flash(&self) -> u32
        ensures { result ≡ (app_of self.now).flash }
    {
        self.flash
    }

    /// How many bytes of RAM the board has.
    pub fn ram(&self) -> u32
        ensures { result ≡ (app_of self.now).ram }
    {
        self.ram
    }

    /// The name of the notification that is posted to task 0 at a fault.
    pub fn fault(&self) -> &str
        ensures { result.now ≡ (app_of self.now).fault }
    {
        self.fault.as_str()
    }

    /// The tasks, of which the first is the supervisor.
    pub fn tasks(&self) -> &[TaskSpec]
        ensures { map task_of result.now ≡ (app_of self.now).tasks }
    {
        self.tasks.as_slice()
    }

    pub fn regions(&self) -> &[RegionSpec]
        ensures { map region_of result.now ≡ (app_of self.now).regions }
    {
        self.regions.as_slice()
    }

    pub fn devices(&self) -> &[DeviceSpec]
        ensures { map device_of result.now ≡ (app_of self.now).devices }
    {
        self.devices.as_slice()
    }

    pub fn interrupts(&self) -> &[LineSpec]
        ensures { map interrupt_of result.now ≡ (app_of self.now).interrupts }
    {
        self.interrupts.as_slice()
    }

    /// The facts that are true of each description: its values have their forms, and no cause
    /// refuses it.
    pub fn facts(&self)
        ensures { IsAccepted (app_of self.now) }
    {}

    /// How its tables stand to one another: names, references, counts, stacks, lines and devices.
    pub fn relations(&self)
        ensures { Relations (app_of self.now) }
    {}
}
