//! Reads an application and its layout.

ghost use Rattle.std.specs.Prelude.{◌≡◌, ◌≤◌, ◌<◌, ◌+◌, length};
ghost use Rattle.app_toml.specs.Held.{app_of};
ghost use Rattle.app_toml.specs.Sites.{task_of};
ghost use Rattle.image_build.specs.Building.{IsLaid};
ghost use Rattle.image_build.specs.Layout.{flash_base, flash_needed, ram_base, task_at};
ghost use Rattle.mem_plan.specs.Sizes.{rounded};

use crate::layout::Layout;
use app_toml::{App, TaskSpec};

/// The i-th task.
pub(crate) fn task(app: &App, i: usize) -> &TaskSpec
    requires { i < length (app_of app.now).tasks }
    ensures task { task_of result.now ≡ task_at (app_of app.now) i }
    ensures notes { length result.now.notifications.items ≤ 32 }
    ensures regions { length result.now.uses.items + length result.now.reads.items ≤ 6 }
    ensures flash { result.now.flash ≤ 1048576 }
    ensures ram { result.now.ram ≤ 262144 }
    ensures stack { result.now.stack ≤ 262144 }
{
    app.facts();
    &app.tasks()[i]
}

fn flash_at(app: &App, layout: &Layout, i: usize) -> u32
    requires task { i < length (app_of app.now).tasks }
    requires laid { IsLaid (app_of app.now) layout.now }
    ensures { result ≡ flash_base (app_of app.now) i }
{
    layout.flash[i]
}

/// Where the i-th task's flash begins.
pub(crate) fn flash_base(app: &App, layout: &Layout, i: usize) -> u32
    requires task { i < length (app_of app.now).tasks }
    requires laid { IsLaid (app_of app.now) layout.now }
    ensures base { result ≡ flash_base (app_of app.now) i }
    ensures low { 0x08000000 ≤ result }
    ensures high { result + rounded (task_at (app_of app.now) i).flash ≤ 0x08000000 + flash_needed
        (app_of app.now) }
    ensures most { result ≤ 0x08100000 }
{
    app.facts();
    flash_at(app, layout, i)
}

/// Where the i-th task's RAM begins; indices past the tasks are those of the regions.
pub(crate) fn ram_base(app: &App, layout: &Layout, i: usize) -> u32
    requires below { i < length (app_of app.now).tasks + length (app_of app.now).regions }
    requires laid { IsLaid (app_of app.now) layout.now }
    ensures base { result ≡ ram_base (app_of app.now) i }
    ensures most { result ≤ 0x20040000 }
{
    app.facts();
    layout.ram[i]
}
