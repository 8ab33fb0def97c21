//! The symbols that a task's source may name: its own ones, and those that the sources of all tasks
//! share.

ghost use Rattle.std.specs.Prelude.{◌≡◌, ◌≤◌, ◌<◌, ◌+◌, ◌^◌, ◌∷◌, ◌++◌, [], codes, length, map, string_bytes, IfOk, OnOk};
ghost use Rattle.app_toml.specs.Held.{app_of};
ghost use Rattle.app_toml.specs.Sites.{device_of};
ghost use Rattle.mem_plan.specs.Sizes.{rounded};
ghost use Rattle.thumb_asm.specs.Chars.{entry_at};
ghost use Rattle.thumb_asm.specs.Passes.{names_of, values_of};
ghost use Rattle.image_build.specs.Building.{IsLaid};
ghost use Rattle.image_build.specs.Symbols.{device_symbols, note_symbols, own_symbols, region_symbols, shared_symbols, task_symbols};

use crate::layout::Layout;
use crate::names::bit;
use crate::reading::{ram_base, task};
use app_toml::{App, DeviceSpec, TaskSpec};
use mem_plan::rounded;
use std::alloc::{AllocError, Global};
use thumb_asm::Symbols;

type Entries = Vec<(String, u32)>;

fn push(out: &mut Entries, prefix: &str, name: &str, value: u32) -> Result<(), AllocError>
    ensures { OnOk result (names_of out.new.items ≡ names_of out.old.items
        ++ (prefix.now ++ name.now, value) ∷ []) }
{
    let mut symbol = String::from_str(*out.allocator(), prefix)?;
    symbol.push_str(name)?;
    out.push((symbol, value))?;
    Ok(())
}

fn push_notes(out: &mut Entries, prefix: &str, notifications: &[String]) -> Result<(), AllocError>
    requires { length notifications.now ≤ 32 }
    ensures { OnOk result (names_of out.new.items ≡ names_of out.old.items
        ++ note_symbols prefix.now 0 (map string_bytes notifications.now)) }
{
    for k in 0..notifications.len() {
        push(out, prefix, notifications[k].as_str(), bit(k))?;
    }
    Ok(())
}

fn push_ram(out: &mut Entries, task: &TaskSpec, base: u32) -> Result<(), AllocError>
    requires ram { task.now.ram ≤ 1048576 }
    requires stack { base + task.now.stack < 2 ^ 32 }
    ensures { OnOk result (names_of out.new.items ≡ names_of out.old.items
        ++ ((codes "ram", base) ∷ (codes "ram_size", rounded task.now.ram) ∷
        (codes "stack_top", base + task.now.stack) ∷ [])) }
{
    push(out, "ram", "", base)?;
    push(out, "ram_size", "", rounded(task.ram))?;
    push(out, "stack_top", "", base + task.stack)?;
    Ok(())
}

fn push_regions(out: &mut Entries, app: &App, layout: &Layout) -> Result<(), AllocError>
    requires { IsLaid (app_of app.now) layout.now }
    ensures { OnOk result (names_of out.new.items ≡ names_of out.old.items
        ++ region_symbols (app_of app.now) 0 (app_of app.now).regions) }
{
    let regions = app.regions();
    let first = app.tasks().len();
    for k in 0..regions.len() {
        push(
            out,
            "region_",
            regions[k].name.as_str(),
            ram_base(app, layout, first + k),
        )?;
    }
    Ok(())
}

fn push_devices(out: &mut Entries, devices: &[DeviceSpec]) -> Result<(), AllocError>
    ensures { OnOk result (names_of out.new.items ≡ names_of out.old.items
        ++ device_symbols (map device_of devices.now)) }
{
    for device in devices {
        push(out, "region_", device.name.as_str(), device.base)?;
    }
    Ok(())
}

/// The prefix of the symbols of a task's notifications, in the source of any task.
fn note_prefix(alloc: Global, task: &str) -> Result<String, AllocError>
    ensures { IfOk result (λ s. string_bytes s ≡ codes "note_" ++ task.now ++ codes "_") }
{
    let mut prefix = String::from_str(alloc, "note_")?;
    prefix.push_str(task)?;
    prefix.push_str("_")?;
    Ok(prefix)
}

fn push_task(out: &mut Entries, index: u32, task: &TaskSpec) -> Result<(), AllocError>
    requires { length task.now.notifications.items ≤ 32 }
    ensures { OnOk result (names_of out.new.items ≡ names_of out.old.items
        ++ ((codes "task_" ++ string_bytes task.now.name, index)
        ∷ note_symbols (codes "note_" ++ string_bytes task.now.name ++ codes "_") 0
        (map string_bytes task.now.notifications.items))) }
{
    push(out, "task_", task.name.as_str(), index)?;
    let prefix = note_prefix(*out.allocator(), task.name.as_str())?;
    push_notes(out, prefix.as_str(), task.notifications.as_slice())
}

fn push_tasks(out: &mut Entries, app: &App) -> Result<(), AllocError>
    ensures { OnOk result (names_of out.new.items ≡ names_of out.old.items
        ++ task_symbols 0 (app_of app.now).tasks) }
{
    app.facts();
    let tasks = app.tasks();
    for k in 0..tasks.len() {
        push_task(out, k as u32, &tasks[k])?;
    }
    Ok(())
}

/// The i-th task's own symbols: its notifications, its RAM.
pub(crate) fn own_symbols(
    alloc: Global,
    app: &App,
    layout: &Layout,
    i: usize,
) -> Result<Entries, AllocError>
    requires task { i < length (app_of app.now).tasks }
    requires laid { IsLaid (app_of app.now) layout.now }
    ensures { IfOk result (λ v. names_of v.items ≡ own_symbols (app_of app.now) i) }
{
    let task = task(app, i);
    let mut out = Vec::new(alloc);
    push_notes(&mut out, "note_", task.notifications.as_slice())?;
    push_ram(&mut out, task, ram_base(app, layout, i))?;
    Ok(out)
}

fn shared_entries(alloc: Global, app: &App, layout: &Layout) -> Result<Entries, AllocError>
    requires { IsLaid (app_of app.now) layout.now }
    ensures { IfOk result (λ v. names_of v.items ≡ shared_symbols (app_of app.now)) }
{
    let mut out = Vec::new(alloc);
    push_regions(&mut out, app, layout)?;
    push_devices(&mut out, app.devices())?;
    push_tasks(&mut out, app)?;
    Ok(out)
}

/// An index of the symbols that all sources share: regions, devices, and the tasks with their
/// notifications.
pub(crate) fn shared_symbols(
    alloc: Global,
    app: &App,
    layout: &Layout,
) -> Result<Symbols, AllocError>
    requires { IsLaid (app_of app.now) layout.now }
    ensures { IfOk result (λ s. values_of s ≡ entry_at (shared_symbols (app_of app.now))) }
{
    let entries = shared_entries(alloc, app, layout)?;
    Symbols::of(alloc, entries.as_slice())
}
