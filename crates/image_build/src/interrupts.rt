//! The interrupts, ascending by line.

ghost use Rattle.std.specs.Prelude.{◌≡◌, ◌++◌, ◌==◌, All, filter, map, IfOk, OnOk};
ghost use Rattle.app_toml.specs.Crossed.{areas_of};
ghost use Rattle.app_toml.specs.Held.{app_of};
ghost use Rattle.app_toml.specs.Sites.{interrupt_of};
ghost use Rattle.image_format.specs.ImageData.{line_record};
ghost use Rattle.image_build.specs.Building.{IsOwned};
ghost use Rattle.image_build.specs.Built.{device_number, line_built, lines_built};

use crate::names::{areas_of, bit_of, notifications_of, place_in_two, task_place};
use app_toml::{App, LineSpec};
use image_format::LineRecord;
use std::alloc::{AllocError, Global};

/// The number of the device's region among those of the interrupt's task, counted from one; 0 if no
/// device drives the line. The task's flash and its RAM come first.
fn device_number(app: &App, interrupt: &LineSpec) -> u16
    ensures { result ≡ device_number
        (areas_of (interrupt_of interrupt.now).task (app_of app.now).tasks)
        (interrupt_of interrupt.now).device }
{
    app.facts();
    match &interrupt.device {
        None => 0,
        Some(device) => {
            let (uses, reads) = areas_of(interrupt.task.as_str(), app.tasks());
            let place = place_in_two(device.as_str(), uses, reads);
            3 + place as u16
        }
    }
}

fn line_record(app: &App, interrupt: &LineSpec) -> LineRecord
    requires { IsOwned (app_of app.now) (interrupt_of interrupt.now) }
    ensures { result ≡ line_record (line_built (app_of app.now) (interrupt_of interrupt.now)) }
{
    app.facts();
    let tasks = app.tasks();
    let owner = interrupt.task.as_str();
    LineRecord {
        line: interrupt.line,
        task: task_place(owner, tasks) as u16,
        device: device_number(app, interrupt),
        bits: bit_of(
            interrupt.notification.as_str(),
            notifications_of(owner, tasks),
        ),
    }
}

/// Adds the interrupts of one line, of which there is at most one.
fn push_line(
    out: &mut Vec<LineRecord>,
    app: &App,
    interrupts: &[LineSpec],
    line: u8,
) -> Result<(), AllocError>
    requires { All (λ i. IsOwned (app_of app.now) (interrupt_of i)) interrupts.now }
    ensures { OnOk result (out.new.items ≡ out.old.items
        ++ map line_record (map (line_built (app_of app.now))
        (filter (λ i. i.line == line) (map interrupt_of interrupts.now)))) }
{
    for interrupt in interrupts {
        if interrupt.line == line {
            out.push(line_record(app, interrupt))?;
        }
    }
    Ok(())
}

pub(crate) fn line_records(alloc: Global, app: &App) -> Result<Vec<LineRecord>, AllocError>
    ensures { IfOk result (λ v. v.items ≡ map line_record (lines_built (app_of app.now))) }
{
    app.facts();
    let interrupts = app.interrupts();
    let mut out = Vec::new(alloc);
    for line in 0..64u8 {
        push_line(&mut out, app, interrupts, line)?;
    }
    Ok(out)
}
