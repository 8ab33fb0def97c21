//! Makes the whole sample.

ghost use Rattle.std.specs.Prelude.{◌≡◌, IfOk, map, string_bytes};
ghost use Rattle.app_toml.specs.Held.{app_of};
ghost use Rattle.run_script.specs.Events.{script_data};
ghost use Rattle.sample_gen.specs.Sample.{sample_app, sample_script, sample_sources};

use crate::events::events;
use crate::numbers::Numbers;
use crate::tables::interrupts;
use crate::tasks::tasks_and_sources;
use app_toml::App;
use run_script::Script;
use std::alloc::{AllocError, Global};

/// The application, the sources of its tasks and the script of a seed.
///
/// # Errors
///
/// Only if memory runs out.
pub fn sample(alloc: Global, seed: u32) -> Result<(App, Vec<String>, Script), AllocError>
    ensures app { IfOk result (λ r. app_of r.0 ≡ sample_app seed) }
    ensures sources { IfOk result (λ r. map string_bytes r.1.items ≡ sample_sources seed) }
    ensures script { IfOk result (λ r. script_data r.2 ≡ sample_script seed) }
{
    let mut numbers = Numbers { last: seed };
    let (tasks, sources) = tasks_and_sources(alloc, &mut numbers)?;
    let lines = interrupts(alloc)?;
    let app = App::of(
        alloc,
        8192,
        8192,
        "fault",
        tasks.as_slice(),
        &[],
        &[],
        lines.as_slice(),
    )?;
    let listed = events(alloc, &mut numbers)?;
    let script = Script::of(alloc, Some(64), listed.as_slice())?;
    Ok((app, sources, script))
}
