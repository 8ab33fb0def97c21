//! The lines that name the tasks' threads. They are made before the run, because no memory is
//! allocated during it.
ghost use Rattle.std.specs.Prelude.{◌≡◌, ◌<◌, ◌+◌, ◌^◌, ◌++◌, IfOk, codes, length, map, string_bytes};
ghost use Rattle.std.specs.List.{range_with_len};
ghost use Rattle.serde_json.specs.View.{view};
ghost use Rattle.serde_json.specs.Written.{compact_text};
ghost use Rattle.run_lanes.specs.Timeline.{name_data, name_text};

use serde_json::{Value, json};
use std::alloc::{AllocError, Global};

fn name_value(alloc: Global, i: usize, name: &str) -> Result<Value, AllocError>
    requires { i + 1 < 2 ^ 64 }
    ensures { IfOk result (λ v. view v ≡ name_data i name.now) }
{
    json!(in alloc; {
        "args": {"name": name},
        "name": "thread_name",
        "ph": "M",
        "pid": 0,
        "tid": i + 1
    })
}

fn compact(alloc: Global, i: usize, name: &str) -> Result<String, AllocError>
    requires { i + 1 < 2 ^ 64 }
    ensures { IfOk result (λ s. string_bytes s ≡ compact_text (name_data i name.now)) }
{
    name_value(alloc, i, name)?.to_string(alloc)
}

// The event that names the thread of the i-th task.
fn name_line(alloc: Global, i: usize, name: &str) -> Result<String, AllocError>
    requires { i + 1 < 2 ^ 64 }
    ensures { IfOk result (λ s. string_bytes s ≡ codes ",\n"
        ++ compact_text (name_data i name.now)) }
{
    let event = compact(alloc, i, name)?;
    let line = format!(in alloc; ",\n{event}")?;
    Ok(line)
}

/// The events that name the threads of tasks.
///
/// # Errors
///
/// Only if memory runs out.
pub fn name_lines(alloc: Global, names: &[String]) -> Result<Vec<String>, AllocError>
    ensures { IfOk result (λ v. map string_bytes v.items ≡ map
        (name_text (map string_bytes names.now)) (range_with_len 0 (length names.now))) }
{
    let mut lines = Vec::new(alloc);
    for i in 0..names.len() {
        lines.push(name_line(alloc, i, names[i].as_str())?)?;
    }
    Ok(lines)
}
