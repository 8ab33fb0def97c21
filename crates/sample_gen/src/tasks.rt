//! The tasks of the sample and their programs.

ghost use Rattle.std.specs.Prelude.{◌≡◌, ◌+◌, ◌≤◌, ℕ, IfOk, map, string_bytes};
ghost use Rattle.std.specs.List.{range_with_len};
ghost use Rattle.app_toml.specs.Sites.{task_of};
ghost use Rattle.sample_gen.specs.Draws.{number};
ghost use Rattle.sample_gen.specs.Sample.{client_priority, draws_before, note_name, operation, period, sample_sources, server, size, source_of, task_by, task_with};

use crate::numbers::Numbers;
use crate::programs::{client_source, server_source, supervisor_source};
use app_toml::TaskSpec;
use std::alloc::{AllocError, Global};

/// The only notification of task ti. That of the supervisor is posted at faults.
fn note_name(i: u32) -> &'static str
    ensures { result.now ≡ note_name i }
{
    if i == 0 { "fault" } else { "go" }
}

/// Task ti with this priority.
fn task(alloc: Global, i: u32, priority: u8) -> Result<TaskSpec, AllocError>
    ensures { IfOk result (λ t. task_of t ≡ task_with i priority) }
{
    let name = format!(in alloc; "t{i}")?;
    let source = format!(in alloc; "t{i}.s")?;
    let notification = String::from_str(alloc, note_name(i))?;
    let mut notifications = Vec::new(alloc);
    notifications.push(notification)?;
    Ok(TaskSpec {
        name,
        source,
        priority,
        start: true,
        flash: 256,
        ram: 256,
        stack: 64,
        notifications,
        uses: Vec::new(alloc),
        reads: Vec::new(alloc),
    })
}

/// The draws of a client: its priority, the server that it calls, the operation, the number of
/// bytes, and the number of ticks after which it calls again.
#[derive(Clone, Copy)]
struct Client {
    priority: u8,
    server: u32,
    operation: u32,
    size: u32,
    period: u32,
}

fn drawn_client(numbers: &mut Numbers) -> Client
    ensures next { (seed i : ℕ) → 8 ≤ i → numbers.old.last ≡ number seed (draws_before i)
        → numbers.new.last ≡ number seed (draws_before (i + 1)) }
    ensures drawn { (seed i : ℕ) → 8 ≤ i → numbers.old.last ≡ number seed (draws_before i)
        → (result.priority ≡ client_priority seed i) × (result.server ≡ server seed i)
        × (result.operation ≡ operation seed i) × (result.size ≡ size seed i)
        × (result.period ≡ period seed i) }
{
    let priority = 2 + numbers.draw(4) as u8;
    let server = 1 + numbers.draw(7);
    let operation = numbers.draw(6);
    let size = numbers.draw(33);
    let period = 1 + numbers.draw(8);
    Client {
        priority,
        server,
        operation,
        size,
        period,
    }
}

/// Task ti and its program. Takes their draws from `numbers`.
fn task_and_source(
    alloc: Global,
    numbers: &mut Numbers,
    i: u32,
) -> Result<(TaskSpec, String), AllocError>
    ensures next { (seed : ℕ) → numbers.old.last ≡ number seed (draws_before i)
        → IfOk result (λ _. numbers.new.last ≡ number seed (draws_before (i + 1))) }
    ensures task { (seed : ℕ) → numbers.old.last ≡ number seed (draws_before i)
        → IfOk result (λ r. task_of r.0 ≡ task_by (client_priority seed) i) }
    ensures source { (seed : ℕ) → numbers.old.last ≡ number seed (draws_before i)
        → IfOk result (λ r. string_bytes r.1 ≡ source_of seed i) }
{
    if i == 0 {
        return Ok((task(alloc, i, 0)?, supervisor_source(alloc)?));
    }
    if i < 8 {
        let offset = numbers.draw(40);
        return Ok((task(alloc, i, 1)?, server_source(alloc, offset)?));
    }
    let client = drawn_client(numbers);
    let task = task(alloc, i, client.priority)?;
    let source = client_source(
        alloc,
        client.server,
        client.operation,
        client.size,
        client.period,
    )?;
    Ok((task, source))
}

/// The tasks and their programs. Takes the first draws from `numbers`.
pub(crate) fn tasks_and_sources(
    alloc: Global,
    numbers: &mut Numbers,
) -> Result<(Vec<TaskSpec>, Vec<String>), AllocError>
    ensures next { IfOk result (λ _. numbers.new.last ≡ number numbers.old.last 127) }
    ensures tasks { IfOk result (λ r. map task_of r.0.items
        ≡ map (task_by (client_priority numbers.old.last)) (range_with_len 0 32)) }
    ensures sources { IfOk result (λ r. map string_bytes r.1.items
        ≡ sample_sources numbers.old.last) }
{
    let mut tasks = Vec::new(alloc);
    let mut sources = Vec::new(alloc);
    for i in 0..32 {
        let (task, source) = task_and_source(alloc, numbers, i)?;
        tasks.push(task)?;
        sources.push(source)?;
    }
    Ok((tasks, sources))
}
