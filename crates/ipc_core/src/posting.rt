//! The system calls POST and REFRESH_TASK_ID (Hubris Reference, on task ids and notifications).

ghost use Rattle.std.specs.Prelude.{◌+◌, ◌<◌, ◌≤◌};
ghost use Rattle.task_table.specs.model.State.{Setup, Turn};
ghost use Rattle.task_table.specs.model.Sends.{post_made, refreshed};
ghost use Rattle.task_table.specs.kept.Holds.{Holds, task_count, note_count};
ghost use Rattle.task_table.specs.kept.Limits.{syscall_notes, turn_notes};
ghost use Rattle.task_table.specs.kept.Frames.{AddsAtMost};
ghost use Rattle.task_table.specs.kept.Calls.{MayCall, Performs};

use kernel_abi::{IdArgs, Usage, dead_code};
use task_table::{Found, Kernel};

/// POST, of any caller.
fn post_rows(k: &mut Kernel, caller: usize)
    requires there { caller < task_count k.old }
    requires room { note_count k.old + syscall_notes ≤ turn_notes }
    ensures holds { (g : Setup) (t : Turn) → Holds g k.old t →
        Holds g k.new (post_made g caller t) }
    ensures frame { AddsAtMost k.old syscall_notes k.new }
{
    let args = IdArgs::of(&k.arguments(caller));
    match k.lookup(args.id.number) {
        Found::Out => k.misuse(caller, Usage::BadTaskIndex),
        Found::Dead(generation) => k.answer(caller, &[dead_code(generation)]),
        Found::Live(task) => {
            k.post(task, args.bits);
            k.answer(caller, &[0]);
        }
    }
}

/// POST: r4 is the id of a task, r5 the bits to post to it. r4 becomes 0, or the dead code if the
/// id is that of an earlier birth. An id of no task is a misuse (Hubris Reference, on
/// notifications).
pub fn post_call(k: &mut Kernel, caller: usize)
    requires { MayCall k.old caller }
    ensures { Performs post_made k.old caller k.new }
{
    post_rows(k, caller);
}

/// REFRESH_TASK_ID, of any caller.
fn refresh_rows(k: &mut Kernel, caller: usize)
    requires there { caller < task_count k.old }
    requires room { note_count k.old + syscall_notes ≤ turn_notes }
    ensures holds { (g : Setup) (t : Turn) → Holds g k.old t →
        Holds g k.new (refreshed g caller t) }
    ensures frame { AddsAtMost k.old syscall_notes k.new }
{
    let args = IdArgs::of(&k.arguments(caller));
    let task = usize::from(args.id.index());
    if task >= k.task_count() {
        return k.misuse(caller, Usage::BadTaskIndex);
    }
    let id = k.id(task);
    k.answer(caller, &[u32::from(id.number)]);
}

/// REFRESH_TASK_ID: r4 is an id of any birth of a task, and becomes the id of its present birth. An
/// id of no task is a misuse (Hubris Reference, on task ids).
pub fn refresh(k: &mut Kernel, caller: usize)
    requires { MayCall k.old caller }
    ensures { Performs refreshed k.old caller k.new }
{
    refresh_rows(k, caller);
}
