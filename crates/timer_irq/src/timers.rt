//! The system calls SET_TIMER and GET_TIMER (Hubris Reference, on timers).
ghost use Rattle.std.specs.Prelude.{◌≡◌, ◌+◌, ◌<◌, ◌≤◌, ◌%◌, ◌/◌, ◌^◌, ◌∷◌, Some, Option};
ghost use Rattle.task_table.specs.model.State.{Setup, Turn};
ghost use Rattle.task_table.specs.model.Rows.{timer_set, timer_words, timer_answered};
ghost use Rattle.task_table.specs.kept.Holds.{Holds, task_count, note_count};
ghost use Rattle.task_table.specs.kept.Limits.{syscall_notes, turn_notes};
ghost use Rattle.task_table.specs.kept.Frames.{AddsAtMost};
ghost use Rattle.task_table.specs.kept.Calls.{Performs};

use kernel_abi::{Timer, TimerArgs};
use task_table::Kernel;

/// SET_TIMER, in any state.
fn set_timer_rows(k: &mut Kernel, caller: usize)
    requires there { caller < task_count k.old }
    requires room { note_count k.old + syscall_notes ≤ turn_notes }
    ensures holds { (g : Setup) (t : Turn) → Holds g k.old t → Holds g k.new (timer_set caller t) }
    ensures frame { AddsAtMost k.old syscall_notes k.new }
{
    let args = TimerArgs::of(&k.arguments(caller));
    if !args.set {
        k.set_timer(caller, None);
        k.go_on(caller);
    } else if args.deadline <= k.now() {
        k.set_timer(caller, None);
        k.post(caller, args.bits);
        k.go_on(caller);
    } else {
        k.set_timer(
            caller,
            Some(Timer {
                deadline: args.deadline,
                bits: args.bits,
            }),
        );
        k.go_on(caller);
    }
}

/// SET_TIMER: r4 is 0 to turn the caller's timer off. Otherwise the timer is set to the deadline in
/// r5 (low word) and r6, with the bits in r7. If the deadline is at most now, the timer is turned
/// off and the bits are posted at once (Hubris Reference, on SET_TIMER; registers, and when a timer
/// is due, are this project's profile).
pub fn set_timer(k: &mut Kernel, caller: usize)
    requires there { caller < task_count k.old }
    requires room { note_count k.old + syscall_notes ≤ turn_notes }
    ensures { Performs (λ g. timer_set) k.old caller k.new }
{
    set_timer_rows(k, caller);
}

/// The answer of GET_TIMER, in r4 to r9.
fn timer_results(now: u64, timer: Option<Timer>) -> [u32; 6]
    ensures { result ≡ now % 2 ^ 32 ∷ now / 2 ^ 32 ∷ timer_words timer }
{
    let low = (now % 0x1_0000_0000) as u32;
    let high = (now / 0x1_0000_0000) as u32;
    match timer {
        None => [low, high, 0, 0, 0, 0],
        Some(timer) => [
            low,
            high,
            1,
            (timer.deadline % 0x1_0000_0000) as u32,
            (timer.deadline / 0x1_0000_0000) as u32,
            timer.bits,
        ],
    }
}

/// GET_TIMER: r4 and r5 become the time, low word first. If the caller's timer is set, r6 is 1, r7
/// and r8 are its deadline, low word first, and r9 has its bits; otherwise r6 to r9 are 0 (the call
/// is this project's own).
pub fn get_timer(k: &mut Kernel, caller: usize)
    requires there { caller < task_count k.old }
    requires room { note_count k.old + syscall_notes ≤ turn_notes }
    ensures { Performs (λ g. timer_answered) k.old caller k.new }
{
    let words = timer_results(k.now(), k.timer(caller));
    k.answer(caller, &words);
}
