//! Lines of the last state (docs/FORMATS.md, Trace and Memories). Each is built in a buffer of 160
//! bytes, which is empty before.
ghost use Rattle.std.specs.Prelude.{◌≡◌, ◌≤◌, ◌+◌, length, ◌++◌, []};
ghost use Rattle.arrayvec.specs.ArrayString.{array_string_len};
ghost use Rattle.trace_text.specs.Fit.{IsFitTimer};
ghost use Rattle.board_run.specs.Text.{low_text, high_text, end_name, end_line};
ghost use Rattle.trace_text.specs.Lines.{health_text, timer_text, task_line};
ghost use Rattle.board_run.specs.ViewText.{wait_words, timer_of};
ghost use Rattle.board_run.specs.MemoryText.{byte_hex, region_line};

use arrayvec::ArrayString;
use board_core::End;
use kernel_abi::Health;
use region_check::Region;
use task_table::{Phase, Wait};
use trace_text::{push_decimal, push_digit, push_hex, push_high, push_low, push_spaced_hex};
use words_core::Flags;

pub type Line = ArrayString<160>;

/// Two hexadecimal digits.
pub fn push_byte(out: &mut ArrayString<160>, byte: u8)
    requires room { array_string_len out.old + 2 ≤ 160 }
    ensures bytes { out.new.bytes ≡ out.old.bytes ++ byte_hex byte }
    ensures len { array_string_len out.new ≡ array_string_len out.old + 2 }
{
    push_digit(out, u32::from(byte / 16 % 16));
    push_digit(out, u32::from(byte % 16));
}

/// The registers r0 to r7.
pub fn low_line(registers: &[u32], out: &mut ArrayString<160>)
    requires empty { out.old.bytes ≡ [] }
    requires all { length registers.now ≡ 16 }
    ensures { out.new.bytes ≡ low_text registers.now }
{
    push_low(out, &registers[..8]);
}

/// The registers r8 to r15, and the flags.
pub fn high_line(registers: &[u32], flags: Flags, out: &mut ArrayString<160>)
    requires empty { out.old.bytes ≡ [] }
    requires all { length registers.now ≡ 16 }
    ensures { out.new.bytes ≡ high_text registers.now flags }
{
    push_high(out, &registers[8..], flags.n, flags.z, flags.c, flags.v);
}

fn push_health(out: &mut ArrayString<160>, health: Health)
    requires { array_string_len out.old + 28 ≤ 160 }
    ensures bytes { out.new.bytes ≡ out.old.bytes ++ health_text health }
    ensures len { array_string_len out.new ≤ array_string_len out.old + 28 }
{
    match health {
        Health::Well => out.push_str("well"),
        Health::Stopped => out.push_str("stopped"),
        Health::Faulted(fault) => {
            out.push_str("faulted:");
            push_decimal(out, u64::from(fault.number));
        }
    }
}

fn push_wait(out: &mut ArrayString<160>, wait: Wait)
    requires { array_string_len out.old + 28 ≤ 160 }
    ensures bytes { out.new.bytes ≡ out.old.bytes ++ wait_words wait }
    ensures len { array_string_len out.new ≤ array_string_len out.old + 28 }
{
    match wait {
        Wait::Nothing => out.push_str("-"),
        Wait::Call(call) => {
            out.push_str(match call.phase {
                Phase::Offered => "offered:",
                Phase::Taken => "taken:",
            });
            push_decimal(out, u64::from(call.number));
        }
        Wait::Listen(_) => out.push_str("listen"),
    }
}

fn push_timer(out: &mut ArrayString<160>, timer: Option<(u64, u32)>)
    requires { array_string_len out.old + 29 ≤ 160 }
    ensures bytes { out.new.bytes ≡ out.old.bytes ++ timer_text (timer_of timer) }
    ensures fit { IsFitTimer (timer_of timer) }
    ensures len { array_string_len out.new ≤ array_string_len out.old + 29 }
{
    match timer {
        None => out.push_str("-"),
        Some((deadline, bits)) => {
            push_decimal(out, deadline);
            out.push_str(":");
            push_hex(out, bits);
        }
    }
}

/// The line of a task.
#[tactic(auto, unfolding(trace_text::specs::Lines::task_line))]
pub fn task_line(
    i: u64,
    generation: u8,
    health: Health,
    wait: Wait,
    posted: u32,
    timer: Option<(u64, u32)>,
    out: &mut ArrayString<160>,
)
    requires { out.old.bytes ≡ [] }
    ensures line { out.new.bytes ≡ task_line i generation health (wait_words wait) posted
        (timer_of timer) }
    ensures fit { IsFitTimer (timer_of timer) }
{
    out.push_str("task ");
    push_decimal(out, i);
    out.push_str(" ");
    push_decimal(out, u64::from(generation));
    out.push_str(" ");
    push_health(out, health);
    out.push_str(" ");
    push_wait(out, wait);
    push_spaced_hex(out, posted);
    out.push_str(" ");
    push_timer(out, timer);
    out.push_str("\n");
}

/// The word for an end.
pub fn end_name(end: End) -> &'static str
    ensures name { result.now ≡ end_name end }
    ensures short { length result.now ≤ 10 }
{
    match end {
        End::Bound => "bound",
        End::Still => "still",
        End::Supervisor => "supervisor",
    }
}

#[tactic(auto, unfolding(crate::specs::Text::end_line))]
pub fn end_line(end: End, turns: u32, now: u64, out: &mut ArrayString<160>)
    requires { out.old.bytes ≡ [] }
    ensures { out.new.bytes ≡ end_line end turns now }
{
    out.push_str("end ");
    out.push_str(end_name(end));
    out.push_str(" ");
    push_decimal(out, u64::from(turns));
    out.push_str(" ");
    push_decimal(out, now);
    out.push_str("\n");
}

/// The line before a region's rows.
#[tactic(auto, unfolding(crate::specs::MemoryText::region_line))]
pub fn region_line(region: &Region, out: &mut ArrayString<160>)
    requires { out.old.bytes ≡ [] }
    ensures { out.new.bytes ≡ region_line region.now }
{
    out.push_str("mem ");
    push_hex(out, region.base);
    out.push_str(" ");
    push_decimal(out, u64::from(region.size));
    out.push_str("\n");
}
