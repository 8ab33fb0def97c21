//! Events of a timeline (docs/FORMATS.md, Timeline). Each is a line in a buffer of 160 bytes, which
//! is empty before. It begins with the `,` and the LF that end the line before it.
ghost use Rattle.std.specs.Prelude.{◌≡◌, ◌≤◌, ◌+◌, ◌++◌, ◌<◌, [], length, codes};
ghost use Rattle.arrayvec.specs.ArrayString.{array_string_len};
ghost use Rattle.trace_text.specs.Text.{fed_name, handled_name};
ghost use Rattle.run_lanes.specs.Names.{fault_name, syscall_name};
ghost use Rattle.run_lanes.specs.Timeline.{arrow_text, in_name, instant_text, irq_name, note_text, order_text, out_name, place_text, post_name, restart_name, stretch_text, thread_of, tick_name};

use crate::activity::Activity;
use crate::lanes::{Offer, client_thread, server_thread};
use crate::names::{push_call, push_fault};
use arrayvec::ArrayString;
use kernel_abi::{Fault, Fed, Handled, Note};
use trace_text::{push_byte, push_decimal, push_spaced_hex};

pub type Line = ArrayString<160>;

// The thread and the turn of an event, and its end.
#[tactic(auto, unfolding(crate::specs::Timeline::place_text))]
fn push_place(thread: u64, turn: u32, out: &mut Line)
    requires room { array_string_len out.old + 54 ≤ 160 }
    ensures { out.new.bytes ≡ out.old.bytes ++ place_text thread turn }
{
    out.push_str(",\"tid\":");
    push_decimal(out, thread);
    out.push_str(",\"ts\":");
    push_decimal(out, u64::from(turn));
    out.push_str("}");
}

/// A task does the same for this many turns, from a turn on.
#[tactic(auto, unfolding(crate::specs::Timeline::stretch_text))]
pub fn stretch_line(thread: u64, activity: Activity, turns: u32, from: u32, out: &mut Line)
    requires { out.old.bytes ≡ [] }
    ensures { out.new.bytes ≡ stretch_text thread activity turns from }
{
    out.push_str(",\n{\"dur\":");
    push_decimal(out, u64::from(turns));
    out.push_str(",\"name\":\"");
    out.push_str(activity.name());
    out.push_str("\",\"ph\":\"X\",\"pid\":0");
    push_place(thread, from, out);
}

/// The place of a thread in the order of the threads: its own number.
#[tactic(auto, unfolding(crate::specs::Timeline::order_text))]
pub fn order_line(thread: u64, out: &mut Line)
    requires { out.old.bytes ≡ [] }
    ensures { out.new.bytes ≡ order_text thread }
{
    out.push_str(",\n{\"args\":{\"sort_index\":");
    push_decimal(out, thread);
    out.push_str("},\"name\":\"thread_sort_index\",\"ph\":\"M\",\"pid\":0,\"tid\":");
    push_decimal(out, thread);
    out.push_str("}");
}

// The beginning of an event of one moment, up to its name.
fn begin_instant(out: &mut Line)
    requires { out.old.bytes ≡ [] }
    ensures bytes { out.new.bytes ≡ codes ",\n{\"name\":\"" }
    ensures len { array_string_len out.new ≡ 11 }
{
    out.push_str(",\n{\"name\":\"");
}

// What follows the name of such an event.
fn end_instant(thread: u64, turn: u32, out: &mut Line)
    requires { array_string_len out.old + 80 ≤ 160 }
    ensures { out.new.bytes ≡ out.old.bytes ++ codes "\",\"ph\":\"i\",\"pid\":0,\"s\":\"t\""
        ++ place_text thread turn }
{
    out.push_str("\",\"ph\":\"i\",\"pid\":0,\"s\":\"t\"");
    push_place(thread, turn, out);
}

#[tactic(auto, unfolding(crate::specs::Timeline::instant_text))]
fn tick_line(turn: u32, now: u64, out: &mut Line)
    requires { out.old.bytes ≡ [] }
    ensures { out.new.bytes ≡ instant_text (tick_name now) 0 turn }
{
    begin_instant(out);
    out.push_str("tick ");
    push_decimal(out, now);
    end_instant(0, turn, out);
}

// What an interrupt did.
fn handled_name(handled: Handled) -> &'static str
    ensures name { result.now ≡ handled_name handled }
    ensures short { length result.now ≤ 4 }
{
    match handled {
        Handled::Posted => "post",
        Handled::Held => "held",
        Handled::Unowned => "none",
    }
}

// What happened to a byte for a device.
fn fed_name(fed: Option<Fed>) -> &'static str
    ensures name { result.now ≡ fed_name fed }
    ensures short { length result.now ≤ 6 }
{
    match fed {
        Some(Fed::Queued) => "queued",
        Some(Fed::Full) => "full",
        Some(Fed::NotPort) | None => "none",
    }
}

#[tactic(auto, unfolding(crate::specs::Timeline::instant_text))]
fn irq_line(turn: u32, line: u8, handled: Handled, out: &mut Line)
    requires { out.old.bytes ≡ [] }
    ensures { out.new.bytes ≡ instant_text (irq_name line handled) 0 turn }
{
    begin_instant(out);
    out.push_str("irq ");
    push_decimal(out, u64::from(line));
    out.push_str(" ");
    out.push_str(handled_name(handled));
    end_instant(0, turn, out);
}

#[tactic(auto, unfolding(crate::specs::Timeline::instant_text))]
fn in_line(turn: u32, device: u8, byte: u8, fed: Option<Fed>, out: &mut Line)
    requires { out.old.bytes ≡ [] }
    ensures { out.new.bytes ≡ instant_text (in_name device byte fed) 0 turn }
{
    begin_instant(out);
    out.push_str("in ");
    push_decimal(out, u64::from(device));
    out.push_str(" ");
    push_byte(out, byte);
    out.push_str(" ");
    out.push_str(fed_name(fed));
    end_instant(0, turn, out);
}

#[tactic(auto, unfolding(crate::specs::Timeline::instant_text))]
fn out_line(turn: u32, device: usize, byte: u8, out: &mut Line)
    requires { out.old.bytes ≡ [] }
    ensures { out.new.bytes ≡ instant_text (out_name device byte) 0 turn }
{
    begin_instant(out);
    out.push_str("out ");
    push_decimal(out, device as u64);
    out.push_str(" ");
    push_byte(out, byte);
    end_instant(0, turn, out);
}

// The thread of a task.
fn thread_of(task: u16) -> u64
    ensures { result ≡ thread_of task }
{
    u64::from(task) + 1
}

#[tactic(auto, unfolding(crate::specs::Timeline::instant_text))]
fn syscall_line(turn: u32, task: u16, number: u32, out: &mut Line)
    requires { out.old.bytes ≡ [] }
    ensures { out.new.bytes ≡ instant_text (syscall_name number) (thread_of task) turn }
{
    begin_instant(out);
    push_call(number, out);
    end_instant(thread_of(task), turn, out);
}

#[tactic(auto, unfolding(crate::specs::Timeline::instant_text))]
fn post_line(turn: u32, task: u16, bits: u32, out: &mut Line)
    requires { out.old.bytes ≡ [] }
    ensures { out.new.bytes ≡ instant_text (post_name bits) (thread_of task) turn }
{
    begin_instant(out);
    out.push_str("post");
    push_spaced_hex(out, bits);
    end_instant(thread_of(task), turn, out);
}

#[tactic(auto, unfolding(crate::specs::Timeline::instant_text))]
fn fault_line(turn: u32, task: u16, fault: &Fault, out: &mut Line)
    requires { out.old.bytes ≡ [] }
    ensures { out.new.bytes ≡ instant_text (fault_name fault.now) (thread_of task) turn }
{
    begin_instant(out);
    push_fault(fault, out);
    end_instant(thread_of(task), turn, out);
}

#[tactic(auto, unfolding(crate::specs::Timeline::instant_text))]
fn restart_line(turn: u32, task: u16, generation: u8, out: &mut Line)
    requires { out.old.bytes ≡ [] }
    ensures { out.new.bytes ≡ instant_text (restart_name generation) (thread_of task) turn }
{
    begin_instant(out);
    out.push_str("restart ");
    push_decimal(out, u64::from(generation));
    end_instant(thread_of(task), turn, out);
}

// An arrow of a call, with what comes before its category, and its phase.
#[tactic(auto, unfolding(crate::specs::Timeline::arrow_text))]
fn arrow_line(head: &str, call: u32, phase: &str, thread: u64, turn: u32, out: &mut Line)
    requires head { length head.now ≤ 9 }
    requires phase { length phase.now ≤ 1 }
    requires empty { out.old.bytes ≡ [] }
    ensures { out.new.bytes ≡ arrow_text head.now call phase.now thread turn }
{
    out.push_str(",\n{");
    out.push_str(head);
    out.push_str("\"cat\":\"call\",\"id\":");
    push_decimal(out, u64::from(call));
    out.push_str(",\"name\":\"call\",\"ph\":\"");
    out.push_str(phase);
    out.push_str("\",\"pid\":0");
    push_place(thread, turn, out);
}

/// What is written of a note, if anything is, when the tasks offered these calls last.
pub fn note_line(offers: &[Option<Offer>], turn: u32, note: &Note, out: &mut Line)
    requires { out.old.bytes ≡ [] }
    ensures { out.new.bytes ≡ note_text offers.now turn note.now }
{
    match note {
        Note::Tick { now } => tick_line(turn, *now, out),
        Note::Irq { line, handled } => irq_line(turn, *line, *handled, out),
        Note::In { device, byte, fed } => in_line(turn, *device, *byte, *fed, out),
        Note::Out { device, byte } => out_line(turn, *device, *byte, out),
        Note::Syscall { task, number, .. } => syscall_line(turn, *task, *number, out),
        Note::Post { task, bits, .. } => post_line(turn, *task, *bits, out),
        Note::Fault { task, fault } => fault_line(turn, *task, fault, out),
        Note::Restart { task, generation } => restart_line(turn, *task, *generation, out),
        Note::Offer { call, client, .. } => {
            arrow_line("", *call, "s", thread_of(*client), turn, out);
        }
        Note::Take { call, .. } => {
            arrow_line("", *call, "t", server_thread(offers, *call), turn, out);
        }
        Note::Close { call, .. } => {
            let thread = client_thread(offers, *call);
            arrow_line("\"bp\":\"e\",", *call, "f", thread, turn, out);
        }
        // these do not show in a timeline
        Note::Ret { .. } | Note::Listen { .. } | Note::Borrow { .. } => {}
        Note::IrqStatus { .. } | Note::Find { .. } => {}
        Note::Insn { .. } | Note::Idle | Note::Low { .. } | Note::High { .. } => {}
    }
}
