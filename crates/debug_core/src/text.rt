//! Pushes the text of an answer, one push for each line.

ghost use Rattle.std.specs.Prelude.{◌≡◌, ◌≤◌, ◌+◌, ◌*◌, ◌++◌, ◌∷◌, [], decimal, length};
ghost use Rattle.std.specs.List.{flat_map};
ghost use Rattle.arrayvec.specs.ArrayString.{array_string_len};
ghost use Rattle.outside_io.specs.Outside.{Pushes, HasCause};
ghost use Rattle.trace_text.specs.Text.{bit as bit_digit, byte_hex, line_of};
ghost use Rattle.board_run.specs.Text.{low_text, high_text};
ghost use Rattle.debug_core.specs.Answers.{address_line, at_line, bytes_line, change_line, device_line, end_word, help_line, hit_line, irq_line, kind_words, refusal_line, text_of};

use crate::answer::Answer;
use arrayvec::ArrayString;
use board_core::End;
use board_run::{end_name, push_high, push_low, push_notes, push_task_line};
use kernel_abi::{Kind, Note};
use outside_io::{Failed, Sink};
use trace_text::{TurnLines, push_byte, push_decimal, push_hex, push_spaced_hex};
use words_core::Flags;

type Line = ArrayString<160>;

fn end_word(end: Option<End>) -> &'static str
    ensures name { result.now ≡ end_word end }
    ensures short { length result.now ≤ 10 }
{
    match end {
        Some(end) => end_name(end),
        None => "-",
    }
}

#[tactic(auto, unfolding(crate::specs::Answers::address_line))]
fn address_line(word: &str, at: u32, line: &mut Line)
    requires empty { line.old.bytes ≡ [] }
    requires short { length word.now ≤ 10 }
    ensures { line.new.bytes ≡ address_line word.now at }
{
    line.push_str(word);
    push_hex(line, at);
    line.push_str("\n");
}

#[tactic(auto, unfolding(crate::specs::Answers::at_line))]
fn at_line(turn: u32, now: u64, end: Option<End>, line: &mut Line)
    requires { line.old.bytes ≡ [] }
    ensures { line.new.bytes ≡ at_line turn now end }
{
    line.push_str("at ");
    push_decimal(line, u64::from(turn));
    line.push_str(" ");
    push_decimal(line, now);
    line.push_str(" ");
    line.push_str(end_word(end));
    line.push_str("\n");
}

#[tactic(auto, unfolding(crate::specs::Answers::hit_line))]
fn hit_line(turn: u32, task: u16, at: u32, line: &mut Line)
    requires { line.old.bytes ≡ [] }
    ensures { line.new.bytes ≡ hit_line turn task at }
{
    line.push_str("hit ");
    push_decimal(line, u64::from(turn));
    line.push_str(" ");
    push_decimal(line, u64::from(task));
    line.push_str(" ");
    push_hex(line, at);
    line.push_str("\n");
}

fn push_bytes(bytes: &[u8], line: &mut Line)
    requires { array_string_len line.old + 2 * length bytes.now ≤ 160 }
    ensures bytes { line.new.bytes ≡ line.old.bytes ++ flat_map byte_hex bytes.now }
    ensures len { array_string_len line.new ≡ array_string_len line.old + 2 * length bytes.now }
{
    for byte in bytes {
        push_byte(line, *byte);
    }
}

#[tactic(auto, unfolding(crate::specs::Answers::bytes_line))]
fn bytes_line(at: u32, bytes: &[u8], line: &mut Line)
    requires empty { line.old.bytes ≡ [] }
    requires few { length bytes.now ≤ 64 }
    ensures { line.new.bytes ≡ bytes_line at bytes.now }
{
    push_hex(line, at);
    line.push_str(" ");
    push_bytes(bytes, line);
    line.push_str("\n");
}

/// Pushes the registers and flags of a task, in two lines.
fn push_registers<S: Sink>(words: &[u32; 16], flags: Flags, out: &mut S) -> Result<(), Failed>
    ensures bytes { Pushes (S.seen out.old).written (S.seen out.new).written
        (low_text words.now ++ high_text words.now flags) result }
    ensures cause { HasCause (S.seen out.old).faults (S.seen out.new).faults result }
{
    push_low(words, out)?;
    push_high(words, flags, out)
}

/// Pushes the line of a note of a turn.
fn push_note<S: Sink>(turn: u32, note: &Note, out: &mut S) -> Result<(), Failed>
    ensures bytes { Pushes (S.seen out.old).written (S.seen out.new).written (line_of turn note.now)
        result }
    ensures cause { HasCause (S.seen out.old).faults (S.seen out.new).faults result }
{
    let mut lines = TurnLines::new(turn);
    push_notes(turn, &[*note], &mut lines, out)
}

#[tactic(auto, unfolding(crate::specs::Answers::change_line))]
fn change_line(turn: u32, task: Option<u16>, at: u32, old: u8, new: u8, line: &mut Line)
    requires { line.old.bytes ≡ [] }
    ensures { line.new.bytes ≡ change_line turn task at old new }
{
    push_decimal(line, u64::from(turn));
    line.push_str(" change ");
    match task {
        None => line.push_str("-"),
        Some(task) => push_decimal(line, u64::from(task)),
    }
    line.push_str(" ");
    push_hex(line, at);
    line.push_str(" ");
    push_byte(line, old);
    line.push_str(" ");
    push_byte(line, new);
    line.push_str("\n");
}

/// Adds a blank and a 0 or a 1.
fn push_bit(line: &mut Line, bit: bool)
    requires { array_string_len line.old + 2 ≤ 160 }
    ensures bytes { line.new.bytes ≡ line.old.bytes ++ 32 ∷ bit_digit bit ∷ [] }
    ensures len { array_string_len line.new ≡ array_string_len line.old + 2 }
{
    line.push_str(if bit { " 1" } else { " 0" });
}

/// The line of an interrupt line. The two bits of `state` say whether it is enabled and whether it
/// is pending.
#[tactic(auto, unfolding(crate::specs::Answers::irq_line))]
fn irq_line(number: u8, owner: u16, bits: u32, state: (bool, bool), line: &mut Line)
    requires { line.old.bytes ≡ [] }
    ensures { line.new.bytes ≡ irq_line number owner bits state.0 state.1 }
{
    line.push_str("line ");
    push_decimal(line, u64::from(number));
    line.push_str(" ");
    push_decimal(line, u64::from(owner));
    push_spaced_hex(line, bits);
    push_bit(line, state.0);
    push_bit(line, state.1);
    line.push_str("\n");
}

/// Adds a number of at most three digits.
fn push_small(n: u8, line: &mut Line)
    requires { array_string_len line.old + 20 ≤ 160 }
    ensures bytes { line.new.bytes ≡ line.old.bytes ++ decimal n }
    ensures len { array_string_len line.new ≤ array_string_len line.old + 3 }
{
    push_decimal(line, u64::from(n));
}

/// Adds what waits in a port, or how many bytes a console was given.
fn push_kind(kind: Kind, count: u32, queue: &[u8], line: &mut Line)
    requires few { length queue.now ≤ 64 }
    requires room { array_string_len line.old + 139 ≤ 160 }
    ensures bytes { line.new.bytes ≡ line.old.bytes ++ kind_words kind count queue.now }
    ensures len { array_string_len line.new ≤ array_string_len line.old + 137 }
{
    match kind {
        Kind::Console => {
            line.push_str("console ");
            push_decimal(line, u64::from(count));
        }
        Kind::Port => {
            line.push_str("port ");
            push_small(queue.len() as u8, line);
            if !queue.is_empty() {
                line.push_str(" ");
                push_bytes(queue, line);
            }
        }
    }
}

#[tactic(auto, unfolding(crate::specs::Answers::device_line))]
fn device_line(device: u8, kind: Kind, base: u32, count: u32, queue: &[u8], line: &mut Line)
    requires empty { line.old.bytes ≡ [] }
    requires few { length queue.now ≤ 64 }
    ensures { line.new.bytes ≡ device_line device kind base count queue.now }
{
    line.push_str("device ");
    push_small(device, line);
    push_spaced_hex(line, base);
    line.push_str(" ");
    push_kind(kind, count, queue, line);
    line.push_str("\n");
}

/// Pushes the forms of the commands.
fn push_help<S: Sink>(out: &mut S) -> Result<(), Failed>
    ensures bytes { Pushes (S.seen out.old).written (S.seen out.new).written help_line result }
    ensures cause { HasCause (S.seen out.old).faults (S.seen out.new).faults result }
{
    out.push(
        "commands: break H, clear H, step N, back N, go N, go N KIND [M], back N KIND [M], go N change H, back N change H, at N, notes, help, quit, regs T, task T, line L, device D, mem H L\n".as_bytes(),
    )
}

/// Pushes the text of an answer, one push for each line: one line, two lines for registers, or none
/// where the session is over. After a failing push nothing more is pushed.
pub(crate) fn push_answer<S: Sink>(answer: &Answer, out: &mut S) -> Result<(), Failed>
    ensures bytes { Pushes (S.seen out.old).written (S.seen out.new).written (text_of answer.now)
        result }
    ensures cause { HasCause (S.seen out.old).faults (S.seen out.new).faults result }
{
    let mut line = Line::new();
    match answer {
        Answer::Set { at } => address_line("break ", *at, &mut line),
        Answer::Full => line.push_str("full\n"),
        Answer::Cleared { at } => address_line("clear ", *at, &mut line),
        Answer::Absent => line.push_str("none\n"),
        Answer::At { turn, now, end } => at_line(*turn, *now, *end, &mut line),
        Answer::Hit { turn, task, at } => hit_line(*turn, *task, *at, &mut line),
        Answer::Told { turn, note } => return push_note(*turn, note, out),
        Answer::Changed {
            turn,
            task,
            at,
            old,
            new,
        } => change_line(*turn, *task, *at, *old, *new, &mut line),
        Answer::Registers { words, flags } => return push_registers(words, *flags, out),
        Answer::Task { task, view } => return push_task_line(u64::from(*task), view, out),
        Answer::Irq {
            line: number,
            owner,
            bits,
            enabled,
            pending,
        } => irq_line(*number, *owner, *bits, (*enabled, *pending), &mut line),
        Answer::Device {
            device,
            kind,
            base,
            count,
            queue,
        } => device_line(*device, *kind, *base, *count, queue.as_slice(), &mut line),
        Answer::Bytes { at, bytes } => bytes_line(*at, bytes.as_slice(), &mut line),
        Answer::Help => return push_help(out),
        Answer::Over => return Ok(()),
    }
    out.push(line.as_str().as_bytes())
}

/// Pushes the answer to a refused line.
pub(crate) fn push_refused<S: Sink>(cause: u8, out: &mut S) -> Result<(), Failed>
    ensures bytes { Pushes (S.seen out.old).written (S.seen out.new).written (refusal_line cause)
        result }
    ensures cause { HasCause (S.seen out.old).faults (S.seen out.new).faults result }
{
    let mut line = Line::new();
    line.push_str("refused ");
    push_small(cause, &mut line);
    line.push_str("\n");
    out.push(line.as_str().as_bytes())
}
