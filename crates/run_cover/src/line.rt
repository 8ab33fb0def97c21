//! The lines of a cover. Each is built in an empty buffer of 160 bytes.
ghost use Rattle.std.specs.Prelude.{◌≡◌, ◌≤◌, ◌<◌, ◌+◌, ◌^◌, ◌++◌, [], codes};
ghost use Rattle.arrayvec.specs.ArrayString.{array_string_len};
ghost use Rattle.trace_text.specs.Text.{hex};
ghost use Rattle.task_table.specs.model.State.{State};
ghost use Rattle.board_model.specs.Script.{Scenario};
ghost use Rattle.board_core.specs.Stands.{Stands};
ghost use Rattle.board_core.specs.Data.{boxed};
ghost use Rattle.run_cover.specs.Text.{code_line, count_text, faulted_text, insn_line, rest_line, taken_text, totals_text};

use crate::counts::Count;
use crate::totals::Totals;
use crate::ways::{insn_code, is_conditional, stands_at};
use arrayvec::ArrayString;
use board_core::Board;
use region_check::Region;
use trace_text::{push_decimal, push_hex, push_text};

pub type Line = ArrayString<160>;

/// The line before a region's places.
#[tactic(auto, unfolding(crate::specs::Text::code_line))]
pub fn code_line(region: &Region, out: &mut Line)
    requires { out.old.bytes ≡ [] }
    ensures { out.new.bytes ≡ code_line region.now }
{
    out.push_str("code ");
    push_hex(out, region.base);
    out.push_str(" ");
    push_decimal(out, u64::from(region.size));
    out.push_str("\n");
}

/// The line of a label up to its name.
pub fn label_front(addr: u32, out: &mut Line)
    requires { out.old.bytes ≡ [] }
    ensures { out.new.bytes ≡ codes "label " ++ hex addr ++ codes " " }
{
    out.push_str("label ");
    push_hex(out, addr);
    out.push_str(" ");
}

/// The line for bytes that belong to no known instruction.
#[tactic(auto, unfolding(crate::specs::Text::rest_line))]
pub fn rest_line(addr: u32, bytes: u32, out: &mut Line)
    requires { out.old.bytes ≡ [] }
    ensures { out.new.bytes ≡ rest_line addr bytes }
{
    out.push_str("rest ");
    push_hex(out, addr);
    out.push_str(" ");
    push_decimal(out, u64::from(bytes));
    out.push_str("\n");
}

/// Adds the totals after other text.
#[tactic(auto, unfolding(crate::specs::Text::totals_text))]
pub fn push_totals(totals: Totals, out: &mut Line)
    requires { array_string_len out.old ≤ 20 }
    ensures { out.new.bytes ≡ out.old.bytes ++ totals_text totals }
{
    push_decimal(out, totals.executed);
    out.push_str(" of ");
    push_decimal(out, totals.known);
    out.push_str(" instructions, ");
    push_decimal(out, totals.gone);
    out.push_str(" of ");
    push_decimal(out, totals.ways);
    out.push_str(" ways\n");
}

// Adds a count, or `-` if it is 0.
fn push_count(count: u32, out: &mut Line)
    requires { array_string_len out.old + 20 ≤ 160 }
    ensures bytes { out.new.bytes ≡ out.old.bytes ++ count_text count }
    ensures len { array_string_len out.new ≤ array_string_len out.old + 20 }
{
    if count == 0 {
        out.push_str("-");
    } else {
        push_decimal(out, u64::from(count));
    }
}

// Adds how often an executed conditional branch was taken.
fn push_taken(conditional: bool, count: Count, out: &mut Line)
    requires { array_string_len out.old + 28 ≤ 160 }
    ensures bytes { out.new.bytes ≡ out.old.bytes ++ taken_text conditional count }
    ensures len { array_string_len out.new ≤ array_string_len out.old + 28 }
{
    if conditional && 0 < count.executed {
        out.push_str("; taken ");
        push_decimal(out, u64::from(count.taken));
    }
}

// Adds how often a task faulted, if it did.
fn push_faulted(count: u32, out: &mut Line)
    requires { array_string_len out.old + 30 ≤ 160 }
    ensures bytes { out.new.bytes ≡ out.old.bytes ++ faulted_text count }
    ensures len { array_string_len out.new ≤ array_string_len out.old + 30 }
{
    if count != 0 {
        out.push_str("; faulted ");
        push_decimal(out, u64::from(count));
    }
}

/// The line of a known instruction: how often it was executed, its address and its text, then how
/// often a conditional branch was taken and how often a task faulted.
#[tactic(auto, unfolding(crate::specs::Text::insn_line))]
pub fn insn_line(board: &Board, count: Count, addr: u32, out: &mut Line)
    requires inside { addr + 3 < 2 ^ 32 }
    requires empty { out.old.bytes ≡ [] }
    ensures { (x : Scenario) (s : State) → Stands (boxed shown) x board.now s →
        out.new.bytes ≡ insn_line s.memory count addr }
{
    let code = insn_code(board, addr);
    let conditional = is_conditional(stands_at(board, addr));
    push_count(count.executed, out);
    out.push_str(" ");
    push_hex(out, addr);
    out.push_str(" ");
    push_text(out, addr, code);
    push_taken(conditional, count, out);
    push_faulted(count.faulted, out);
    out.push_str("\n");
}
