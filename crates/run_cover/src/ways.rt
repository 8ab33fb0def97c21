//! Which instruction stands at an address, and where it leads directly.
ghost use Rattle.std.specs.Prelude.{◌≡◌, ◌≤◌, ◌<◌, ◌+◌, ◌^◌};
ghost use Rattle.thumb_insn.specs.Table.{is_wide};
ghost use Rattle.thumb_insn.specs.Text.{branch_target};
ghost use Rattle.task_table.specs.model.State.{State};
ghost use Rattle.board_model.specs.Script.{Scenario};
ghost use Rattle.board_core.specs.Stands.{Stands};
ghost use Rattle.board_core.specs.Data.{boxed};
ghost use Rattle.run_cover.specs.Ways.{decoded, goes_on, half_at, insn_code, insn_of, is_conditional, size_at, stands_at, target_of, ways_at, ways_of};

use board_core::Board;
use board_run::byte_at;
use thumb_insn::{Decoded, Insn};
use trace_text::code_decoded;

/// Where an instruction leads directly: to the address right after it, and to the target of a
/// branch.
#[derive(Clone, Copy)]
pub struct Ways {
    pub behind: Option<u32>,
    pub target: Option<u32>,
}

/// The halfword at an address.
pub fn half_at(board: &Board, addr: u32) -> u16
    requires { addr + 1 < 2 ^ 32 }
    ensures { (x : Scenario) (s : State) → Stands (boxed shown) x board.now s →
        result ≡ half_at s.memory addr }
{
    u16::from(byte_at(board, addr)) + 256 * u16::from(byte_at(board, addr + 1))
}

/// Whether a halfword is the first one of a two-halfword instruction.
pub fn is_wide(first: u16) -> bool
    ensures { result ≡ is_wide first }
{
    first / 2048 >= 29
}

/// The code at an address: one halfword, or two with the first one in the high half.
pub fn insn_code(board: &Board, addr: u32) -> u32
    requires { addr + 3 < 2 ^ 32 }
    ensures { (x : Scenario) (s : State) → Stands (boxed shown) x board.now s →
        result ≡ insn_code s.memory addr }
{
    let first = half_at(board, addr);
    if is_wide(first) {
        u32::from(first) * 0x1_0000 + u32::from(half_at(board, addr + 2))
    } else {
        u32::from(first)
    }
}

// The instruction that was decoded, if one was.
fn insn_of(decoded: Decoded) -> Option<Insn>
    ensures { result ≡ insn_of decoded }
{
    match decoded {
        Decoded::Narrow(insn) => Some(insn),
        Decoded::Wide(insn) => Some(insn),
        Decoded::Illegal => None,
        Decoded::NeedsSecond => None,
    }
}

/// The instruction of a code, if the code is an instruction.
#[tactic(auto, unfolding(crate::specs::Ways::decoded))]
pub fn decoded(code: u32) -> Option<Insn>
    ensures { result ≡ decoded code }
{
    insn_of(code_decoded(code))
}

/// The instruction that stands at an address, if one does.
pub fn stands_at(board: &Board, addr: u32) -> Option<Insn>
    requires { addr + 3 < 2 ^ 32 }
    ensures { (x : Scenario) (s : State) → Stands (boxed shown) x board.now s →
        result ≡ stands_at s.memory addr }
{
    decoded(insn_code(board, addr))
}

/// Whether an instruction is a conditional branch.
pub fn is_conditional(insn: Option<Insn>) -> bool
    ensures { result ≡ is_conditional insn }
{
    match insn {
        Some(Insn::BranchIf { .. }) => true,
        _ => false,
    }
}

// Whether an instruction goes on to the address right after it.
fn goes_on(insn: Insn) -> bool
    ensures { result ≡ goes_on insn }
{
    match insn {
        Insn::Branch { .. } => false,
        Insn::Bx { .. } => false,
        Insn::Bkpt { .. } => false,
        Insn::Pop { pc, .. } => !pc,
        Insn::MovHigh { d, .. } => d.number != 15,
        Insn::AddHigh { d, .. } => d.number != 15,
        _ => true,
    }
}

// The address plus 4 plus the offset, modulo 2^32.
fn branch_target(at: u32, offset: i32) -> u32
    ensures { result ≡ branch_target at offset }
{
    at.wrapping_add(4).wrapping_add(offset.cast_unsigned())
}

// The target of a branch at an address.
fn target_of(at: u32, insn: Insn) -> Option<u32>
    ensures { result ≡ target_of at insn }
{
    match insn {
        Insn::Branch { offset } => Some(branch_target(at, offset)),
        Insn::BranchIf { offset, .. } => Some(branch_target(at, offset)),
        Insn::Bl { offset } => Some(branch_target(at, offset)),
        _ => None,
    }
}

// The length in bytes of the code at an address.
fn size_at(board: &Board, addr: u32) -> u32
    requires { addr + 3 < 2 ^ 32 }
    ensures size { (x : Scenario) (s : State) → Stands (boxed shown) x board.now s →
        result ≡ size_at s.memory addr }
    ensures few { result ≤ 4 }
{
    if is_wide(half_at(board, addr)) { 4 } else { 2 }
}

// The direct ways of an instruction with a length.
fn ways_of(addr: u32, size: u32, insn: Option<Insn>) -> Ways
    requires { addr + size < 2 ^ 32 }
    ensures { result ≡ ways_of addr size insn }
{
    let Some(insn) = insn else {
        return Ways {
            behind: None,
            target: None,
        };
    };
    let target = target_of(addr, insn);
    if goes_on(insn) {
        Ways {
            behind: Some(addr + size),
            target,
        }
    } else {
        Ways {
            behind: None,
            target,
        }
    }
}

/// Where the instruction at an address leads directly.
#[tactic(auto, unfolding(crate::specs::Ways::ways_at))]
pub fn ways_at(board: &Board, addr: u32) -> Ways
    requires { addr + 4 < 2 ^ 32 }
    ensures { (x : Scenario) (s : State) → Stands (boxed shown) x board.now s →
        result ≡ ways_at s.memory addr }
{
    ways_of(addr, size_at(board, addr), stands_at(board, addr))
}
