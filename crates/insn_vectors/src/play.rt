//! Checks that the instruction of a case does what the case wants.
ghost use Rattle.std.specs.Prelude.{◌≡◌, ◌%◌, ◌↔◌, IsTrue, IfOk, false};
ghost use Rattle.words_core.specs.Regs.{reg_at, program_counter};
ghost use Rattle.insn_vectors.specs.Played.{banks_of, banks_before, IsBefore, IsWanted, Judges};
ghost use Rattle.insn_vectors.specs.Flat.{with_bytes};

use crate::case::Case;
use crate::memory::Memory;
use std::alloc::{AllocError, Global};
use thumb_exec::cpu::{Cpu, Outcome};
use thumb_step::step;
use words_core::PROGRAM_COUNTER;

/// A memory with a case's bytes and, at PC, its code.
fn memory_of(alloc: Global, case: &Case) -> Result<Memory, AllocError>
    ensures { IfOk result (IsBefore case.now) }
{
    let mut memory = Memory::new(alloc)?;
    memory.fill_all(&case.bytes);
    memory.fill_code(case.cpu.regs.get(PROGRAM_COUNTER), case.first, case.second);
    Ok(memory)
}

/// Whether an instruction ended as the case wants, with its registers and flags.
fn is_end(case: &Case, cpu: &Cpu, outcome: Outcome) -> bool
    ensures { IsTrue result ↔ (cpu.now ≡ case.now.wanted) × (outcome ≡ case.now.outcome) }
{
    if outcome != case.outcome {
        return false;
    }
    if cpu.flags.told() != case.wanted.flags.told() {
        return false;
    }
    cpu.regs == case.wanted.regs
}

/// Whether two memories hold the same bytes.
fn is_same(memory: &Memory, wanted: &Memory) -> bool
    ensures { IsTrue result ↔ (banks_of memory.now ≡ banks_of wanted.now) }
{
    memory.flash == wanted.flash && memory.ram == wanted.ram
}

/// Whether an instruction has the result that the case wants. `wanted` has the wanted bytes of
/// memory.
fn is_wanted(case: &Case, cpu: &Cpu, outcome: Outcome, memory: &Memory, wanted: &Memory) -> bool
    requires { banks_of wanted.now ≡ with_bytes (banks_before case.now)
        case.now.wanted_bytes.items }
    ensures { IsTrue result ↔ IsWanted case.now cpu.now outcome memory.now }
{
    if !is_end(case, cpu, outcome) {
        return false;
    }
    is_same(memory, wanted)
}

/// Whether the instruction of a case has exactly the wanted result in registers, flags and every
/// byte of memory. Memory has the bytes of the case and is zero elsewhere. A case with an odd PC
/// does not pass.
pub fn passes(alloc: Global, case: &Case) -> Result<bool, AllocError>
    ensures judged { IfOk result (λ passed. reg_at case.now.cpu.regs program_counter % 2 ≡ 0 →
        Judges case.now passed) }
    ensures odd { IfOk result (λ passed. reg_at case.now.cpu.regs program_counter % 2 ≡ 1 →
        passed ≡ false) }
{
    if case.cpu.regs.get(PROGRAM_COUNTER) % 2 != 0 {
        return Ok(false);
    }
    let mut memory = memory_of(alloc, case)?;
    let mut wanted = memory_of(alloc, case)?;
    wanted.fill_all(&case.wanted_bytes);
    let mut cpu = case.cpu.copied();
    let outcome = step(&mut cpu, &mut memory);
    Ok(is_wanted(case, &cpu, outcome, &memory, &wanted))
}
