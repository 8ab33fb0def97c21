//! One step of a processor over a bus: the instruction at PC is fetched, decoded and executed
//! (ARMv6-M Architecture Reference Manual, A5.1 and A6.7; docs/FORMATS.md, Instructions).
#![tactic(auto)]

pub mod laws;
mod window;

ghost use Rattle.std.specs.Prelude.{◌≡◌, ◌≤◌, ◌%◌, IfOk, IfErr};
ghost use Rattle.words_core.specs.Regs.{reg_at, program_counter};
ghost use Rattle.thumb_insn.specs.Range.{IsCoded, GivesCoded};
ghost use Rattle.thumb_exec.specs.Effect.{Acts};
ghost use Rattle.thumb_exec.specs.Fetch.{instruction, fetched, fetched_wide, step_effect};

use kernel_abi::Fault;
use thumb_decode::decode;
use thumb_exec::bus::Bus;
use thumb_exec::cpu::{Cpu, Outcome};
pub use thumb_exec::fetch::Fetched;
use thumb_exec::step::exec;
use thumb_insn::Decoded;
pub use window::{Runner, Window};
use words_core::PROGRAM_COUNTER;

/// The instruction that was decoded at an address, with its code. A code with no row in the table
/// is Illegal.
#[inline(always)]
fn instruction(at: u32, code: u32, decoded: Decoded) -> Result<Fetched, Fault>
    requires { GivesCoded decoded }
    ensures is { result ≡ instruction at code decoded }
    ensures coded { IfOk result (λ f. IsCoded f.insn) }
    ensures fault { IfErr result (λ f. (1 ≤ f.number) × (f.number ≤ 2)) }
{
    match decoded {
        Decoded::Narrow(insn) => Ok(Fetched { insn, code }),
        Decoded::Wide(insn) => Ok(Fetched { insn, code }),
        Decoded::Illegal => Err(Fault::illegal(at)),
        Decoded::NeedsSecond => Err(Fault::illegal(at)),
    }
}

/// The same for an instruction of two halfwords, after the first one was fetched.
fn fetch_wide<B: Bus>(bus: &B, at: u32, first: u16) -> Result<Fetched, Fault>
    requires { at % 2 ≡ 0 }
    ensures is { result ≡ fetched_wide (B.refuses bus.now) (B.holds bus.now) at first }
    ensures coded { IfOk result (λ f. IsCoded f.insn) }
    ensures fault { IfErr result (λ f. (1 ≤ f.number) × (f.number ≤ 2)) }
{
    let after = at.wrapping_add(2);
    match bus.fetch(after) {
        Ok(second) => {
            let code = u32::from(first) * 0x1_0000 + u32::from(second);
            instruction(at, code, decode(first, Some(second)))
        }
        Err(_) => Err(Fault::illegal_text(after)),
    }
}

/// Fetches and decodes the instruction at an even address.
///
/// # Errors
///
/// IllegalText at the first halfword of which a byte may not be executed. Illegal at the address,
/// if the code has no row in the table of instructions.
#[inline(always)]
pub fn fetch<B: Bus>(bus: &B, at: u32) -> Result<Fetched, Fault>
    requires { at % 2 ≡ 0 }
    ensures is { result ≡ fetched (B.refuses bus.now) (B.holds bus.now) at }
    ensures coded { IfOk result (λ f. IsCoded f.insn) }
    ensures fault { IfErr result (λ f. (1 ≤ f.number) × (f.number ≤ 2)) }
{
    match bus.fetch(at) {
        Ok(first) => if first / 2048 < 29 {
            instruction(at, u32::from(first), decode(first, None))
        } else {
            fetch_wide(bus, at, first)
        },
        Err(_) => Err(Fault::illegal_text(at)),
    }
}

/// Fetches, decodes and executes the instruction at PC. A fault and a system call do not change
/// processor and bus.
#[inline(always)]
pub fn step<B: Bus>(cpu: &mut Cpu, bus: &mut B) -> Outcome
    requires { reg_at cpu.old.regs program_counter % 2 ≡ 0 }
    ensures { Acts B.stored B.took cpu.old cpu.new bus.old bus.new result
        (step_effect (B.refuses bus.old) (B.holds bus.old) cpu.old) }
{
    let at = cpu.regs.get(PROGRAM_COUNTER);
    match fetch(bus, at) {
        Ok(fetched) => exec(cpu, &fetched.insn, bus),
        Err(fault) => Outcome::Trap(fault),
    }
}
