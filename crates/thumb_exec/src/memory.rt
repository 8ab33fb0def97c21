//! Loads and stores of one unit.
ghost use Rattle.std.specs.Prelude.{◌≡◌, ◌<◌, ◌*◌, ◌%◌, ◌^◌, true, false};
ghost use Rattle.thumb_exec.specs.declared.cpu.Outcome.TheVariants as outcome;
ghost use Rattle.thumb_exec.specs.Effect.{Next, Acts, load_effect, store_effect, widened, load_size, size_of};

use crate::arith::{get, go_past};
use crate::bus::Bus;
use crate::cpu::{Cpu, Outcome};
use kernel_abi::{Access, Fault};
use thumb_insn::{Load, Reg, Size};
use words_core::extend;

/// How many bytes a size has.
fn bytes_of(size: Size) -> u32
    ensures { result ≡ size_of size }
{
    match size {
        Size::Word => 4,
        Size::Half => 2,
        Size::Byte => 1,
    }
}

/// How many bytes are loaded.
fn loaded_bytes(load: Load) -> u32
    ensures { result ≡ load_size load }
{
    match load {
        Load::Whole(size) => bytes_of(size),
        Load::SignedHalf => 2,
        Load::SignedByte => 1,
    }
}

/// The loaded bytes as a word, extended by their sign or with zeros.
fn widen(load: Load, value: u32) -> u32
    ensures { result ≡ widened load value }
{
    match load {
        Load::Whole(_) => value,
        Load::SignedHalf => extend(value, 16, true),
        Load::SignedByte => extend(value, 8, true),
    }
}

/// The low bytes of a word.
fn low_part(word: u32, size: Size) -> u32
    ensures { result ≡ word % 2 ^ (8 * size_of size) }
{
    match size {
        Size::Word => word,
        Size::Half => word % 0x1_0000,
        Size::Byte => word % 0x100,
    }
}

/// Loads a register and goes on.
#[inline(always)]
pub fn load<B: Bus>(cpu: &mut Cpu, bus: &mut B, kind: Load, t: Reg, addr: u32) -> Outcome
    requires { t.number < 16 }
    ensures { Acts B.stored B.took cpu.old cpu.new bus.old bus.new result
        (load_effect (B.refuses bus.old) (B.holds bus.old) cpu.old kind t addr) }
{
    let n = loaded_bytes(kind);
    if addr % n != 0 {
        return Outcome::Trap(Fault::unaligned(addr, false));
    }
    match bus.load(addr, n) {
        Err(at) => Outcome::Trap(Fault::access(at, Access::Load)),
        Ok(value) => {
            bus.taken(addr);
            cpu.regs.set(usize::from(t.number), widen(kind, value));
            go_past(cpu, 2);
            Outcome::Next
        }
    }
}

/// Stores the low bytes of a register and goes on.
#[inline(always)]
pub fn store<B: Bus>(cpu: &mut Cpu, bus: &mut B, size: Size, t: Reg, addr: u32) -> Outcome
    requires { t.number < 16 }
    ensures { Acts B.stored B.took cpu.old cpu.new bus.old bus.new result
        (store_effect (B.refuses bus.old) cpu.old size t addr) }
{
    let n = bytes_of(size);
    if addr % n != 0 {
        return Outcome::Trap(Fault::unaligned(addr, true));
    }
    let value = low_part(get(cpu, t), size);
    match bus.store(addr, n, value) {
        Err(at) => Outcome::Trap(Fault::access(at, Access::Store)),
        Ok(()) => {
            go_past(cpu, 2);
            Outcome::Next
        }
    }
}
