//! The bus of the loop: ten halfwords of code and 64 words of RAM.
ghost use Rattle.std.specs.Prelude.{◌≡◌, ◌<◌, slice_set, map, Some, replicate};
ghost use Rattle.thumb_insn.specs.Table.{narrow_of};
ghost use Rattle.exec_bench.specs.Words.{refused, held, word_index, is_word, is_code, loop_insns};

use region_check::Right;
use thumb_exec::bus::Bus;

#[derive(Drop)]
pub struct Words {
    code: [u16; 10],
    ram: [u32; 64],
}

/// Whether n bytes are a word of the RAM.
fn is_word(addr: u32, n: u32) -> bool
    ensures { result ≡ is_word addr n }
{
    n == 4 && addr >= 0x2000_0000 && addr < 0x2000_0100
}

/// Whether n bytes are a halfword of the code.
fn is_code(addr: u32, n: u32) -> bool
    ensures { result ≡ is_code addr n }
{
    n == 2 && addr >= 0x0800_0000 && addr < 0x0800_0014
}

impl Words {
    /// The loop at 0x08000000: `adds r0, r0, #1`, `lsls r1, r0, #3`, `eors r2, r1`,
    /// `str r2, [r4, #0]`, `ldr r3, [r4, #4]`, `push {r0, r2}`, `pop {r1, r5}`, `subs r6, r0, r3`,
    /// `cmp r6, #0`, `bne 0x08000000`.
    #[tactic(auto, using(crate::proofs::Loop::loop_is_coded))]
    pub fn new() -> Words
        ensures code { map narrow_of result.code ≡ map Some loop_insns }
        ensures ram { result.ram ≡ replicate 64 0 }
    {
        Words {
            code: [
                0x1C40, 0x00C1, 0x404A, 0x6022, 0x6863, 0xB405, 0xBC22, 0x1AC6, 0x2E00, 0xD1F5,
            ],
            ram: [0; 64],
        }
    }
}

impl Bus for Words {
    ghost refuses = { λ s a n r. refused a n r };

    ghost holds = { λ s a n. held s.code s.ram a n };

    ghost stored = { λ s a n v t. t ≡ record s { ram = slice_set s.ram (word_index a) v } };

    ghost took = { λ s a t. t ≡ s };

    fn allows(&self, addr: u32, n: u32, right: Right) -> Option<u32> {
        let is_allowed = match right {
            Right::Read | Right::Write => is_word(addr, n),
            Right::Execute => is_code(addr, n),
        };
        if is_allowed { None } else { Some(addr) }
    }

    fn fetch(&self, addr: u32) -> Result<u16, u32> {
        if is_code(addr, 2) {
            Ok(self.code[((addr - 0x0800_0000) / 2) as usize])
        } else {
            Err(addr)
        }
    }

    fn load(&self, addr: u32, n: u32) -> Result<u32, u32> {
        if is_word(addr, n) {
            Ok(self.ram[((addr - 0x2000_0000) / 4) as usize])
        } else {
            Err(addr)
        }
    }

    fn store(&mut self, addr: u32, n: u32, value: u32) -> Result<(), u32> {
        if is_word(addr, n) {
            self.ram[((addr - 0x2000_0000) / 4) as usize] = value;
            Ok(())
        } else {
            Err(addr)
        }
    }

    /// There is no device.
    fn taken(&mut self, _addr: u32) {}

    fn takes(&self) -> bool {
        false
    }

    fn gives(&self, _addr: u32, _count: u32, _right: Right) -> bool {
        false
    }
}
