//! Tests that the assembler reads the text of an instruction as that instruction. Each one-halfword
//! code that is an instruction, and many two-halfword codes, are decoded, written as text at an
//! address, and assembled there.
use arrayvec::ArrayString;
use std::alloc::Global;
use thumb_asm::assemble;
use thumb_decode::decode;
use thumb_insn::{Decoded, Insn};

/// The address of the instructions. From here no branch leads below address 0.
const AT: u32 = 0x0800_1000;

/// How many texts were assembled to their code, and how many were not.
#[derive(Clone, Copy, PartialEq, Eq)]
struct Count {
    same: u32,
    other: u32,
}

impl Count {
    fn add(&mut self, is_same: bool) {
        if is_same {
            self.same = self.same.saturating_add(1);
        } else {
            self.other = self.other.saturating_add(1);
        }
    }
}

/// Whether the text of an instruction is assembled to these bytes.
fn is_read(alloc: Global, insn: &Insn, bytes: &[u8]) -> bool {
    let mut text: ArrayString<64> = ArrayString::new();
    insn.text(AT, &mut text);
    match assemble(alloc, text.as_bytes(), AT, &[]) {
        Ok(object) => object.bytes.as_slice() == bytes,
        Err(_) => false,
    }
}

fn narrow(alloc: Global) -> Count {
    let mut count = Count { same: 0, other: 0 };
    for first in 0..=0xFFFF_u16 {
        if let Decoded::Narrow(insn) = decode(first, None) {
            count.add(is_read(alloc, &insn, &first.to_le_bytes()));
        }
    }
    count
}

fn add_wide(alloc: Global, count: &mut Count, first: u16, second: u16) {
    if let Decoded::Wide(insn) = decode(first, Some(second)) {
        let [a, b] = first.to_le_bytes();
        let [c, d] = second.to_le_bytes();
        count.add(is_read(alloc, &insn, &[a, b, c, d]));
    }
}

fn branches(alloc: Global) -> Count {
    let mut count = Count { same: 0, other: 0 };
    for first in 0xF000..=0xF7FF_u16 {
        for second in [0xD000, 0xD7FF, 0xF000, 0xF801, 0xFFFE, 0xDC00, 0xF3FF] {
            add_wide(alloc, &mut count, first, second);
        }
    }
    count
}

fn others(alloc: Global) -> Count {
    let mut count = Count { same: 0, other: 0 };
    for second in 0x8000..=0x8FFF_u16 {
        add_wide(alloc, &mut count, 0xF3BF, second);
        add_wide(alloc, &mut count, 0xF3EF, second);
    }
    for first in 0xF380..=0xF38F_u16 {
        add_wide(alloc, &mut count, first, 0x8800);
    }
    count
}

/// The count if all texts, `same` of them, were assembled to their code.
fn all(same: u32) -> Count {
    Count { same, other: 0 }
}

#[test]
fn every_text_is_read_back(rt: HostRuntime) {
    assert!(rt; narrow(rt.alloc()) == all(55_933));
    assert!(rt; branches(rt.alloc()) == all(14_336));
    assert!(rt; others(rt.alloc()) == all(76));
}
