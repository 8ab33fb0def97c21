//! Tests the functions on words, flags and registers. The expected values were recorded from
//! Unicorn 2.0.1 as a Cortex-M0, or follow from the manual's rule for an edge case.
use words_core::{Flags, Regs, add_with_carry, asr, extend, lsl, lsr, ror};

/// Flags from four digits, N first.
fn flags(digits: u8) -> Flags {
    Flags {
        n: digits & 8 != 0,
        z: digits & 4 != 0,
        c: digits & 2 != 0,
        v: digits & 1 != 0,
    }
}

#[test]
fn sums(rt: HostRuntime) {
    let cases: [(u32, u32, bool, u32, u8); 9] = [
        (0x0000_0023, 0x0000_0023, false, 0x0000_0046, 0b0000),
        (0xFFFF_FF41, 0x9982_025B, true, 0x9982_019D, 0b1010),
        (0xDE62_20DD, 0x0000_0062, false, 0xDE62_213F, 0b1000),
        (0x0000_0002, 0x0000_00B5, true, 0x0000_00B8, 0b0000),
        (0xFFFF_FF23, 0x3DB4_EE0F, false, 0x3DB4_ED32, 0b0010),
        (0x7FFF_FFFF, 0x0000_0000, true, 0x8000_0000, 0b1001),
        (0x8000_0000, 0x8000_0000, false, 0x0000_0000, 0b0111),
        (0x8000_0000, 0xFFFF_FFFF, true, 0x8000_0000, 0b1010),
        (0xFFFF_FFFF, 0x0000_0000, true, 0x0000_0000, 0b0110),
    ];
    for (x, y, c, sum, nzcv) in cases {
        assert!(rt; add_with_carry(x, y, c) == (sum, flags(nzcv)));
    }
}

#[test]
fn differences(rt: HostRuntime) {
    let cases: [(u32, u32, bool, u32, u8); 6] = [
        (0x0000_0000, 0x0000_0000, true, 0x0000_0000, 0b0110),
        (0x0000_0000, 0x0000_0001, true, 0xFFFF_FFFF, 0b1000),
        (0x0000_FFFF, 0x0000_FFFF, false, 0xFFFF_FFFF, 0b1000),
        (0xD89E_74F1, 0x0000_0001, false, 0xD89E_74EF, 0b1010),
        (0xFFFF_FF7B, 0x0000_0047, true, 0xFFFF_FF34, 0b1010),
        (0x8000_0000, 0x0000_0001, true, 0x7FFF_FFFF, 0b0011),
    ];
    for (x, y, c, difference, nzcv) in cases {
        assert!(rt; add_with_carry(x, !y, c) == (difference, flags(nzcv)));
    }
}

#[derive(Clone, Copy)]
enum Shift {
    Left,
    Right,
    SignedRight,
    Turn,
}

/// A shift, a word, the amount and the carry before it; then the result and the carry after it.
const SHIFTS: [(Shift, u32, u8, bool, u32, bool); 32] = [
    (Shift::Left, 0xFFFF_FF82, 8, false, 0xFFFF_8200, true),
    (Shift::Left, 0xA902_5ADF, 31, true, 0x8000_0000, true),
    (Shift::Left, 0x0B21_B5E5, 16, false, 0xB5E5_0000, true),
    (Shift::Left, 0xFFFF_FF26, 64, true, 0, false),
    (Shift::Left, 0x00FF_00FF, 128, false, 0, false),
    (Shift::Left, 0x0000_0001, 32, false, 0, true),
    (Shift::Left, 0x0000_0001, 33, true, 0, false),
    (Shift::Left, 0x1234_5678, 0, true, 0x1234_5678, true),
    (Shift::Right, 0x0000_8000, 222, true, 0, false),
    (Shift::Right, 0x8000_0000, 8, true, 0x0080_0000, false),
    (Shift::Right, 0xEA79_4B33, 1, false, 0x753C_A599, true),
    (Shift::Right, 0x3710_BABA, 31, true, 0, false),
    (Shift::Right, 0x0000_0001, 31, false, 0, false),
    (Shift::Right, 0x8000_0000, 32, false, 0, true),
    (Shift::Right, 0x8000_0000, 33, true, 0, false),
    (Shift::Right, 0x1234_5678, 0, true, 0x1234_5678, true),
    (Shift::SignedRight, 0x0000_0008, 8, true, 0, false),
    (Shift::SignedRight, 0x5309_3B6E, 2, true, 0x14C2_4EDB, true),
    (
        Shift::SignedRight,
        0x5D55_ACD1,
        2,
        false,
        0x1755_6B34,
        false,
    ),
    (Shift::SignedRight, 0x0000_0067, 65, false, 0, false),
    (Shift::SignedRight, 0xA7A4_2423, 30, true, 0xFFFF_FFFE, true),
    (
        Shift::SignedRight,
        0x8000_0000,
        40,
        false,
        0xFFFF_FFFF,
        true,
    ),
    (
        Shift::SignedRight,
        0x8000_0000,
        32,
        false,
        0xFFFF_FFFF,
        true,
    ),
    (
        Shift::SignedRight,
        0x8000_0000,
        0,
        false,
        0x8000_0000,
        false,
    ),
    (Shift::Turn, 0x8000_0000, 63, true, 0x0000_0001, false),
    (Shift::Turn, 0x96BF_738B, 224, false, 0x96BF_738B, true),
    (Shift::Turn, 0xFFFF_FF72, 16, true, 0xFF72_FFFF, true),
    (Shift::Turn, 0xF37C_2C02, 16, true, 0x2C02_F37C, false),
    (Shift::Turn, 0xC4A0_3430, 48, true, 0x3430_C4A0, false),
    (Shift::Turn, 0xCD14_E300, 96, true, 0xCD14_E300, true),
    (Shift::Turn, 0x8000_0001, 32, false, 0x8000_0001, true),
    (Shift::Turn, 0x8000_0001, 0, false, 0x8000_0001, false),
];

fn shifted(shift: Shift, x: u32, by: u8, c: bool) -> (u32, bool) {
    match shift {
        Shift::Left => lsl(x, by, c),
        Shift::Right => lsr(x, by, c),
        Shift::SignedRight => asr(x, by, c),
        Shift::Turn => ror(x, by, c),
    }
}

#[test]
fn shifts_and_rotations(rt: HostRuntime) {
    for (shift, x, by, c, result, carry) in SHIFTS {
        assert!(rt; shifted(shift, x, by, c) == (result, carry));
    }
}

#[test]
fn extensions(rt: HostRuntime) {
    let found = [
        extend(0xBEC0_B6C2, 16, true),
        extend(0x0000_0072, 16, true),
        extend(0x0000_00D7, 8, true),
        extend(0x0000_8000, 8, true),
        extend(0x29A5_BA8C, 16, false),
        extend(0x856B_7C82, 8, false),
    ];
    let wanted = [
        0xFFFF_B6C2,
        0x0000_0072,
        0xFFFF_FFD7,
        0x0000_0000,
        0x0000_BA8C,
        0x0000_0082,
    ];
    assert!(rt; found == wanted);
}

#[test]
fn registers(rt: HostRuntime) {
    let mut regs = Regs::of([0; 16]);
    regs.set(3, 7);
    regs.set(15, 0x0800_0000);
    let words = regs.words();
    let found = [regs.get(3), regs.get(4), words[3], words[15]];
    assert!(rt; found == [7, 0, 7, 0x0800_0000]);
    assert!(rt; Regs::of(words) == regs);
}
