//! Tests against the codes of LLVM 14's assembler (`llvm-mc -triple=thumbv6m-none-eabi`), for at
//! least one text of each row of the table in docs/FORMATS.md. It also tests instructions that have
//! no code.
use arrayvec::ArrayString;
use thumb_decode::decode;
use thumb_encode::{Fit, encode};
use thumb_insn::{Code, Cond, Decoded, Insn, Reg};

/// The address of the instructions.
const AT: u32 = 0x0800_1000;

/// A code of one halfword or two, and the text for which LLVM gives it at AT.
const CODES: &str = "\
07d1 lsls r1, r2, #31
0811 lsrs r1, r2, #32
1011 asrs r1, r2, #32
0023 movs r3, r4
18d1 adds r1, r2, r3
1ad1 subs r1, r2, r3
1dd1 adds r1, r2, #7
1f51 subs r1, r2, #5
2001 movs r0, #1
2fff cmp r7, #255
36c8 adds r6, #200
3d64 subs r5, #100
4031 ands r1, r6
4071 eors r1, r6
40b1 lsls r1, r6
40f1 lsrs r1, r6
4131 asrs r1, r6
4171 adcs r1, r6
41b1 sbcs r1, r6
41f1 rors r1, r6
4231 tst r1, r6
4271 rsbs r1, r6, #0
42b1 cmp r1, r6
42f1 cmn r1, r6
4331 orrs r1, r6
4371 muls r1, r6
43b1 bics r1, r6
43f1 mvns r1, r6
4491 add r9, r2
4551 cmp r1, r10
46e5 mov sp, r12
4770 bx lr
4798 blx r3
50d1 str r1, [r2, r3]
52d1 strh r1, [r2, r3]
54d1 strb r1, [r2, r3]
59ac ldr r4, [r5, r6]
5bac ldrh r4, [r5, r6]
5dac ldrb r4, [r5, r6]
5fac ldrsh r4, [r5, r6]
57ac ldrsb r4, [r5, r6]
67d1 str r1, [r2, #124]
87d1 strh r1, [r2, #62]
77d1 strb r1, [r2, #31]
6951 ldr r1, [r2, #20]
8951 ldrh r1, [r2, #10]
7951 ldrb r1, [r2, #5]
4afe ldr r2, 0x080013fc
93ff str r3, [sp, #1020]
9b01 ldr r3, [sp, #4]
a503 adr r5, 0x08001010
ad02 add r5, sp, #8
b07f add sp, #508
b084 sub sp, #16
b23a sxth r2, r7
b27a sxtb r2, r7
b2ba uxth r2, r7
b2fa uxtb r2, r7
ba3a rev r2, r7
ba7a rev16 r2, r7
bafa revsh r2, r7
b511 push {r0, r4, lr}
bd82 pop {r1, r7, pc}
c20c stm r2!, {r2, r3}
cb81 ldm r3!, {r0, r7}
b662 cpsie i
b672 cpsid i
beab bkpt #171
bf40 sev
bf90 hint #9
df4d svc #77
e400 b 0x08000804
e3ff b 0x08001802
e7fe b 0x08001000
d080 beq 0x08000f04
d17f bne 0x08001102
d280 bcs 0x08000f04
d37f bcc 0x08001102
d480 bmi 0x08000f04
d57f bpl 0x08001102
d680 bvs 0x08000f04
d77f bvc 0x08001102
d880 bhi 0x08000f04
d97f bls 0x08001102
da80 bge 0x08000f04
db7f blt 0x08001102
dc80 bgt 0x08000f04
dd7f ble 0x08001102
f400d000 bl 0x07001004
f3ffd7ff bl 0x09001002
f2a6fd8e bl 0x082a7b20
f3fff7ff bl 0x08801002
f3bf8f4f dsb #15
f3bf8f50 dmb #0
f3bf8f66 isb #6
f3ef8b00 mrs r11, apsr
f38e8800 msr apsr, lr
";

fn r(number: u8) -> Reg {
    Reg { number }
}

/// Whether an instruction has this text and this code.
fn is_coded(insn: &Insn, code: Code, text: &str) -> bool {
    let mut found: ArrayString<64> = ArrayString::new();
    insn.text(AT, &mut found);
    found.as_str() == text && encode(insn) == Ok(code)
}

/// Whether a line of CODES is right.
fn is_right(line: &str) -> Option<bool> {
    let (code, text) = line.split_once(' ')?;
    let (first, second) = code.split_at_checked(4)?;
    let first = u16::from_str_radix(first, 16).ok()?;
    match u16::from_str_radix(second, 16) {
        Ok(second) => match decode(first, Some(second)) {
            Decoded::Wide(insn) => Some(is_coded(&insn, Code::Two(first, second), text)),
            _ => None,
        },
        Err(_) => match decode(first, None) {
            Decoded::Narrow(insn) => Some(is_coded(&insn, Code::One(first), text)),
            _ => None,
        },
    }
}

#[test]
fn texts_have_their_codes(rt: HostRuntime) {
    for line in CODES.lines() {
        assert!(rt; is_right(line) == Some(true), "{line}");
    }
}

#[test]
fn what_does_not_fit_has_no_code(rt: HostRuntime) {
    for (insn, fit) in [
        (
            Insn::MovsImm {
                d: r(0),
                value: 256,
            },
            Fit::Offset,
        ),
        (Insn::Branch { offset: 4096 }, Fit::Offset),
        (Insn::Branch { offset: -2050 }, Fit::Offset),
        (
            Insn::BranchIf {
                cond: Cond::Eq,
                offset: 256,
            },
            Fit::Offset,
        ),
        (Insn::Bl { offset: 16_777_216 }, Fit::Offset),
        (Insn::Bl { offset: 3 }, Fit::Align),
        (
            Insn::LoadSp {
                t: r(0),
                offset: 1022,
            },
            Fit::Offset,
        ),
        (
            Insn::LoadSp {
                t: r(0),
                offset: 1018,
            },
            Fit::Align,
        ),
        (
            Insn::LoadSp {
                t: r(8),
                offset: 1022,
            },
            Fit::Register,
        ),
        (
            Insn::Stm {
                n: r(3),
                list: 0b1100,
            },
            Fit::Register,
        ),
        (Insn::CmpHigh { n: r(3), m: r(2) }, Fit::Register),
        (Insn::Mrs { d: r(13) }, Fit::Register),
        (Insn::Push { list: 0, lr: false }, Fit::Register),
    ] {
        assert!(rt; encode(&insn) == Err(fit));
    }
}
