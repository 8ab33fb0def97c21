//! Tests codes against the texts and refusals that a second reading of the table of instructions
//! gives for them.
use arrayvec::ArrayString;
use thumb_decode::decode;
use thumb_insn::Decoded;

/// A code of one halfword or two, an address, and the text there.
const TEXTS: &str = "\
2001 08000000 movs r0, #1
e7fe 08000002 b 0x08000002
f000f87e 08000000 bl 0x08000100
c806 08000000 ldm r0!, {r1, r2}
06b7 08000000 lsls r7, r6, #26
0036 08000002 movs r6, r6
095e 08001f3e lsrs r6, r3, #5
14bb 00000000 asrs r3, r7, #18
18c8 fffffffc adds r0, r1, r3
1ab7 20000002 subs r7, r6, r2
1c11 08000000 adds r1, r2, #0
1e50 08000002 subs r0, r2, #1
26fb 08001f3e movs r6, #251
2d87 00000000 cmp r5, #135
31f7 fffffffc adds r1, #247
3c08 20000002 subs r4, #8
401d 08000000 ands r5, r3
407f 08000002 eors r7, r7
40bc 08001f3e lsls r4, r7
40fe 00000000 lsrs r6, r7
411f fffffffc asrs r7, r3
416c 20000002 adcs r4, r5
41a8 08000000 sbcs r0, r5
41dc 08000002 rors r4, r3
4218 08001f3e tst r0, r3
4245 00000000 rsbs r5, r0, #0
42bc fffffffc cmp r4, r7
42e3 20000002 cmn r3, r4
4338 08000000 orrs r0, r7
4364 08000002 muls r4, r4
438d 08001f3e bics r5, r1
43cc 00000000 mvns r4, r1
44e4 fffffffc add r12, r12
4558 20000002 cmp r0, r11
464f 08000000 mov r7, r9
4738 08000002 bx r7
47b0 08001f3e blx r6
4a1e 00000000 ldr r2, 0x0000007c
5191 fffffffc str r1, [r2, r6]
52c1 20000002 strh r1, [r0, r3]
5414 08000000 strb r4, [r2, r0]
5647 08000002 ldrsb r7, [r0, r1]
59c4 08001f3e ldr r4, [r0, r7]
5b2c 00000000 ldrh r4, [r5, r4]
5dba fffffffc ldrb r2, [r7, r6]
5fc8 20000002 ldrsh r0, [r1, r7]
6773 08000000 str r3, [r6, #116]
68d8 08000002 ldr r0, [r3, #12]
7566 08001f3e strb r6, [r4, #21]
7ff5 00000000 ldrb r5, [r6, #31]
879a fffffffc strh r2, [r3, #60]
8e88 20000002 ldrh r0, [r1, #52]
97dc 08000000 str r7, [sp, #880]
9bf8 08000002 ldr r3, [sp, #992]
a5f5 08001f3e adr r5, 0x08002314
aff0 00000000 add r7, sp, #960
b01a fffffffc add sp, #104
b0a0 20000002 sub sp, #128
b220 08000000 sxth r0, r4
b243 08000002 sxtb r3, r0
b2b8 08001f3e uxth r0, r7
b2cc 00000000 uxtb r4, r1
b42e fffffffc push {r1, r2, r3, r5}
bd38 20000002 pop {r3, r4, r5, pc}
ba1d 08000000 rev r5, r3
ba5c 08000002 rev16 r4, r3
bad7 08001f3e revsh r7, r2
b662 00000000 cpsie i
b672 fffffffc cpsid i
be4c 20000002 bkpt #76
bfe0 08000000 hint #14
c48e 08000002 stm r4!, {r1, r2, r3, r7}
cbeb 08001f3e ldm r3, {r0, r1, r3, r5, r6, r7}
d001 00000000 beq 0x00000006
d1de fffffffc bne 0xffffffbc
d27b 20000002 bcs 0x200000fc
d3fc 08000000 bcc 0x07fffffc
d4f4 08000002 bmi 0x07ffffee
d5c6 08001f3e bpl 0x08001ece
d687 00000000 bvs 0xffffff12
d72a fffffffc bvc 0x00000054
d833 20000002 bhi 0x2000006c
d91c 08000000 bls 0x0800003c
dacf 08000002 bge 0x07ffffa4
db56 08001f3e blt 0x08001fee
dcce 00000000 bgt 0xffffffa0
dd06 fffffffc ble 0x0000000c
df5f 20000002 svc #95
e6b3 08000000 b 0x07fffd6a
f6d9fa65 08000002 bl 0x07ed94d0
f3bf8f4c 08001f3e dsb #12
f3bf8f53 00000000 dmb #3
f3bf8f69 fffffffc isb #9
f3ef8e00 20000002 mrs lr, apsr
f3888800 08000000 msr apsr, r8
c80f 20000002 ldm r0, {r0, r1, r2, r3}
b5ff 08000000 push {r0, r1, r2, r3, r4, r5, r6, r7, lr}
bdff 08000002 pop {r0, r1, r2, r3, r4, r5, r6, r7, pc}
b401 08001f3e push {r0}
bc80 00000000 pop {r7}
b500 fffffffc push {lr}
bf00 20000002 nop
bf10 08000000 yield
bf20 08000002 wfe
bf30 08001f3e wfi
bf40 00000000 sev
bf50 fffffffc hint #5
bff0 20000002 hint #15
0812 08000000 lsrs r2, r2, #32
1012 08000002 asrs r2, r2, #32
46f7 08001f3e mov pc, lr
44ef 00000000 add pc, sp
f7fffffe fffffffc bl 0xfffffffc
e400 20000002 b 0x1ffff806
e3ff 08000000 b 0x08000802
4800 08000002 ldr r0, 0x08000004
48ff 08001f3e ldr r0, 0x0800233c
f400d000 00000000 bl 0xff000004
f3ffd7ff fffffffc bl 0x00fffffe
c1fe 20000002 stm r1!, {r1, r2, r3, r4, r5, r6, r7}
c002 08000000 stm r0!, {r1}
4b0f 08000002 ldr r3, 0x08000040
";

/// Codes that match no row of the table.
const ILLEGAL: [(u16, Option<u16>); 31] = [
    (0xde00, None),
    (0x44ff, None),
    (0x4500, None),
    (0x457f, None),
    (0x4587, None),
    (0x4778, None),
    (0x47f8, None),
    (0x4701, None),
    (0xb400, None),
    (0xbc00, None),
    (0xc000, None),
    (0xc800, None),
    (0xc103, None),
    (0xb100, None),
    (0xba80, None),
    (0xbf01, None),
    (0xb660, None),
    (0xb663, None),
    (0xe800, Some(0x0000)),
    (0xf800, Some(0xd000)),
    (0xffff, Some(0xffff)),
    (0xf3ef, Some(0x8d00)),
    (0xf3ef, Some(0x8f00)),
    (0xf38d, Some(0x8800)),
    (0xf38f, Some(0x8800)),
    (0xf3ef, Some(0x8001)),
    (0xf380, Some(0x8801)),
    (0xf3bf, Some(0x8f30)),
    (0xf000, Some(0xc000)),
    (0xf3ef, Some(0x0000)),
    (0xf000, Some(0x8000)),
];

/// The text of the instruction of a code, or why the code is not an instruction.
fn text(first: u16, second: Option<u16>, at: u32) -> ArrayString<64> {
    let mut out = ArrayString::new();
    match decode(first, second) {
        Decoded::Narrow(insn) | Decoded::Wide(insn) => insn.text(at, &mut out),
        Decoded::Illegal => out.push_str("illegal"),
        Decoded::NeedsSecond => out.push_str("needs second"),
    }
    out
}

/// A line of TEXTS.
#[derive(Clone, Copy)]
struct Line<'a> {
    first: u16,
    second: Option<u16>,
    at: u32,
    text: &'a str,
}

fn read(line: &str) -> Option<Line<'_>> {
    let (code, rest) = line.split_once(' ')?;
    let (at, text) = rest.split_once(' ')?;
    let (first, second) = code.split_at_checked(4)?;
    Some(Line {
        first: u16::from_str_radix(first, 16).ok()?,
        second: u16::from_str_radix(second, 16).ok(),
        at: u32::from_str_radix(at, 16).ok()?,
        text,
    })
}

#[test]
fn codes_have_these_texts(rt: HostRuntime) {
    for line in TEXTS.lines() {
        let wanted = read(line).expect(&rt, line);
        let found = text(wanted.first, wanted.second, wanted.at);
        assert!(rt; found.as_str() == wanted.text, "{line}");
    }
}

#[test]
fn codes_outside_the_table_are_illegal(rt: HostRuntime) {
    for (first, second) in ILLEGAL {
        assert!(&rt; matches!(decode(first, second), Decoded::Illegal));
    }
}

#[test]
fn a_second_halfword_is_asked_for_after_each_wide_prefix(rt: HostRuntime) {
    for first in [0xe800, 0xefff, 0xf000, 0xf7ff, 0xf800, 0xffff] {
        assert!(&rt; matches!(decode(first, None), Decoded::NeedsSecond));
    }
}

#[test]
fn the_halfwords_are_counted(rt: HostRuntime) {
    let legal = (0..=0xffff_u16)
        .filter(|first| matches!(decode(*first, None), Decoded::Narrow(_)))
        .count();
    let longer = (0..=0xffff_u16)
        .filter(|first| matches!(decode(*first, None), Decoded::NeedsSecond))
        .count();
    assert!(rt; legal == 55_933);
    assert!(rt; longer == 6_144);
}
