//! Reads a case of the file. The head of the file describes the form.
use kernel_abi::Fault;
use std::alloc::{AllocError, Global};
use thumb_exec::cpu::{Cpu, Outcome};
use thumb_exec::lazy_flags::LazyFlags;
use words_core::{Flags, PROGRAM_COUNTER, Regs};

/// One instruction, the state before it and the state that is wanted after it.
#[derive(Drop)]
pub struct Case {
    /// The code of the instruction, of one halfword or two.
    pub first: u16,
    pub second: Option<u16>,
    /// The processor before the instruction.
    pub cpu: Cpu,
    /// Bytes of memory before the instruction, with their addresses.
    pub bytes: Vec<(u32, u8)>,
    pub outcome: Outcome,
    pub wanted: Cpu,
    /// The bytes that the instruction has to write, with their addresses.
    pub wanted_bytes: Vec<(u32, u8)>,
}

/// The fields of a line. The bytes of memory are still texts.
#[derive(Drop)]
struct Fields<'a> {
    first: u16,
    second: Option<u16>,
    cpu: Cpu,
    bytes: &'a str,
    outcome: Outcome,
    wanted: Cpu,
    wanted_bytes: &'a str,
}

/// A number in hexadecimal.
fn hex(text: &str) -> Option<u32> {
    u32::from_str_radix(text, 16).ok()
}

/// The value of a hexadecimal digit.
fn digit(byte: u8) -> Option<u8> {
    match byte {
        b'0'..=b'9' => Some(byte - b'0'),
        b'a'..=b'f' => Some(byte - b'a' + 10),
        _ => None,
    }
}

/// The byte that two digits spell.
fn byte(digits: &[u8]) -> Option<u8> {
    match digits {
        [high, low] => Some(digit(*high)?.wrapping_mul(16).wrapping_add(digit(*low)?)),
        _ => None,
    }
}

/// An address, and the digits of the bytes from this address on.
fn place(pair: &str) -> Option<(u32, &str)> {
    let (at, digits) = pair.split_once('=')?;
    Some((hex(at)?, digits))
}

/// Adds the bytes of a pair `address=bytes`, and says whether it is one.
fn push_pair(found: &mut Vec<(u32, u8)>, pair: &str) -> Result<bool, AllocError> {
    let Some((mut at, digits)) = place(pair) else {
        return Ok(false);
    };
    for digits in digits.as_bytes().chunks(2) {
        let Some(byte) = byte(digits) else {
            return Ok(false);
        };
        found.push((at, byte))?;
        at = at.wrapping_add(1);
    }
    Ok(true)
}

/// Adds the bytes of `address=bytes` pairs that are separated by commas; `-` means no pairs.
/// Returns whether the text has this form.
fn push_pairs(found: &mut Vec<(u32, u8)>, text: &str) -> Result<bool, AllocError> {
    if text == "-" {
        return Ok(true);
    }
    for pair in text.split(',') {
        if !push_pair(found, pair)? {
            return Ok(false);
        }
    }
    Ok(true)
}

/// A code of four digits, or of eight, the first halfword first.
fn code(text: &str) -> Option<(u16, Option<u16>)> {
    let value = hex(text)?;
    match text.len() {
        4 => Some((u16::try_from(value).ok()?, None)),
        8 => Some(((value / 0x1_0000) as u16, Some((value % 0x1_0000) as u16))),
        _ => None,
    }
}

/// The registers: fifteen, separated by commas, and PC.
fn registers(text: &str, pc: u32) -> Option<Regs> {
    let mut regs = Regs::of([0; 16]);
    let mut count = 0usize;
    for word in text.split(',') {
        if count >= 15 {
            return None;
        }
        regs.set(count, hex(word)?);
        count += 1;
    }
    regs.set(PROGRAM_COUNTER, pc);
    if count == 15 { Some(regs) } else { None }
}

/// The four flags, as digits 0 and 1.
fn flags(text: &str) -> Option<Flags> {
    match text.as_bytes() {
        [n, z, c, v] => Some(Flags {
            n: *n == b'1',
            z: *z == b'1',
            c: *c == b'1',
            v: *v == b'1',
        }),
        _ => None,
    }
}

/// The names of the registers.
const NAMES: [&str; 16] = [
    "r0", "r1", "r2", "r3", "r4", "r5", "r6", "r7", "r8", "r9", "r10", "r11", "r12", "sp", "lr",
    "pc",
];

/// Makes a change `name=value` of a register.
fn change(regs: &mut Regs, text: &str) -> Option<()> {
    let (name, digits) = text.split_once('=')?;
    let value = hex(digits)?;
    for i in 0..16 {
        if NAMES[i] == name {
            regs.set(i, value);
            return Some(());
        }
    }
    None
}

/// The processor after changes that are separated by commas; then come `/` and the flags.
fn changed(cpu: &Cpu, text: &str) -> Option<Cpu> {
    let (changes, nzcv) = text.split_once('/')?;
    let mut regs = cpu.regs;
    for text in changes.split(',') {
        change(&mut regs, text)?;
    }
    Some(Cpu {
        regs,
        flags: LazyFlags::of(flags(nzcv)?),
    })
}

/// The number of a fault by its name.
fn fault_number(name: &str) -> Option<u8> {
    match name {
        "illegal" => Some(1),
        "text" => Some(2),
        "access" => Some(3),
        "unaligned" => Some(4),
        "state" => Some(5),
        "breakpoint" => Some(6),
        _ => None,
    }
}

/// A fault: its name with x, and with y if the fault has one.
fn fault(text: &str) -> Option<Fault> {
    let (name, words) = text.split_once(':')?;
    let (x, y) = words.split_once(':').unwrap_or((words, "0"));
    Some(Fault {
        number: fault_number(name)?,
        x: hex(x)?,
        y: hex(y)?,
    })
}

/// How the instruction ends: `next`, `call`, or a fault.
fn outcome(text: &str) -> Option<Outcome> {
    match text {
        "next" => Some(Outcome::Next),
        "call" => Some(Outcome::Call),
        _ => Some(Outcome::Trap(fault(text)?)),
    }
}

/// The first nine words of a line. Missing ones are empty.
fn words(line: &str) -> [&str; 9] {
    let mut words = [""; 9];
    let mut count = 0usize;
    for word in line.split_whitespace() {
        if count < 9 {
            words[count] = word;
            count += 1;
        }
    }
    words
}

/// The fields of a line of nine words. The first word is a name.
fn read_fields(line: &str) -> Option<Fields<'_>> {
    let [
        _,
        code_digits,
        at,
        regs,
        nzcv,
        bytes,
        end,
        wanted,
        wanted_bytes,
    ] = words(line);
    let (first, second) = code(code_digits)?;
    let cpu = Cpu {
        regs: registers(regs, hex(at)?)?,
        flags: LazyFlags::of(flags(nzcv)?),
    };
    let wanted = changed(&cpu, wanted)?;
    Some(Fields {
        first,
        second,
        cpu,
        bytes,
        outcome: outcome(end)?,
        wanted,
        wanted_bytes,
    })
}

/// Reads a line as a case.
pub(crate) fn read(alloc: Global, line: &str) -> Result<Option<Case>, AllocError> {
    let Some(fields) = read_fields(line) else {
        return Ok(None);
    };
    let mut bytes = Vec::new(alloc);
    let mut wanted_bytes = Vec::new(alloc);
    if !push_pairs(&mut bytes, fields.bytes)?
        || !push_pairs(&mut wanted_bytes, fields.wanted_bytes)?
    {
        return Ok(None);
    }
    Ok(Some(Case {
        first: fields.first,
        second: fields.second,
        cpu: fields.cpu,
        bytes,
        outcome: fields.outcome,
        wanted: fields.wanted,
        wanted_bytes,
    }))
}
