//! Tests each call once against docs/FORMATS.md.
use text_lines::{Lines, hex_number, number};

const SOURCE: &[u8] = b"movs r0, #1\r\n\nb here\rx\n\r\nlast\r";

/// The lines of SOURCE; after the last one comes no other.
const LINES: [Option<&[u8]>; 7] = [
    Some(b"movs r0, #1"),
    Some(b""),
    Some(b"b here\rx"),
    Some(b""),
    Some(b"last\r"),
    None,
    None,
];

const DECIMAL: [(&[u8], u64, Option<u64>); 9] = [
    (b"0", 0, Some(0)),
    (b"007", 7, Some(7)),
    (b"1000000000", 1_000_000_000, Some(1_000_000_000)),
    (b"1000000001", 1_000_000_000, None),
    (b"18446744073709551615", u64::MAX, Some(u64::MAX)),
    (b"18446744073709551616", u64::MAX, None),
    (b"", 9, None),
    (b"+1", 9, None),
    (b"1a", 99, None),
];

const HEXADECIMAL: [(&[u8], Option<u32>); 7] = [
    (b"08000004", Some(0x0800_0004)),
    (b"deadBEEF", Some(0xDEAD_BEEF)),
    (b"00ffffffff", Some(0xFFFF_FFFF)),
    (b"100000000", None),
    (b"0x1", None),
    (b"g", None),
    (b"", None),
];

#[test]
fn lines_come_in_order(rt: HostRuntime) {
    let mut lines = Lines::of(SOURCE);
    for line in LINES {
        assert!(rt; lines.next() == line);
    }
}

#[test]
fn an_lf_at_the_end_starts_no_line(rt: HostRuntime) {
    let mut lines = Lines::of(b"every 5 tick\n");
    assert!(rt; (lines.next(), lines.next()) == (Some(b"every 5 tick".as_slice()), None));
}

#[test]
fn decimal_numbers_keep_to_their_limit(rt: HostRuntime) {
    for (digits, most, value) in DECIMAL {
        assert!(rt; number(digits, most) == value);
    }
}

#[test]
fn hexadecimal_numbers_have_32_bits(rt: HostRuntime) {
    for (digits, value) in HEXADECIMAL {
        assert!(rt; hex_number(digits) == value);
    }
}
