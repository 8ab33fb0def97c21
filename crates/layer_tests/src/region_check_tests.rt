//! Tests bytes and ranges at the edges of regions.
use region_check::{Region, Right, Rights, first_lacking, is_size, may, may_range, one_gives};

const fn region(base: u32, read_only: bool, execute: bool, device: bool) -> Region {
    Region {
        base,
        size: 0x100,
        rights: Rights {
            read: true,
            write: !read_only,
            execute,
            device,
        },
    }
}

// Flash, a gap, two adjacent regions (the higher one comes first and is read-only), and a device.
fn sample() -> [Region; 4] {
    [
        region(0x0800_0000, true, true, false),
        region(0x2000_0200, true, false, false),
        region(0x2000_0100, false, false, false),
        region(0x4000_0000, false, false, true),
    ]
}

#[test]
fn one_byte(rt: HostRuntime) {
    let regions = sample();
    let found = [
        may(&regions, 0x0800_0000, Right::Execute),
        may(&regions, 0x0800_00FF, Right::Execute),
        may(&regions, 0x0800_0100, Right::Execute),
        may(&regions, 0x07FF_FFFF, Right::Execute),
        may(&regions, 0x0800_0000, Right::Write),
        may(&regions, 0x2000_01FF, Right::Write),
        may(&regions, 0x2000_0200, Right::Write),
        may(&regions, 0x4000_0000, Right::Write),
        may(&[], 0x2000_0100, Right::Read),
    ];
    assert!(rt; found == [true, true, false, false, false, true, false, true, false]);
}

#[test]
fn adjoining_regions(rt: HostRuntime) {
    let regions = sample();
    let found = [
        may_range(&regions, 0x2000_01FC, 8, Right::Read),
        may_range(&regions, 0x2000_0100, 0x200, Right::Read),
        may_range(&regions, 0x2000_01FC, 8, Right::Write),
    ];
    assert!(rt; found == [None, None, Some(0x2000_0200)]);
}

// In the third range only the first and the last byte are permitted.
#[test]
fn gaps(rt: HostRuntime) {
    let regions = sample();
    let found = [
        may_range(&regions, 0x2000_0100, 0x201, Right::Read),
        may_range(&regions, 0x2000_00FF, 2, Right::Read),
        may_range(&regions, 0x0800_00FF, 0x1800_0002, Right::Read),
        may_range(&regions, 0xFFFF_FFFC, 4, Right::Read),
    ];
    let wanted = [
        Some(0x2000_0300),
        Some(0x2000_00FF),
        Some(0x0800_0100),
        Some(0xFFFF_FFFC),
    ];
    assert!(rt; found == wanted);
}

#[test]
fn devices_and_nothing(rt: HostRuntime) {
    let regions = sample();
    let found = [
        may_range(&regions, 0x4000_0000, 1, Right::Read),
        may_range(&regions, 0x4000_0000, 0, Right::Read),
        may_range(&[], 0, 0, Right::Write),
    ];
    assert!(rt; found == [Some(0x4000_0000), None, None]);
}

// Accesses across the end of a region into an adjacent one, without the right there, to a device,
// past the flash, and outside all regions.
#[test]
fn accesses(rt: HostRuntime) {
    let regions = sample();
    let found = [
        first_lacking(&regions, 0x2000_01FE, 4, Right::Read),
        first_lacking(&regions, 0x2000_01FE, 4, Right::Write),
        first_lacking(&regions, 0x4000_00FC, 4, Right::Write),
        first_lacking(&regions, 0x0800_00FE, 4, Right::Execute),
        first_lacking(&[], 0xFFFF_FFFC, 4, Right::Read),
    ];
    let wanted = [
        None,
        Some(0x2000_0200),
        None,
        Some(0x0800_0100),
        Some(0xFFFF_FFFC),
    ];
    assert!(rt; found == wanted);
}

#[test]
fn one_region(rt: HostRuntime) {
    let regions = sample();
    let given = [
        one_gives(&regions, 0x2000_0100, 0x100, Right::Write),
        one_gives(&regions, 0x2000_0100, 0x101, Right::Read),
        one_gives(&regions, 0x2000_0300, 0, Right::Read),
    ];
    let spanned = [
        regions[0].spans(0x0800_00FC, 4),
        regions[0].spans(0x07FF_FFFF, 4),
        regions[0].spans(0x0800_00FD, 4),
    ];
    assert!(rt; given == [true, false, true]);
    assert!(rt; spanned == [true, false, false]);
    assert!(rt; regions[1].rights.has(Right::Read) && !regions[1].rights.has(Right::Write));
}

#[test]
fn sizes(rt: HostRuntime) {
    let found = [0, 128, 256, 768, 0x8000_0000].map(is_size);
    assert!(rt; found == [false, false, true, false, true]);
}

#[test]
fn last_byte(rt: HostRuntime) {
    let top = [region(0xFFFF_FF00, true, false, false)];
    let found = (
        may_range(&top, 0xFFFF_FFFC, 4, Right::Read),
        may(&top, 0xFFFF_FFFF, Right::Read),
    );
    assert!(rt; found == (None, true));
}
