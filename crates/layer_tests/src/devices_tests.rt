//! Tests a console and a port over the calls of a device: what each shows, takes, counts and gives
//! out at each offset.
use devices::{Console, Device, Port};
use kernel_abi::{Fed, Kind};

/// A port in which the bytes 0, 1, 2, .. wait.
fn port_of(bytes: u8) -> Port {
    let mut port = Port::new(0x4000_1000);
    for byte in 0..bytes {
        port.input(byte);
    }
    port
}

#[test]
fn a_console_gives_out_the_low_byte_of_what_is_stored_at_0(rt: HostRuntime) {
    let mut console = Console::new(0x4000_0000);
    let given = [
        console.store(0, 0x1234_5641),
        console.store(4, 0x42),
        console.store(0, 0x100),
        console.store(1, 0x43),
        console.store(255, 0x44),
    ];
    assert!(rt; given == [Some(0x41), None, Some(0), None, None]);
}

#[test]
fn a_console_shows_its_count_at_4(rt: HostRuntime) {
    let mut console = Console::new(0x4000_0000);
    console.store(0, 0x41);
    console.store(4, 0x41);
    console.store(0, 0x41);
    console.took(0);
    console.took(4);
    let shown = [
        console.look(0),
        console.look(1),
        console.look(4),
        console.look(8),
        console.look(255),
    ];
    assert!(rt; shown == [0, 0, 2, 0, 0]);
    assert!(rt; console.count() == 2);
}

#[test]
fn the_count_of_a_console_goes_round(rt: HostRuntime) {
    let mut console = Console::new(0x4000_0000);
    console.set(0xFFFF_FFFF, &[]);
    assert!(rt; console.look(4) == 0xFFFF_FFFF);
    console.store(0, 0x41);
    assert!(rt; console.look(4) == 0);
}

#[test]
fn a_console_takes_no_input(rt: HostRuntime) {
    let mut console = Console::new(0x4000_0000);
    assert!(rt; console.input(0x41) == Fed::NotPort);
    assert!(rt; console.queued(0) == None);
    assert!(rt; console.look(0) == 0);
}

#[test]
fn a_port_shows_its_first_byte_and_its_length(rt: HostRuntime) {
    let mut port = port_of(3);
    let before = [port.look(0), port.look(4), port.look(1), port.look(8)];
    port.took(4);
    port.took(1);
    let same = [port.look(0), port.look(4)];
    port.took(0);
    let after = [port.look(0), port.look(4)];
    assert!(rt; before == [0, 3, 0, 0]);
    assert!(rt; same == [0, 3]);
    assert!(rt; after == [1, 2]);
}

#[test]
fn bytes_leave_a_port_in_order(rt: HostRuntime) {
    let mut port = port_of(64);
    for byte in 0..64_u32 {
        assert!(rt; port.look(0) == byte);
        port.took(0);
    }
    port.took(0);
    let empty = [port.look(0), port.look(4)];
    assert!(rt; empty == [0, 0]);
}

#[test]
fn a_port_is_full_with_64_bytes(rt: HostRuntime) {
    let mut port = port_of(63);
    let told = [
        port.input(0x80) == Fed::Queued,
        port.input(0x81) == Fed::Full,
    ];
    port.took(0);
    let again = port.input(0x82) == Fed::Queued;
    let last = [port.queued(62), port.queued(63), port.queued(64)];
    assert!(rt; told == [true, true]);
    assert!(rt; again);
    assert!(rt; last == [Some(0x80), Some(0x82), None]);
}

#[test]
fn a_store_leaves_a_port_alone(rt: HostRuntime) {
    let mut port = port_of(2);
    let given = [port.store(0, 0x41), port.store(4, 0x41)];
    assert!(rt; given == [None, None]);
    assert!(rt; port.count() == 0);
    assert!(rt; port.look(0) == 0);
    assert!(rt; port.look(4) == 2);
}

#[test]
fn what_is_set_waits(rt: HostRuntime) {
    let mut port = port_of(5);
    port.set(0, &[7, 8]);
    let waits = [port.queued(0), port.queued(1), port.queued(2)];
    assert!(rt; waits == [Some(7), Some(8), None]);
}

#[test]
fn devices_tell_their_kind_and_place(rt: HostRuntime) {
    let console = Console::new(0x4000_0000);
    let port = Port::new(0x5FFF_FF00);
    assert!(rt; console.kind() == Kind::Console);
    assert!(rt; port.kind() == Kind::Port);
    assert!(rt; [console.base(), port.base()] == [0x4000_0000, 0x5FFF_FF00]);
}
