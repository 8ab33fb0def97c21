//! Tests what no run shows about scripts: turns that no run has. The order of events, the most
//! events and refused scripts are tested by stored rows (crates/stored_runs).
use run_script::{Event, Script};
use std::test::Fail;

#[test]
fn no_event_is_past_the_last_turn(rt: HostRuntime) -> Result<(), Fail> {
    let of_none = Script::read(rt.alloc(), b"")?.event_at(u32::MAX, 0);
    let script = Script::read(rt.alloc(), b"every 5 tick\nat 9 tick\n")?;
    let events = [
        script.event_at(9, 0),
        script.event_at(9, u32::MAX),
        script.event_at(999_999_995, 0),
    ];
    let next = [
        script.next(999_999_995),
        script.next(999_999_996),
        script.next(u32::MAX),
    ];
    let lasts = script.lasts(1_000_000_000);
    assert!(rt; (of_none, events) == (None, [Some(Event::Tick), None, Some(Event::Tick)]));
    assert!(rt; (next, lasts) == ([Some(999_999_995), None, None], true));
    Ok(())
}

#[test]
fn a_script_is_written_in_one_spelling(rt: HostRuntime) -> Result<(), Fail> {
    let read = b"# a\nevery 050 tick\nat 3 irq 07\n at\t3 in 1 65\r\nat 4 tick";
    let script = Script::read(rt.alloc(), read)?;
    let mut text = Vec::from_slice(rt.alloc(), b"# b\n")?;
    script.push_text(&mut text)?;
    let wanted = b"# b\nevery 50 tick\nat 3 irq 7\nat 3 in 1 65\nat 4 tick\n";
    let same = text.as_slice() == wanted.as_slice();
    assert!(rt; same);
    Ok(())
}
