//! Tests the sample of seed 1 against values that were worked out by hand from its rules.

use run_script::Event;
use sample_gen::sample;
use std::test::Fail;

#[test]
fn the_first_draws_of_seed_1(rt: HostRuntime) -> Result<(), Fail> {
    let (app, sources, script) = sample(rt.alloc(), 1)?;
    assert!(rt; app.tasks().len() == 32);
    assert!(rt; sources.len() == 32);
    let is_offset_16 = match sources.as_slice().get(1) {
        Some(source) => source.as_str().contains("\nmovs r6, #16\nadd r7"),
        None => false,
    };
    assert!(rt; is_offset_16);
    assert!(rt; script.event_at(64, 0) == Some(Event::Tick));
    Ok(())
}
