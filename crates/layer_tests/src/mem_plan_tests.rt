//! Tests plans that no application has. Plans of applications are tested by stored rows
//! (crates/stored_runs, data/plans.txt).

use mem_plan::plan;
use std::test::Fail;

#[test]
fn no_sizes_take_no_room(rt: HostRuntime) -> Result<(), Fail> {
    let made = plan(rt.alloc(), &[], 0x2000_0000, 0)?;
    assert!(rt; made.bases.len() == 0);
    Ok(())
}

#[test]
fn the_largest_size_and_the_last_address_are_taken(rt: HostRuntime) -> Result<(), Fail> {
    let made = plan(rt.alloc(), &[1, 1_048_576], 0xFFE0_0000, 2_097_152)?;
    assert!(rt; made.bases.as_slice() == [0xFFF0_0000, 0xFFE0_0000].as_slice());
    Ok(())
}
