//! Tests the text of a refusal of a source. Sources that are assembled or refused are tested by
//! stored rows (crates/stored_runs).

use std::test::Fail;
use thumb_asm::{AsmFault, Cause};

const TOLD: [(AsmFault, &str); 2] = [
    (
        AsmFault::Refused(Cause::BadList, 3),
        "line 3: a list of registers that is not allowed",
    ),
    (AsmFault::Memory, "out of memory"),
];

#[test]
fn faults_are_told(rt: HostRuntime) -> Result<(), Fail> {
    for (fault, text) in &TOLD {
        let found = format!(in rt.alloc(); "{fault}")?;
        assert!(rt; found.as_str() == *text);
    }
    Ok(())
}
