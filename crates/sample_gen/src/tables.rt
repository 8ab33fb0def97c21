//! The interrupt lines of the sample.

ghost use Rattle.std.specs.Prelude.{◌≡◌, ◌<◌, IfOk, map};
ghost use Rattle.std.specs.List.{range_with_len};
ghost use Rattle.app_toml.specs.Sites.{interrupt_of};
ghost use Rattle.sample_gen.specs.Sample.{line_of};

use app_toml::LineSpec;
use std::alloc::{AllocError, Global};

fn interrupt(alloc: Global, line: u8) -> Result<LineSpec, AllocError>
    requires { line < 7 }
    ensures { IfOk result (λ i. interrupt_of i ≡ line_of line) }
{
    let owner = u32::from(line) + 1;
    let task = format!(in alloc; "t{owner}")?;
    let notification = String::from_str(alloc, "go")?;
    Ok(LineSpec {
        line,
        task,
        notification,
        device: None,
    })
}

/// The lines of the servers.
pub(crate) fn interrupts(alloc: Global) -> Result<Vec<LineSpec>, AllocError>
    ensures { IfOk result (λ v. map interrupt_of v.items ≡ map line_of (range_with_len 0 7)) }
{
    let mut interrupts = Vec::new(alloc);
    for line in 0..7u8 {
        interrupts.push(interrupt(alloc, line)?)?;
    }
    Ok(interrupts)
}
