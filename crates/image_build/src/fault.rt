//! Why there is no image.

ghost use Rattle.std.specs.Prelude.{◌≡◌};
ghost use Rattle.image_build.specs.declared.fault.BuildFault.TheVariants.{Memory};

use std::alloc::AllocError;
use thiserror::Error;

/// Why an application is not built, in the order in which the causes are looked for.
#[derive(Debug, Drop, Error)]
pub enum BuildFault {
    /// The tasks' flash needs `needed` bytes, which is more than the board has.
    #[error("{needed} bytes of flash are needed")]
    Flash { needed: u64 },
    /// The tasks' RAM and the regions need `needed` bytes, which is more than the board has.
    #[error("{needed} bytes of RAM are needed")]
    Ram { needed: u64 },
    /// The assembler refuses the task's source, with a number of docs/FORMATS.md, Assembler, and
    /// the line, counted from 1.
    #[error("task {task}: cause {cause} at line {line}")]
    Source { task: usize, cause: u8, line: usize },
    /// The task's source gives `length` bytes, which is more than its flash has.
    #[error("task {task}: {length} bytes of code")]
    Code { task: usize, length: usize },
    /// There was not enough memory.
    #[error("out of memory")]
    Memory,
}

impl From<AllocError> for BuildFault {
    ghost from_gives = { λ _ e. e ≡ Memory };

    fn from(_error: AllocError) -> BuildFault {
        BuildFault::Memory
    }
}
