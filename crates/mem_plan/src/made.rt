//! The type of a plan, and the reasons why there is none.

ghost use Rattle.std.specs.Prelude.{◌≡◌};
ghost use Rattle.mem_plan.specs.declared.made.PlanFault.TheVariants.{Memory};

use std::alloc::AllocError;
use thiserror::Error;

/// The address at which each region begins, in the order of the sizes.
#[derive(Debug, Drop)]
pub struct Plan {
    pub bases: Vec<u32>,
}

/// Why `plan` gives no plan.
#[derive(Debug, Drop, Error)]
pub enum PlanFault {
    /// The rounded sizes sum to `needed` bytes, which is more than the room. The value 2^64 - 1
    /// stands for every sum of at least that.
    #[error("{needed} bytes are needed")]
    TooSmall { needed: u64 },
    /// There was not enough memory to make the plan.
    #[error("out of memory")]
    Memory,
}

impl From<AllocError> for PlanFault {
    ghost from_gives = { λ _ e. e ≡ Memory };

    fn from(_error: AllocError) -> PlanFault {
        PlanFault::Memory
    }
}
