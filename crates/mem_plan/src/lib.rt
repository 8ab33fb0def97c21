//! Where memory regions are placed, given their sizes (docs/FORMATS.md, Plan). Each size is rounded
//! up to a power of two of at least 256. The regions are placed from the largest to the smallest,
//! equal ones in the order of the list. Each begins where the one before it ends.
#![tactic(auto)]

mod made;
mod placing;
mod sizes;

pub use made::{Plan, PlanFault};
pub use placing::plan;
pub use sizes::rounded;
