//! Builds an image of an application and of its tasks' sources: plans flash and RAM, assembles each
//! source at its task's flash, and makes the parts of the image. docs/FORMATS.md, Building, has the
//! rules.
#![tactic(auto)]

mod accepting;
mod builder;
mod fault;
mod finishing;
mod interrupts;
mod layout;
mod names;
mod reading;
mod regions;
mod spelled;
mod symbols;
mod tasks;

pub use builder::Builder;
pub use fault::BuildFault;
pub use finishing::build;
