//! Images in their two forms, `HBI1` and `HBI2`: their bytes read and written, and the checks that
//! an image passes. docs/FORMATS.md, Image, has the layouts and the table of causes.
#![tactic(auto)]

mod checks;
mod image;
pub mod laws;
mod line_devices;
mod making;
mod names;
mod parts;
mod places;
mod reading;
mod records;
mod regions;
mod views;
mod writing;

pub use checks::{check_count, check_fields, check_lines, check_tasks};
pub use image::Image;
pub use line_devices::check_line_devices;
pub use names::check_names;
pub use records::{Header, ImageFault, ImageForm, LineRecord, RegionRecord, TaskRecord};
pub use regions::{check_entries, check_regions};
