//! From the files that a command names to the board of its run, or to the line that says why a file
//! is not accepted; and the commands that run nothing.
#![tactic(auto)]

mod building;
mod commands;
mod file_faults;
mod lines;
mod naming;
mod preparing;
mod putting;
mod source_lines;
mod sources;

pub use building::BuiltApp;
pub use commands::audit::audit_file;
pub use commands::build::build_file;
pub use commands::help::help;
pub use commands::list::list_file;
pub use commands::migrate::migrate_file;
pub use file_faults::{FileFault, NamedFault, fault_named, refused_at_number};
pub use lines::{
    line_of_drawn, line_of_saved, line_of_traced, line_of_unread, status_by, tell, tell_named_fault,
};
pub use naming::prepare_named;
pub use preparing::{prepare_app, prepare_go, prepare_run, read_image, read_script};
pub use putting::put_told;
pub use source_lines::SourceLines;
pub use sources::{FILE_LIMIT, read_contents, script_in};
