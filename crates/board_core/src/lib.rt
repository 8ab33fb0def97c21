//! The board: one turn at a time.
#![tactic(auto)]

mod asking;
mod board;
mod changes;
mod choice;
mod device_view;
mod fast_path;
mod list;
mod loners;
mod machine;
mod opening;
mod setting;
mod setting_laws;
mod space;
mod start_laws;
mod syscalls;
mod views;
mod window_laws;

pub use board::Board;
pub use board_model::{End, Level, Turned};
pub use changes::Change;
pub use device_view::DeviceView;
pub use loners::listed_loners_share_nothing;
pub use setting_laws::a_board_stands_for_each_state_that_is_kept_alike;
pub use start_laws::the_start_of_every_run_is_sane;
pub use views::TaskView;
pub use window_laws::instructions_within_a_window_are_turns;
