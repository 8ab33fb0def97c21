//! What is asked of each run that some arrivals may have (docs/EXPLORE.md, Question and
//! Exploration).
#![tactic(auto)]

mod answer;
mod found;
mod given;
mod judging;
mod laws;
mod laying;
mod looking;
mod parties;
mod playing;
mod position;
mod refusing;
mod search;
mod searching;
mod seen;
mod shown;
mod standing;
mod verdict;
mod watch;
mod watching;
mod ways;

pub use laws::{
    a_clean_state_is_clean_for_each_state_of_its_bytes, each_schedule_has_one_course,
    no_arrival_leaves_the_run_as_it_is, questions_that_are_read_are_fine, schedules_are_counted,
    what_is_kept_is_enough, what_is_over_decides_nothing_more, what_is_to_come_decides_nothing_yet,
};
pub use refusing::refusal;
pub use shown::{is_so_of_byte, is_so_of_task};
pub use verdict::a_verdict_decides_as_the_run_does;
