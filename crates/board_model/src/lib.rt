//! The model of the board: one turn, a run of turns, and the laws that hold of them. Nothing runs
//! here.
#![tactic(auto)]

mod cuts;
mod laws;
mod lines;
mod loners;
mod outcomes;
mod scripts;
mod two_runs;

pub use cuts::{generations_decide_what_is_seen, runs_go_on_from_a_cut};
pub use laws::{
    a_closed_call_moves_no_byte, an_outdated_id_touches_no_memory,
    bytes_for_devices_keep_the_choice, each_byte_that_a_run_changes_lies_on_a_ground,
    faults_change_nothing_else, faults_of_instructions_are_known,
    moves_change_memory_and_devices_alone, runs_are_turns_one_after_the_other, runs_keep_a_ledger,
    runs_keep_counts_in_order, turns_are_chains_of_steps, turns_keep_counts_in_order,
    turns_keep_sane, turns_left_end_no_run, turns_reach_devices_where_they_may,
    turns_stand_on_their_grounds, turns_with_dead_ids_change_their_caller_alone,
    turns_without_events_begin_at_once, turns_without_notes_keep_the_choice,
    who_is_chosen_is_ready,
};
pub use lines::{a_byte_for_a_device_posts_at_once, enabled_lines_ask_for_nothing};
pub use loners::{
    births_begin_alike, loners_decide_their_own_turns, loners_go_their_own_way,
    others_leave_loners_alone, who_is_alone_is_a_loner,
};
pub use outcomes::{End, Level, Turned};
pub use scripts::{
    an_arrival_goes_on_from_before_it, arrivals_decide_nothing_before_and_after,
    arrivals_that_meet_end_alike, what_happens_decides,
};
pub use two_runs::{
    a_turn_depends_on_what_it_reads, generations_decide, instructions_are_noted_beside,
    what_is_noted_decides_nothing,
};
