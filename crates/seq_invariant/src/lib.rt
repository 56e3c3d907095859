//! One law over all events: what stands of a machine, its blocks among it, stands after every event that doesn't end the run.
//! Each part of it in plain words, and what follows for runs.
#![tactic(auto)]

mod blocks;
mod laws;
mod parts;
mod together;

pub use blocks::{
    acquires_keep, claims_keep, copying_keeps, failures_keep_blocks, flushes_keep, free_areas_hold,
    hands_are_apart, hands_stay, inputs_and_strikes_keep, moves_keep_blocks, releases_keep,
    steps_keep,
};
pub use laws::{
    all_holds_at_start, committed_is_flat_run, events_keep_all, runs_hold, runs_stay_within_bounds,
    sent_is_right, settled_is_done, status_words_stay_in_time, steps_in_any_order,
};
pub use parts::{
    first_pass_holds, flush_areas_agree, left_areas_hold, lines_count, locks_name, memories_serve,
    none_is_left, resting_areas_hold, running_is_ahead, runs_show, second_pass_holds,
    status_words_have_format, status_words_name,
};
pub use together::{
    blocks_give_lines, flushes_are_to_commit, history_runs_on, inside_stands_on, io_keeps_blocks,
    lines_stand_on, steady_machines_hold,
};
