//! The image of a flat state: what the blocks of its processes and segments hold in the memories, and what follows where they
//! do. A running process is some steps ahead of it, and its flush commits them.
#![tactic(auto)]

mod ahead;
mod begun;
mod images;

pub use ahead::{
    a_claim_stays_ahead, a_flush_commits_the_steps, a_turn_stays_ahead,
    others_leave_a_process_ahead, shown_by_the_area, taken_up_runs_ahead,
};
pub use begun::{start_block, start_context};
pub use images::{
    a_flush_makes_the_image, alike_is_one_view, areas_and_copies, image_is_of_the_area,
    image_is_taken_up, image_is_whole, own_blocks_have_places, start_has_image, units_lie_over,
};
