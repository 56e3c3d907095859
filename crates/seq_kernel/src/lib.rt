//! The kernel on the hardware: one turn of a running process, and every kernel call.
#![tactic(auto)]

mod calls;
mod laws;
mod outbox;
mod outcomes;
mod steps;
mod turn_laws;
mod view;

pub use calls::call;
pub use laws::{
    grants_are_flat, grants_keep_bounds, own_blocks_are_beside, steps_are_flat,
    steps_change_bytes_or_owner, steps_keep_bounds, steps_keep_cache, turns_are_counted,
};
pub use outcomes::{Cause, Note, Outcome, Reason};
pub use steps::{grant, step, step_plainly};
pub use turn_laws::{
    halves_stay, shown_by_the_area, turns_depend_on_the_area, turns_have_their_cause,
};
pub use view::View;
