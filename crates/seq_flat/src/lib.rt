//! The flat machine: what the processes of a description do when nothing fails. Each has its registers and its private
//! bytes, segments are shared, and an order of steps is all that a run is given.
#![tactic(auto)]

mod calls;
mod inputs;
mod laws;
mod machine;
mod memory;
mod state;
mod steps;

pub use inputs::{Inputs, LineInput};
pub use laws::{
    more_input_changes_no_run, more_input_changes_no_step, reached_states, run_keeps_output,
    runs_go_on, shape_stays, step_keeps_output,
};
pub use machine::Flat;
pub use state::{End, FlatState, LineState, ProcessState, Rights, SegmentState, StepError, Waits};
