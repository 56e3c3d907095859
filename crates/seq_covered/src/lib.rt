//! What the covering of events promises: a machine check comes only where a memory was out together with another memory or with a
//! processor.
#![tactic(auto)]

mod bound;
mod downs;
mod memories;

pub use bound::{checks_are_uncovered, none_awaits_when_mended, recoveries_have_their_turns};
pub use downs::who_is_down_is_out;
pub use memories::{enough_turns_are_needed, memories_serve_when_covered, service_lasts};
