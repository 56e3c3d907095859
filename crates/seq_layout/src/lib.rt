//! Extents, and where their blocks and words stand on the memories; the context of a process in eight blocks.
#![tactic(auto)]

mod context;
mod context_laws;
mod copies;
mod described;
mod extents;
mod first_laws;
mod laws;
mod layout;
mod starts;
mod survives;
mod units;

pub use context::{
    Context, blocks_to_context, context_read_back, context_to_blocks, is_context, one_context,
};
pub use context_laws::{contexts_are_read, contexts_stay_inside};
pub use copies::{
    all_are_served, block_changes_alone, memory_fails_alone, state_changes_alone,
    word_changes_alone,
};
pub use extents::Extent;
pub use first_laws::{
    block_is_read_alone, failure_is_read_by, state_is_read_by, word_is_read_alone,
    written_elsewhere,
};
pub use laws::{
    extents_have_their_parts, line_has_its_owner, owners_are_alone, places_are_apart,
    units_are_places,
};
pub use layout::Layout;
pub use survives::held_copies_survive;
pub use units::{Unit, WordAt};
