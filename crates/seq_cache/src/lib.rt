//! The cache of a processor: the blocks that were changed since the last checkpoint.
#![tactic(auto)]

mod cache;
mod change;
mod laws;

pub use cache::{Cache, Full};
pub use change::Change;
pub use laws::{
    a_change_is_read_at_its_block_alone, a_change_is_seen_at_its_block_alone,
    a_change_keeps_the_order, a_change_of_a_new_block_adds_one, changes_are_read_first,
    reads_follow_first_copies, reads_stay_at_each_change, the_changed_blocks_are_those_of_the_list,
    what_is_admitted_fits,
};

#[cfg(test)]
mod tests;
