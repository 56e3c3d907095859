//! Laws of flat runs: steps of different processes are independent of each other, since each concerns its own process, the
//! lines that this process owns and the segments of its area; histories and input grow.
#![tactic(auto)]

mod histories;
mod independence;

pub use histories::{
    byte_is_more, close_is_more, entry_counts, entry_goes_on, entry_is_last, more_is_more,
    no_entries, none_is_more,
};
pub use independence::{
    all_segments_are_enough, any_order_leads_to_one, area_grows, goes_ahead, input_keeps_ahead,
    lines_have_one_owner, locks_keep_apart, many_steps_add_output, many_steps_are_local,
    others_are_untouched, starts_ahead, steps_are_local, steps_commute, steps_use_what_is_held,
};
