//! Laws of histories that grow, and of input that grows. The functions do nothing: what they say is in their contracts.
ghost use Rattle.seq_runs.specs.Histories.{EntryGoesOn, EntryIsLast, NoEntries, EntryCounts, ByteIsMore, CloseIsMore, NoneIsMore, MoreIsMore};

/// A run goes on by the steps of one more entry.
#[tactic(auto, using(crate::proofs::Growth::entry_goes_on))]
pub fn entry_goes_on()
    ensures { EntryGoesOn }
{}

/// A run with one more entry has gone on by it.
#[tactic(auto, using(crate::proofs::Growth::entry_is_last))]
pub fn entry_is_last()
    ensures { EntryIsLast }
{}

/// The empty history names nobody.
#[tactic(auto, using(crate::proofs::Growth::no_entries))]
pub fn no_entries()
    ensures { NoEntries }
{}

/// One more entry counts for its process alone.
#[tactic(auto, using(crate::proofs::Growth::entry_counts))]
pub fn entry_counts()
    ensures { EntryCounts }
{}

/// A byte that arrives at a line that isn't closed is more input.
#[tactic(auto, using(crate::proofs::Growth::byte_is_more))]
pub fn byte_is_more()
    ensures { ByteIsMore }
{}

/// The end of a line that isn't closed is more input.
#[tactic(auto, using(crate::proofs::Growth::close_is_more))]
pub fn close_is_more()
    ensures { CloseIsMore }
{}

/// No input is more input.
#[tactic(auto, using(crate::proofs::Growth::none_is_more))]
pub fn none_is_more()
    ensures { NoneIsMore }
{}

/// More than more input is more input.
#[tactic(auto, using(crate::proofs::Growth::more_is_more))]
pub fn more_is_more()
    ensures { MoreIsMore }
{}
