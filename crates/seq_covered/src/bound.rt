//! A machine check comes only where the events aren't covered. The functions do nothing: what they say is in their contracts.
ghost use Rattle.seq_covered.specs.Bound.{RecoveriesTakeAHalf, NoneAwaitsWhenMended, ChecksAreUncovered};

/// Half of the turns that end an out are at least as many as the recoveries of all processes take.
pub fn recoveries_have_their_turns()
    ensures { RecoveriesTakeAHalf }
{}

/// Where the events are covered and no processor is out, no process awaits recovery.
pub fn none_awaits_when_mended()
    ensures { NoneAwaitsWhenMended }
{}

/// An event that may be made and is a machine check leaves events that aren't covered: a memory is out together with another memory
/// or with a processor.
pub fn checks_are_uncovered()
    ensures { ChecksAreUncovered }
{}
