//! Laws of steps of several processes. The functions do nothing: what they say is in their contracts.
ghost use Rattle.seq_runs.specs.Local.{StepsAreLocal, StepsUseWhatIsHeld};
ghost use Rattle.seq_runs.specs.Ahead.{ManyStepsAreLocal, AllSegmentsAreEnough, StartsAhead, GoesAhead, AreaGrows, InputKeepsAhead, ManyStepsAddOutput};
ghost use Rattle.seq_runs.specs.Orders.{LinesHaveOneOwner, LocksKeepApart, OthersAreUntouched, StepsCommute, AnyOrderLeadsToOne};

/// A step concerns its own process, the lines that this process owns and the segments of its area, and nothing else.
pub fn steps_are_local()
    ensures { StepsAreLocal }
{}

/// A step uses what its process held before it, and what it holds after it.
pub fn steps_use_what_is_held()
    ensures { StepsUseWhatIsHeld }
{}

/// Many steps of one process in a row concern nothing else either.
pub fn many_steps_are_local()
    ensures { ManyStepsAreLocal }
{}

/// Any steps are ahead in the area of all segments.
pub fn all_segments_are_enough()
    ensures { AllSegmentsAreEnough }
{}

/// A process that has taken no step is ahead by none.
pub fn starts_ahead()
    ensures { StartsAhead }
{}

/// A process that is ahead and takes one more step is ahead by one more.
pub fn goes_ahead()
    ensures { GoesAhead }
{}

/// A process that is ahead is so in a wider area.
pub fn area_grows()
    ensures { AreaGrows }
{}

/// A process that is ahead stays so with more input.
pub fn input_keeps_ahead()
    ensures { InputKeepsAhead }
{}

/// Many steps only add to what each line has put out.
#[tactic(auto, using(crate::proofs::Ahead::many_steps_add_output))]
pub fn many_steps_add_output()
    ensures { ManyStepsAddOutput }
{}

/// The lines of a description have one owner.
#[tactic(auto, using(crate::proofs::Owners::lines_have_one_owner))]
pub fn lines_have_one_owner()
    ensures { LinesHaveOneOwner }
{}

/// Locks keep the areas of processes apart.
#[tactic(auto, using(crate::proofs::Orders::locks_keep_apart))]
pub fn locks_keep_apart()
    ensures { LocksKeepApart }
{}

/// What a process does in its area leaves every other process with an area apart as it was.
#[tactic(auto, using(crate::proofs::Orders::others_are_untouched))]
pub fn others_are_untouched()
    ensures { OthersAreUntouched }
{}

/// The steps of two processes with areas apart commute.
#[tactic(auto, using(crate::proofs::Orders::steps_commute))]
pub fn steps_commute()
    ensures { StepsCommute }
{}

/// The steps of any number of processes with areas apart can be taken in any order, and every order leads to one state.
#[tactic(auto, using(crate::proofs::AnyOrder::any_order_leads_to_one))]
pub fn any_order_leads_to_one()
    ensures { AnyOrderLeadsToOne }
{}
