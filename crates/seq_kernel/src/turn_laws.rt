// Why a turn comes to its outcome, what it depends on, and what becomes of the halves.
ghost use Rattle.seq_kernel.specs.Causes.{TurnsHaveTheirCause};
ghost use Rattle.seq_kernel.specs.Depends.{ShownByTheArea, ShowsAllThatAgree, SeenInTheArea, TurnsDependOnTheArea, CallsDependOnTheArea, ClaimsDependOnWhatIsSeen};
ghost use Rattle.seq_kernel.specs.Halves.{TurnsKeepHalves, StrikesLeaveWhatIsShown};

/// A turn claims a segment, waits, or leads to a flush exactly where its call says so, or a trap, or a store for which the cache
/// has no room. Where it takes no step, it changes nothing, whatever the bounds.
pub fn turns_have_their_cause()
    ensures { TurnsHaveTheirCause }
{}

/// What a process shows and sees depends on the blocks of its own extent and of the segments that it holds, and on what flat
/// states have of it there.
pub fn shown_by_the_area()
    ensures blocks { ShownByTheArea }
    ensures states { ShowsAllThatAgree }
    ensures seen { SeenInTheArea }
{}

/// What a turn comes to depends on these blocks and on the lines of the process; a claim, on what the process sees alone.
pub fn turns_depend_on_the_area()
    ensures turns { TurnsDependOnTheArea }
    ensures calls { CallsDependOnTheArea }
    ensures claims { ClaimsDependOnWhatIsSeen }
{}

/// Halves of which none is struck stay equal, and the struck one stays the struck one. A strike at a half, where the other isn't
/// struck, leaves all that the process shows.
pub fn halves_stay()
    ensures turns { TurnsKeepHalves }
    ensures strikes { StrikesLeaveWhatIsShown }
{}
