// What a running process is ahead of the flat state, kept by each of its turns and by all that others do.
ghost use Rattle.seq_kernel.specs.Halves.{TurnsKeepHalves};
ghost use Rattle.seq_image.specs.Depends.{ShownByTheArea, ShowsAllThatAgree};
ghost use Rattle.seq_image.specs.Ahead.{TakenUpRunsAhead, StartRunsAhead, TurnsStayAhead, ClaimsAsk, GrantsStayAhead, OthersLeaveAhead, MoreInputLeavesAhead, AheadMakesImage, CommitsStayAhead, AreaMayShrink, RunsAgain, StrikesLeaveAhead};

/// What a process shows depends on the blocks of its area, and on what flat states have there.
pub fn shown_by_the_area()
    ensures blocks { ShownByTheArea }
    ensures states { ShowsAllThatAgree }
{}

/// A live process that is taken up from the image of a flat state runs ahead of it by no step. So does each at the start.
pub fn taken_up_runs_ahead()
    ensures image { TakenUpRunsAhead }
    ensures start { StartRunsAhead }
{}

/// A turn that takes a step, over first copies that hold the image, is one step further ahead.
pub fn a_turn_stays_ahead()
    ensures { TurnsStayAhead }
{}

/// So is a claim of a segment that nobody owns, once its lock is held; the segment is of the area from then on. The process asks
/// for it in the state that its steps led to, whatever the memories hold by then.
pub fn a_claim_stays_ahead()
    ensures asks { ClaimsAsk }
    ensures granted { GrantsStayAhead }
{}

/// Commits of others and more input leave a process ahead.
pub fn others_leave_a_process_ahead()
    ensures commits { OthersLeaveAhead }
    ensures input { MoreInputLeavesAhead }
{}

/// The passes of a flush write the image of the state that the steps led to. Once they are committed, the process is ahead by
/// none, in its area and in each smaller one that has what it holds, and may run again.
pub fn a_flush_commits_the_steps()
    ensures passes { AheadMakesImage }
    ensures committed { CommitsStayAhead }
    ensures smaller { AreaMayShrink }
    ensures again { RunsAgain }
{}

/// Halves of which none is struck stay equal, and a strike at a half, where the other isn't struck, leaves a process ahead.
pub fn halves_and_strikes()
    ensures turns { TurnsKeepHalves }
    ensures strikes { StrikesLeaveAhead }
{}
