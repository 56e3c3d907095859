// Each commit has eleven turns of its processor to itself, and each operation ends within its turns.
ghost use Rattle.seq_stands.specs.Counts.{TurnsGoOnByOne, OthersStay, OnlyTurnsGoOn};
ghost use Rattle.seq_stands.specs.Counts.{CommitsComeLate, HistoriesGrowByCommits, CommitsAreCounted};
ghost use Rattle.seq_stands.specs.CountLeft.{LeftIsFew, EventsLeaveFew, OwnTurnsLower, OthersRaiseNone, LeftRunsOut, CopyingBeginsNone};

/// A processor's turn brings its flush nearer to the commit by one turn at most. It leaves every other processor where it is, and
/// no other event brings one nearer.
pub fn turns_go_on()
    ensures own { TurnsGoOnByOne }
    ensures others { OthersStay }
    ensures events { OnlyTurnsGoOn }
{}

/// A processor commits after ten turns of its flush at least, and begins anew. The history grows by commits alone, by one entry for
/// each.
pub fn commits_come_late()
    ensures commits { CommitsComeLate }
    ensures history { HistoriesGrowByCommits }
{}

/// After every list of events from the start, eleven times the length of the history and the turns by which the processors are on
/// their way to a commit are at most as many as the turns that processors took.
pub fn commits_have_their_turns()
    ensures { CommitsAreCounted }
{}

/// A processor of a machine that fits has turns left exactly amid an operation: at most as many as the machine has blocks, two for
/// each change that a cache may hold, two for each segment, and 32. So it is after every event that may be made: what begins an
/// operation leaves at most so many.
pub fn few_turns_are_left()
    ensures now { LeftIsFew }
    ensures events { EventsLeaveFew }
{}

/// Each turn of a processor amid an operation, of a machine that fits, leaves it fewer turns. No other event leaves it more: no turn
/// of another element, no input, no close, failure, repair, strike or hangup, whatever the machine. So while it begins no operation
/// its turns run out; and while a memory is to be copied none begins.
pub fn turns_left_fall()
    ensures own { OwnTurnsLower }
    ensures others { OthersRaiseNone }
    ensures runs_out { LeftRunsOut }
    ensures copying { CopyingBeginsNone }
{}
