ghost use Rattle.seq_recount.specs.Rooms.{PassesFit, EndsFit, StopsFit, NextsFit, CommitsFit};

/// However the course of a schedule's items ends, the history has at most one entry for each eleven turns of the schedule, a `finish`
/// counted with all its rounds; and before each event that commits an entry it has less. So it is with the next
/// event made too.
pub fn histories_fit()
    ensures passes { PassesFit }
    ensures ends { EndsFit }
    ensures stops { StopsFit }
    ensures nexts { NextsFit }
    ensures commits { CommitsFit }
{}
