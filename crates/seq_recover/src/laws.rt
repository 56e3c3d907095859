// What the states of a recovery know survives what other elements write.
ghost use Rattle.seq_recover.specs.Survive.{CopyingSurvives, LocksSurvives, ClosingSurvives, RecoveredSurvives};

/// What each state of a recovery knows survives each write to a block outside the area of its process, and to a word that isn't
/// its status word and that names it neither before nor after.
pub fn states_survive()
    ensures copying { CopyingSurvives }
    ensures locks { LocksSurvives }
    ensures closing { ClosingSurvives }
    ensures recovered { RecoveredSurvives }
{}
