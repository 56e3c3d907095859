ghost use Rattle.seq_course.specs.Troubles.{EventsAgree, ScriptsAgree, TroublesAreAllowed};

/// What a schedule's failures, repairs and strikes leave of a machine is kept by every event, and a failure, a repair or a strike
/// that violates no rule of the schedule may be made of it.
pub fn troubles_are_allowed()
    ensures events { EventsAgree }
    ensures scripts { ScriptsAgree }
    ensures allowed { TroublesAreAllowed }
{}
