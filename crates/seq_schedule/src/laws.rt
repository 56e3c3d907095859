ghost use Rattle.seq_schedule.specs.Faultless.{FaultlessTexts};
ghost use Rattle.seq_schedule.specs.Laws.{ItemsAreThere, TurnsAreCounted, GateKeepsTexts};

/// The law of the items: all that the items of a faultless schedule name is in the description.
pub fn items_are_there()
    ensures { ItemsAreThere }
{}

/// The law of the turns: those that are counted are the turns among a script's events.
pub fn turns_are_counted()
    ensures { TurnsAreCounted }
{}

/// The law of the gate: what is faultless behind it is faultless without it, and has the same items.
pub fn gate_keeps_texts()
    ensures { GateKeepsTexts }
{}

/// The law of faultless texts: their items violate no rule, one behind the other, the machine makes all of them, and there are no
/// more than lines may be.
pub fn texts_are_faultless()
    ensures { FaultlessTexts }
{}
