// What the states know, what a pass leaves, and how many turns are taken.
ghost use Rattle.seq_flush.specs.Laws.{StandingSurvives, MarkSurvives, FirstSurvives, SecondSurvives, CloseSurvives, ClosedSurvives, MarkTurnsKnow, FirstTurnsKnow, SecondTurnsKnow, CloseTurnsKnow, TurnsAreCounted, FirstWritesWhatIsLeft, SecondWritesWhatIsLeft, NothingIsLeft, AllWrittenStand, UnitsAreApart, RestIsApart, WritingIsOneLayer};

/// The turns of each stage take what it knows of the copies in service to what the next state knows: which units stand, and
/// what the status word is on either copy.
pub fn turns_know()
    ensures mark { MarkTurnsKnow }
    ensures first { FirstTurnsKnow }
    ensures second { SecondTurnsKnow }
    ensures close { CloseTurnsKnow }
{}

/// What each state knows survives each write to a block that is none of its units, to another word than its status word and to
/// a copy that isn't in service, the failure of a memory, and each change of a memory's state that puts nothing in service.
pub fn states_survive()
    ensures units { StandingSurvives }
    ensures mark { MarkSurvives }
    ensures first { FirstSurvives }
    ensures second { SecondSurvives }
    ensures close { CloseSurvives }
    ensures closed { ClosedSurvives }
{}

/// Each turn of Mark and First is one more that is taken, and at the commit they are ten at least.
pub fn turns_are_counted()
    ensures { TurnsAreCounted }
{}

/// The turns of a pass write all units, one after the other, and then these stand: what is left before a unit's turn is
/// written with that unit, and what is left after it without, and both give the same copies. What a pass leaves is one layer
/// over what the copies in service held, and nothing else changes.
pub fn writing_what_is_left()
    ensures first { FirstWritesWhatIsLeft }
    ensures second { SecondWritesWhatIsLeft }
    ensures nothing { NothingIsLeft }
    ensures stand { AllWrittenStand }
    ensures apart { UnitsAreApart }
    ensures rest { RestIsApart }
    ensures layer { WritingIsOneLayer }
{}
