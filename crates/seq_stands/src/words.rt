// What stands of the machine is kept.
ghost use Rattle.seq_stands.specs.Standing.{EventsKeep, RunsKeep, StartStands};
ghost use Rattle.seq_stands.specs.Plain.{NoTwoRunOne, NamesAreNotAhead, OneOutNoneAwaits};

/// It stands at the start.
pub fn start_stands()
    ensures { StartStands }
{}

/// Every event that may be made and doesn't end the run keeps what stands of status words, hands and the memories' service.
pub fn events_keep_what_stands()
    ensures { EventsKeep }
{}

/// So does every list of such events.
pub fn runs_keep_what_stands()
    ensures { RunsKeep }
{}

/// What stands of the words in plain terms: no two processors run one process; a ruling word is in its format, and names no
/// incarnation above the present one; while a memory isn't in service no process awaits recovery.
pub fn what_stands_of_the_words()
    ensures alone { NoTwoRunOne }
    ensures names { NamesAreNotAhead }
    ensures out { OneOutNoneAwaits }
{}
