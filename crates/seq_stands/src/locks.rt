// What stands of the lock words is kept.
ghost use Rattle.seq_stands.specs.LockClaims.{FreeIsUntaken};
ghost use Rattle.seq_stands.specs.LockOwners.{StartHasLocks, EventsKeepLocks, RunsKeepLocks};

/// At the start every lock is free, and nobody owns a segment.
pub fn start_has_locks()
    ensures { StartHasLocks }
{}

/// Every event that may be made and doesn't end the run keeps what stands of the lock words.
pub fn events_keep_locks()
    ensures { EventsKeepLocks }
{}

/// So does every list of such events.
pub fn runs_keep_locks()
    ensures { RunsKeepLocks }
{}

/// The claim of a process that a processor finds free isn't refused at the primary of its status word.
pub fn free_is_untaken()
    ensures { FreeIsUntaken }
{}
