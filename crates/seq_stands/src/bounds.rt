// Hands, caches, lines and ports stay within their bounds.
ghost use Rattle.seq_stands.specs.FitContexts.{ContextsServe};
ghost use Rattle.seq_stands.specs.FitLines.{LinesAreReadable};
ghost use Rattle.seq_stands.specs.FitStanding.{StartFits, EventsKeepFits, RunsKeepFits, IncarnationsGrow};

/// They are within their bounds at the start.
pub fn start_fits()
    ensures { StartFits }
{}

/// Every event that may be made keeps them within their bounds, where contexts are within theirs. An incarnation grows by one
/// at most.
pub fn events_keep_fits()
    ensures bounds { EventsKeepFits }
    ensures grow { IncarnationsGrow }
{}

/// So does every list of such events that doesn't end the run.
pub fn runs_keep_fits()
    ensures { RunsKeepFits }
{}

/// A step of a process may read the memories then.
pub fn lines_are_readable()
    ensures { LinesAreReadable }
{}

/// Where the contexts at the first copies are within their bounds, so is all that an event takes from the blocks.
pub fn contexts_serve()
    ensures { ContextsServe }
{}
