//! Laws of a settled machine. The functions do nothing: what they say is in their contracts.
ghost use Rattle.seq_lines.specs.Going.{GoesOnWhereEnabled, QuietByProcess};
ghost use Rattle.seq_lines.specs.Settled.{CalmIsSteady, RunsHaveHolders, SettledIsDone};

/// A process that nobody flushes or recovers is steady.
pub fn calm_is_steady()
    ensures { CalmIsSteady }
{}

/// After every run, who holds a segment is a process of the description.
pub fn runs_have_holders()
    ensures { RunsHaveHolders }
{}

/// Where a machine is settled and its first copies hold the committed state, no process can take a step from that state with
/// what has arrived, and each line that isn't hung up has sent its whole output.
pub fn settled_is_done()
    ensures { SettledIsDone }
{}

/// A process can take a step from the state that blocks hold exactly where it lives and its next instruction isn't a kernel call
/// that waits. That is seen from its context, the segments that it owns, and the counts of its lines. Where no process of the
/// machine can, none can.
pub fn processes_go_on()
    ensures each { GoesOnWhereEnabled }
    ensures all { QuietByProcess }
{}
