//! One law over all events. The functions do nothing: what they say is in their contracts.
ghost use Rattle.seq_invariant.specs.Gives.{CommittedIsFlatRun, SentIsRight, SentIsRightOn, RunsSendRight, SettledIsDone};
ghost use Rattle.seq_invariant.specs.Holds.{StartHolds, EventsKeepAll, RunsKeepAll, RunsHold};
ghost use Rattle.seq_invariant.specs.Orders.{StepsInAnyOrder};
ghost use Rattle.seq_invariant.specs.Within.{EventsKeepInTime, StartHoldsWithin, EventsKeepWithin, RunsKeepWithin, RunsHoldWithin, RunsFit};

/// At the start all stands: words, locks, bounds, blocks and lines.
pub fn all_holds_at_start()
    ensures { StartHolds }
{}

/// Every event that may be made and doesn't end the run keeps all that stands: turns of processors and I/O elements, input,
/// failures, repairs, strikes, recoveries and the copying of a memory.
pub fn events_keep_all()
    ensures { EventsKeepAll }
{}

/// So all stands after every list of such events, from the start too.
pub fn runs_hold()
    ensures on { RunsKeepAll }
    ensures start { RunsHold }
{}

/// Where all stands, what is committed is the flat state along the history.
pub fn committed_is_flat_run()
    ensures { CommittedIsFlatRun }
{}

/// The bytes sent are right where all stands, and after one event more, also where it ends the run; so they are after every list
/// of events from the start.
pub fn sent_is_right()
    ensures now { SentIsRight }
    ensures on { SentIsRightOn }
    ensures runs { RunsSendRight }
{}

/// Where all stands and the machine is settled, no process can go on with what has arrived, and all output is sent.
pub fn settled_is_done()
    ensures { SettledIsDone }
{}

/// The uncommitted steps of any processes, taken in any order, lead on from the history, and to one state.
pub fn steps_in_any_order()
    ensures { StepsInAnyOrder }
{}

/// Every event that may be made leaves status words, on both copies, with the format and with no incarnation above the present one.
pub fn status_words_stay_in_time()
    ensures { EventsKeepInTime }
{}

/// All that an element holds stays within its bounds, together with all that stands: at the start, and after every event that may
/// be made and doesn't end the run, failures, repairs, strikes, recoveries and the copying of a memory included. So it does after
/// every list of such events, from the start too.
pub fn runs_stay_within_bounds()
    ensures start { StartHoldsWithin }
    ensures events { EventsKeepWithin }
    ensures on { RunsKeepWithin }
    ensures runs { RunsHoldWithin }
    ensures fit { RunsFit }
{}
