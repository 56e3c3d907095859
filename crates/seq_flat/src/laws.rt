//! Laws of every run. The functions do nothing: what they say is in their contracts.
ghost use Rattle.seq_flat.specs.Reached.{StartHasShape, StepsKeepShape, StartIsReached, StepsStayReached, RunsStayReached};
ghost use Rattle.seq_flat.specs.Laws.{InputKeepsSteps, InputKeepsRuns, StepsAddOutput, RunsAddOutput, RunsGoOn};

/// With more input, and none for a line that is closed, every step that could be made leads to the same state.
#[tactic(auto, using(crate::proofs::MoreInputs::input_keeps_steps))]
pub fn more_input_changes_no_step()
    ensures { InputKeepsSteps }
{}

/// With more input, and none for a line that is closed, every run that is defined leads to the same state.
#[tactic(auto, using(crate::proofs::MoreInputs::input_keeps_runs))]
pub fn more_input_changes_no_run()
    ensures { InputKeepsRuns }
{}

/// A step only adds to what each line has put out.
#[tactic(auto, using(crate::proofs::Outputs::steps_add_output))]
pub fn step_keeps_output()
    ensures { StepsAddOutput }
{}

/// A run only adds to what each line has put out.
#[tactic(auto, using(crate::proofs::Outputs::runs_add_output))]
pub fn run_keeps_output()
    ensures { RunsAddOutput }
{}

/// A run along two histories goes on where the first of them ends.
#[tactic(auto, using(crate::proofs::Runs::runs_go_on))]
pub fn runs_go_on()
    ensures { RunsGoOn }
{}

/// The start has the shape of the description's machine, and every step keeps it.
pub fn shape_stays()
    ensures start { StartHasShape }
    ensures steps { StepsKeepShape }
{}

/// Where the input of each line fits its journal, every state that a run reaches has the shape of the description's machine, and no
/// line has read more than a journal or put out more than a line may.
pub fn reached_states()
    ensures start { StartIsReached }
    ensures steps { StepsStayReached }
    ensures runs { RunsStayReached }
{}
