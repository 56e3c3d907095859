// All that the elements of a machine hold stays within its bounds.
ghost use Rattle.seq_stands.specs.Fit.{StartFit, EventsKeepFit};
ghost use Rattle.seq_stands.specs.FitStarts.{ImagesFit, MachinesStartFit, MachinesStartAtZero};
ghost use Rattle.seq_stands.specs.FitNumbers.{NumbersGrow};
ghost use Rattle.seq_stands.specs.FitGives.{FitGives};

/// A machine fits at its start, with an image that fits: so does that of every flat state that a run reaches, and so that of the
/// flat start, where no processor has stopped and nothing is committed.
pub fn machines_start_within_bounds()
    ensures start { StartFit }
    ensures images { ImagesFit }
    ensures machines { MachinesStartFit }
    ensures numbers { MachinesStartAtZero }
{}

/// Every event that may be made and ends no run keeps what fits.
pub fn events_keep_bounds()
    ensures { EventsKeepFit }
{}

/// No event raises an incarnation or a number of commits by more than one.
pub fn numbers_grow_by_one()
    ensures { NumbersGrow }
{}

/// What fits gives what turns of processors and of I/O elements need.
pub fn bounds_are_enough()
    ensures { FitGives }
{}
