// A saved context is inside the format.
ghost use Rattle.seq_process.specs.Contexts.{SavedIsInside};

/// A context that is saved is inside the format of its blocks, with registers of which x0 is 0 and pc is a multiple of four.
pub fn saved_is_inside()
    ensures { SavedIsInside }
{}
