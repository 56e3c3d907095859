// Laws of what is read of extents, each as the contract of a function.
ghost use Rattle.seq_layout.specs.Firsts.{BlockIsReadAlone, WordIsReadAlone, StateIsReadBy, FailureIsReadBy, WrittenElsewhere};

/// After a copy of a block is changed, the block is read where that copy is the first one, and all else is read as before.
pub fn block_is_read_alone()
    ensures { BlockIsReadAlone }
{}

/// After a copy of a word is changed, the word is read where that copy is the first one, and all else is read as before.
pub fn word_is_read_alone()
    ensures { WordIsReadAlone }
{}

/// After the state of a memory is changed, extents are read from their primaries on it where it is in service, and from their
/// shadows where it isn't. The others are read from the copies from which they were, and all where it serves as before.
pub fn state_is_read_by()
    ensures { StateIsReadBy }
{}

/// After a memory fails, the extents whose primary it kept are read from their shadows, and others as before.
pub fn failure_is_read_by()
    ensures { FailureIsReadBy }
{}

/// A turn that writes one copy of an extent leaves what is read of every other extent.
pub fn written_elsewhere()
    ensures { WrittenElsewhere }
{}
