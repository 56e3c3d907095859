// What a turn of a processor depends on, and what it comes to.
ghost use Rattle.seq_machine.specs.Local.{OperationsAreLocal, OperationsMoveOrStop, LocalTurnsCopyNothing};

/// A turn of a processor that is amid an operation depends on what the memories hold, and on its own cache and incarnation.
#[tactic(auto, using(crate::proofs::Local::operations_are_local))]
pub fn operations_are_local()
    ensures { OperationsAreLocal }
{}

/// It moves the processor, or stops it.
#[tactic(auto, using(crate::proofs::Local::operations_move_or_stop))]
pub fn operations_move_or_stop()
    ensures { OperationsMoveOrStop }
{}

/// A turn of a processor by what it reads copies no memory.
#[tactic(auto, using(crate::proofs::Tied::local_own))]
pub fn local_turns_copy_nothing()
    ensures { LocalTurnsCopyNothing }
{}
