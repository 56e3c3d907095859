// What is said of copies in service survives what happens elsewhere.
ghost use Rattle.seq_layout.specs.Held.{HeldWordsSurvive, HeldBlocksSurvive};

/// What a copy holds, if it is in service, survives each write to another block and another word and to a copy that isn't in
/// service, the failure of a memory, and each change of a memory's state that puts nothing in service.
pub fn held_copies_survive()
    ensures words { HeldWordsSurvive }
    ensures blocks { HeldBlocksSurvive }
{}
