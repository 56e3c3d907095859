//! What the texts of a listing say, over all words and statements, each law as the contract of a function.
ghost use Rattle.seq_list.specs.Laws.{WordsAreSaid, OperandsAreRead};

/// A word that is printed as an instruction is the only word of that instruction.
pub fn words_are_said()
    ensures { WordsAreSaid }
{}

/// The printed operands of an instruction are read as its operands.
pub fn operands_are_read()
    ensures { OperandsAreRead }
{}
