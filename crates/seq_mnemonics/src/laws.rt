//! Laws of the table, over all names, instructions and registers, each as the contract of a function.
ghost use Rattle.seq_mnemonics.specs.Laws.{NamesAreExact, StatementsAreExact, RegistersAreExact, PrintedRegistersAreRead, RangesAreExact, PrintedNumbersAreRead, PrintedTextsArePlain};

/// A word is a name exactly where it is the text of one, and of that one alone; so no two names have one text.
pub fn names_are_exact()
    ensures { NamesAreExact }
{}

/// An instruction's statement stands for that instruction and for no other, and every statement stands for one.
pub fn statements_are_exact()
    ensures { StatementsAreExact }
{}

/// A word names a register exactly where it is one of that register's names, and no word names two.
pub fn registers_are_exact()
    ensures { RegistersAreExact }
{}

/// The printed name of a register names it.
pub fn printed_registers_are_read()
    ensures { PrintedRegistersAreRead }
{}

/// Each operand of a statement is in its range exactly where its instruction is in range, which is where it has a word.
pub fn ranges_are_exact()
    ensures { RangesAreExact }
{}

/// A printed number is read as that number.
pub fn printed_numbers_are_read()
    ensures { PrintedNumbersAreRead }
{}

/// The printed texts of names, registers and numbers hold none of the bytes that separate the parts of a line.
pub fn printed_texts_are_plain()
    ensures { PrintedTextsArePlain }
{}
