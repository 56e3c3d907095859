use seq_mnemonics::{BranchName, Statement};

/// What a line's word and operands say, where they are right.
#[derive(Clone, Copy)]
pub enum Item {
    /// An instruction whose operands say all.
    Instruction(Statement),
    /// A branch to the label that is its last operand.
    Branch { name: BranchName, rs1: u8, rs2: u8 },
    /// A `jal` to the label that is its last operand.
    Jump { rd: u8 },
    /// Four bytes, the lowest first.
    Word(u32),
    /// One byte.
    Byte(u8),
    /// So many zero bytes.
    Space(u64),
    /// Zero bytes up to a multiple of four.
    Align,
    /// The entry is the label that is the operand.
    Entry,
    /// The private size. A number below 0 stands here as 0.
    Size(u64),
}

/// What a line's word and operands say.
#[derive(Clone, Copy)]
pub enum Said {
    /// Nothing: there is no word.
    Nothing,
    /// The word is unknown.
    UnknownWord,
    /// The operands aren't of the word's form.
    BadOperands,
    /// A value is out of its range.
    OutOfRange,
    Says(Item),
}
