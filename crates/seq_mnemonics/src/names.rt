// The names of instructions, by the form of their operands.

/// The names whose operands are `rd, rs1, rs2`.
#[derive(Clone, Copy, PartialEq, Eq, Debug)]
pub enum RegisterName {
    Add,
    Sub,
    Sll,
    Slt,
    Sltu,
    Xor,
    Srl,
    Sra,
    Or,
    And,
    Mul,
    Mulh,
    Mulhsu,
    Mulhu,
    Div,
    Divu,
    Rem,
    Remu,
}

/// The names whose operands are `rd, rs1, imm`.
#[derive(Clone, Copy, PartialEq, Eq, Debug)]
pub enum ImmediateName {
    Addi,
    Slti,
    Sltiu,
    Xori,
    Ori,
    Andi,
}

/// The names whose operands are `rd, rs1, amount`.
#[derive(Clone, Copy, PartialEq, Eq, Debug)]
pub enum ShiftName {
    Slli,
    Srli,
    Srai,
}

/// The names whose operands are `rd, imm(rs1)`.
#[derive(Clone, Copy, PartialEq, Eq, Debug)]
pub enum IndirectName {
    Lb,
    Lh,
    Lw,
    Lbu,
    Lhu,
    Jalr,
}

/// The names whose operands are `rs2, imm(rs1)`.
#[derive(Clone, Copy, PartialEq, Eq, Debug)]
pub enum StoreName {
    Sb,
    Sh,
    Sw,
}

/// The names whose operands are `rs1, rs2, target`.
#[derive(Clone, Copy, PartialEq, Eq, Debug)]
pub enum BranchName {
    Beq,
    Bne,
    Blt,
    Bge,
    Bltu,
    Bgeu,
}

/// The names whose operands are `rd, imm`.
#[derive(Clone, Copy, PartialEq, Eq, Debug)]
pub enum UpperName {
    Lui,
    Auipc,
}

/// The names that have no operands.
#[derive(Clone, Copy, PartialEq, Eq, Debug)]
pub enum PlainName {
    Fence,
    Ecall,
    Ebreak,
}

/// The name of an instruction. The variant is the form of its operands; `Jump` is `jal`, whose operands are `rd, target`.
#[derive(Clone, Copy, PartialEq, Eq, Debug)]
pub enum Mnemonic {
    Registers(RegisterName),
    Immediate(ImmediateName),
    Shift(ShiftName),
    Indirect(IndirectName),
    Store(StoreName),
    Branch(BranchName),
    Jump,
    Upper(UpperName),
    Plain(PlainName),
}
