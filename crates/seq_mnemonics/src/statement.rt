// Instructions as a source has them.
ghost use Rattle.std.specs.Prelude.{◌≡◌, IfSome};
ghost use Rattle.seq_isa.specs.InRange.{InRange};
ghost use Rattle.seq_mnemonics.specs.Ranges.{OperandsFit};
ghost use Rattle.seq_mnemonics.specs.Statements.{register_instruction, immediate_instruction, shift_instruction, indirect_instruction, store_instruction, branch_instruction, upper_instruction, plain_instruction, instruction_of, name_of, statement_of};

use crate::{
    BranchName, ImmediateName, IndirectName, Mnemonic, PlainName, RegisterName, ShiftName,
    StoreName, UpperName,
};
use seq_isa::Instr;

/// The word of `fence`.
const FENCE: u32 = 0x0ff0_000f;

/// An instruction as a source has it: a name with its operands. The fields are those of `Instr`; `offset` is what a target
/// says, measured from the instruction.
#[derive(Clone, Copy, PartialEq, Eq, Debug)]
pub enum Statement {
    Registers {
        name: RegisterName,
        rd: u8,
        rs1: u8,
        rs2: u8,
    },
    Immediate {
        name: ImmediateName,
        rd: u8,
        rs1: u8,
        imm: i32,
    },
    Shift {
        name: ShiftName,
        rd: u8,
        rs1: u8,
        amount: u8,
    },
    Indirect {
        name: IndirectName,
        rd: u8,
        rs1: u8,
        imm: i32,
    },
    Store {
        name: StoreName,
        rs1: u8,
        rs2: u8,
        imm: i32,
    },
    Branch {
        name: BranchName,
        rs1: u8,
        rs2: u8,
        offset: i32,
    },
    Jump {
        rd: u8,
        offset: i32,
    },
    Upper {
        name: UpperName,
        rd: u8,
        imm: u32,
    },
    Plain(PlainName),
}

fn register_instruction(name: RegisterName, rd: u8, rs1: u8, rs2: u8) -> Instr
    ensures { result ≡ register_instruction name rd rs1 rs2 }
{
    match name {
        RegisterName::Add => Instr::Add { rd, rs1, rs2 },
        RegisterName::Sub => Instr::Sub { rd, rs1, rs2 },
        RegisterName::Sll => Instr::Sll { rd, rs1, rs2 },
        RegisterName::Slt => Instr::Slt { rd, rs1, rs2 },
        RegisterName::Sltu => Instr::Sltu { rd, rs1, rs2 },
        RegisterName::Xor => Instr::Xor { rd, rs1, rs2 },
        RegisterName::Srl => Instr::Srl { rd, rs1, rs2 },
        RegisterName::Sra => Instr::Sra { rd, rs1, rs2 },
        RegisterName::Or => Instr::Or { rd, rs1, rs2 },
        RegisterName::And => Instr::And { rd, rs1, rs2 },
        RegisterName::Mul => Instr::Mul { rd, rs1, rs2 },
        RegisterName::Mulh => Instr::Mulh { rd, rs1, rs2 },
        RegisterName::Mulhsu => Instr::Mulhsu { rd, rs1, rs2 },
        RegisterName::Mulhu => Instr::Mulhu { rd, rs1, rs2 },
        RegisterName::Div => Instr::Div { rd, rs1, rs2 },
        RegisterName::Divu => Instr::Divu { rd, rs1, rs2 },
        RegisterName::Rem => Instr::Rem { rd, rs1, rs2 },
        RegisterName::Remu => Instr::Remu { rd, rs1, rs2 },
    }
}

fn immediate_instruction(name: ImmediateName, rd: u8, rs1: u8, imm: i32) -> Instr
    ensures { result ≡ immediate_instruction name rd rs1 imm }
{
    match name {
        ImmediateName::Addi => Instr::Addi { rd, rs1, imm },
        ImmediateName::Slti => Instr::Slti { rd, rs1, imm },
        ImmediateName::Sltiu => Instr::Sltiu { rd, rs1, imm },
        ImmediateName::Xori => Instr::Xori { rd, rs1, imm },
        ImmediateName::Ori => Instr::Ori { rd, rs1, imm },
        ImmediateName::Andi => Instr::Andi { rd, rs1, imm },
    }
}

fn shift_instruction(name: ShiftName, rd: u8, rs1: u8, amount: u8) -> Instr
    ensures { result ≡ shift_instruction name rd rs1 amount }
{
    match name {
        ShiftName::Slli => Instr::Slli { rd, rs1, amount },
        ShiftName::Srli => Instr::Srli { rd, rs1, amount },
        ShiftName::Srai => Instr::Srai { rd, rs1, amount },
    }
}

fn indirect_instruction(name: IndirectName, rd: u8, rs1: u8, imm: i32) -> Instr
    ensures { result ≡ indirect_instruction name rd rs1 imm }
{
    match name {
        IndirectName::Lb => Instr::Lb { rd, rs1, imm },
        IndirectName::Lh => Instr::Lh { rd, rs1, imm },
        IndirectName::Lw => Instr::Lw { rd, rs1, imm },
        IndirectName::Lbu => Instr::Lbu { rd, rs1, imm },
        IndirectName::Lhu => Instr::Lhu { rd, rs1, imm },
        IndirectName::Jalr => Instr::Jalr { rd, rs1, imm },
    }
}

fn store_instruction(name: StoreName, rs1: u8, rs2: u8, imm: i32) -> Instr
    ensures { result ≡ store_instruction name rs1 rs2 imm }
{
    match name {
        StoreName::Sb => Instr::Sb { rs1, rs2, imm },
        StoreName::Sh => Instr::Sh { rs1, rs2, imm },
        StoreName::Sw => Instr::Sw { rs1, rs2, imm },
    }
}

fn branch_instruction(name: BranchName, rs1: u8, rs2: u8, offset: i32) -> Instr
    ensures { result ≡ branch_instruction name rs1 rs2 offset }
{
    match name {
        BranchName::Beq => Instr::Beq { rs1, rs2, offset },
        BranchName::Bne => Instr::Bne { rs1, rs2, offset },
        BranchName::Blt => Instr::Blt { rs1, rs2, offset },
        BranchName::Bge => Instr::Bge { rs1, rs2, offset },
        BranchName::Bltu => Instr::Bltu { rs1, rs2, offset },
        BranchName::Bgeu => Instr::Bgeu { rs1, rs2, offset },
    }
}

fn upper_instruction(name: UpperName, rd: u8, imm: u32) -> Instr
    ensures { result ≡ upper_instruction name rd imm }
{
    match name {
        UpperName::Lui => Instr::Lui { rd, imm },
        UpperName::Auipc => Instr::Auipc { rd, imm },
    }
}

fn plain_instruction(name: PlainName) -> Instr
    ensures { result ≡ plain_instruction name }
{
    match name {
        PlainName::Fence => Instr::Fence { word: FENCE },
        PlainName::Ecall => Instr::Ecall,
        PlainName::Ebreak => Instr::Ebreak,
    }
}

fn register_statement(name: RegisterName, rd: u8, rs1: u8, rs2: u8) -> Statement
    ensures { result ≡ Statement.Registers name rd rs1 rs2 }
{
    Statement::Registers { name, rd, rs1, rs2 }
}

fn immediate_statement(name: ImmediateName, rd: u8, rs1: u8, imm: i32) -> Statement
    ensures { result ≡ Statement.Immediate name rd rs1 imm }
{
    Statement::Immediate { name, rd, rs1, imm }
}

fn shift_statement(name: ShiftName, rd: u8, rs1: u8, amount: u8) -> Statement
    ensures { result ≡ Statement.Shift name rd rs1 amount }
{
    Statement::Shift {
        name,
        rd,
        rs1,
        amount,
    }
}

fn indirect_statement(name: IndirectName, rd: u8, rs1: u8, imm: i32) -> Statement
    ensures { result ≡ Statement.Indirect name rd rs1 imm }
{
    Statement::Indirect { name, rd, rs1, imm }
}

fn store_statement(name: StoreName, rs1: u8, rs2: u8, imm: i32) -> Statement
    ensures { result ≡ Statement.Store name rs1 rs2 imm }
{
    Statement::Store {
        name,
        rs1,
        rs2,
        imm,
    }
}

fn branch_statement(name: BranchName, rs1: u8, rs2: u8, offset: i32) -> Statement
    ensures { result ≡ Statement.Branch name rs1 rs2 offset }
{
    Statement::Branch {
        name,
        rs1,
        rs2,
        offset,
    }
}

fn upper_statement(name: UpperName, rd: u8, imm: u32) -> Statement
    ensures { result ≡ Statement.Upper name rd imm }
{
    Statement::Upper { name, rd, imm }
}

fn row(instr: Instr) -> Option<Statement>
    ensures { result ≡ statement_of instr }
{
    let statement = match instr {
        Instr::Add { rd, rs1, rs2 } => register_statement(RegisterName::Add, rd, rs1, rs2),
        Instr::Sub { rd, rs1, rs2 } => register_statement(RegisterName::Sub, rd, rs1, rs2),
        Instr::Sll { rd, rs1, rs2 } => register_statement(RegisterName::Sll, rd, rs1, rs2),
        Instr::Slt { rd, rs1, rs2 } => register_statement(RegisterName::Slt, rd, rs1, rs2),
        Instr::Sltu { rd, rs1, rs2 } => register_statement(RegisterName::Sltu, rd, rs1, rs2),
        Instr::Xor { rd, rs1, rs2 } => register_statement(RegisterName::Xor, rd, rs1, rs2),
        Instr::Srl { rd, rs1, rs2 } => register_statement(RegisterName::Srl, rd, rs1, rs2),
        Instr::Sra { rd, rs1, rs2 } => register_statement(RegisterName::Sra, rd, rs1, rs2),
        Instr::Or { rd, rs1, rs2 } => register_statement(RegisterName::Or, rd, rs1, rs2),
        Instr::And { rd, rs1, rs2 } => register_statement(RegisterName::And, rd, rs1, rs2),
        Instr::Mul { rd, rs1, rs2 } => register_statement(RegisterName::Mul, rd, rs1, rs2),
        Instr::Mulh { rd, rs1, rs2 } => register_statement(RegisterName::Mulh, rd, rs1, rs2),
        Instr::Mulhsu { rd, rs1, rs2 } => register_statement(RegisterName::Mulhsu, rd, rs1, rs2),
        Instr::Mulhu { rd, rs1, rs2 } => register_statement(RegisterName::Mulhu, rd, rs1, rs2),
        Instr::Div { rd, rs1, rs2 } => register_statement(RegisterName::Div, rd, rs1, rs2),
        Instr::Divu { rd, rs1, rs2 } => register_statement(RegisterName::Divu, rd, rs1, rs2),
        Instr::Rem { rd, rs1, rs2 } => register_statement(RegisterName::Rem, rd, rs1, rs2),
        Instr::Remu { rd, rs1, rs2 } => register_statement(RegisterName::Remu, rd, rs1, rs2),
        Instr::Addi { rd, rs1, imm } => immediate_statement(ImmediateName::Addi, rd, rs1, imm),
        Instr::Slti { rd, rs1, imm } => immediate_statement(ImmediateName::Slti, rd, rs1, imm),
        Instr::Sltiu { rd, rs1, imm } => immediate_statement(ImmediateName::Sltiu, rd, rs1, imm),
        Instr::Xori { rd, rs1, imm } => immediate_statement(ImmediateName::Xori, rd, rs1, imm),
        Instr::Ori { rd, rs1, imm } => immediate_statement(ImmediateName::Ori, rd, rs1, imm),
        Instr::Andi { rd, rs1, imm } => immediate_statement(ImmediateName::Andi, rd, rs1, imm),
        Instr::Slli { rd, rs1, amount } => shift_statement(ShiftName::Slli, rd, rs1, amount),
        Instr::Srli { rd, rs1, amount } => shift_statement(ShiftName::Srli, rd, rs1, amount),
        Instr::Srai { rd, rs1, amount } => shift_statement(ShiftName::Srai, rd, rs1, amount),
        Instr::Lb { rd, rs1, imm } => indirect_statement(IndirectName::Lb, rd, rs1, imm),
        Instr::Lh { rd, rs1, imm } => indirect_statement(IndirectName::Lh, rd, rs1, imm),
        Instr::Lw { rd, rs1, imm } => indirect_statement(IndirectName::Lw, rd, rs1, imm),
        Instr::Lbu { rd, rs1, imm } => indirect_statement(IndirectName::Lbu, rd, rs1, imm),
        Instr::Lhu { rd, rs1, imm } => indirect_statement(IndirectName::Lhu, rd, rs1, imm),
        Instr::Jalr { rd, rs1, imm } => indirect_statement(IndirectName::Jalr, rd, rs1, imm),
        Instr::Sb { rs1, rs2, imm } => store_statement(StoreName::Sb, rs1, rs2, imm),
        Instr::Sh { rs1, rs2, imm } => store_statement(StoreName::Sh, rs1, rs2, imm),
        Instr::Sw { rs1, rs2, imm } => store_statement(StoreName::Sw, rs1, rs2, imm),
        Instr::Beq { rs1, rs2, offset } => branch_statement(BranchName::Beq, rs1, rs2, offset),
        Instr::Bne { rs1, rs2, offset } => branch_statement(BranchName::Bne, rs1, rs2, offset),
        Instr::Blt { rs1, rs2, offset } => branch_statement(BranchName::Blt, rs1, rs2, offset),
        Instr::Bge { rs1, rs2, offset } => branch_statement(BranchName::Bge, rs1, rs2, offset),
        Instr::Bltu { rs1, rs2, offset } => branch_statement(BranchName::Bltu, rs1, rs2, offset),
        Instr::Bgeu { rs1, rs2, offset } => branch_statement(BranchName::Bgeu, rs1, rs2, offset),
        Instr::Lui { rd, imm } => upper_statement(UpperName::Lui, rd, imm),
        Instr::Auipc { rd, imm } => upper_statement(UpperName::Auipc, rd, imm),
        Instr::Jal { rd, offset } => Statement::Jump { rd, offset },
        Instr::Fence { word: FENCE } => Statement::Plain(PlainName::Fence),
        Instr::Fence { .. } => return None,
        Instr::Ecall => Statement::Plain(PlainName::Ecall),
        Instr::Ebreak => Statement::Plain(PlainName::Ebreak),
    };
    Some(statement)
}

impl Statement {
    /// The statement of an instruction. A fence has one only where its word is that of `fence`.
    pub fn of(instr: Instr) -> Option<Statement>
        ensures value { result ≡ statement_of instr }
        ensures fit { InRange instr → IfSome result OperandsFit }
    {
        row(instr)
    }

    /// The instruction that the statement stands for.
    pub fn instruction(self) -> Instr
        ensures { result ≡ instruction_of self }
    {
        match self {
            Statement::Registers { name, rd, rs1, rs2 } => register_instruction(name, rd, rs1, rs2),
            Statement::Immediate { name, rd, rs1, imm } => immediate_instruction(
                name, rd, rs1, imm,
            ),
            Statement::Shift {
                name,
                rd,
                rs1,
                amount,
            } => shift_instruction(name, rd, rs1, amount),
            Statement::Indirect { name, rd, rs1, imm } => indirect_instruction(name, rd, rs1, imm),
            Statement::Store {
                name,
                rs1,
                rs2,
                imm,
            } => store_instruction(name, rs1, rs2, imm),
            Statement::Branch {
                name,
                rs1,
                rs2,
                offset,
            } => branch_instruction(name, rs1, rs2, offset),
            Statement::Jump { rd, offset } => Instr::Jal { rd, offset },
            Statement::Upper { name, rd, imm } => upper_instruction(name, rd, imm),
            Statement::Plain(name) => plain_instruction(name),
        }
    }

    /// The statement's name.
    pub fn mnemonic(self) -> Mnemonic
        ensures { result ≡ name_of self }
    {
        match self {
            Statement::Registers { name, .. } => Mnemonic::Registers(name),
            Statement::Immediate { name, .. } => Mnemonic::Immediate(name),
            Statement::Shift { name, .. } => Mnemonic::Shift(name),
            Statement::Indirect { name, .. } => Mnemonic::Indirect(name),
            Statement::Store { name, .. } => Mnemonic::Store(name),
            Statement::Branch { name, .. } => Mnemonic::Branch(name),
            Statement::Jump { .. } => Mnemonic::Jump,
            Statement::Upper { name, .. } => Mnemonic::Upper(name),
            Statement::Plain(name) => Mnemonic::Plain(name),
        }
    }
}
