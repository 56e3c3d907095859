// The table: each name's text.
ghost use Rattle.std.specs.Prelude.{◌≡◌};
ghost use Rattle.seq_mnemonics.specs.Names.{register_text, immediate_text, shift_text, indirect_text, store_text, branch_text, upper_text, plain_text, text_of, mnemonic_of};

use crate::{
    BranchName, ImmediateName, IndirectName, Mnemonic, PlainName, RegisterName, ShiftName,
    StoreName, UpperName,
};

fn register_text(name: RegisterName) -> &'static [u8]
    ensures { result.now ≡ register_text name }
{
    match name {
        RegisterName::Add => b"add",
        RegisterName::Sub => b"sub",
        RegisterName::Sll => b"sll",
        RegisterName::Slt => b"slt",
        RegisterName::Sltu => b"sltu",
        RegisterName::Xor => b"xor",
        RegisterName::Srl => b"srl",
        RegisterName::Sra => b"sra",
        RegisterName::Or => b"or",
        RegisterName::And => b"and",
        RegisterName::Mul => b"mul",
        RegisterName::Mulh => b"mulh",
        RegisterName::Mulhsu => b"mulhsu",
        RegisterName::Mulhu => b"mulhu",
        RegisterName::Div => b"div",
        RegisterName::Divu => b"divu",
        RegisterName::Rem => b"rem",
        RegisterName::Remu => b"remu",
    }
}

fn immediate_text(name: ImmediateName) -> &'static [u8]
    ensures { result.now ≡ immediate_text name }
{
    match name {
        ImmediateName::Addi => b"addi",
        ImmediateName::Slti => b"slti",
        ImmediateName::Sltiu => b"sltiu",
        ImmediateName::Xori => b"xori",
        ImmediateName::Ori => b"ori",
        ImmediateName::Andi => b"andi",
    }
}

fn shift_text(name: ShiftName) -> &'static [u8]
    ensures { result.now ≡ shift_text name }
{
    match name {
        ShiftName::Slli => b"slli",
        ShiftName::Srli => b"srli",
        ShiftName::Srai => b"srai",
    }
}

fn indirect_text(name: IndirectName) -> &'static [u8]
    ensures { result.now ≡ indirect_text name }
{
    match name {
        IndirectName::Lb => b"lb",
        IndirectName::Lh => b"lh",
        IndirectName::Lw => b"lw",
        IndirectName::Lbu => b"lbu",
        IndirectName::Lhu => b"lhu",
        IndirectName::Jalr => b"jalr",
    }
}

fn store_text(name: StoreName) -> &'static [u8]
    ensures { result.now ≡ store_text name }
{
    match name {
        StoreName::Sb => b"sb",
        StoreName::Sh => b"sh",
        StoreName::Sw => b"sw",
    }
}

fn branch_text(name: BranchName) -> &'static [u8]
    ensures { result.now ≡ branch_text name }
{
    match name {
        BranchName::Beq => b"beq",
        BranchName::Bne => b"bne",
        BranchName::Blt => b"blt",
        BranchName::Bge => b"bge",
        BranchName::Bltu => b"bltu",
        BranchName::Bgeu => b"bgeu",
    }
}

fn upper_text(name: UpperName) -> &'static [u8]
    ensures { result.now ≡ upper_text name }
{
    match name {
        UpperName::Lui => b"lui",
        UpperName::Auipc => b"auipc",
    }
}

fn plain_text(name: PlainName) -> &'static [u8]
    ensures { result.now ≡ plain_text name }
{
    match name {
        PlainName::Fence => b"fence",
        PlainName::Ecall => b"ecall",
        PlainName::Ebreak => b"ebreak",
    }
}

/// All names.
const MNEMONICS: [Mnemonic; 48] = [
    Mnemonic::Registers(RegisterName::Add),
    Mnemonic::Registers(RegisterName::Sub),
    Mnemonic::Registers(RegisterName::Sll),
    Mnemonic::Registers(RegisterName::Slt),
    Mnemonic::Registers(RegisterName::Sltu),
    Mnemonic::Registers(RegisterName::Xor),
    Mnemonic::Registers(RegisterName::Srl),
    Mnemonic::Registers(RegisterName::Sra),
    Mnemonic::Registers(RegisterName::Or),
    Mnemonic::Registers(RegisterName::And),
    Mnemonic::Registers(RegisterName::Mul),
    Mnemonic::Registers(RegisterName::Mulh),
    Mnemonic::Registers(RegisterName::Mulhsu),
    Mnemonic::Registers(RegisterName::Mulhu),
    Mnemonic::Registers(RegisterName::Div),
    Mnemonic::Registers(RegisterName::Divu),
    Mnemonic::Registers(RegisterName::Rem),
    Mnemonic::Registers(RegisterName::Remu),
    Mnemonic::Immediate(ImmediateName::Addi),
    Mnemonic::Immediate(ImmediateName::Slti),
    Mnemonic::Immediate(ImmediateName::Sltiu),
    Mnemonic::Immediate(ImmediateName::Xori),
    Mnemonic::Immediate(ImmediateName::Ori),
    Mnemonic::Immediate(ImmediateName::Andi),
    Mnemonic::Shift(ShiftName::Slli),
    Mnemonic::Shift(ShiftName::Srli),
    Mnemonic::Shift(ShiftName::Srai),
    Mnemonic::Indirect(IndirectName::Lb),
    Mnemonic::Indirect(IndirectName::Lh),
    Mnemonic::Indirect(IndirectName::Lw),
    Mnemonic::Indirect(IndirectName::Lbu),
    Mnemonic::Indirect(IndirectName::Lhu),
    Mnemonic::Indirect(IndirectName::Jalr),
    Mnemonic::Store(StoreName::Sb),
    Mnemonic::Store(StoreName::Sh),
    Mnemonic::Store(StoreName::Sw),
    Mnemonic::Branch(BranchName::Beq),
    Mnemonic::Branch(BranchName::Bne),
    Mnemonic::Branch(BranchName::Blt),
    Mnemonic::Branch(BranchName::Bge),
    Mnemonic::Branch(BranchName::Bltu),
    Mnemonic::Branch(BranchName::Bgeu),
    Mnemonic::Jump,
    Mnemonic::Upper(UpperName::Lui),
    Mnemonic::Upper(UpperName::Auipc),
    Mnemonic::Plain(PlainName::Fence),
    Mnemonic::Plain(PlainName::Ecall),
    Mnemonic::Plain(PlainName::Ebreak),
];

impl Mnemonic {
    /// The name's text, in lower case.
    pub fn text(self) -> &'static [u8]
        ensures { result.now ≡ text_of self }
    {
        match self {
            Mnemonic::Registers(name) => register_text(name),
            Mnemonic::Immediate(name) => immediate_text(name),
            Mnemonic::Shift(name) => shift_text(name),
            Mnemonic::Indirect(name) => indirect_text(name),
            Mnemonic::Store(name) => store_text(name),
            Mnemonic::Branch(name) => branch_text(name),
            Mnemonic::Jump => b"jal",
            Mnemonic::Upper(name) => upper_text(name),
            Mnemonic::Plain(name) => plain_text(name),
        }
    }

    /// The name that a word is, if it is one.
    #[tactic(auto, unfolding(crate::specs::Names::mnemonic_of))]
    pub fn named(word: &[u8]) -> Option<Mnemonic>
        ensures { result ≡ mnemonic_of word.now }
    {
        MNEMONICS
            .iter()
            .copied()
            .find(|mnemonic| mnemonic.text() == word)
    }
}
