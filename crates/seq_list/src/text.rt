// The text of a word.
ghost use Rattle.std.specs.Prelude.{◌≡◌, [], ◌∷◌, ◌++◌, ◌<◌, false, codes, OnOk, IfSome};
ghost use Rattle.std.specs.Fmt.{digits, signed_decimal};
ghost use Rattle.seq_isa.specs.Decoded.{decode_of};
ghost use Rattle.seq_mnemonics.specs.Ranges.{OperandsFit};
ghost use Rattle.seq_mnemonics.specs.Registers.{x_name};
ghost use Rattle.seq_list.specs.Lines.{address, operands_of, behind_name, statement_text, statement_if, word_text};

use crate::digits::{put_hexadecimal, word_digits};
use itoa::Buffer;
use seq_isa::decode;
use seq_mnemonics::{Statement, register_name};
use seq_words::{Bytes, NoMemory};

fn put_decimal(out: &mut Bytes, number: i32) -> Result<(), NoMemory>
    ensures { OnOk result (out.new ≡ out.old ++ signed_decimal number) }
{
    let mut buffer = Buffer::new();
    out.append(buffer.format(number).as_bytes())
}

// The first operand, with the blank before it.
fn put_first(out: &mut Bytes, register: u8) -> Result<(), NoMemory>
    requires { register < 32 }
    ensures { OnOk result (out.new ≡ out.old ++ (codes " " ++ x_name register)) }
{
    out.push(b' ')?;
    out.append(register_name(register))
}

// A further register, with what separates it.
fn put_next(out: &mut Bytes, register: u8) -> Result<(), NoMemory>
    requires { register < 32 }
    ensures { OnOk result (out.new ≡ out.old ++ (codes ", " ++ x_name register)) }
{
    out.append(b", ")?;
    out.append(register_name(register))
}

fn put_registers(out: &mut Bytes, rd: u8, rs1: u8, rs2: u8) -> Result<(), NoMemory>
    requires rd { rd < 32 }
    requires rs1 { rs1 < 32 }
    requires rs2 { rs2 < 32 }
    ensures { OnOk result (out.new ≡
        out.old ++ behind_name (x_name rd ∷ x_name rs1 ∷ x_name rs2 ∷ [])) }
{
    put_first(out, rd)?;
    put_next(out, rs1)?;
    put_next(out, rs2)
}

// Two registers and a number.
fn put_number(out: &mut Bytes, first: u8, second: u8, number: i32) -> Result<(), NoMemory>
    requires first { first < 32 }
    requires second { second < 32 }
    ensures { OnOk result (out.new ≡
        out.old ++ behind_name (x_name first ∷ x_name second ∷ signed_decimal number ∷ [])) }
{
    put_first(out, first)?;
    put_next(out, second)?;
    out.append(b", ")?;
    put_decimal(out, number)
}

// A register and an address.
fn put_address(out: &mut Bytes, register: u8, rs1: u8, imm: i32) -> Result<(), NoMemory>
    requires register { register < 32 }
    requires rs1 { rs1 < 32 }
    ensures { OnOk result (out.new ≡ out.old ++ behind_name (x_name register ∷ address rs1 imm ∷ [])) }
{
    put_first(out, register)?;
    out.append(b", ")?;
    put_decimal(out, imm)?;
    out.push(b'(')?;
    out.append(register_name(rs1))?;
    out.push(b')')
}

fn put_jump(out: &mut Bytes, rd: u8, offset: i32) -> Result<(), NoMemory>
    requires { rd < 32 }
    ensures { OnOk result (out.new ≡ out.old ++ behind_name (x_name rd ∷ signed_decimal offset ∷ [])) }
{
    put_first(out, rd)?;
    out.append(b", ")?;
    put_decimal(out, offset)
}

fn put_upper(out: &mut Bytes, rd: u8, imm: u32) -> Result<(), NoMemory>
    requires { rd < 32 }
    ensures { OnOk result (out.new ≡
        out.old ++ behind_name (x_name rd ∷ (codes "0x" ++ digits 16 false imm) ∷ [])) }
{
    put_first(out, rd)?;
    out.append(b", 0x")?;
    put_hexadecimal(out, imm)
}

fn put_operands(out: &mut Bytes, statement: Statement) -> Result<(), NoMemory>
    requires { OperandsFit statement }
    ensures { OnOk result (out.new ≡ out.old ++ behind_name (operands_of statement)) }
{
    match statement {
        Statement::Registers { rd, rs1, rs2, .. } => put_registers(out, rd, rs1, rs2),
        Statement::Immediate { rd, rs1, imm, .. } => put_number(out, rd, rs1, imm),
        Statement::Shift {
            rd,
            rs1,
            amount,
            ..
        } => put_number(out, rd, rs1, i32::from(amount)),
        Statement::Indirect { rd, rs1, imm, .. } => put_address(out, rd, rs1, imm),
        Statement::Store { rs1, rs2, imm, .. } => put_address(out, rs2, rs1, imm),
        Statement::Branch {
            rs1,
            rs2,
            offset,
            ..
        } => put_number(out, rs1, rs2, offset),
        Statement::Jump { rd, offset } => put_jump(out, rd, offset),
        Statement::Upper { rd, imm, .. } => put_upper(out, rd, imm),
        Statement::Plain(_) => Ok(()),
    }
}

fn put_statement(out: &mut Bytes, statement: Statement) -> Result<(), NoMemory>
    requires { OperandsFit statement }
    ensures { OnOk result (out.new ≡ out.old ++ statement_text statement) }
{
    out.append(statement.mnemonic().text())?;
    put_operands(out, statement)
}

fn statement_in(word: u32) -> Option<Statement>
    ensures value { result ≡ statement_if (decode_of word) }
    ensures fit { IfSome result OperandsFit }
{
    Statement::of(decode(word)?)
}

/// The text of a word: the instruction that it stands for, or its value.
#[tactic(auto, unfolding(crate::specs::Lines::word_text))]
pub fn put_text(out: &mut Bytes, word: u32) -> Result<(), NoMemory>
    ensures { OnOk result (out.new ≡ out.old ++ word_text word) }
{
    match statement_in(word) {
        Some(statement) => put_statement(out, statement),
        None => {
            out.append(b".word 0x")?;
            out.append(&word_digits(word))
        }
    }
}
