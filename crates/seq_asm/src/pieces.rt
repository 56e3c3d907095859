// The bytes of one line.
ghost use Rattle.std.specs.Prelude.{◌≡◌, ◌<◌, ◌^◌, ◌++◌, pos, ◌-ℤ◌, OnOk, IfOk, IfErr, Some, None, replicate};
ghost use Rattle.byteorder.specs.Endian.{little_bytes};
ghost use Rattle.seq_isa.specs.InRange.{InRange, IsOffset};
ghost use Rattle.seq_isa.specs.Laws.{IsOnlyWord};
ghost use Rattle.seq_source.specs.Said.{HasWord};
ghost use Rattle.seq_asm.specs.Rules.{name_rule, target_rule};
ghost use Rattle.seq_asm.specs.Assembled.{IsPiece};
ghost use Rattle.seq_asm.specs.Surveyed.{offset_to, bytes_of};

use crate::lengths::length_at;
use crate::rules::{MISSING, OUT_OF_RANGE};
use byteorder::{ByteOrder, LittleEndian};
use seq_isa::{Instr, encode};
use seq_mnemonics::{BranchName, Statement};
use seq_source::{Item, Said, branch_offset_of, jump_offset_of};
use seq_words::{Bytes, NoMemory};

/// The bytes of a line.
#[derive(Clone, Copy)]
pub enum Piece {
    /// Four bytes, the lowest first.
    Word(u32),
    Byte(u8),
    Zeros(u64),
}

fn word_of(instr: Instr) -> u32
    requires { InRange instr }
    ensures { IsOnlyWord result instr }
{
    match encode(&instr) {
        Some(word) => word,
        None => unreachable!(),
    }
}

// How far a label is from an address.
fn distance(at: usize, address: u32) -> i64
    requires { at < 2 ^ 63 }
    ensures { result ≡ pos address -ℤ pos at }
{
    i64::from(address) - at as i64
}

fn branch_target(at: usize, address: Option<u32>) -> Result<i32, u16>
    requires { at < 2 ^ 63 }
    ensures none { OnOk result (target_rule 4096 at address ≡ None) }
    ensures err { IfErr result (λ rule. target_rule 4096 at address ≡ Some rule) }
    ensures fits { IfOk result (λ offset. IsOffset 4096 offset) }
    ensures leads { IfOk result (λ offset. offset_to 4096 at address ≡ Some offset) }
{
    let Some(address) = address else {
        return Err(MISSING);
    };
    match branch_offset_of(distance(at, address)) {
        None => Err(OUT_OF_RANGE),
        Some(offset) => Ok(offset),
    }
}

fn jump_target(at: usize, address: Option<u32>) -> Result<i32, u16>
    requires { at < 2 ^ 63 }
    ensures none { OnOk result (target_rule 1048576 at address ≡ None) }
    ensures err { IfErr result (λ rule. target_rule 1048576 at address ≡ Some rule) }
    ensures fits { IfOk result (λ offset. IsOffset 1048576 offset) }
    ensures leads { IfOk result (λ offset. offset_to 1048576 at address ≡ Some offset) }
{
    let Some(address) = address else {
        return Err(MISSING);
    };
    match jump_offset_of(distance(at, address)) {
        None => Err(OUT_OF_RANGE),
        Some(offset) => Ok(offset),
    }
}

fn branch_piece(
    at: usize,
    address: Option<u32>,
    name: BranchName,
    rs1: u8,
    rs2: u8,
) -> Result<Piece, u16>
    requires there { at < 2 ^ 63 }
    requires word { HasWord (Said.Says (Item.Branch name rs1 rs2)) }
    ensures none { OnOk result (name_rule at address (Said.Says (Item.Branch name rs1 rs2)) ≡ None) }
    ensures err { IfErr result (λ rule. name_rule at address (Said.Says (Item.Branch name rs1 rs2)) ≡ Some rule) }
    ensures piece { IfOk result (λ p. IsPiece at address (Said.Says (Item.Branch name rs1 rs2)) (bytes_of p)) }
{
    let offset = match branch_target(at, address) {
        Ok(offset) => offset,
        Err(rule) => return Err(rule),
    };
    let statement = Statement::Branch {
        name,
        rs1,
        rs2,
        offset,
    };
    Ok(Piece::Word(word_of(statement.instruction())))
}

fn jump_piece(at: usize, address: Option<u32>, rd: u8) -> Result<Piece, u16>
    requires there { at < 2 ^ 63 }
    requires word { HasWord (Said.Says (Item.Jump rd)) }
    ensures none { OnOk result (name_rule at address (Said.Says (Item.Jump rd)) ≡ None) }
    ensures err { IfErr result (λ rule. name_rule at address (Said.Says (Item.Jump rd)) ≡ Some rule) }
    ensures piece { IfOk result (λ p. IsPiece at address (Said.Says (Item.Jump rd)) (bytes_of p)) }
{
    let offset = match jump_target(at, address) {
        Ok(offset) => offset,
        Err(rule) => return Err(rule),
    };
    Ok(Piece::Word(word_of(Instr::Jal { rd, offset })))
}

fn entry_piece(at: usize, address: Option<u32>) -> Result<Piece, u16>
    ensures none { OnOk result (name_rule at address (Said.Says Item.Entry) ≡ None) }
    ensures err { IfErr result (λ rule. name_rule at address (Said.Says Item.Entry) ≡ Some rule) }
    ensures piece { IfOk result (λ p. IsPiece at address (Said.Says Item.Entry) (bytes_of p)) }
{
    match address {
        None => Err(MISSING),
        Some(_) => Ok(Piece::Zeros(0)),
    }
}

fn item_piece(at: usize, address: Option<u32>, item: Item) -> Result<Piece, u16>
    requires there { at < 2 ^ 63 }
    requires word { HasWord (Said.Says item) }
    ensures none { OnOk result (name_rule at address (Said.Says item) ≡ None) }
    ensures err { IfErr result (λ rule. name_rule at address (Said.Says item) ≡ Some rule) }
    ensures piece { IfOk result (λ p. IsPiece at address (Said.Says item) (bytes_of p)) }
{
    match item {
        Item::Instruction(statement) => Ok(Piece::Word(word_of(statement.instruction()))),
        Item::Branch { name, rs1, rs2 } => branch_piece(at, address, name, rs1, rs2),
        Item::Jump { rd } => jump_piece(at, address, rd),
        Item::Word(word) => Ok(Piece::Word(word)),
        Item::Byte(byte) => Ok(Piece::Byte(byte)),
        Item::Space(count) => Ok(Piece::Zeros(count)),
        Item::Align => Ok(Piece::Zeros(length_at(at as u64, Said::Says(Item::Align)))),
        Item::Entry => entry_piece(at, address),
        Item::Size(_) => Ok(Piece::Zeros(0)),
    }
}

/// The bytes of a line at an address, where the label that it names has another, or the rule that this label violates.
pub fn line_piece(at: usize, address: Option<u32>, said: Said) -> Result<Piece, u16>
    requires there { at < 2 ^ 63 }
    requires word { HasWord said }
    ensures none { OnOk result (name_rule at address said ≡ None) }
    ensures err { IfErr result (λ rule. name_rule at address said ≡ Some rule) }
    ensures piece { IfOk result (λ p. IsPiece at address said (bytes_of p)) }
{
    match said {
        Said::Nothing => Ok(Piece::Zeros(0)),
        Said::UnknownWord => Ok(Piece::Zeros(0)),
        Said::BadOperands => Ok(Piece::Zeros(0)),
        Said::OutOfRange => Ok(Piece::Zeros(0)),
        Said::Says(item) => item_piece(at, address, item),
    }
}

fn put_word(out: &mut Bytes, word: u32) -> Result<(), NoMemory>
    ensures { OnOk result (out.new ≡ out.old ++ little_bytes 4 word) }
{
    let mut bytes = [0; 4];
    LittleEndian::write_u32(&mut bytes, word);
    out.append(&bytes)
}

fn put_zeros(out: &mut Bytes, count: u64) -> Result<(), NoMemory>
    ensures { OnOk result (out.new ≡ out.old ++ replicate count 0) }
{
    for _ in 0..count {
        out.push(0)?;
    }
    Ok(())
}

/// Adds the bytes of a line at the end.
pub fn put_piece(out: &mut Bytes, piece: Piece) -> Result<(), NoMemory>
    ensures { OnOk result (out.new ≡ out.old ++ bytes_of piece) }
{
    match piece {
        Piece::Word(word) => put_word(out, word),
        Piece::Byte(byte) => out.push(byte),
        Piece::Zeros(count) => put_zeros(out, count),
    }
}
