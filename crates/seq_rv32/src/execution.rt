//! The plan of an instruction.
ghost use Rattle.std.specs.Prelude.{◌≡◌, ◌≢◌, ℕ, ◌%◌, ◌<◌, ◌↔◌, true, false, IfSome, None};
ghost use Rattle.seq_isa.specs.InRange.{InRange};
ghost use Rattle.seq_isa.specs.Table.{rs1_of, rs2_of};
ghost use Rattle.seq_isa.specs.Decoded.{decode_of};
ghost use Rattle.seq_isa.specs.Meaning.{register, outcome_of, outcome_if, outcome_at};
ghost use Rattle.seq_rv32.specs.Sources.{HoldAlike};
ghost use Rattle.seq_rv32.specs.Effects.{effect_of, StoresWhereFull, StoreFits, NamesRegister, MovesAligned, ChangesNothing, applied, bytes_after, state_after};

use crate::alu::{
    divide, divide_unsigned, flag, is_less, multiply_high, multiply_high_mixed,
    multiply_high_unsigned, remainder, remainder_unsigned, shift_signed,
};
use crate::effects::{
    Effect, Extension, address, apply, branches, gives, jumps, loads, read, stores,
};
use crate::port::Port;
use seq_isa::{Instr, decode, rs1, rs2};
use seq_words::Regs;

/// What an instruction would do with these registers at a port. `APART` says nothing of it: it only parts the code for halves that
/// differ in a source from the code of every other turn, which is compiled into the turn.
#[tactic(auto, unfolding(seq_isa::specs::Meaning::outcome_of))]
#[inline(always)]
fn execute<P: Port, const APART: bool>(instr: Instr, regs: &Regs, port: &P) -> Effect
    requires { InRange instr }
    ensures value { result ≡ effect_of (P.admission port.now) (outcome_of regs.now (P.bytes port.now) instr) }
    ensures register { NamesRegister result }
    ensures store { StoreFits (P.admission port.now) result }
{
    match instr {
        Instr::Lui { rd, imm } => gives(regs, rd, imm << 12),
        Instr::Auipc { rd, imm } => gives(regs, rd, regs.pc.wrapping_add(imm << 12)),
        Instr::Jal { rd, offset } => jumps(regs, rd, regs.pc.wrapping_add(offset.cast_unsigned())),
        Instr::Jalr { rd, rs1, imm } => {
            let at = address(regs, rs1, imm);
            jumps(regs, rd, at - at % 2)
        }
        Instr::Beq { rs1, rs2, offset } => branches(
            regs,
            read(regs, rs1) == read(regs, rs2),
            offset,
        ),
        Instr::Bne { rs1, rs2, offset } => branches(
            regs,
            read(regs, rs1) != read(regs, rs2),
            offset,
        ),
        Instr::Blt { rs1, rs2, offset } => branches(
            regs,
            is_less(read(regs, rs1), read(regs, rs2)),
            offset,
        ),
        Instr::Bge { rs1, rs2, offset } => branches(
            regs,
            !is_less(read(regs, rs1), read(regs, rs2)),
            offset,
        ),
        Instr::Bltu { rs1, rs2, offset } => branches(
            regs,
            read(regs, rs1) < read(regs, rs2),
            offset,
        ),
        Instr::Bgeu { rs1, rs2, offset } => branches(
            regs,
            read(regs, rs1) >= read(regs, rs2),
            offset,
        ),
        Instr::Lb { rd, rs1, imm } => loads(
            regs,
            port,
            rd,
            address(regs, rs1, imm),
            1,
            Extension::Byte,
        ),
        Instr::Lh { rd, rs1, imm } => loads(
            regs,
            port,
            rd,
            address(regs, rs1, imm),
            2,
            Extension::Half,
        ),
        Instr::Lw { rd, rs1, imm } => loads(
            regs,
            port,
            rd,
            address(regs, rs1, imm),
            4,
            Extension::Zero,
        ),
        Instr::Lbu { rd, rs1, imm } => loads(
            regs,
            port,
            rd,
            address(regs, rs1, imm),
            1,
            Extension::Zero,
        ),
        Instr::Lhu { rd, rs1, imm } => loads(
            regs,
            port,
            rd,
            address(regs, rs1, imm),
            2,
            Extension::Zero,
        ),
        Instr::Sb { rs1, rs2, imm } => stores(
            regs,
            port,
            address(regs, rs1, imm),
            1,
            read(regs, rs2),
        ),
        Instr::Sh { rs1, rs2, imm } => stores(
            regs,
            port,
            address(regs, rs1, imm),
            2,
            read(regs, rs2),
        ),
        Instr::Sw { rs1, rs2, imm } => stores(
            regs,
            port,
            address(regs, rs1, imm),
            4,
            read(regs, rs2),
        ),
        Instr::Addi { rd, rs1, imm } => gives(
            regs,
            rd,
            read(regs, rs1).wrapping_add(imm.cast_unsigned()),
        ),
        Instr::Slti { rd, rs1, imm } => gives(regs, rd, flag(read(regs, rs1).cast_signed() < imm)),
        Instr::Sltiu { rd, rs1, imm } => gives(
            regs,
            rd,
            flag(read(regs, rs1) < imm.cast_unsigned()),
        ),
        Instr::Xori { rd, rs1, imm } => gives(regs, rd, read(regs, rs1) ^ imm.cast_unsigned()),
        Instr::Ori { rd, rs1, imm } => gives(regs, rd, read(regs, rs1) | imm.cast_unsigned()),
        Instr::Andi { rd, rs1, imm } => gives(regs, rd, read(regs, rs1) & imm.cast_unsigned()),
        Instr::Slli { rd, rs1, amount } => gives(regs, rd, read(regs, rs1) << amount),
        Instr::Srli { rd, rs1, amount } => gives(regs, rd, read(regs, rs1) >> amount),
        Instr::Srai { rd, rs1, amount } => gives(
            regs,
            rd,
            shift_signed(read(regs, rs1), amount as u32),
        ),
        Instr::Add { rd, rs1, rs2 } => gives(
            regs,
            rd,
            read(regs, rs1).wrapping_add(read(regs, rs2)),
        ),
        Instr::Sub { rd, rs1, rs2 } => gives(
            regs,
            rd,
            read(regs, rs1).wrapping_sub(read(regs, rs2)),
        ),
        Instr::Sll { rd, rs1, rs2 } => gives(regs, rd, read(regs, rs1) << (read(regs, rs2) % 32)),
        Instr::Slt { rd, rs1, rs2 } => gives(
            regs,
            rd,
            flag(is_less(read(regs, rs1), read(regs, rs2))),
        ),
        Instr::Sltu { rd, rs1, rs2 } => gives(regs, rd, flag(read(regs, rs1) < read(regs, rs2))),
        Instr::Xor { rd, rs1, rs2 } => gives(regs, rd, read(regs, rs1) ^ read(regs, rs2)),
        Instr::Srl { rd, rs1, rs2 } => gives(regs, rd, read(regs, rs1) >> (read(regs, rs2) % 32)),
        Instr::Sra { rd, rs1, rs2 } => gives(
            regs,
            rd,
            shift_signed(read(regs, rs1), read(regs, rs2) % 32),
        ),
        Instr::Or { rd, rs1, rs2 } => gives(regs, rd, read(regs, rs1) | read(regs, rs2)),
        Instr::And { rd, rs1, rs2 } => gives(regs, rd, read(regs, rs1) & read(regs, rs2)),
        Instr::Mul { rd, rs1, rs2 } => gives(
            regs,
            rd,
            read(regs, rs1).wrapping_mul(read(regs, rs2)),
        ),
        Instr::Mulh { rd, rs1, rs2 } => gives(
            regs,
            rd,
            multiply_high(read(regs, rs1), read(regs, rs2)),
        ),
        Instr::Mulhsu { rd, rs1, rs2 } => gives(
            regs,
            rd,
            multiply_high_mixed(read(regs, rs1), read(regs, rs2)),
        ),
        Instr::Mulhu { rd, rs1, rs2 } => gives(
            regs,
            rd,
            multiply_high_unsigned(read(regs, rs1), read(regs, rs2)),
        ),
        Instr::Div { rd, rs1, rs2 } => gives(regs, rd, divide(read(regs, rs1), read(regs, rs2))),
        Instr::Divu { rd, rs1, rs2 } => gives(
            regs,
            rd,
            divide_unsigned(read(regs, rs1), read(regs, rs2)),
        ),
        Instr::Rem { rd, rs1, rs2 } => gives(regs, rd, remainder(read(regs, rs1), read(regs, rs2))),
        Instr::Remu { rd, rs1, rs2 } => gives(
            regs,
            rd,
            remainder_unsigned(read(regs, rs1), read(regs, rs2)),
        ),
        Instr::Fence { word: _ } => Effect::Next {
            wrote: None,
            stored: None,
            next: regs.pc.wrapping_add(4),
        },
        Instr::Ecall => Effect::Call,
        Instr::Ebreak => Effect::Trap(3),
    }
}

// What a word would do as an instruction with these registers at a port.
#[inline(always)]
fn effect_of_word<P: Port, const APART: bool>(word: u32, regs: &Regs, port: &P) -> Effect
    ensures value { result ≡ effect_of (P.admission port.now) (outcome_if regs.now (P.bytes port.now) (decode_of word)) }
    ensures register { NamesRegister result }
    ensures store { StoreFits (P.admission port.now) result }
{
    match decode(word) {
        None => Effect::Trap(2),
        Some(instr) => execute::<P, APART>(instr, regs, port),
    }
}

/// What the instruction at pc would do with these registers at a port.
#[inline(always)]
fn effect_at_pc<P: Port>(regs: &Regs, port: &P) -> Effect
    requires { regs.now.pc % 4 ≡ 0 }
    ensures value { result ≡ effect_of (P.admission port.now) (outcome_at regs.now (P.bytes port.now)) }
    ensures register { NamesRegister result }
    ensures store { StoreFits (P.admission port.now) result }
{
    match port.fetch(regs.pc) {
        None => Effect::Trap(1),
        Some(word) => effect_of_word::<P, false>(word, regs, port),
    }
}

/// What the instruction at pc would do with these registers at a port: the outcome that the manual gives it over the bytes that
/// the port holds, or Full where the port has no room for its store.
#[tactic(auto, using(crate::proofs::Refusals::full_exactly, crate::proofs::NextPc::moves_on_aligned))]
pub fn plan<P: Port>(regs: &Regs, port: &P) -> Effect
    requires { regs.now.pc % 4 ≡ 0 }
    ensures value { result ≡ effect_of (P.admission port.now) (outcome_at regs.now (P.bytes port.now)) }
    ensures full { (result ≡ Effect.Full) ↔ StoresWhereFull (P.admission port.now) (outcome_at regs.now (P.bytes port.now)) }
    ensures register { NamesRegister result }
    ensures aligned { MovesAligned result }
    ensures store { StoreFits (P.admission port.now) result }
{
    effect_at_pc(regs, port)
}

// Whether two register sets hold the same in a register.
#[inline(always)]
fn is_alike(r: u8, first: &Regs, second: &Regs) -> bool
    requires { r < 32 }
    ensures { result ≡ true → register first.now r ≡ register second.now r }
{
    first.x[r as usize] == second.x[r as usize]
}

// Whether two register sets hold the same in both registers that a word names where its format has sources. An instruction
// reads no others, so this needs no decoding.
#[inline(always)]
fn hold_alike(word: u32, first: &Regs, second: &Regs) -> bool
    requires { first.now.pc ≡ second.now.pc }
    ensures { result ≡ true → HoldAlike first.now second.now (rs1_of word) (rs2_of word) }
{
    is_alike(rs1(word), first, second) && is_alike(rs2(word), first, second)
}

// Whether two effects are one.
fn is_same(first: Effect, second: Effect) -> bool
    ensures same { result ≡ true → first ≡ second }
    ensures differ { result ≡ false → first ≢ second }
{
    first == second
}

// What a word would do with registers, for a pair whose halves differ in a register that the word names.
#[cold]
#[inline(never)]
fn effect_apart<P: Port>(word: u32, regs: &Regs, port: &P) -> Effect
    ensures value { result ≡ effect_of (P.admission port.now) (outcome_if regs.now (P.bytes port.now) (decode_of word)) }
    ensures register { NamesRegister result }
    ensures store { StoreFits (P.admission port.now) result }
{
    effect_of_word::<P, true>(word, regs, port)
}

// What a word would do with each of two register sets, where that is the same: it is planned with both, and compared.
#[cold]
#[inline(never)]
fn effect_compared<P: Port>(word: u32, first: &Regs, second: &Regs, port: &P) -> Option<Effect>
    ensures first { IfSome result (λ e. e ≡ effect_of (P.admission port.now) (outcome_if first.now (P.bytes port.now) (decode_of word))) }
    ensures second { IfSome result (λ e. e ≡ effect_of (P.admission port.now) (outcome_if second.now (P.bytes port.now) (decode_of word))) }
    ensures differ { result ≡ None → effect_of (P.admission port.now) (outcome_if first.now (P.bytes port.now) (decode_of word)) ≢ effect_of (P.admission port.now) (outcome_if second.now (P.bytes port.now) (decode_of word)) }
    ensures register { IfSome result NamesRegister }
    ensures store { IfSome result (StoreFits (P.admission port.now)) }
{
    let effect = effect_apart(word, first, port);
    if is_same(effect, effect_apart(word, second, port)) {
        Some(effect)
    } else {
        None
    }
}

// What a word would do with each of two register sets, where that is the same. It is planned a second time only where they differ
// in a register that the word names.
#[tactic(auto, using(crate::proofs::Sources::words_alike))]
#[inline(always)]
fn effect_on_both<P: Port>(word: u32, first: &Regs, second: &Regs, port: &P) -> Option<Effect>
    requires { first.now.pc ≡ second.now.pc }
    ensures first { IfSome result (λ e. e ≡ effect_of (P.admission port.now) (outcome_if first.now (P.bytes port.now) (decode_of word))) }
    ensures second { IfSome result (λ e. e ≡ effect_of (P.admission port.now) (outcome_if second.now (P.bytes port.now) (decode_of word))) }
    ensures differ { result ≡ None → effect_of (P.admission port.now) (outcome_if first.now (P.bytes port.now) (decode_of word)) ≢ effect_of (P.admission port.now) (outcome_if second.now (P.bytes port.now) (decode_of word)) }
    ensures register { IfSome result NamesRegister }
    ensures store { IfSome result (StoreFits (P.admission port.now)) }
{
    if hold_alike(word, first, second) {
        Some(effect_of_word::<P, false>(word, first, port))
    } else {
        effect_compared(word, first, second, port)
    }
}

/// What the instruction at one pc would do with each of two register sets, where that is the same, and None exactly where it
/// differs. It is fetched once, and planned a second time only where they differ in a register that its word names.
#[inline(always)]
pub fn plan_both<P: Port>(first: &Regs, second: &Regs, port: &P) -> Option<Effect>
    requires aligned { first.now.pc % 4 ≡ 0 }
    requires pc { first.now.pc ≡ second.now.pc }
    ensures first { IfSome result (λ e. e ≡ effect_of (P.admission port.now) (outcome_at first.now (P.bytes port.now))) }
    ensures second { IfSome result (λ e. e ≡ effect_of (P.admission port.now) (outcome_at second.now (P.bytes port.now))) }
    ensures differ { result ≡ None → effect_of (P.admission port.now) (outcome_at first.now (P.bytes port.now)) ≢ effect_of (P.admission port.now) (outcome_at second.now (P.bytes port.now)) }
    ensures register { IfSome result NamesRegister }
    ensures store { IfSome result (StoreFits (P.admission port.now)) }
{
    match port.fetch(first.pc) {
        None => Some(Effect::Trap(1)),
        Some(word) => effect_on_both(word, first, second, port),
    }
}

/// Takes the instruction at pc: plans it, applies the effect, and makes its store. Call, Trap and Full change nothing.
#[tactic(auto, using(crate::proofs::NextPc::applied_aligned))]
pub fn exec<P: Port>(regs: &mut Regs, port: &mut P) -> Effect
    requires { regs.old.pc % 4 ≡ 0 }
    ensures value { result ≡ effect_of (P.admission port.old) (outcome_at regs.old (P.bytes port.old)) }
    ensures regs { regs.new ≡ applied regs.old result }
    ensures bytes { P.bytes port.new ≡ bytes_after (P.bytes port.old) result }
    ensures state { port.new ≡ state_after P.after_store port.old result }
    ensures aligned { regs.new.pc % 4 ≡ 0 }
    ensures nothing { ChangesNothing result → (regs.new ≡ regs.old) × (port.new ≡ port.old) }
{
    let effect = plan(regs, port);
    apply(regs, &effect);
    if let Effect::Next {
        stored: Some((at, width, value)),
        ..
    } = effect
    {
        port.store(at, width, value);
    }
    effect
}
