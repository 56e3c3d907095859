//! What an instruction does, and the parts from which it is made.
ghost use Rattle.std.specs.Prelude.{◌≡◌, ℕ, ◌+◌, ◌*◌, ◌%◌, ◌<◌, ◌≤◌, ◌^◌, IfSome, None};
ghost use Rattle.seq_isa.specs.Meaning.{register, following, written, gives, jumps, branches, loads, stores, address};
ghost use Rattle.seq_rv32.specs.Widths.{IsWidth};
ghost use Rattle.seq_rv32.specs.Effects.{effect_of, extend_of, StoreFits, store_of, NamesRegister, ChangesNothing, applied};

use crate::port::{Admit, Port};
use seq_words::Regs;

/// What an instruction does.
#[derive(Clone, Copy, PartialEq, Eq, Debug)]
pub enum Effect {
    /// It moves on to the address `next`. `wrote` is the register that it writes, from 1 to 31, with the value; `stored` is
    /// the address, the width in bytes and the value of its store, whose bits above the width are 0.
    Next {
        wrote: Option<(u8, u32)>,
        stored: Option<(u32, u8, u32)>,
        next: u32,
    },
    /// ECALL: it calls the kernel.
    Call,
    /// It traps with a cause: 0 a misaligned target, 1 a fetch outside, 2 no instruction, 3 EBREAK, 4 and 5 a load, 6 and 7
    /// a store, misaligned and outside.
    Trap(u8),
    /// Its store is inside, and the port has no room for it.
    Full,
}

/// What a register holds; x0 holds 0.
#[inline(always)]
pub fn read(regs: &Regs, r: u8) -> u32
    requires { r < 32 }
    ensures { result ≡ register regs.now r }
{
    if r == 0 { 0 } else { regs.x[r as usize] }
}

/// The address of a load, a store or a jump.
#[inline(always)]
pub fn address(regs: &Regs, rs1: u8, imm: i32) -> u32
    requires { rs1 < 32 }
    ensures { result ≡ address regs.now rs1 imm }
{
    read(regs, rs1).wrapping_add(imm.cast_unsigned())
}

/// The address of the next instruction.
#[inline(always)]
fn following(regs: &Regs) -> u32
    ensures { result ≡ following regs.now }
{
    regs.pc.wrapping_add(4)
}

/// The register `rd` with its value, or None for x0.
#[inline(always)]
fn written(rd: u8, value: u32) -> Option<(u8, u32)>
    requires { rd < 32 }
    ensures value { result ≡ written rd value }
    ensures register { IfSome result (λ w. (1 ≤ w.0) × (w.0 < 32)) }
{
    if rd == 0 { None } else { Some((rd, value)) }
}

/// A register gets a value, and the next instruction follows.
#[tactic(auto, unfolding(seq_isa::specs::Meaning::gives))]
#[inline(always)]
pub fn gives(regs: &Regs, rd: u8, value: u32) -> Effect
    requires { rd < 32 }
    ensures value { (admission : _) → result ≡ effect_of admission (gives regs.now rd value) }
    ensures register { NamesRegister result }
    ensures store { store_of result ≡ None }
{
    Effect::Next {
        wrote: written(rd, value),
        stored: None,
        next: following(regs),
    }
}

/// A jump, which writes the address of the next instruction to `rd`.
#[tactic(auto, unfolding(seq_isa::specs::Meaning::jumps))]
#[inline(always)]
pub fn jumps(regs: &Regs, rd: u8, target: u32) -> Effect
    requires { rd < 32 }
    ensures value { (admission : _) → result ≡ effect_of admission (jumps regs.now rd target) }
    ensures register { NamesRegister result }
    ensures store { store_of result ≡ None }
{
    if target % 4 == 0 {
        Effect::Next {
            wrote: written(rd, following(regs)),
            stored: None,
            next: target,
        }
    } else {
        Effect::Trap(0)
    }
}

/// A branch.
#[tactic(auto, unfolding(seq_isa::specs::Meaning::branches))]
#[inline(always)]
pub fn branches(regs: &Regs, taken: bool, offset: i32) -> Effect
    ensures value { (admission : _) → result ≡ effect_of admission (branches regs.now taken offset) }
    ensures register { NamesRegister result }
    ensures store { store_of result ≡ None }
{
    let target = regs.pc.wrapping_add(offset.cast_unsigned());
    if !taken {
        Effect::Next {
            wrote: None,
            stored: None,
            next: following(regs),
        }
    } else if target % 4 == 0 {
        Effect::Next {
            wrote: None,
            stored: None,
            next: target,
        }
    } else {
        Effect::Trap(0)
    }
}

/// How a load extends the number that it reads to 32 bits.
#[derive(Clone, Copy, PartialEq, Eq, Debug)]
pub enum Extension {
    /// By zeros.
    Zero,
    /// By copies of bit 7.
    Byte,
    /// By copies of bit 15.
    Half,
}

/// The number that a load reads, extended to 32 bits.
#[inline(always)]
fn extend(kind: Extension, n: u32) -> u32
    requires byte { kind ≡ Extension.Byte → n < 2 ^ 8 }
    requires half { kind ≡ Extension.Half → n < 2 ^ 16 }
    ensures { result ≡ extend_of kind n }
{
    match kind {
        Extension::Zero => n,
        Extension::Byte => if n < 128 { n } else { n + 0xffff_ff00 },
        Extension::Half => if n < 32768 { n } else { n + 0xffff_0000 },
    }
}

/// A load.
#[tactic(auto, unfolding(seq_isa::specs::Meaning::loads))]
#[inline(always)]
pub fn loads<P: Port>(regs: &Regs, port: &P, rd: u8, at: u32, width: u8, kind: Extension) -> Effect
    requires width { IsWidth width }
    requires byte { kind ≡ Extension.Byte → width ≡ 1 }
    requires half { kind ≡ Extension.Half → width ≡ 2 }
    requires register { rd < 32 }
    ensures value { (admission : _) → result ≡ effect_of admission (loads regs.now (P.bytes port.now) rd at width (extend_of kind)) }
    ensures register { NamesRegister result }
    ensures store { store_of result ≡ None }
{
    if at % width as u32 != 0 {
        return Effect::Trap(4);
    }
    match port.load(at, width) {
        Some(n) => gives(regs, rd, extend(kind, n)),
        None => Effect::Trap(5),
    }
}

/// The number of the `width` low bytes.
#[inline(always)]
fn low_bytes(value: u32, width: u8) -> u32
    requires { IsWidth width }
    ensures value { result ≡ value % 2 ^ (8 * width) }
    ensures low { result < 2 ^ (8 * width) }
{
    match width {
        1 => value % 0x100,
        2 => value % 0x1_0000,
        _ => value,
    }
}

/// A store of the `width` low bytes of `value`.
#[tactic(auto, unfolding(seq_isa::specs::Meaning::stores))]
#[inline(always)]
pub fn stores<P: Port>(regs: &Regs, port: &P, at: u32, width: u8, value: u32) -> Effect
    requires { IsWidth width }
    ensures value { result ≡ effect_of (P.admission port.now) (stores regs.now (P.bytes port.now) at width value) }
    ensures register { NamesRegister result }
    ensures store { StoreFits (P.admission port.now) result }
{
    if at % width as u32 != 0 {
        return Effect::Trap(6);
    }
    match port.admit(at, width) {
        Admit::Outside => Effect::Trap(7),
        Admit::Full => Effect::Full,
        Admit::Fits => Effect::Next {
            wrote: None,
            stored: Some((at, width, low_bytes(value, width))),
            next: following(regs),
        },
    }
}

/// Makes an effect on the registers. Call, Trap and Full change nothing.
#[inline(always)]
pub fn apply(regs: &mut Regs, effect: &Effect)
    requires { NamesRegister effect.now }
    ensures after { regs.new ≡ applied regs.old effect.now }
    ensures nothing { ChangesNothing effect.now → regs.new ≡ regs.old }
{
    if let Effect::Next { wrote, next, .. } = *effect {
        if let Some((r, value)) = wrote {
            regs.x[r as usize] = value;
        }
        regs.pc = next;
    }
}
