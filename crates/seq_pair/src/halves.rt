//! Two register sets that take the same steps.
ghost use Rattle.std.specs.Prelude.{◌≡◌, ◌≢◌, ◌↔◌, ◌<◌, ◌≤◌, true, false, Some, None};
ghost use Rattle.seq_pair.specs.Halves.{other_half, inverted, struck};
ghost use Rattle.seq_pair.specs.Turns.{same_effect, effect_at, IsAligned, Differ, unstruck, turn_of, pair_after, port_bytes_after, port_after};

use seq_rv32::{Effect, Port, apply, plan_both};
use seq_words::{Half, Regs};

/// The two halves of a processor, and the one that was struck, if any.
#[derive(Clone, Copy, Debug)]
pub struct Pair {
    pub a: Regs,
    pub b: Regs,
    pub struck: Option<Half>,
}

/// What became of a turn.
#[derive(Clone, Copy, PartialEq, Eq, Debug)]
pub enum Turn {
    /// Both halves have this effect, and it was made on both.
    Agreed(Effect),
    /// Their pcs or their effects differ, and nothing was changed.
    Diverged,
}

// Whether two register sets hold the same.
fn same_registers(first: &Regs, second: &Regs) -> bool
    ensures same { result ≡ true → first.now ≡ second.now }
    ensures differ { result ≡ false → first.now ≢ second.now }
{
    first.pc == second.pc && first.x == second.x
}

// A register set with the bits of one register inverted where the mask has a one.
fn invert(regs: &mut Regs, reg: u8, mask: u32)
    requires { reg ≤ 32 }
    ensures { regs.new ≡ inverted regs.old reg mask }
{
    if reg == 32 {
        regs.pc ^= mask;
    } else {
        regs.x[reg as usize] ^= mask;
    }
}

impl Pair {
    /// Two equal halves, of which none is struck.
    pub fn load(regs: &Regs) -> Pair
        ensures { result ≡ record { a = regs.now; b = regs.now; struck = None } }
    {
        Pair {
            a: *regs,
            b: *regs,
            struck: None,
        }
    }

    /// The registers, where both halves hold the same, and None exactly where they differ.
    pub fn context(&self) -> Option<Regs>
        ensures same { self.now.a ≡ self.now.b → result ≡ Some self.now.a }
        ensures differ { self.now.a ≢ self.now.b → result ≡ None }
    {
        if same_registers(&self.a, &self.b) {
            Some(self.a)
        } else {
            None
        }
    }

    /// Strikes a half: inverts the bits of one register where `mask` has a one. `reg` is 1 to 31 for that register, and 32 for
    /// pc.
    pub fn strike(&mut self, half: Half, reg: u8, mask: u32)
        requires low { 1 ≤ reg }
        requires high { reg ≤ 32 }
        requires other { self.old.struck ≢ Some (other_half half) }
        ensures { self.new ≡ struck self.old half reg mask }
    {
        match half {
            Half::A => invert(&mut self.a, reg, mask),
            Half::B => invert(&mut self.b, reg, mask),
        }
        self.struck = Some(half);
    }

    /// Both halves take the instruction at pc, if they agree on it: ECALL, a trap and a store for which the port has no room
    /// change nothing. Where the pcs differ, nothing is fetched. Where the pcs or the effects differ, nothing changes.
    #[inline(always)]
    pub fn turn<P: Port>(&mut self, port: &mut P) -> Turn
        requires { IsAligned self.old.struck self.old.a self.old.b }
        ensures value { result ≡ turn_of (P.admission port.old) (P.bytes port.old) self.old }
        ensures diverged { (result ≡ Turn.Diverged) ↔ Differ (P.admission port.old) (P.bytes port.old) self.old }
        ensures agreed { (e : Effect) → result ≡ Turn.Agreed e → e ≡ effect_at (P.admission port.old) (P.bytes port.old) (unstruck self.old) }
        ensures pair { self.new ≡ pair_after self.old result }
        ensures bytes { P.bytes port.new ≡ port_bytes_after (P.bytes port.old) result }
        ensures state { port.new ≡ port_after P.after_store port.old result }
    {
        if self.a.pc != self.b.pc {
            return Turn::Diverged;
        }
        let Some(effect) = plan_both(&self.a, &self.b, port) else {
            return Turn::Diverged;
        };
        apply(&mut self.a, &effect);
        apply(&mut self.b, &effect);
        if let Effect::Next {
            stored: Some((at, width, value)),
            ..
        } = effect
        {
            port.store(at, width, value);
        }
        Turn::Agreed(effect)
    }
}
