// A half of the process that a processor runs is struck.
ghost use Rattle.std.specs.Prelude.{◌≡◌, ◌≤◌};
ghost use Rattle.seq_words.specs.declared.events.Event.TheVariants as event;
ghost use Rattle.seq_turns.specs.Allowed.{MayStrike, StrikeAllowed};
ghost use Rattle.seq_turns.specs.Events.{strikes, happens};
ghost use Rattle.seq_machine.specs.Plain.{Outside, machine_of, IsHardware};
ghost use Rattle.seq_machine.specs.Starting.{no_outside};

use crate::Hardware;
use seq_turns::Hand;
use seq_words::{Half, Pe};

// Strikes the process that a hand runs, where it stands. A hand that runs none stays as it is.
fn strike(hand: &mut Hand, half: Half, reg: u8, mask: u32)
    requires low { 1 ≤ reg }
    requires high { reg ≤ 32 }
    requires other { MayStrike half hand.old }
    ensures { hand.new ≡ strikes half reg mask hand.old }
{
    match hand {
        Hand::Running(running) => running.pair.strike(half, reg, mask),
        Hand::Acquiring(running, _, _) => running.pair.strike(half, reg, mask),
        Hand::Flushing(running, _, _, _) => running.pair.strike(half, reg, mask),
        Hand::Unlocking(running, _, _, _) => running.pair.strike(half, reg, mask),
        Hand::Down => {}
        Hand::Seek => {}
        Hand::Claiming(_, _) => {}
        Hand::Leaving(_, _) => {}
        Hand::Recovering(_) => {}
    }
}

impl Hardware {
    /// Inverts the bits of a register of one half of the process that a processor runs, where `mask` has a one.
    #[inline(never)]
    pub(crate) fn upset(&mut self, pe: Pe, half: Half, reg: u8, mask: u32)
        requires hardware { IsHardware self.old }
        requires allowed { StrikeAllowed self.old.desc (machine_of self.old no_outside) pe.0 half reg }
        ensures happens { (o : Outside) → machine_of self.new o ≡ happens self.old.desc (machine_of self.old o) (event.Upset pe half reg mask) }
        ensures rest { self.new ≡ record self.old { processors = self.new.processors } }
        ensures hardware { IsHardware self.new }
    {
        let processor = self.processors.at_mut(pe.0 as usize);
        strike(&mut processor.hand, half, reg, mask);
    }
}
