// The machine check: what stands against the stop of an element, and what a stop is answered.
ghost use Rattle.std.specs.Prelude.{◌≡◌, Some};
ghost use Rattle.seq_kernel.specs.declared.outcomes.Note.TheVariants.{Stopped};
ghost use Rattle.seq_turns.specs.Events.{blocker};
ghost use Rattle.seq_machine.specs.Plain.{Outside, machine_of, IsHardware};
ghost use Rattle.seq_machine.specs.Settling.{held_copies};
ghost use Rattle.seq_machine.specs.Checking.{MayBeChecked, answered};

use crate::{Hardware, Note, Stop};
use seq_ruling::check;
use seq_words::{Blocker, Element};

/// What the stop of an element is answered: its note, or a machine check where something stands against it.
pub fn answered(stopped: Element, blocker: Option<Blocker>) -> Result<Note, Stop>
    ensures { result ≡ answered (Stopped stopped) stopped blocker }
{
    match blocker {
        None => Ok(Note::Stopped(stopped)),
        Some(blocker) => Err(Stop::Check(stopped, blocker)),
    }
}

impl Hardware {
    /// What stands against the stop of an element.
    #[inline(never)]
    pub(crate) fn blocker(&self, stopped: Element) -> Option<Blocker>
        requires hardware { IsHardware self.now }
        requires checked { MayBeChecked self.now.desc (held_copies self.now) }
        ensures { (o : Outside) → result ≡ blocker self.now.desc (machine_of self.now o) (Some stopped) }
    {
        check(
            stopped,
            self.incarnations.as_slice(),
            &self.memories,
            &self.layout,
        )
    }
}
