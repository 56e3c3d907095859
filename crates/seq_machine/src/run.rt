// What the hardware makes of a list of events.
ghost use Rattle.std.specs.Prelude.{◌≡◌, ℕ, ◌+◌, ◌≤◌, length, OnOk};
ghost use Rattle.seq_words.specs.Description.{line_count};
ghost use Rattle.seq_shelf.specs.Outlets.{views, marks};
ghost use Rattle.seq_turns.specs.Events.{run};
ghost use Rattle.seq_machine.specs.Plain.{Outside, machine_of, outside_of, IsOutside};
ghost use Rattle.seq_machine.specs.Ready.{IsReady};
ghost use Rattle.seq_machine.specs.Making.{MayMakeAll, IsReadyFor};

use crate::{Hardware, Stop};
use seq_shelf::{Chronicle, Line, Outlet};
use seq_words::Event;

impl Hardware {
    /// Makes events one after the other, up to the first that ends the run. If none does, the machine is that of the table after
    /// all of them, and it may make more.
    pub fn run<C: Chronicle>(
        &mut self,
        events: &[Event],
        lines: &mut Vec<Outlet>,
        chronicle: &mut C,
    ) -> Result<(), Stop>
        requires ready { IsReadyFor (length events.now) self.old }
        requires allowed { MayMakeAll events.now self.old (views line lines.old.items) (marks lines.old.items) }
        requires lines { line_count self.old.desc ≤ length lines.old.items }
        ensures machine { (o : Outside) → IsOutside (views line lines.old.items) (marks lines.old.items) o → OnOk result (machine_of self.new (outside_of (run self.old.desc events.now (machine_of self.old o))) ≡ run self.old.desc events.now (machine_of self.old o)) }
        ensures outside { (o : Outside) → IsOutside (views line lines.old.items) (marks lines.old.items) o → OnOk result (IsOutside (views line lines.new.items) (marks lines.new.items) (outside_of (run self.old.desc events.now (machine_of self.old o)))) }
        ensures ready { (n : ℕ) → IsReady n self.old → OnOk result (IsReady (n + length events.now) self.new) }
        ensures hung { marks lines.new.items ≡ marks lines.old.items }
        ensures number { length lines.new.items ≡ length lines.old.items }
        ensures desc { self.new.desc ≡ self.old.desc }
    {
        for event in events {
            self.event(*event, lines, chronicle)?;
        }
        Ok(())
    }
}
