// What arrives from outside: a byte at a line's port, or word that no further byte will come.
ghost use Rattle.std.specs.Prelude.{◌≡◌, length};
ghost use Rattle.seq_words.specs.declared.events.Event.TheVariants as event;
ghost use Rattle.seq_turns.specs.Allowed.{MayArrive, MayClose};
ghost use Rattle.seq_turns.specs.Events.{happens};
ghost use Rattle.seq_machine.specs.Plain.{Outside, machine_of, IsHardware};
ghost use Rattle.seq_machine.specs.Ports.{port_of};

use crate::Hardware;
use seq_words::LineNo;

impl Hardware {
    // A byte arrives at the port of a line.
    #[inline(never)]
    pub(crate) fn input(&mut self, line: LineNo, byte: u8)
        requires hardware { IsHardware self.old }
        requires allowed { MayArrive self.old.desc line.0 (port_of self.old line.0) }
        requires store { length (port_of self.old line.0).store ≡ self.old.desc.journal }
        ensures happens { (o : Outside) → machine_of self.new o ≡ happens self.old.desc (machine_of self.old o) (event.Input line byte) }
        ensures rest { self.new ≡ record self.old { ports = self.new.ports } }
        ensures hardware { IsHardware self.new }
    {
        let port = self.ports.at_mut(line.0 as usize);
        port.store.set(port.arrived as usize, byte);
        port.arrived += 1;
    }

    // No further byte will arrive on a line.
    #[inline(never)]
    pub(crate) fn close(&mut self, line: LineNo)
        requires hardware { IsHardware self.old }
        requires allowed { MayClose self.old.desc line.0 (port_of self.old line.0) }
        ensures happens { (o : Outside) → machine_of self.new o ≡ happens self.old.desc (machine_of self.old o) (event.Close line) }
        ensures rest { self.new ≡ record self.old { ports = self.new.ports } }
        ensures hardware { IsHardware self.new }
    {
        let port = self.ports.at_mut(line.0 as usize);
        port.closed = true;
    }
}
