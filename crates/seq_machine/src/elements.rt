// The failure of an I/O element, and its repair.
ghost use Rattle.std.specs.Prelude.{◌≡◌, ◌<◌};
ghost use Rattle.seq_words.specs.declared.kinds.Element.TheVariants as element;
ghost use Rattle.seq_words.specs.declared.events.Event.TheVariants as event;
ghost use Rattle.seq_turns.specs.Events.{happens, note};
ghost use Rattle.seq_machine.specs.Plain.{Outside, machine_of, IsHardware};

use crate::{Hardware, Note};
use seq_io::IoElement;
use seq_words::{Element, Ioe};

impl Hardware {
    /// An I/O element fails: it rests, and serves the first line next.
    pub(crate) fn fail_io(&mut self, io: Ioe) -> Note
        requires hardware { IsHardware self.old }
        requires element { io.0 < self.old.desc.ios }
        ensures happens { (o : Outside) → machine_of self.new o ≡ happens self.old.desc (machine_of self.old o) (event.Fail (element.Io io)) }
        ensures note { (o : Outside) → result ≡ note self.old.desc (machine_of self.old o) (event.Fail (element.Io io)) }
        ensures rest { self.new ≡ record self.old { ios = self.new.ios } }
        ensures hardware { IsHardware self.new }
    {
        let stopped = IoElement {
            up: false,
            cursor: 0,
        };
        self.ios.set(io.0 as usize, stopped);
        Note::Stopped(Element::Io(io))
    }

    /// An I/O element is repaired, and works again.
    pub(crate) fn repair_io(&mut self, io: Ioe)
        requires hardware { IsHardware self.old }
        requires element { io.0 < self.old.desc.ios }
        ensures happens { (o : Outside) → machine_of self.new o ≡ happens self.old.desc (machine_of self.old o) (event.Repair (element.Io io)) }
        ensures rest { self.new ≡ record self.old { ios = self.new.ios } }
        ensures hardware { IsHardware self.new }
    {
        let element = self.ios.at_mut(io.0 as usize);
        element.up = true;
    }
}
