// The turns of Closing: both copies of the status word are set free.
ghost use Rattle.std.specs.Prelude.{◌≡◌};
ghost use Rattle.seq_layout.specs.Shapes.{shape_of};
ghost use Rattle.seq_layout.specs.Copies.{Matches, copies};
ghost use Rattle.seq_status.specs.declared.step.Step.TheVariants.{Again, Next};
ghost use Rattle.seq_recover.specs.Turns.{closing_turn};
ghost use Rattle.seq_recover.specs.Needs.{ClosingNeeds};
ghost use Rattle.seq_recover.specs.Stands.{AllServe, ClosingKnows, RecoveredKnows};

use crate::words::write_status;
use crate::{Closing, Recovered, Recovery, Step};
use seq_layout::Layout;
use seq_memory::Memories;
use seq_status::Status;
use seq_words::MachineDesc;

impl Recovery<Closing> {
    /// Sets the shadow of the status word free, in the second turn its primary.
    #[tactic(auto, unfolding(crate::specs::Turns::closing_turn))]
    pub fn turn(
        self,
        memories: &mut Memories,
        layout: &Layout,
        desc: &MachineDesc,
    ) -> Step<Recovery<Closing>, Recovered>
        requires layout { layout.now ≡ shape_of desc.now }
        requires matches { Matches layout.now memories.old }
        requires needs { ClosingNeeds desc.now self }
        ensures step { result ≡ (closing_turn desc.now (copies layout.now memories.old) self).step }
        ensures copies { copies layout.now memories.new ≡ (closing_turn desc.now (copies layout.now memories.old) self).copies }
        ensures matches { Matches layout.now memories.new }
        ensures closing { (r : _) → result ≡ Again r → AllServe layout.now (copies layout.now memories.old) → ClosingKnows desc.now (copies layout.now memories.old) self → ClosingKnows desc.now (copies layout.now memories.new) r }
        ensures recovered { (r : _) → result ≡ Next r → AllServe layout.now (copies layout.now memories.old) → ClosingKnows desc.now (copies layout.now memories.old) self → RecoveredKnows desc.now (copies layout.now memories.new) self.pid.0 }
    {
        if self.cursor == 0 {
            write_status(self.pid, true, &Status::Idle, memories, layout, desc);
            Step::Again(Recovery { cursor: 1, ..self })
        } else {
            write_status(self.pid, false, &Status::Idle, memories, layout, desc);
            Step::Next(Recovered)
        }
    }
}
