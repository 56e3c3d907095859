// The turns of Claimed: the recovery's kind goes to both copies of the status word.
ghost use Rattle.std.specs.Prelude.{◌≡◌, ◌<◌, ◌^◌};
ghost use Rattle.seq_layout.specs.Shapes.{shape_of};
ghost use Rattle.seq_layout.specs.Copies.{Matches, copies};
ghost use Rattle.seq_status.specs.Words.{IsStatus, word_of};
ghost use Rattle.seq_status.specs.declared.step.Step.TheVariants.{Next};
ghost use Rattle.seq_recover.specs.Turns.{recovery_word, claimed_turn};
ghost use Rattle.seq_recover.specs.Needs.{ClaimedNeeds};
ghost use Rattle.seq_recover.specs.Stands.{CopyingKnows};

use crate::words::write_status;
use crate::{Claimed, Copying, Recovery, Step};
use seq_layout::Layout;
use seq_memory::Memories;
use seq_status::{Holder, Status};
use seq_words::{MachineDesc, Pid};

impl Recovery<Claimed> {
    /// A recovery that begins: forward to the checkpoint that was committed, else back to the last one. The incarnation of `holder` is
    /// below 2^48.
    pub fn start(pid: Pid, holder: Holder, forward: bool) -> Recovery<Claimed>
        ensures { result ≡ record { pid = pid; holder = holder; forward = forward; cursor = 0; stage = record {} } }
    {
        Recovery {
            pid,
            holder,
            forward,
            cursor: 0,
            stage: Claimed,
        }
    }

    // The status of the process while it is recovered.
    fn status(&self) -> Status
        requires { self.now.holder.incarnation < 2 ^ 48 }
        ensures word { word_of result ≡ recovery_word self.now.forward self.now.holder }
        ensures status { IsStatus result }
    {
        if self.forward {
            Status::Forward(self.holder)
        } else {
            Status::Back(self.holder)
        }
    }

    /// Writes the recovery's kind to the primary of the status word, in the second turn to its shadow.
    #[tactic(auto, unfolding(crate::specs::Turns::claimed_turn))]
    pub fn turn(
        self,
        memories: &mut Memories,
        layout: &Layout,
        desc: &MachineDesc,
    ) -> Step<Recovery<Claimed>, Recovery<Copying>>
        requires layout { layout.now ≡ shape_of desc.now }
        requires matches { Matches layout.now memories.old }
        requires needs { ClaimedNeeds desc.now self }
        ensures step { result ≡ (claimed_turn desc.now (copies layout.now memories.old) self).step }
        ensures copies { copies layout.now memories.new ≡ (claimed_turn desc.now (copies layout.now memories.old) self).copies }
        ensures matches { Matches layout.now memories.new }
        ensures copying { (r : _) → result ≡ Next r → CopyingKnows desc.now (copies layout.now memories.new) r }
    {
        let status = self.status();
        if self.cursor == 0 {
            write_status(self.pid, false, &status, memories, layout, desc);
            Step::Again(Recovery { cursor: 1, ..self })
        } else {
            write_status(self.pid, true, &status, memories, layout, desc);
            Step::Next(self.into_stage(Copying))
        }
    }
}
