// The plain turn of a processor: its process takes a step and goes on, and nothing else happens.
ghost use Rattle.std.specs.Prelude.{◌≡◌, ℕ, IfSome, None, true, false};
ghost use Rattle.seq_words.specs.Description.{IsDescription};
ghost use Rattle.seq_flat.specs.declared.state.End.TheVariants.{Live};
ghost use Rattle.seq_layout.specs.Shapes.{shape_of};
ghost use Rattle.seq_layout.specs.Copies.{Matches, copies};
ghost use Rattle.seq_kernel.specs.Bounds.{IsWithin, AreReadable};
ghost use Rattle.seq_process.specs.declared.running.Running.{Running};
ghost use Rattle.seq_turns.specs.declared.hand.Hand.TheVariants as hand;
ghost use Rattle.seq_turns.specs.Processors.{runs};
ghost use Rattle.seq_turns.specs.Reading.{copied_memory};
ghost use Rattle.seq_machine.specs.Here.{here};
ghost use Rattle.seq_machine.specs.Plain.{IsHardware, processor_of};
ghost use Rattle.seq_machine.specs.Settling.{held_copies};
ghost use Rattle.seq_machine.specs.Processors.{RunNeeds, MayTurn, local_turn, copied_by};
ghost use Rattle.seq_machine.specs.PlainTurns.{plain_move, GoesOn};

use crate::{Hardware, Processor};
use seq_cache::Cache;
use seq_kernel::step_plainly;
use seq_layout::Layout;
use seq_memory::Memories;
use seq_process::Running;
use seq_turns::Hand;
use seq_words::{MachineDesc, Pe, Pid};

// Takes the next step of a process that lives, where there is one and it is plain. Answers whether it was taken; else nothing has
// changed.
#[inline(always)]
fn go_on(
    running: &mut Running,
    cache: &mut Cache,
    memories: &Memories,
    layout: &Layout,
    desc: &MachineDesc,
) -> bool
    requires description { IsDescription desc.now }
    requires layout { layout.now ≡ shape_of desc.now }
    requires matches { Matches layout.now memories.now }
    requires readable { AreReadable desc.now (copies layout.now memories.now) }
    requires within { IsWithin desc.now running.old }
    requires live { running.old.end ≡ Live }
    ensures turn { result ≡ true → (p i : ℕ) → runs desc.now (here (copies layout.now memories.now) cache.old i) p running.old ≡ plain_move (hand.Running running.new) cache.new running.new.pid }
    ensures running { result ≡ false → running.new ≡ running.old }
    ensures cache { result ≡ false → cache.new ≡ cache.old }
{
    running.used < desc.quantum && step_plainly(running, cache, memories, layout, desc)
}

impl Processor {
    // The plain turn of a processor: the process that it runs. None where its turn is another one, and then nothing has changed.
    #[inline(always)]
    fn go_on(&mut self, memories: &Memories, layout: &Layout, desc: &MachineDesc) -> Option<Pid>
        requires description { IsDescription desc.now }
        requires layout { layout.now ≡ shape_of desc.now }
        requires matches { Matches layout.now memories.now }
        requires runs { (r : Running) → self.old.hand ≡ hand.Running r → RunNeeds desc.now (copies layout.now memories.now) r }
        ensures turn { IfSome result (λ pid. (i : ℕ → ℕ) (scan pe : ℕ) → local_turn desc.now (copies layout.now memories.now) self.old.cache i scan pe self.old.hand ≡ plain_move self.new.hand self.new.cache pid) }
        ensures stays { result ≡ None → self.new ≡ self.old }
    {
        let Hand::Running(running) = &mut self.hand else {
            return None;
        };
        if go_on(running, &mut self.cache, memories, layout, desc) {
            Some(running.pid)
        } else {
            None
        }
    }
}

impl Hardware {
    /// The plain turn of a processor by which no memory is copied: the process that took a step. None where its turn is another one,
    /// and then nothing has changed.
    #[inline(always)]
    pub(crate) fn plain_turn(&mut self, pe: Pe) -> Option<Pid>
        requires hardware { IsHardware self.old }
        requires may { MayTurn self.old pe.0 }
        requires own { copied_by (copied_memory self.old.desc (held_copies self.old)) (processor_of self.old pe.0).hand ≡ None }
        ensures goes { IfSome result (GoesOn self.old self.new pe) }
        ensures stays { result ≡ None → self.new ≡ self.old }
        ensures hardware { IsHardware self.new }
    {
        let processor = self.processors.at_mut(pe.0 as usize);
        processor.go_on(&self.memories, &self.layout, &self.desc)
    }
}
