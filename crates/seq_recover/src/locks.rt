// The turns of Locks: the lock words that name the process are cleared, but for those of segments that it holds.
ghost use Rattle.std.specs.Prelude.{◌≡◌, ◌*◌, ◌/◌, ◌<◌, ◌≤◌, true, length};
ghost use Rattle.seq_words.specs.Description.{IsDescription};
ghost use Rattle.seq_layout.specs.Shapes.{shape_of, segment_extent};
ghost use Rattle.seq_layout.specs.Copies.{Matches, copies, serves};
ghost use Rattle.seq_status.specs.declared.step.Step.TheVariants.{Again, Next};
ghost use Rattle.seq_recover.specs.Reading.{context_of, is_shadow, is_left, left_from};
ghost use Rattle.seq_recover.specs.Turns.{lock_cleared, locks_turn};
ghost use Rattle.seq_recover.specs.Needs.{HasContext, LocksNeeds};
ghost use Rattle.seq_recover.specs.Stands.{LocksKnows, ClosingKnows};

use crate::words::{lock_word, names};
use crate::{Closing, Locks, Recovery, Step};
use seq_layout::Layout;
use seq_memory::Memories;
use seq_words::{MachineDesc, Pid, Seg, block_word, has_bit};

/// The block of a context whose fifth number has a bit for each segment that the process holds.
const HELD_BLOCK: u32 = 4;

/// The place of that number in its block.
const HELD_PLACE: usize = 16;

// The segments that a process holds, as its context at its first copy says. It reads one block.
fn held(pid: Pid, memories: &Memories, layout: &Layout, desc: &MachineDesc) -> u16
    requires layout { layout.now ≡ shape_of desc.now }
    requires matches { Matches layout.now memories.now }
    requires process { pid.0 < length desc.now.processes }
    requires context { HasContext desc.now (copies layout.now memories.now) pid.0 }
    ensures { result ≡ (context_of desc.now (copies layout.now memories.now) pid.0).held }
{
    let block = layout.first_block(memories, layout.process(pid), HELD_BLOCK);
    block_word(block, HELD_PLACE) as u16
}

// Whether a lock word is to be cleared, for a process that holds these segments. Lock words are counted two for each segment:
// first its shadow, then its primary.
fn is_left(
    k: u8,
    held: u16,
    pid: Pid,
    memories: &Memories,
    layout: &Layout,
    desc: &MachineDesc,
) -> bool
    requires description { IsDescription desc.now }
    requires layout { layout.now ≡ shape_of desc.now }
    requires matches { Matches layout.now memories.now }
    requires word { k < 2 * length desc.now.segments }
    requires held { held ≡ (context_of desc.now (copies layout.now memories.now) pid.0).held }
    ensures { result ≡ is_left desc.now (copies layout.now memories.now) pid.0 k }
{
    let segment = Seg(k / 2);
    !has_bit(held, segment.0) && names(pid, segment, k % 2 == 0, memories, layout, desc)
}

// The lowest lock word from this one on that is to be cleared.
fn left_from(
    from: u8,
    held: u16,
    pid: Pid,
    memories: &Memories,
    layout: &Layout,
    desc: &MachineDesc,
) -> Option<u8>
    requires description { IsDescription desc.now }
    requires layout { layout.now ≡ shape_of desc.now }
    requires matches { Matches layout.now memories.now }
    requires from { from ≤ 2 * length desc.now.segments }
    requires held { held ≡ (context_of desc.now (copies layout.now memories.now) pid.0).held }
    ensures { result ≡ left_from desc.now (copies layout.now memories.now) pid.0 from }
{
    for k in from..2 * layout.segments() {
        if is_left(k, held, pid, memories, layout, desc) {
            return Some(k);
        }
    }
    None
}

// Clears a lock word, which is in service.
fn clear(k: u8, memories: &mut Memories, layout: &Layout, desc: &MachineDesc)
    requires layout { layout.now ≡ shape_of desc.now }
    requires matches { Matches layout.now memories.old }
    requires word { k < 2 * length desc.now.segments }
    requires serves { serves (shape_of desc.now) (copies layout.now memories.old) (segment_extent (shape_of desc.now) (k / 2)) (is_shadow k) ≡ true }
    ensures copies { copies layout.now memories.new ≡ lock_cleared desc.now (copies layout.now memories.old) k }
    ensures matches { Matches layout.now memories.new }
{
    let at = lock_word(Seg(k / 2), layout);
    layout.write_word(memories, at, k % 2 == 0, 0);
}

impl Recovery<Locks> {
    /// Clears the next lock word from the cursor on that names the process and whose segment its context doesn't hold, of each segment
    /// first the shadow. The cursor is behind it then.
    /// The turn that clears the last one moves on, and so does a turn that finds none and changes nothing.
    #[tactic(auto, unfolding(crate::specs::Turns::locks_turn))]
    pub fn turn(
        self,
        memories: &mut Memories,
        layout: &Layout,
        desc: &MachineDesc,
    ) -> Step<Recovery<Locks>, Recovery<Closing>>
        requires description { IsDescription desc.now }
        requires layout { layout.now ≡ shape_of desc.now }
        requires matches { Matches layout.now memories.old }
        requires needs { LocksNeeds desc.now (copies layout.now memories.old) self }
        ensures step { result ≡ (locks_turn desc.now (copies layout.now memories.old) self).step }
        ensures copies { copies layout.now memories.new ≡ (locks_turn desc.now (copies layout.now memories.old) self).copies }
        ensures matches { Matches layout.now memories.new }
        ensures locks { (r : _) → result ≡ Again r → LocksKnows desc.now (copies layout.now memories.old) self → LocksKnows desc.now (copies layout.now memories.new) r }
        ensures closing { (r : _) → result ≡ Next r → LocksKnows desc.now (copies layout.now memories.old) self → ClosingKnows desc.now (copies layout.now memories.new) r }
    {
        let pid = self.pid;
        let held = held(pid, memories, layout, desc);
        let next = left_from(self.cursor as u8, held, pid, memories, layout, desc);
        let Some(k) = next else {
            return Step::Next(self.into_stage(Closing));
        };
        let more = left_from(k + 1, held, pid, memories, layout, desc).is_some();
        clear(k, memories, layout, desc);
        if more {
            Step::Again(Recovery {
                cursor: u32::from(k) + 1,
                ..self
            })
        } else {
            Step::Next(self.into_stage(Closing))
        }
    }
}
