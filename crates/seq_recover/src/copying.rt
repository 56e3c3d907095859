// The turns of Copying: each block of the process, and of each segment whose primary lock word names it, is copied over its other
// copy.
ghost use Rattle.std.specs.Prelude.{◌≡◌, ℕ, ◌+◌, ◌<◌, ◌≤◌, not, nat_le, length, slice_get, slice_index, IfSome, sum};
ghost use Rattle.std.specs.Option.{option_map};
ghost use Rattle.seq_words.specs.Description.{IsDescription};
ghost use Rattle.seq_layout.specs.Places.{IsPlace};
ghost use Rattle.seq_layout.specs.Shapes.{shape_of, blocks_of};
ghost use Rattle.seq_layout.specs.Copies.{Matches, copies, block_written};
ghost use Rattle.seq_status.specs.declared.step.Step.TheVariants.{Again, Next};
ghost use Rattle.seq_recover.specs.Reading.{block_of, named_blocks, recovered_blocks};
ghost use Rattle.seq_recover.specs.Turns.{block_copied, copying_turn};
ghost use Rattle.seq_recover.specs.Needs.{CopyingNeeds};
ghost use Rattle.seq_recover.specs.Stands.{AllServe, CopyingKnows, LocksKnows};

use crate::words::names;
use crate::{Copying, Locks, Recovery, Step};
use seq_layout::{Extent, Layout};
use seq_memory::Memories;
use seq_words::{Block, MachineDesc, Pid, Seg};

// How many blocks of a segment a recovery copies: all of them, if its primary lock word names the process.
fn named_blocks(
    pid: Pid,
    segment: Seg,
    memories: &Memories,
    layout: &Layout,
    desc: &MachineDesc,
) -> u32
    requires layout { layout.now ≡ shape_of desc.now }
    requires matches { Matches layout.now memories.now }
    requires segment { segment.0 < length desc.now.segments }
    ensures { result ≡ length (named_blocks desc.now (copies layout.now memories.now) pid.0 segment.0) }
{
    if names(pid, segment, false, memories, layout, desc) {
        layout.blocks(layout.segment(segment))
    } else {
        0
    }
}

// The block with this number among those that a recovery copies, if there is one.
fn block_at(
    pid: Pid,
    n: u32,
    memories: &Memories,
    layout: &Layout,
    desc: &MachineDesc,
) -> Option<(Extent, u32)>
    requires layout { layout.now ≡ shape_of desc.now }
    requires matches { Matches layout.now memories.now }
    requires process { pid.0 < length desc.now.processes }
    ensures block { option_map block_of result ≡ slice_get (recovered_blocks desc.now (copies layout.now memories.now) pid.0) n }
    ensures place { IfSome result (λ b. IsPlace layout.now.blocks b.0.0 b.1) }
{
    let own = layout.process(pid);
    let count = layout.blocks(own);
    if n < count {
        return Some((own, n));
    }
    let mut left = n - count;
    for segment in 0..layout.segments() {
        let count = named_blocks(pid, Seg(segment), memories, layout, desc);
        if left < count {
            return Some((layout.segment(Seg(segment)), left));
        }
        left -= count;
    }
    None
}

// A copy of a block, whether it is in service or not.
fn held_block(memories: &Memories, layout: &Layout, extent: Extent, n: u32, shadow: bool) -> Block
    requires matches { Matches layout.now memories.now }
    requires place { IsPlace layout.now.blocks extent.0 n }
    ensures { result ≡ (copies layout.now memories.now).block extent.0 n shadow }
{
    let (me, at) = layout.place(extent, n, shadow);
    memories.elements.at(me.0 as usize).blocks.get(at as usize)
}

// Copies a block to one of its copies from the other, where that one is in service.
fn copy_over(
    memories: &mut Memories,
    layout: &Layout,
    desc: &MachineDesc,
    extent: Extent,
    n: u32,
    to: bool,
)
    requires layout { layout.now ≡ shape_of desc.now }
    requires matches { Matches layout.now memories.old }
    requires place { IsPlace layout.now.blocks extent.0 n }
    ensures copies { copies layout.now memories.new ≡ block_written (shape_of desc.now) (copies layout.now memories.old) extent.0 n to ((copies layout.now memories.old).block extent.0 n (not to)) }
    ensures matches { Matches layout.now memories.new }
{
    let block = held_block(memories, layout, extent, n, !to);
    layout.write_block(memories, extent, n, to, &block);
}

impl Recovery<Copying> {
    // Whether no block comes after the next one.
    fn is_last(&self, memories: &Memories, layout: &Layout, desc: &MachineDesc) -> bool
        requires description { IsDescription desc.now }
        requires layout { layout.now ≡ shape_of desc.now }
        requires matches { Matches layout.now memories.now }
        requires needs { CopyingNeeds desc.now self.now }
        ensures { result ≡ nat_le (length (recovered_blocks desc.now (copies layout.now memories.now) self.now.pid.0)) (self.now.cursor + 1) }
    {
        block_at(self.pid, self.cursor + 1, memories, layout, desc).is_none()
    }

    // Copies the next block, if there is one: forward over its shadow, back over its primary.
    fn copy_next(&self, memories: &mut Memories, layout: &Layout, desc: &MachineDesc)
        requires layout { layout.now ≡ shape_of desc.now }
        requires matches { Matches layout.now memories.old }
        requires process { self.now.pid.0 < length desc.now.processes }
        ensures copies { copies layout.now memories.new ≡ block_copied desc.now (copies layout.now memories.old) self.now.forward (slice_get (recovered_blocks desc.now (copies layout.now memories.old) self.now.pid.0) self.now.cursor) }
        ensures matches { Matches layout.now memories.new }
    {
        let next = block_at(self.pid, self.cursor, memories, layout, desc);
        if let Some((extent, n)) = next {
            copy_over(memories, layout, desc, extent, n, self.forward);
        }
    }

    /// Copies the next block over its other copy: the primary over the shadow where the recovery goes forward, else the shadow over
    /// the primary. The turn of the last block moves on. It looks at the lock word of each segment, and at one block.
    #[tactic(auto, unfolding(crate::specs::Turns::copying_turn))]
    pub fn turn(
        self,
        memories: &mut Memories,
        layout: &Layout,
        desc: &MachineDesc,
    ) -> Step<Recovery<Copying>, Recovery<Locks>>
        requires description { IsDescription desc.now }
        requires layout { layout.now ≡ shape_of desc.now }
        requires matches { Matches layout.now memories.old }
        requires needs { CopyingNeeds desc.now self }
        ensures step { result ≡ (copying_turn desc.now (copies layout.now memories.old) self).step }
        ensures copies { copies layout.now memories.new ≡ (copying_turn desc.now (copies layout.now memories.old) self).copies }
        ensures matches { Matches layout.now memories.new }
        ensures copying { (r : _) → result ≡ Again r → AllServe layout.now (copies layout.now memories.old) → CopyingKnows desc.now (copies layout.now memories.old) self → CopyingKnows desc.now (copies layout.now memories.new) r }
        ensures locks { (r : _) → result ≡ Next r → AllServe layout.now (copies layout.now memories.old) → CopyingKnows desc.now (copies layout.now memories.old) self → LocksKnows desc.now (copies layout.now memories.new) r }
    {
        let last = self.is_last(memories, layout, desc);
        self.copy_next(memories, layout, desc);
        if last {
            Step::Next(self.into_stage(Locks))
        } else {
            Step::Again(Recovery {
                cursor: self.cursor + 1,
                ..self
            })
        }
    }
}
