// The second turns of claims: a process is taken up, or a lock is granted.
ghost use Rattle.std.specs.Prelude.{◌≡◌, ℕ, ◌<◌, length, map};
ghost use Rattle.std.specs.List.{range_with_len};
ghost use Rattle.seq_words.specs.Description.{IsDescription};
ghost use Rattle.seq_layout.specs.Places.{IsPlace};
ghost use Rattle.seq_layout.specs.Shapes.{shape_of};
ghost use Rattle.seq_layout.specs.Copies.{Matches, copies, IsServed, first_block};
ghost use Rattle.seq_layout.specs.Contexts.{IsContext};
ghost use Rattle.seq_cache.specs.Changes.{Changes};
ghost use Rattle.seq_process.specs.Contexts.{end_of};
ghost use Rattle.seq_turns.specs.Machines.{copies_after};
ghost use Rattle.seq_turns.specs.Reading.{context_of};
ghost use Rattle.seq_turns.specs.Operations.{taken_up, claims, acquires};
ghost use Rattle.seq_machine.specs.Here.{here, turned, change_of};
ghost use Rattle.seq_machine.specs.Needs.{MayBeTakenUp, ClaimNeeds, AcquireNeeds};

use crate::causes::{found, leave};
use crate::turned::Turned;
use seq_cache::Cache;
use seq_flat::End;
use seq_kernel::{Cause, Note, Reason, grant};
use seq_layout::{Context, Layout, blocks_to_context};
use seq_locks::{Claim, Claimed, Held, Shadow};
use seq_memory::Memories;
use seq_process::{Running, load};
use seq_turns::Hand;
use seq_words::{Block, MachineDesc, Pe, Pid, Seg};

// The eight blocks of a process's context, at their first copies.
fn context_blocks(pid: Pid, memories: &Memories, layout: &Layout) -> [Block; 8]
    requires matches { Matches layout.now memories.now }
    requires process { pid.0 < layout.now.processes }
    requires served { IsServed layout.now (copies layout.now memories.now) pid.0 }
    requires places { (k : ℕ) → k < 8 → IsPlace layout.now.blocks pid.0 k }
    ensures { result ≡ map (first_block layout.now (copies layout.now memories.now) pid.0) (range_with_len 0 8) }
{
    let extent = layout.process(pid);
    [
        *layout.first_block(memories, extent, 0),
        *layout.first_block(memories, extent, 1),
        *layout.first_block(memories, extent, 2),
        *layout.first_block(memories, extent, 3),
        *layout.first_block(memories, extent, 4),
        *layout.first_block(memories, extent, 5),
        *layout.first_block(memories, extent, 6),
        *layout.first_block(memories, extent, 7),
    ]
}

// The context of a process, at its first copy.
fn context_of(pid: Pid, memories: &Memories, layout: &Layout, desc: &MachineDesc) -> Context
    requires layout { layout.now ≡ shape_of desc.now }
    requires matches { Matches layout.now memories.now }
    requires process { pid.0 < length desc.now.processes }
    requires context { MayBeTakenUp desc.now (copies layout.now memories.now) pid.0 }
    ensures value { result ≡ context_of desc.now (copies layout.now memories.now) pid.0 }
    ensures inside { IsContext result }
{
    blocks_to_context(&context_blocks(pid, memories, layout)).unwrap()
}

// What a processor is about that takes a process up, as its context says: it runs the process, or leaves it if it has ended.
fn take_up(pid: Pid, memories: &Memories, layout: &Layout, desc: &MachineDesc) -> Hand
    requires layout { layout.now ≡ shape_of desc.now }
    requires matches { Matches layout.now memories.now }
    requires process { pid.0 < length desc.now.processes }
    requires context { MayBeTakenUp desc.now (copies layout.now memories.now) pid.0 }
    ensures { (cache : Changes) (i : ℕ) → result ≡ taken_up desc.now (here (copies layout.now memories.now) cache i) pid.0 (end_of (context_of desc.now (copies layout.now memories.now) pid.0)) }
{
    let running = load(pid, &context_of(pid, memories, layout, desc));
    match running.end {
        End::Live => Hand::Running(running),
        End::Exited(_) => leave(pid),
        End::Trapped(_, _) => leave(pid),
    }
}

/// The second turn of the claim of a process: where it is refused, the processor seeks on; else it takes the process up in this
/// turn, and its cache begins empty.
pub fn claiming(
    pid: Pid,
    claim: Claim<Shadow>,
    cache: &mut Cache,
    memories: &mut Memories,
    layout: &Layout,
    desc: &MachineDesc,
) -> Hand
    requires layout { layout.now ≡ shape_of desc.now }
    requires matches { Matches layout.now memories.old }
    requires needs { ClaimNeeds desc.now (copies layout.now memories.old) pid.0 claim }
    ensures hand { (i p : ℕ) → result ≡ (claims desc.now (here (copies layout.now memories.old) cache.old i) p pid.0 claim).hand }
    ensures copies { (i p : ℕ) → copies layout.now memories.new ≡ copies_after (claims desc.now (here (copies layout.now memories.old) cache.old i) p pid.0 claim).change (copies layout.now memories.old) }
    ensures cache { (i p : ℕ) → cache.new ≡ (claims desc.now (here (copies layout.now memories.old) cache.old i) p pid.0 claim).cache }
    ensures matches { Matches layout.now memories.new }
{
    let taken_up = take_up(pid, memories, layout, desc);
    match claim.turn(memories, layout) {
        Claimed::Got(Held) => {
            cache.clear();
            taken_up
        }
        Claimed::Refused(_) => Hand::Seek,
    }
}

/// The second turn of the claim of a segment's lock: where it is refused, the process waits for the one that the lock names; else
/// the step of the acquire is taken.
pub fn acquiring(
    mut running: Running,
    segment: Seg,
    claim: Claim<Shadow>,
    pe: Pe,
    incarnation: u64,
    memories: &mut Memories,
    layout: &Layout,
    desc: &MachineDesc,
) -> Turned
    requires description { IsDescription desc.now }
    requires layout { layout.now ≡ shape_of desc.now }
    requires matches { Matches layout.now memories.old }
    requires needs { AcquireNeeds desc.now (copies layout.now memories.old) running segment.0 claim }
    ensures hand { (cache : Changes) → result ≡ turned (acquires desc.now (here (copies layout.now memories.old) cache incarnation) pe.0 running segment claim) }
    ensures copies { (cache : Changes) → copies layout.now memories.new ≡ copies_after (change_of (acquires desc.now (here (copies layout.now memories.old) cache incarnation) pe.0 running segment claim)) (copies layout.now memories.old) }
    ensures matches { Matches layout.now memories.new }
{
    match claim.turn(memories, layout) {
        Claimed::Got(Held) => {
            let pid = running.pid;
            grant(&mut running, segment);
            Turned::Moved(Hand::Running(running), Note::Ran(pid))
        }
        Claimed::Refused(seen) => {
            let reason = Reason::Lock(segment, Pid((seen - 1) as u8));
            found(running, Cause::Wait(reason), 0, pe, incarnation, desc)
        }
    }
}
