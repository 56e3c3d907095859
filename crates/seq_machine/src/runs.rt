// A turn of a running process: where it stands, unless it leaves its processor.
ghost use Rattle.std.specs.Prelude.{◌≡◌, ℕ, ◌<◌, ◌≤◌, length, false};
ghost use Rattle.seq_words.specs.Description.{IsDescription};
ghost use Rattle.seq_flat.specs.declared.state.End.TheVariants.{Live};
ghost use Rattle.seq_layout.specs.Shapes.{shape_of};
ghost use Rattle.seq_layout.specs.Copies.{Matches, copies};
ghost use Rattle.seq_cache.specs.Changes.{Changes};
ghost use Rattle.seq_kernel.specs.Bounds.{IsWithin, AreReadable};
ghost use Rattle.seq_locks.specs.Turns.{word_at};
ghost use Rattle.seq_turns.specs.Machines.{copies_after};
ghost use Rattle.seq_turns.specs.Reading.{lock_word};
ghost use Rattle.seq_turns.specs.Causes.{released};
ghost use Rattle.seq_turns.specs.Processors.{runs, acquisition};
ghost use Rattle.seq_machine.specs.Here.{here, turned, change_of};
ghost use Rattle.seq_machine.specs.Needs.{MayBeSaved};
ghost use Rattle.seq_machine.specs.Runs.{comes_to, turn_after};

use crate::causes::found;
use crate::turned::Turned;
use seq_cache::Cache;
use seq_kernel::{Cause, Note, Outcome, Reason, step};
use seq_layout::{Layout, WordAt};
use seq_locks::{Claim, Claimed};
use seq_memory::Memories;
use seq_process::Running;
use seq_turns::Hand;
use seq_words::{MachineDesc, Pe, Pid, Seg};

/// What a turn of a running process comes to.
#[derive(Clone, Copy, Debug, PartialEq, Eq)]
pub enum Ran {
    /// It took a step, and goes on.
    Goes,
    /// It is to be flushed or left for this cause, which releases the segments of the mask.
    Leaves(Cause, u16),
    /// It acquires this segment, which its lock decides.
    Acquires(Seg),
    /// Its halves differ.
    Stops,
}

// The segments that a cause releases, of a process that held these.
fn released(held: u16, cause: Cause) -> u16
    requires { (segment : Seg) → cause ≡ Cause.Release segment → segment.0 < 16 }
    ensures { result ≡ released held cause }
{
    match cause {
        Cause::Release(segment) => 1 << segment.0,
        Cause::Exit => held,
        Cause::Trap => held,
        Cause::Commit => 0,
        Cause::Yield => 0,
        Cause::Wait(_) => 0,
        Cause::Room => 0,
        Cause::Quantum => 0,
    }
}

// What a step comes to, of a process that held these segments.
#[inline(always)]
fn comes_to(held: u16, outcome: Outcome) -> Ran
    requires { (segment : Seg) → outcome ≡ Outcome.NeedsFlush (Cause.Release segment) → segment.0 < 16 }
    ensures { result ≡ comes_to held outcome }
{
    match outcome {
        Outcome::Done => Ran::Goes,
        Outcome::Claim(segment) => Ran::Acquires(segment),
        Outcome::NeedsFlush(cause) => Ran::Leaves(cause, released(held, cause)),
        Outcome::Waits(reason) => Ran::Leaves(Cause::Wait(reason), 0),
        Outcome::Diverged => Ran::Stops,
    }
}

/// A turn of a process that lives. It is left once it has taken as many steps as it may since its claim; else it takes its next
/// step, and nothing is moved or made for it.
#[inline(always)]
pub fn run(
    running: &mut Running,
    cache: &mut Cache,
    memories: &Memories,
    layout: &Layout,
    desc: &MachineDesc,
) -> Ran
    requires description { IsDescription desc.now }
    requires layout { layout.now ≡ shape_of desc.now }
    requires matches { Matches layout.now memories.now }
    requires readable { AreReadable desc.now (copies layout.now memories.now) }
    requires within { IsWithin desc.now running.old }
    requires process { MayBeSaved running.old }
    requires live { running.old.end ≡ Live }
    ensures turn { (p i : ℕ) → runs desc.now (here (copies layout.now memories.now) cache.old i) p running.old ≡ turn_after desc.now (here (copies layout.now memories.now) cache.new i) p running.new cache.new result }
    ensures process { MayBeSaved running.new }
    ensures pid { running.new.pid ≡ running.old.pid }
    ensures capacity { cache.new.capacity ≡ cache.old.capacity }
    ensures segment { (segment : Seg) → result ≡ Ran.Acquires segment → segment.0 < length desc.now.segments }
{
    if running.used >= desc.quantum {
        return Ran::Leaves(Cause::Quantum, 0);
    }
    let held = running.held;
    let outcome = step(running, cache, memories, layout, desc);
    comes_to(held, outcome)
}

/// The first turn of the claim of a segment's lock, by a process that acquires the segment. Where it is refused, the process waits
/// for the one that the lock names.
pub fn acquire(
    running: Running,
    segment: Seg,
    pe: Pe,
    incarnation: u64,
    memories: &mut Memories,
    layout: &Layout,
    desc: &MachineDesc,
) -> Turned
    requires description { IsDescription desc.now }
    requires layout { layout.now ≡ shape_of desc.now }
    requires matches { Matches layout.now memories.old }
    requires segment { segment.0 < length desc.now.segments }
    requires named { word_at (copies layout.now memories.old) (lock_word desc.now segment.0) false ≤ length desc.now.processes }
    requires process { MayBeSaved running }
    ensures turned { (cache : Changes) → result ≡ turned (acquisition desc.now (here (copies layout.now memories.old) cache incarnation) pe.0 running segment) }
    ensures copies { (cache : Changes) → copies layout.now memories.new ≡ copies_after (change_of (acquisition desc.now (here (copies layout.now memories.old) cache incarnation) pe.0 running segment)) (copies layout.now memories.old) }
    ensures matches { Matches layout.now memories.new }
{
    let at = WordAt {
        extent: layout.segment(segment),
        word: 0,
    };
    match Claim::start(at, u64::from(running.pid.0) + 1).turn(memories, layout) {
        Claimed::Got(claim) => Turned::Moved(Hand::Acquiring(running, segment, claim), Note::Moved),
        Claimed::Refused(seen) => {
            let reason = Reason::Lock(segment, Pid((seen - 1) as u8));
            found(running, Cause::Wait(reason), 0, pe, incarnation, desc)
        }
    }
}
