// The turns of releases: of the segments that a cause gives up, and of a process that is left.
ghost use Rattle.std.specs.Prelude.{◌≡◌, ℕ, ◌^◌, ◌-◌};
ghost use Rattle.seq_words.specs.Description.{IsDescription};
ghost use Rattle.seq_layout.specs.Shapes.{shape_of};
ghost use Rattle.seq_layout.specs.Copies.{Matches, copies};
ghost use Rattle.seq_cache.specs.Changes.{Changes};
ghost use Rattle.seq_turns.specs.Machines.{copies_after};
ghost use Rattle.seq_turns.specs.Operations.{less, unlock_move, leave_move};
ghost use Rattle.seq_machine.specs.Here.{here};
ghost use Rattle.seq_machine.specs.Needs.{IsLockIn, UnlockNeeds, LeaveNeeds};

use crate::causes::follow;
use seq_kernel::Cause;
use seq_layout::{Layout, WordAt};
use seq_memory::Memories;
use seq_process::Running;
use seq_turns::{Hand, ReleaseAt};
use seq_words::{MachineDesc, Pid};

// The segments that are still to be released after the one whose lock word this is.
fn less(mask: u16, at: &WordAt, desc: &MachineDesc) -> u16
    requires description { IsDescription desc.now }
    requires lock { IsLockIn desc.now mask at.now }
    ensures { result ≡ less desc.now mask at.now }
{
    let segment = at.extent.0 - desc.processes.len() as u32;
    mask - (1 << segment)
}

/// A turn of the release of a segment, the lowest of the mask. After its second turn, the next segment follows, or what the cause
/// says.
pub fn unlocking(
    running: Running,
    cause: Cause,
    mask: u16,
    at: ReleaseAt,
    memories: &mut Memories,
    layout: &Layout,
    desc: &MachineDesc,
) -> Hand
    requires description { IsDescription desc.now }
    requires layout { layout.now ≡ shape_of desc.now }
    requires matches { Matches layout.now memories.old }
    requires needs { UnlockNeeds desc.now mask at }
    ensures hand { (c : Changes) (i p : ℕ) → result ≡ (unlock_move desc.now (here (copies layout.now memories.old) c i) p running cause mask at).hand }
    ensures copies { (c : Changes) (i p : ℕ) → copies layout.now memories.new ≡ copies_after (unlock_move desc.now (here (copies layout.now memories.old) c i) p running cause mask at).change (copies layout.now memories.old) }
    ensures matches { Matches layout.now memories.new }
{
    match at {
        ReleaseAt::Shadow(release) => {
            let next = release.turn(memories, layout);
            Hand::Unlocking(running, cause, mask, ReleaseAt::Primary(next))
        }
        ReleaseAt::Primary(release) => {
            let left = less(mask, &release.at, desc);
            release.turn(memories, layout);
            follow(running, cause, left, desc)
        }
    }
}

/// A turn of the release of a process that is left. After its second turn, the processor seeks.
pub fn leaving(
    pid: Pid,
    at: ReleaseAt,
    memories: &mut Memories,
    layout: &Layout,
    desc: &MachineDesc,
) -> Hand
    requires layout { layout.now ≡ shape_of desc.now }
    requires matches { Matches layout.now memories.old }
    requires needs { LeaveNeeds desc.now pid.0 at }
    ensures hand { (c : Changes) (i p : ℕ) → result ≡ (leave_move desc.now (here (copies layout.now memories.old) c i) p pid.0 at).hand }
    ensures copies { (c : Changes) (i p : ℕ) → copies layout.now memories.new ≡ copies_after (leave_move desc.now (here (copies layout.now memories.old) c i) p pid.0 at).change (copies layout.now memories.old) }
    ensures matches { Matches layout.now memories.new }
{
    match at {
        ReleaseAt::Shadow(release) => Hand::Leaving(
            pid,
            ReleaseAt::Primary(release.turn(memories, layout)),
        ),
        ReleaseAt::Primary(release) => {
            release.turn(memories, layout);
            Hand::Seek
        }
    }
}
