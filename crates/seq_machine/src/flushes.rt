// The turns of a flush at any of its stages.
ghost use Rattle.std.specs.Prelude.{◌≡◌, ℕ, ◌<◌, ◌^◌};
ghost use Rattle.seq_words.specs.Description.{IsDescription};
ghost use Rattle.seq_layout.specs.Shapes.{shape_of};
ghost use Rattle.seq_layout.specs.Copies.{Matches, copies};
ghost use Rattle.seq_turns.specs.Machines.{copies_after};
ghost use Rattle.seq_turns.specs.Operations.{flush_move};
ghost use Rattle.seq_machine.specs.Here.{here};
ghost use Rattle.seq_machine.specs.Needs.{FlushAtNeeds, FlushingNeeds};
ghost use Rattle.seq_machine.specs.Flushes.{flush_turn, is_commit, running_after, note_of, entry_of};

use crate::causes::follow;
use seq_cache::Cache;
use seq_flush::Step;
use seq_kernel::{Cause, Note};
use seq_layout::Layout;
use seq_memory::Memories;
use seq_process::Running;
use seq_turns::{FlushAt, Hand};
use seq_words::{Entry, MachineDesc};

// A turn of a flush: the stage after it, or none where the flush is done.
fn turn(at: FlushAt, cache: &Cache, memories: &mut Memories, layout: &Layout) -> Option<FlushAt>
    requires matches { Matches layout.now memories.old }
    requires needs { FlushAtNeeds layout.now cache.now.changes at }
    ensures stage { result ≡ (flush_turn layout.now (copies layout.now memories.old) cache.now.changes at).step }
    ensures copies { copies layout.now memories.new ≡ (flush_turn layout.now (copies layout.now memories.old) cache.now.changes at).copies }
    ensures matches { Matches layout.now memories.new }
{
    match at {
        FlushAt::Mark(flush) => match flush.turn(memories, layout, cache) {
            Step::Again(flush) => Some(FlushAt::Mark(flush)),
            Step::Next(flush) => Some(FlushAt::First(flush)),
        },
        FlushAt::First(flush) => match flush.turn(memories, layout, cache) {
            Step::Again(flush) => Some(FlushAt::First(flush)),
            Step::Next(flush) => Some(FlushAt::Second(flush)),
        },
        FlushAt::Second(flush) => match flush.turn(memories, layout, cache) {
            Step::Again(flush) => Some(FlushAt::Second(flush)),
            Step::Next(flush) => Some(FlushAt::Close(flush)),
        },
        FlushAt::Close(flush) => match flush.turn(memories, layout, cache) {
            Step::Again(flush) => Some(FlushAt::Close(flush)),
            Step::Next(_) => None,
        },
    }
}

// Whether the next turn of a flush is the commit.
fn is_commit(at: &FlushAt, cache: &Cache) -> bool
    ensures { result ≡ is_commit cache.now.changes at.now }
{
    match at {
        FlushAt::Mark(_) => false,
        FlushAt::First(flush) => flush.ready(cache),
        FlushAt::Second(_) => false,
        FlushAt::Close(_) => false,
    }
}

// The process after a turn of its flush: no step is uncommitted after the commit.
fn running_after(commits: bool, running: Running) -> Running
    requires { running.commits < 2 ^ 47 }
    ensures { result ≡ running_after commits running }
{
    if commits {
        Running {
            steps: 0,
            commits: running.commits + 1,
            ..running
        }
    } else {
        running
    }
}

// The note of a turn of a flush.
fn note_of(commits: bool, running: &Running) -> Note
    ensures { result ≡ note_of commits running.now }
{
    if commits {
        Note::Committed(running.pid, running.steps)
    } else {
        Note::Moved
    }
}

/// What the next turn of a flush commits: the steps since the last checkpoint, in the turn of the commit.
pub fn entry_of(running: &Running, at: &FlushAt, cache: &Cache) -> Option<Entry>
    ensures { result ≡ entry_of (is_commit cache.now.changes at.now) running.now }
{
    is_commit(at, cache).then_some(Entry {
        pid: running.pid,
        count: running.steps,
    })
}

/// A turn of a flush, and its note. The last one empties the cache, and what the cause says follows.
pub fn flushing(
    running: Running,
    cause: Cause,
    mask: u16,
    at: FlushAt,
    cache: &mut Cache,
    memories: &mut Memories,
    layout: &Layout,
    desc: &MachineDesc,
) -> (Hand, Note)
    requires description { IsDescription desc.now }
    requires layout { layout.now ≡ shape_of desc.now }
    requires matches { Matches layout.now memories.old }
    requires needs { FlushingNeeds layout.now cache.old.changes running at }
    ensures hand { (i p : ℕ) → result.0 ≡ (flush_move desc.now (here (copies layout.now memories.old) cache.old i) p running cause mask at).hand }
    ensures note { (i p : ℕ) → result.1 ≡ (flush_move desc.now (here (copies layout.now memories.old) cache.old i) p running cause mask at).note }
    ensures copies { (i p : ℕ) → copies layout.now memories.new ≡ copies_after (flush_move desc.now (here (copies layout.now memories.old) cache.old i) p running cause mask at).change (copies layout.now memories.old) }
    ensures cache { (i p : ℕ) → cache.new ≡ (flush_move desc.now (here (copies layout.now memories.old) cache.old i) p running cause mask at).cache }
    ensures matches { Matches layout.now memories.new }
{
    let commits = is_commit(&at, cache);
    let note = note_of(commits, &running);
    match turn(at, cache, memories, layout) {
        Some(at) => {
            let after = running_after(commits, running);
            (Hand::Flushing(after, cause, mask, at), note)
        }
        None => {
            cache.clear();
            (follow(running, cause, mask, desc), note)
        }
    }
}
