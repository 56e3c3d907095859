// A cause is found: the process is flushed, and then what the cause says follows.
ghost use Rattle.std.specs.Prelude.{◌≡◌, Some, None, true, false};
ghost use Rattle.seq_words.specs.Masks.{has_bit};
ghost use Rattle.seq_words.specs.Description.{IsDescription};
ghost use Rattle.seq_ruling.specs.Lowest.{lowest};
ghost use Rattle.seq_layout.specs.Copies.{Copies};
ghost use Rattle.seq_layout.specs.Contexts.{context_blocks};
ghost use Rattle.seq_cache.specs.Changes.{Changes};
ghost use Rattle.seq_process.specs.Contexts.{saved};
ghost use Rattle.seq_turns.specs.Reading.{status_word, lock_word};
ghost use Rattle.seq_turns.specs.Causes.{agree, leaves, after_releases, follows, finds};
ghost use Rattle.seq_machine.specs.Here.{here, turned};
ghost use Rattle.seq_machine.specs.Needs.{MayBeSaved};

use crate::turned::Turned;
use seq_flush::Flush;
use seq_kernel::{Cause, Note};
use seq_layout::{Extent, WordAt, context_to_blocks};
use seq_locks::Release;
use seq_process::{Running, save};
use seq_status::Holder;
use seq_turns::{FlushAt, Hand, ReleaseAt};
use seq_words::{Block, MachineDesc, Pe, Pid, has_bit};

/// The status word of a process.
pub fn status_word(pid: Pid) -> WordAt
    ensures { result ≡ status_word pid.0 }
{
    WordAt {
        extent: Extent(u32::from(pid.0)),
        word: 0,
    }
}

/// The lock word of a segment.
fn lock_word(segment: u8, desc: &MachineDesc) -> WordAt
    requires { IsDescription desc.now }
    ensures { result ≡ lock_word desc.now segment }
{
    WordAt {
        extent: Extent(desc.processes.len() as u32 + u32::from(segment)),
        word: 0,
    }
}

/// The process is left: its status word is released from the next turn on.
pub fn leave(pid: Pid) -> Hand
    ensures { result ≡ leaves pid.0 }
{
    Hand::Leaving(pid, ReleaseAt::Shadow(Release::start(status_word(pid))))
}

// The lowest segment of a mask, by its number.
#[tactic(auto, using(seq_ruling::proofs::Lowest::lowest_none, seq_ruling::proofs::Lowest::lowest_more))]
fn lowest_segment(mask: u16) -> Option<u8>
    ensures { result ≡ lowest (has_bit mask) 16 }
{
    for segment in 0..16 {
        if has_bit(mask, segment) {
            return Some(segment);
        }
    }
    None
}

// What follows when no segment is left to release.
fn after_releases(running: Running, cause: Cause) -> Hand
    ensures { result ≡ after_releases running cause }
{
    match cause {
        Cause::Release(_) => Hand::Running(running),
        Cause::Exit => leave(running.pid),
        Cause::Trap => leave(running.pid),
        Cause::Commit => Hand::Running(running),
        Cause::Yield => leave(running.pid),
        Cause::Wait(_) => leave(running.pid),
        Cause::Room => Hand::Running(running),
        Cause::Quantum => leave(running.pid),
    }
}

/// What follows a cause after the flush, or at once where nothing was to be flushed: the segments of the mask are released, the
/// lowest first, and then the process runs on or is left.
pub fn follow(running: Running, cause: Cause, mask: u16, desc: &MachineDesc) -> Hand
    requires { IsDescription desc.now }
    ensures { result ≡ follows desc.now running cause mask }
{
    match lowest_segment(mask) {
        Some(segment) => {
            let release = Release::start(lock_word(segment, desc));
            Hand::Unlocking(running, cause, mask, ReleaseAt::Shadow(release))
        }
        None => after_releases(running, cause),
    }
}

// The context of a process at a checkpoint, in its blocks. None exactly where the halves differ.
#[tactic(auto, using(crate::proofs::Halves::equal_halves, crate::proofs::Halves::differing_halves))]
fn checkpoint(running: &Running) -> Option<[Block; 8]>
    requires { MayBeSaved running.now }
    ensures same { agree running.now.pair ≡ true → result ≡ Some (context_blocks (saved running.now running.now.pair.a)) }
    ensures differ { agree running.now.pair ≡ false → result ≡ None }
{
    let context = save(running)?;
    Some(context_to_blocks(&context))
}

/// A cause is found, which releases the segments of the mask: where steps were taken since the last checkpoint, a flush begins,
/// or the processor stops since its halves differ; else what the cause says follows at once.
pub fn found(
    running: Running,
    cause: Cause,
    mask: u16,
    pe: Pe,
    incarnation: u64,
    desc: &MachineDesc,
) -> Turned
    requires description { IsDescription desc.now }
    requires process { MayBeSaved running }
    ensures { (p : Copies) (cache : Changes) → result ≡ turned (finds desc.now (here p cache incarnation) pe.0 running cache cause mask) }
{
    let note = Note::Found(running.pid, cause);
    if running.steps == 0 {
        return Turned::Moved(follow(running, cause, mask, desc), note);
    }
    let Some(context) = checkpoint(&running) else {
        return Turned::Stopped;
    };
    let flush = Flush::start(running.pid, Holder { pe, incarnation }, context);
    Turned::Moved(
        Hand::Flushing(running, cause, mask, FlushAt::Mark(flush)),
        note,
    )
}
