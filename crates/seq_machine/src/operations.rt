// The turns of a processor that is amid an operation.
ghost use Rattle.std.specs.Prelude.{◌≡◌, ℕ, None};
ghost use Rattle.seq_words.specs.Description.{IsDescription};
ghost use Rattle.seq_words.specs.declared.description.MachineDesc.{MachineDesc};
ghost use Rattle.seq_layout.specs.Shapes.{shape_of};
ghost use Rattle.seq_layout.specs.Copies.{Copies, Matches, copies};
ghost use Rattle.seq_turns.specs.Machines.{copies_after};
ghost use Rattle.seq_turns.specs.Processors.{turn};
ghost use Rattle.seq_machine.specs.Here.{here, turned, change_of, cache_after, commit_of};
ghost use Rattle.seq_machine.specs.Needs.{IsOperating, NeedsOf};

use crate::claims::{acquiring, claiming};
use crate::flushes::{entry_of, flushing};
use crate::releases::{leaving, unlocking};
use crate::turned::Turned;
use seq_cache::Cache;
use seq_kernel::Note;
use seq_layout::Layout;
use seq_memory::Memories;
use seq_turns::Hand;
use seq_words::{Entry, MachineDesc, Pe};

/// The entry that the next turn of a processor that is amid an operation commits, if it commits one.
#[inline(always)]
pub fn commit_of(hand: &Hand, cache: &Cache) -> Option<Entry>
    ensures entry { (d : MachineDesc) (p : Copies) (i pe : ℕ) → IsOperating hand.now → result ≡ commit_of (turn d (here p cache.now i) pe hand.now) }
    ensures none { (IsOperating hand.now → ⊥) → result ≡ None }
{
    match hand {
        Hand::Flushing(running, _, _, at) => entry_of(running, at, cache),
        _ => None,
    }
}

/// A turn of a processor that is amid an operation other than a recovery.
pub fn operate(
    hand: Hand,
    pe: Pe,
    incarnation: u64,
    cache: &mut Cache,
    memories: &mut Memories,
    layout: &Layout,
    desc: &MachineDesc,
) -> Turned
    requires description { IsDescription desc.now }
    requires layout { layout.now ≡ shape_of desc.now }
    requires matches { Matches layout.now memories.old }
    requires operating { IsOperating hand }
    requires needs { NeedsOf desc.now (copies layout.now memories.old) cache.old hand }
    ensures hand { result ≡ turned (turn desc.now (here (copies layout.now memories.old) cache.old incarnation) pe.0 hand) }
    ensures copies { copies layout.now memories.new ≡ copies_after (change_of (turn desc.now (here (copies layout.now memories.old) cache.old incarnation) pe.0 hand)) (copies layout.now memories.old) }
    ensures cache { cache.new ≡ cache_after cache.old (turn desc.now (here (copies layout.now memories.old) cache.old incarnation) pe.0 hand) }
    ensures matches { Matches layout.now memories.new }
{
    match hand {
        Hand::Claiming(pid, claim) => {
            let hand = claiming(pid, claim, cache, memories, layout, desc);
            Turned::Moved(hand, Note::Moved)
        }
        Hand::Acquiring(running, segment, claim) => acquiring(
            running,
            segment,
            claim,
            pe,
            incarnation,
            memories,
            layout,
            desc,
        ),
        Hand::Flushing(running, cause, mask, at) => {
            let (hand, note) = flushing(running, cause, mask, at, cache, memories, layout, desc);
            Turned::Moved(hand, note)
        }
        Hand::Unlocking(running, cause, mask, at) => {
            let hand = unlocking(running, cause, mask, at, memories, layout, desc);
            Turned::Moved(hand, Note::Moved)
        }
        Hand::Leaving(pid, at) => {
            let hand = leaving(pid, at, memories, layout, desc);
            Turned::Moved(hand, Note::Moved)
        }
        Hand::Down => unreachable!(),
        Hand::Seek => unreachable!(),
        Hand::Running(_) => unreachable!(),
        Hand::Recovering(_) => unreachable!(),
    }
}
