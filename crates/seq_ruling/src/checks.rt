// What a machine check names.
ghost use Rattle.std.specs.Prelude.{◌≡◌, ◌↔◌, ◌<◌, length, slice_index, Some, None};
ghost use Rattle.std.specs.Option.{option_map};
ghost use Rattle.seq_words.specs.declared.kinds.Blocker.{Blocker};
ghost use Rattle.seq_layout.specs.Copies.{Matches, copies};
ghost use Rattle.seq_ruling.specs.Ruling.{HaveRulingWords, AreHeldByOneOf};
ghost use Rattle.seq_ruling.specs.Checks.{is_out, out, another_out, blocker_of, MayStop, IsBlockedByMemory, IsBlockedByProcess};

use crate::awaiting;
use seq_layout::Layout;
use seq_memory::Memories;
use seq_words::{Blocker, Element, Me};

// Whether a memory isn't in service.
#[tactic(auto, using(crate::proofs::States::state_is))]
fn is_out(at: u8, memories: &Memories, layout: &Layout) -> bool
    requires matches { Matches layout.now memories.now }
    requires memory { at < layout.now.memories }
    ensures { result ≡ is_out (copies layout.now memories.now) at }
{
    !memories.elements.at(at as usize).in_service()
}

// The lowest memory that isn't in service.
#[tactic(auto, using(crate::proofs::Lowest::lowest_none))]
fn lowest_out(memories: &Memories, layout: &Layout) -> Option<Me>
    requires { Matches layout.now memories.now }
    ensures { result ≡ option_map (λ j. record { 0 = j }) (out layout.now (copies layout.now memories.now)) }
{
    for at in 0..layout.memory_count() {
        if is_out(at, memories, layout) {
            return Some(Me(at));
        }
    }
    None
}

// The lowest memory other than this one that isn't in service.
#[tactic(auto, using(crate::proofs::Lowest::lowest_none))]
fn another_out(me: Me, memories: &Memories, layout: &Layout) -> Option<Me>
    requires { Matches layout.now memories.now }
    ensures { result ≡ option_map (λ j. record { 0 = j }) (another_out layout.now (copies layout.now memories.now) me.0) }
{
    for at in 0..layout.memory_count() {
        if at != me.0 && is_out(at, memories, layout) {
            return Some(Me(at));
        }
    }
    None
}

// What a stop names.
fn blocker_of(
    stopped: Element,
    incarnations: &[u64],
    memories: &Memories,
    layout: &Layout,
) -> Option<Blocker>
    requires matches { Matches layout.now memories.now }
    requires words { HaveRulingWords layout.now (copies layout.now memories.now) }
    requires holders { AreHeldByOneOf (length incarnations.now) layout.now (copies layout.now memories.now) }
    ensures { result ≡ blocker_of layout.now (copies layout.now memories.now) (slice_index incarnations.now) stopped }
{
    match stopped {
        Element::Processor(_) => Some(Blocker::Memory(lowest_out(memories, layout)?)),
        Element::Memory(me) => match another_out(me, memories, layout) {
            Some(other) => Some(Blocker::Memory(other)),
            None => Some(Blocker::Process(awaiting(incarnations, memories, layout)?)),
        },
        Element::Io(_) => None,
    }
}

/// What a machine check names where an element stops, which it hasn't done yet: the lowest other memory that isn't in service;
/// else, for a memory, the lowest process that awaits recovery. None exactly where the stop is no machine check.
pub fn check(
    stopped: Element,
    incarnations: &[u64],
    memories: &Memories,
    layout: &Layout,
) -> Option<Blocker>
    requires matches { Matches layout.now memories.now }
    requires words { HaveRulingWords layout.now (copies layout.now memories.now) }
    requires holders { AreHeldByOneOf (length incarnations.now) layout.now (copies layout.now memories.now) }
    ensures value { result ≡ blocker_of layout.now (copies layout.now memories.now) (slice_index incarnations.now) stopped }
    ensures none { result ≡ None ↔ MayStop layout.now (copies layout.now memories.now) (slice_index incarnations.now) stopped }
    ensures memory { (me : _) → result ≡ Some (Blocker.Memory me) → IsBlockedByMemory layout.now (copies layout.now memories.now) stopped me.0 }
    ensures process { (pid : _) → result ≡ Some (Blocker.Process pid) → IsBlockedByProcess layout.now (copies layout.now memories.now) (slice_index incarnations.now) stopped pid.0 }
{
    blocker_of(stopped, incarnations, memories, layout)
}
