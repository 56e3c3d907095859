// The copying of a memory: the next unit is taken from its other copy, and after the last one the memory is in service.
ghost use Rattle.std.specs.Prelude.{◌≡◌, ◌≢◌, ℕ, suc, ◌+◌, ◌^◌, ◌<◌, ◌≤◌, true, not, nat_le, length, slice_get, Some};
ghost use Rattle.seq_words.specs.declared.description.MachineDesc.{MachineDesc};
ghost use Rattle.seq_memory.specs.States.{is_in_service, is_returning};
ghost use Rattle.seq_memory.specs.declared.element.State.TheVariants.{InService, Down};
ghost use Rattle.seq_layout.specs.Shapes.{shape_of};
ghost use Rattle.seq_layout.specs.Units.{units_of, StandsOn};
ghost use Rattle.seq_layout.specs.Copies.{Matches, copies, with_state};
ghost use Rattle.seq_turns.specs.Machines.{copies_after};
ghost use Rattle.seq_turns.specs.Recoveries.{next_of, service_after};
ghost use Rattle.seq_reintegrate.specs.Needs.{IsDescribed, CopyingNeeds};
ghost use Rattle.seq_reintegrate.specs.Rows.{IsUnitCopied};
ghost use Rattle.seq_reintegrate.specs.Stands.{CopyingKnows, AllEqual};
ghost use Rattle.seq_reintegrate.specs.Taken.{taken_from, taken_next};

use seq_layout::{Layout, Unit};
use seq_memory::{Memories, State};
use seq_words::Me;

// The number of the unit that is copied next.
fn next_unit(m: Me, memories: &Memories, layout: &Layout) -> u32
    requires matches { Matches layout.now memories.now }
    requires memory { m.0 < layout.now.memories }
    ensures { result ≡ next_of ((copies layout.now memories.now).state m.0) }
{
    match memories.elements.at(m.0 as usize).state {
        State::Copying { next } => next,
        State::Stale | State::Down | State::InService => 0,
    }
}

// Takes a unit of a memory from its other copy.
fn take_unit(m: Me, unit: &Unit, memories: &mut Memories, layout: &Layout)
    requires matches { Matches layout.now memories.old }
    requires needs { CopyingNeeds layout.now (copies layout.now memories.old) m.0 }
    requires stands { StandsOn layout.now m.0 unit.now }
    ensures copies { copies layout.now memories.new ≡ copies_after (taken_from layout.now.memories (copies layout.now memories.old) m.0 unit.now) (copies layout.now memories.old) }
    ensures matches { Matches layout.now memories.new }
{
    match *unit {
        Unit::Block(extent, n) => {
            let shadow = layout.memory(extent, false) != m;
            let block = *layout.read_block(memories, extent, n, !shadow);
            layout.set_block(memories, extent, n, shadow, &block);
        }
        Unit::Word(at) => {
            let shadow = layout.memory(at.extent, false) != m;
            let word = layout.read_word(memories, at, !shadow);
            layout.set_word(memories, at, shadow, word);
        }
    }
}

// Whether a memory has no unit from a number on.
fn is_past_last(m: Me, next: u32, layout: &Layout) -> bool
    requires { m.0 < layout.now.memories }
    ensures { result ≡ nat_le (length (units_of layout.now m.0)) next }
{
    layout.unit(m, next).is_none()
}

// The units of a memory below a number are copied: it is in service where these are all.
fn mark_done(m: Me, done: u32, memories: &mut Memories, layout: &Layout)
    requires matches { Matches layout.now memories.old }
    requires memory { m.0 < layout.now.memories }
    requires returning { is_returning ((copies layout.now memories.old).state m.0) ≡ true }
    ensures state { copies layout.now memories.new ≡ with_state (copies layout.now memories.old) m.0 (service_after (length (units_of layout.now m.0)) done) }
    ensures matches { Matches layout.now memories.new }
{
    if is_past_last(m, done, layout) {
        layout.enter_service(memories, m);
    } else {
        layout.mark_copied(memories, m, done);
    }
}

// Takes the unit of a memory with this number from its other copy, if there is one.
fn take_next(m: Me, next: u32, memories: &mut Memories, layout: &Layout)
    requires matches { Matches layout.now memories.old }
    requires needs { CopyingNeeds layout.now (copies layout.now memories.old) m.0 }
    ensures copies { copies layout.now memories.new ≡ copies_after (taken_next layout.now.memories (copies layout.now memories.old) m.0 (slice_get (units_of layout.now m.0) next)) (copies layout.now memories.old) }
    ensures matches { Matches layout.now memories.new }
{
    if let Some(unit) = layout.unit(m, next) {
        take_unit(m, &unit, memories, layout);
    }
}

/// Copies the next unit of a memory that is Stale or Copying from its other copy, and no other unit. After the last one the memory is
/// in service. Where it has no unit at all, none is copied, and it is in service after one call.
pub fn copy_unit(m: Me, memories: &mut Memories, layout: &Layout)
    requires described { IsDescribed layout.now }
    requires matches { Matches layout.now memories.old }
    requires needs { CopyingNeeds layout.now (copies layout.now memories.old) m.0 }
    ensures row { (d : MachineDesc) → layout.now ≡ shape_of d → IsUnitCopied d (copies layout.now memories.old) (copies layout.now memories.new) m.0 }
    ensures matches { Matches layout.now memories.new }
    ensures knows { CopyingKnows layout.now (copies layout.now memories.old) m.0 → CopyingKnows layout.now (copies layout.now memories.new) m.0 }
    ensures done { CopyingKnows layout.now (copies layout.now memories.old) m.0 → (copies layout.now memories.new).state m.0 ≡ InService → AllEqual layout.now (copies layout.now memories.new) m.0 }
    ensures needs { (copies layout.now memories.new).state m.0 ≢ InService → CopyingNeeds layout.now (copies layout.now memories.new) m.0 }
{
    let next = next_unit(m, memories, layout);
    take_next(m, next, memories, layout);
    mark_done(m, next + 1, memories, layout);
}
