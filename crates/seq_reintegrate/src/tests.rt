// Whole copyings of a memory, unit by unit, and the gate before them.
ghost use Rattle.std.specs.Prelude.{◌≡◌, ◌≢◌, ℕ, ◌<◌, true, length, IfOk};
ghost use Rattle.seq_words.specs.Description.{IsDescription};
ghost use Rattle.seq_memory.specs.States.{is_in_service};
ghost use Rattle.seq_memory.specs.declared.element.State.TheVariants.{Copying};
ghost use Rattle.seq_layout.specs.Places.{IsPlace};
ghost use Rattle.seq_layout.specs.Copies.{Matches, copies};
ghost use Rattle.seq_layout.specs.Units.{units_of};
ghost use Rattle.seq_reintegrate.specs.Needs.{IsDescribed, CopyingNeeds};

use crate::{copy_unit, gate};
use seq_layout::{Extent, Layout, WordAt};
use seq_memory::{Memories, State};
use seq_samples::{lone_process, three_memories, two_segments};
use seq_words::{Block, MachineDesc, Me, NoMemory, Pe};
use std::alloc::Global;

// The memories of a machine.
#[derive(Drop)]
struct Machine {
    layout: Layout,
    memories: Memories,
}

fn started(alloc: Global, desc: &MachineDesc) -> Result<Machine, NoMemory>
    requires { IsDescription desc.now }
    ensures described { IfOk result (λ m. IsDescribed m.layout) }
    ensures matches { IfOk result (λ m. Matches m.layout m.memories) }
{
    let layout = Layout::new(alloc, desc)?;
    let memories = layout.memories(alloc)?;
    Ok(Machine { layout, memories })
}

// One process alone on three memories: none of its extents stands on memory 2.
fn without_units(alloc: Global) -> Result<MachineDesc, NoMemory>
    ensures { IfOk result IsDescription }
{
    let mut desc = lone_process(alloc)?;
    desc.memories = 3;
    Ok(desc)
}

fn has_block(layout: &Layout, extent: Extent, n: u32) -> bool
    ensures { result ≡ true → IsPlace layout.now.blocks extent.0 n }
{
    (extent.0 as usize) < layout.extents() && n < layout.blocks(extent)
}

fn has_word(layout: &Layout, at: WordAt) -> bool
    ensures { result ≡ true → IsPlace layout.now.words at.extent.0 at.word }
{
    (at.extent.0 as usize) < layout.extents() && at.word < layout.words(at.extent)
}

// Puts a byte into both copies of a block.
fn put(memories: &mut Memories, layout: &Layout, extent: u32, n: u32, byte: u8)
    requires { Matches layout.now memories.old }
    ensures { Matches layout.now memories.new }
{
    let extent = Extent(extent);
    if has_block(layout, extent, n) {
        let block = Block { bytes: [byte; 32] };
        layout.write_block(memories, extent, n, false, &block);
        layout.write_block(memories, extent, n, true, &block);
    }
}

// Puts a number into both copies of a word.
fn put_word(memories: &mut Memories, layout: &Layout, extent: u32, word: u32, value: u64)
    requires { Matches layout.now memories.old }
    ensures { Matches layout.now memories.new }
{
    let at = WordAt {
        extent: Extent(extent),
        word,
    };
    if has_word(layout, at) {
        layout.write_word(memories, at, false, value);
        layout.write_word(memories, at, true, value);
    }
}

// The first byte of a copy of a block, whether the copy is in service or not. None where it is down.
fn byte(memories: &Memories, layout: &Layout, extent: u32, n: u32, shadow: bool) -> Option<u8>
    requires { Matches layout.now memories.now }
{
    let extent = Extent(extent);
    if has_block(layout, extent, n) {
        let (me, at) = layout.place(extent, n, shadow);
        let blocks = memories.elements.at(me.0 as usize).blocks.as_slice();
        blocks.get(at as usize).map(|block| block.bytes[0])
    } else {
        None
    }
}

// A copy of a word, in the same way.
fn word(memories: &Memories, layout: &Layout, extent: u32, word: u32, shadow: bool) -> Option<u64>
    requires { Matches layout.now memories.now }
{
    let at = WordAt {
        extent: Extent(extent),
        word,
    };
    if has_word(layout, at) {
        let (me, place) = layout.word_place(at, shadow);
        let words = memories.elements.at(me.0 as usize).words.as_slice();
        words.get(place as usize).copied()
    } else {
        None
    }
}

// A memory fails and is repaired.
fn lose(m: Me, memories: &mut Memories, layout: &Layout)
    requires { Matches layout.now memories.old }
    ensures { Matches layout.now memories.new }
{
    if m.0 < layout.memory_count() {
        layout.fail(memories, m);
        layout.repair(memories, m);
    }
}

// Whether a memory is in service, or is the one that is copied.
#[tactic(auto, using(seq_ruling::proofs::States::state_is))]
fn serves_or_is(at: u8, m: Me, memories: &Memories, layout: &Layout) -> bool
    requires matches { Matches layout.now memories.now }
    requires memory { at < layout.now.memories }
    ensures { result ≡ true → at ≢ m.0 → is_in_service ((copies layout.now memories.now).state at) ≡ true }
{
    at == m.0 || memories.elements.at(at as usize).in_service()
}

// Whether all memories but one are in service.
fn others_serve(m: Me, memories: &Memories, layout: &Layout) -> bool
    requires { Matches layout.now memories.now }
    ensures { result ≡ true → (j : ℕ) → j < layout.now.memories → j ≢ m.0 → is_in_service ((copies layout.now memories.now).state j) ≡ true }
{
    for at in 0..layout.memory_count() {
        if !serves_or_is(at, m, memories, layout) {
            return false;
        }
    }
    true
}

// Whether the unit that a memory says is next is one of its units.
fn has_next(m: Me, memories: &Memories, layout: &Layout) -> bool
    requires matches { Matches layout.now memories.now }
    requires memory { m.0 < layout.now.memories }
    ensures { result ≡ true → (n : ℕ) → (copies layout.now memories.now).state m.0 ≡ Copying n → n < length (units_of layout.now m.0) }
{
    match memories.elements.at(m.0 as usize).state {
        State::Copying { next } => layout.unit(m, next).is_some(),
        State::Stale | State::Down | State::InService => true,
    }
}

// Whether the next unit of a memory may be copied.
#[tactic(auto, using(seq_ruling::proofs::States::state_is))]
fn is_ready(m: Me, memories: &Memories, layout: &Layout) -> bool
    requires { Matches layout.now memories.now }
    ensures { result ≡ true → CopyingNeeds layout.now (copies layout.now memories.now) m.0 }
{
    m.0 < layout.memory_count()
        && memories.elements.at(m.0 as usize).is_returning()
        && has_next(m, memories, layout)
        && others_serve(m, memories, layout)
}

// Copies so many units of a memory, or fewer where none may be copied any more: how many calls were made.
fn copy(m: Me, most: u32, memories: &mut Memories, layout: &Layout) -> u32
    requires described { IsDescribed layout.now }
    requires matches { Matches layout.now memories.old }
    ensures { Matches layout.now memories.new }
{
    for calls in 0..most {
        if !is_ready(m, memories, layout) {
            return calls;
        }
        copy_unit(m, memories, layout);
    }
    most
}

fn state(m: Me, memories: &Memories) -> Option<State> {
    let element = memories.elements.as_slice().get(m.0 as usize)?;
    Some(element.state)
}

// What memory 0 of three shows: its state, a byte of the first and of the last block of process 0 and of the first segment, the
// status word, and the sent count of the second line.
#[derive(Clone, Copy, Debug, PartialEq, Eq)]
struct Shown {
    state: Option<State>,
    first: Option<u8>,
    last: Option<u8>,
    segment: Option<u8>,
    status: Option<u64>,
    sent: Option<u64>,
}

fn seen(memories: &Memories, layout: &Layout) -> Shown
    requires { Matches layout.now memories.now }
{
    Shown {
        state: state(Me(0), memories),
        first: byte(memories, layout, 0, 0, false),
        last: byte(memories, layout, 0, 9, false),
        segment: byte(memories, layout, 2, 0, true),
        status: word(memories, layout, 0, 0, false),
        sent: word(memories, layout, 5, 2, true),
    }
}

fn fill(memories: &mut Memories, layout: &Layout)
    requires { Matches layout.now memories.old }
    ensures { Matches layout.now memories.new }
{
    put(memories, layout, 0, 0, 11);
    put(memories, layout, 0, 9, 12);
    put_word(memories, layout, 0, 0, 13);
    put(memories, layout, 2, 0, 14);
    put_word(memories, layout, 5, 2, 15);
}

// What memory 0 shows after so many calls since its repair.
fn after_calls(alloc: Global, calls: u32) -> Result<(u32, Shown), NoMemory> {
    let desc = three_memories(alloc)?;
    let mut machine = started(alloc, &desc)?;
    fill(&mut machine.memories, &machine.layout);
    lose(Me(0), &mut machine.memories, &machine.layout);
    let made = copy(Me(0), calls, &mut machine.memories, &machine.layout);
    Ok((made, seen(&machine.memories, &machine.layout)))
}

const LOST: Shown = Shown {
    state: Some(State::Stale),
    first: Some(0),
    last: Some(0),
    segment: Some(0),
    status: Some(0),
    sent: Some(0),
};

// Memory 0 keeps the primaries of the first process and of the second segment, and the shadows of the first segment and of the second
// line: ten blocks and a word, a block and a word, two blocks and a word, three blocks and three words.
#[test]
fn a_memory_of_three_is_copied_unit_by_unit(rt: HostRuntime) -> Result<(), NoMemory> {
    let one = Shown {
        state: Some(State::Copying { next: 1 }),
        first: Some(11),
        ..LOST
    };
    let ten = Shown {
        state: Some(State::Copying { next: 10 }),
        last: Some(12),
        ..one
    };
    let eleven = Shown {
        state: Some(State::Copying { next: 11 }),
        status: Some(13),
        ..ten
    };
    let most = Shown {
        state: Some(State::Copying { next: 21 }),
        segment: Some(14),
        ..eleven
    };
    let all = Shown {
        state: Some(State::InService),
        sent: Some(15),
        ..most
    };
    for (calls, made, wanted) in [
        (0, 0, LOST),
        (1, 1, one),
        (10, 10, ten),
        (11, 11, eleven),
        (21, 21, most),
        (22, 22, all),
        (30, 22, all),
    ] {
        assert_eq!(rt; after_calls(rt.alloc(), calls)?, (made, wanted));
    }
    Ok(())
}

// How many calls copy the whole of a memory, which failed before after so many calls, and its state then.
fn whole(
    alloc: Global,
    desc: &MachineDesc,
    m: Me,
    before: u32,
) -> Result<(u32, Option<State>), NoMemory>
    requires { IsDescription desc.now }
{
    let mut machine = started(alloc, desc)?;
    lose(m, &mut machine.memories, &machine.layout);
    copy(m, before, &mut machine.memories, &machine.layout);
    lose(m, &mut machine.memories, &machine.layout);
    let calls = copy(m, 100, &mut machine.memories, &machine.layout);
    Ok((calls, state(m, &machine.memories)))
}

// Each of two memories keeps a copy of everything: eleven units of the process, and two of each segment. A memory that fails amid
// its copying is copied from the first unit on. One without units is in service after one call.
#[test]
fn whole_memories_are_copied(rt: HostRuntime) -> Result<(), NoMemory> {
    let alloc = rt.alloc();
    let served = Some(State::InService);
    let two = two_segments(alloc)?;
    let none = without_units(alloc)?;
    assert_eq!(rt; whole(alloc, &two, Me(1), 0)?, (15, served));
    assert_eq!(rt; whole(alloc, &two, Me(0), 7)?, (15, served));
    assert_eq!(rt; whole(alloc, &none, Me(2), 0)?, (1, served));
    Ok(())
}

#[test]
fn the_gate_names_the_first_that_is_amid(rt: HostRuntime) {
    for (hands, wanted) in [
        ([false, false, false, false], None),
        ([true, false, false, false], Some(Pe(0))),
        ([false, false, false, true], Some(Pe(3))),
        ([false, true, false, true], Some(Pe(1))),
    ] {
        assert_eq!(rt; gate(&hands), wanted);
    }
}
