// Whole recoveries of a process, back and forward, turn by turn.
ghost use Rattle.std.specs.Prelude.{◌≡◌, ◌<◌, true, map, IfOk, IfSome};
ghost use Rattle.std.specs.List.{range_with_len};
ghost use Rattle.seq_words.specs.Description.{IsDescription};
ghost use Rattle.seq_samples.specs.Samples as samples;
ghost use Rattle.seq_layout.specs.Places.{IsPlace};
ghost use Rattle.seq_layout.specs.Shapes.{shape_of};
ghost use Rattle.seq_layout.specs.Copies.{Matches, copies, IsServed, first_block};
ghost use Rattle.seq_recover.specs.Needs.{HasContext};

use crate::{Claimed, Closing, Copying, Locks, Recovered, Recovery, Step};
use seq_layout::{Extent, Layout, WordAt, blocks_to_context};
use seq_memory::Memories;
use seq_samples::two_segments;
use seq_status::Holder;
use seq_words::{Block, MachineDesc, NoMemory, Pe, Pid};
use std::alloc::Global;

const HOLDER: Holder = Holder {
    pe: Pe(3),
    incarnation: 0x1234,
};

// The process, and the two segments.
const PROCESS: Extent = Extent(0);

const FIRST: Extent = Extent(1);

const SECOND: Extent = Extent(2);

// A lock word that names the process, and one that names another.
const ITS: u64 = 1;

const ANOTHERS: u64 = 2;

// The status word of a process that ran.
const RAN: u64 = 0x0201;

// A machine of one process, which has eight blocks of context and two of its own, and of two segments of one block, on two memories.
#[derive(Drop)]
struct Machine {
    desc: MachineDesc,
    layout: Layout,
    memories: Memories,
}

fn started(alloc: Global) -> Result<Machine, NoMemory>
    ensures desc { IfOk result (λ m. m.desc ≡ samples.two_segments) }
    ensures described { IfOk result (λ m. IsDescription m.desc) }
    ensures layout { IfOk result (λ m. m.layout ≡ shape_of m.desc) }
    ensures matches { IfOk result (λ m. Matches m.layout m.memories) }
{
    let desc = two_segments(alloc)?;
    let layout = Layout::new(alloc, &desc)?;
    let memories = layout.memories(alloc)?;
    Ok(Machine {
        desc,
        layout,
        memories,
    })
}

fn has_block(layout: &Layout, extent: Extent, n: u32) -> bool
    ensures { result ≡ true → IsPlace layout.now.blocks extent.0 n }
{
    (extent.0 as usize) < layout.extents() && n < layout.blocks(extent)
}

fn has_word(layout: &Layout, extent: Extent) -> bool
    ensures { result ≡ true → IsPlace layout.now.words extent.0 0 }
{
    (extent.0 as usize) < layout.extents() && 0 < layout.words(extent)
}

// Puts ones into the primary of a block, and twos into its shadow.
fn differ(memories: &mut Memories, layout: &Layout, extent: Extent, n: u32)
    requires { Matches layout.now memories.old }
    ensures { Matches layout.now memories.new }
{
    if has_block(layout, extent, n) {
        layout.write_block(memories, extent, n, false, &Block { bytes: [1; 32] });
        layout.write_block(memories, extent, n, true, &Block { bytes: [2; 32] });
    }
}

// Puts a word into both of its copies.
fn set(memories: &mut Memories, layout: &Layout, extent: Extent, value: u64)
    requires { Matches layout.now memories.old }
    ensures { Matches layout.now memories.new }
{
    if has_word(layout, extent) {
        let at = WordAt { extent, word: 0 };
        layout.write_word(memories, at, false, value);
        layout.write_word(memories, at, true, value);
    }
}

// The context of the process says on both copies that it holds these segments.
fn hold(memories: &mut Memories, layout: &Layout, held: u8)
    requires { Matches layout.now memories.old }
    ensures { Matches layout.now memories.new }
{
    if has_block(layout, PROCESS, 4) {
        let mut block = Block::zero();
        block.bytes[16] = held;
        layout.write_block(memories, PROCESS, 4, false, &block);
        layout.write_block(memories, PROCESS, 4, true, &block);
    }
}

// The process was left amid its steps: its blocks, and those of both segments, differ on their copies. It has the first segment,
// and another process has the second.
fn leave(memories: &mut Memories, layout: &Layout, held: u8)
    requires { Matches layout.now memories.old }
    ensures { Matches layout.now memories.new }
{
    differ(memories, layout, PROCESS, 8);
    differ(memories, layout, PROCESS, 9);
    differ(memories, layout, FIRST, 0);
    differ(memories, layout, SECOND, 0);
    set(memories, layout, PROCESS, RAN);
    set(memories, layout, FIRST, ITS);
    set(memories, layout, SECOND, ANOTHERS);
    hold(memories, layout, held);
}

fn context_blocks(memories: &Memories, layout: &Layout) -> [Block; 8]
    requires matches { Matches layout.now memories.now }
    requires served { IsServed layout.now (copies layout.now memories.now) 0 }
    requires places { IsPlace layout.now.blocks 0 7 }
    ensures { result ≡ map (first_block layout.now (copies layout.now memories.now) 0) (range_with_len 0 8) }
{
    [
        *layout.first_block(memories, PROCESS, 0),
        *layout.first_block(memories, PROCESS, 1),
        *layout.first_block(memories, PROCESS, 2),
        *layout.first_block(memories, PROCESS, 3),
        *layout.first_block(memories, PROCESS, 4),
        *layout.first_block(memories, PROCESS, 5),
        *layout.first_block(memories, PROCESS, 6),
        *layout.first_block(memories, PROCESS, 7),
    ]
}

fn has_context(memories: &Memories, layout: &Layout, desc: &MachineDesc) -> bool
    requires layout { layout.now ≡ shape_of desc.now }
    requires matches { Matches layout.now memories.now }
    ensures { result ≡ true → HasContext desc.now (copies layout.now memories.now) 0 }
{
    let first = layout.first_is_shadow(PROCESS, memories);
    layout.serves(memories, PROCESS, first)
        && has_block(layout, PROCESS, 7)
        && blocks_to_context(&context_blocks(memories, layout)).is_some()
}

// A recovery at one of its stages, or at its end.
#[derive(Drop)]
enum At {
    Claimed(Recovery<Claimed>),
    Copying(Recovery<Copying>),
    Locks(Recovery<Locks>),
    Closing(Recovery<Closing>),
    Recovered,
}

// Each takes the next turn of its stage: what comes after it, or nothing where it may not be taken.
fn claim(
    recovery: Recovery<Claimed>,
    memories: &mut Memories,
    layout: &Layout,
    desc: &MachineDesc,
) -> Option<At>
    requires desc { desc.now ≡ samples.two_segments }
    requires layout { layout.now ≡ shape_of desc.now }
    requires matches { Matches layout.now memories.old }
    ensures { Matches layout.now memories.new }
{
    if recovery.pid.0 != 0 || recovery.holder.incarnation >= 0x1_0000_0000 {
        return None;
    }
    Some(match recovery.turn(memories, layout, desc) {
        Step::Again(again) => At::Claimed(again),
        Step::Next(next) => At::Copying(next),
    })
}

fn copy(
    recovery: Recovery<Copying>,
    memories: &mut Memories,
    layout: &Layout,
    desc: &MachineDesc,
) -> Option<At>
    requires desc { desc.now ≡ samples.two_segments }
    requires description { IsDescription desc.now }
    requires layout { layout.now ≡ shape_of desc.now }
    requires matches { Matches layout.now memories.old }
    ensures { Matches layout.now memories.new }
{
    if recovery.pid.0 != 0 || recovery.cursor > 12 {
        return None;
    }
    Some(match recovery.turn(memories, layout, desc) {
        Step::Again(again) => At::Copying(again),
        Step::Next(next) => At::Locks(next),
    })
}

fn clear(
    recovery: Recovery<Locks>,
    memories: &mut Memories,
    layout: &Layout,
    desc: &MachineDesc,
) -> Option<At>
    requires desc { desc.now ≡ samples.two_segments }
    requires description { IsDescription desc.now }
    requires layout { layout.now ≡ shape_of desc.now }
    requires matches { Matches layout.now memories.old }
    ensures { Matches layout.now memories.new }
{
    if recovery.pid.0 != 0 || recovery.cursor > 4 || !has_context(memories, layout, desc) {
        return None;
    }
    Some(match recovery.turn(memories, layout, desc) {
        Step::Again(again) => At::Locks(again),
        Step::Next(next) => At::Closing(next),
    })
}

fn close(
    recovery: Recovery<Closing>,
    memories: &mut Memories,
    layout: &Layout,
    desc: &MachineDesc,
) -> Option<At>
    requires desc { desc.now ≡ samples.two_segments }
    requires layout { layout.now ≡ shape_of desc.now }
    requires matches { Matches layout.now memories.old }
    ensures { Matches layout.now memories.new }
{
    if recovery.pid.0 != 0 {
        return None;
    }
    Some(match recovery.turn(memories, layout, desc) {
        Step::Again(again) => At::Closing(again),
        Step::Next(Recovered) => At::Recovered,
    })
}

// The next turn of a recovery, whatever its stage.
fn turn(at: At, memories: &mut Memories, layout: &Layout, desc: &MachineDesc) -> Option<At>
    requires desc { desc.now ≡ samples.two_segments }
    requires description { IsDescription desc.now }
    requires layout { layout.now ≡ shape_of desc.now }
    requires matches { Matches layout.now memories.old }
    ensures { Matches layout.now memories.new }
{
    match at {
        At::Claimed(recovery) => claim(recovery, memories, layout, desc),
        At::Copying(recovery) => copy(recovery, memories, layout, desc),
        At::Locks(recovery) => clear(recovery, memories, layout, desc),
        At::Closing(recovery) => close(recovery, memories, layout, desc),
        At::Recovered => None,
    }
}

// The number of a stage, where the recovery isn't at its end.
fn stage_of(at: &At) -> Option<usize>
    ensures { IfSome result (λ n. n < 4) }
{
    match at {
        At::Claimed(_) => Some(0),
        At::Copying(_) => Some(1),
        At::Locks(_) => Some(2),
        At::Closing(_) => Some(3),
        At::Recovered => None,
    }
}

// How many turns each stage of a recovery takes. None where one may not be taken, or they don't end soon.
fn recover(
    forward: bool,
    memories: &mut Memories,
    layout: &Layout,
    desc: &MachineDesc,
) -> Option<[u32; 4]>
    requires desc { desc.now ≡ samples.two_segments }
    requires description { IsDescription desc.now }
    requires layout { layout.now ≡ shape_of desc.now }
    requires matches { Matches layout.now memories.old }
    ensures { Matches layout.now memories.new }
{
    let mut turns: [u32; 4] = [0; 4];
    let mut at = At::Claimed(Recovery::start(Pid(0), HOLDER, forward));
    for _ in 0..40 {
        let Some(stage) = stage_of(&at) else {
            return Some(turns);
        };
        turns[stage] = turns[stage].saturating_add(1);
        at = turn(at, memories, layout, desc)?;
    }
    None
}

// The first byte of a copy of a block, where it is in service.
fn byte(memories: &Memories, layout: &Layout, extent: Extent, n: u32, shadow: bool) -> Option<u8>
    requires { Matches layout.now memories.now }
{
    if has_block(layout, extent, n) && layout.serves(memories, extent, shadow) {
        Some(layout.read_block(memories, extent, n, shadow).bytes[0])
    } else {
        None
    }
}

// A copy of word 0 of an extent, where it is in service.
fn word(memories: &Memories, layout: &Layout, extent: Extent, shadow: bool) -> Option<u64>
    requires { Matches layout.now memories.now }
{
    if has_word(layout, extent) && layout.serves(memories, extent, shadow) {
        Some(layout.read_word(memories, WordAt { extent, word: 0 }, shadow))
    } else {
        None
    }
}

// What a copy of each kind holds: the last block of the process, the block of each segment, and the three words.
#[derive(Drop, Debug, PartialEq, Eq)]
struct Shown {
    own: Option<u8>,
    first: Option<u8>,
    second: Option<u8>,
    status: Option<u64>,
    first_lock: Option<u64>,
    second_lock: Option<u64>,
}

fn kept(memories: &Memories, layout: &Layout, shadow: bool) -> Shown
    requires { Matches layout.now memories.now }
{
    Shown {
        own: byte(memories, layout, PROCESS, 9, shadow),
        first: byte(memories, layout, FIRST, 0, shadow),
        second: byte(memories, layout, SECOND, 0, shadow),
        status: word(memories, layout, PROCESS, shadow),
        first_lock: word(memories, layout, FIRST, shadow),
        second_lock: word(memories, layout, SECOND, shadow),
    }
}

// A recovery of the process that was left: how many turns each stage takes, and what the primaries and the shadows hold then.
fn outcome(
    alloc: Global,
    forward: bool,
    held: u8,
) -> Result<(Option<[u32; 4]>, Shown, Shown), NoMemory> {
    let mut machine = started(alloc)?;
    leave(&mut machine.memories, &machine.layout, held);
    let turns = recover(
        forward,
        &mut machine.memories,
        &machine.layout,
        &machine.desc,
    );
    let primaries = kept(&machine.memories, &machine.layout, false);
    let shadows = kept(&machine.memories, &machine.layout, true);
    Ok((turns, primaries, shadows))
}

// Ten blocks of the process and the one of the first segment are taken from the shadows. That segment isn't held at the last
// checkpoint, so both copies of its lock word are cleared. The second segment stays as it is.
#[test]
fn a_recovery_goes_back(rt: HostRuntime) -> Result<(), NoMemory> {
    let (turns, primaries, shadows) = outcome(rt.alloc(), false, 0)?;
    assert_eq!(rt; turns, Some([2, 11, 2, 2]));
    let cleared = Shown {
        own: Some(2),
        first: Some(2),
        second: Some(1),
        status: Some(0),
        first_lock: Some(0),
        second_lock: Some(ANOTHERS),
    };
    assert_eq!(rt; primaries, cleared);
    assert_eq!(rt;
        shadows,
        Shown {
            second: Some(2),
            ..cleared
        }
    );
    Ok(())
}

// The same blocks are taken from the primaries. The first segment is held at the checkpoint that was committed, so no lock word
// is cleared, and one turn finds that.
#[test]
fn a_recovery_goes_forward(rt: HostRuntime) -> Result<(), NoMemory> {
    let (turns, primaries, shadows) = outcome(rt.alloc(), true, 1)?;
    assert_eq!(rt; turns, Some([2, 11, 1, 2]));
    let held = Shown {
        own: Some(1),
        first: Some(1),
        second: Some(1),
        status: Some(0),
        first_lock: Some(ITS),
        second_lock: Some(ANOTHERS),
    };
    assert_eq!(rt; primaries, held);
    assert_eq!(rt;
        shadows,
        Shown {
            second: Some(2),
            ..held
        }
    );
    Ok(())
}
