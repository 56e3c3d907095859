// Whole flushes on two memories, turn by turn.
ghost use Rattle.std.specs.Prelude.{◌≡◌, ℕ, ◌+◌, ◌<◌, ◌≤◌, ◌^◌, [], ◌∷◌, length, IfOk, OnOk};
ghost use Rattle.seq_words.specs.declared.block.Block.{Block};
ghost use Rattle.seq_layout.specs.Places.{IsPlace};
ghost use Rattle.seq_layout.specs.Shapes.{Shape};
ghost use Rattle.seq_layout.specs.Copies.{Matches};
ghost use Rattle.seq_cache.specs.Changes.{put};
ghost use Rattle.seq_flush.specs.Units.{HavePlaces};
ghost use Rattle.seq_flush.specs.Turns.{into_stage};

use crate::{Close, Closed, First, Flush, Mark, Second, Step};
use seq_cache::Cache;
use seq_layout::{Extent, Layout, WordAt};
use seq_memory::Memories;
use seq_samples::two_segments;
use seq_status::Holder;
use seq_words::{Block, NoMemory, Pe, Pid};
use std::alloc::Global;

const HOLDER: Holder = Holder {
    pe: Pe(3),
    incarnation: 0x1234,
};

// The status word of a process that runs, and is held by that holder.
const RUNS: u64 = 0x1234_0301;

// The layout of two memories, a process of two blocks, and two segments of one block. Of extents 0 and 2, the primaries are
// on memory 0.
fn layout(alloc: Global) -> Result<Layout, NoMemory>
    ensures memories { IfOk result (λ l. l.memories ≡ 2) }
    ensures blocks { IfOk result (λ l. l.blocks ≡ 10 ∷ 1 ∷ 1 ∷ []) }
    ensures words { IfOk result (λ l. l.words ≡ 1 ∷ 1 ∷ 1 ∷ []) }
{
    let desc = two_segments(alloc)?;
    Layout::new(alloc, &desc)
}

// A block whose bytes are all the same.
fn filled(byte: u8) -> Block {
    Block { bytes: [byte; 32] }
}

// The context that a flush writes: the bytes of each block are its number and one.
fn context() -> [Block; 8] {
    [
        filled(1),
        filled(2),
        filled(3),
        filled(4),
        filled(5),
        filled(6),
        filled(7),
        filled(8),
    ]
}

// Changes a block.
fn write(cache: &mut Cache, extent: u32, n: u32, byte: u8) -> Result<(), NoMemory>
    ensures { OnOk result ((b : Block) × (cache.new.changes ≡ put extent n b cache.old.changes)) }
{
    match cache.write(Extent(extent), n, &filled(byte)) {
        Ok(()) => Ok(()),
        Err(_) => Err(NoMemory),
    }
}

// A cache with the two blocks of the process and the one of the second segment changed.
fn three_changes(alloc: Global) -> Result<Cache, NoMemory>
    ensures { IfOk result (λ c. (s : Shape) → s.blocks ≡ 10 ∷ 1 ∷ 1 ∷ [] → s.words ≡ 1 ∷ 1 ∷ 1 ∷ [] → HavePlaces s 0 c.changes) }
{
    let mut cache = Cache::new(alloc, 16)?;
    write(&mut cache, 2, 0, 11)?;
    write(&mut cache, 0, 9, 10)?;
    write(&mut cache, 0, 8, 9)?;
    Ok(cache)
}

// How many turns were taken, and which copies of process 0 are on the memory that fails after the fourth.
#[derive(Drop)]
struct Course {
    turns: u64,
    fails: Option<bool>,
}

impl Course {
    // Counts the next turn.
    fn count(&mut self, memories: &mut Memories, layout: &Layout)
        requires { Matches layout.now memories.old }
        ensures { Matches layout.now memories.new }
    {
        if self.turns == 4 {
            if let Some(shadow) = self.fails {
                layout.fail(memories, layout.memory(Extent(0), shadow));
            }
        }
        self.turns = self.turns.saturating_add(1);
    }
}

// Each takes all turns of a stage.
fn mark(
    course: &mut Course,
    memories: &mut Memories,
    layout: &Layout,
    cache: &Cache,
    mut flush: Flush<Mark>,
) -> Flush<First>
    requires matches { Matches layout.now memories.old }
    requires places { HavePlaces layout.now flush.pid.0 cache.now.changes }
    requires holder { flush.holder.incarnation < 2 ^ 48 }
    ensures matches { Matches layout.now memories.new }
    ensures next { result ≡ into_stage flush (record {}) }
{
    loop {
        course.count(memories, layout);
        match flush.turn(memories, layout, cache) {
            Step::Again(again) => flush = again,
            Step::Next(next) => return next,
        }
    }
}

fn first(
    course: &mut Course,
    memories: &mut Memories,
    layout: &Layout,
    cache: &Cache,
    mut flush: Flush<First>,
) -> Flush<Second>
    requires matches { Matches layout.now memories.old }
    requires places { HavePlaces layout.now flush.pid.0 cache.now.changes }
    requires holder { flush.holder.incarnation < 2 ^ 48 }
    ensures matches { Matches layout.now memories.new }
    ensures next { result ≡ into_stage flush (record {}) }
{
    loop {
        course.count(memories, layout);
        match flush.turn(memories, layout, cache) {
            Step::Again(again) => flush = again,
            Step::Next(next) => return next,
        }
    }
}

fn second(
    course: &mut Course,
    memories: &mut Memories,
    layout: &Layout,
    cache: &Cache,
    mut flush: Flush<Second>,
) -> Flush<Close>
    requires matches { Matches layout.now memories.old }
    requires places { HavePlaces layout.now flush.pid.0 cache.now.changes }
    requires holder { flush.holder.incarnation < 2 ^ 48 }
    requires cursor { flush.cursor ≤ length cache.now.changes + 8 }
    ensures matches { Matches layout.now memories.new }
    ensures next { result ≡ into_stage flush (record {}) }
{
    loop {
        course.count(memories, layout);
        match flush.turn(memories, layout, cache) {
            Step::Again(again) => flush = again,
            Step::Next(next) => return next,
        }
    }
}

fn close(
    course: &mut Course,
    memories: &mut Memories,
    layout: &Layout,
    cache: &Cache,
    mut flush: Flush<Close>,
) -> Closed
    requires matches { Matches layout.now memories.old }
    requires places { HavePlaces layout.now flush.pid.0 cache.now.changes }
    requires holder { flush.holder.incarnation < 2 ^ 48 }
    ensures matches { Matches layout.now memories.new }
{
    loop {
        course.count(memories, layout);
        match flush.turn(memories, layout, cache) {
            Step::Again(again) => flush = again,
            Step::Next(closed) => return closed,
        }
    }
}

// Takes all turns of a flush, and answers how many they were.
fn flush(memories: &mut Memories, layout: &Layout, cache: &Cache, fails: Option<bool>) -> u64
    requires matches { Matches layout.now memories.old }
    requires places { HavePlaces layout.now 0 cache.now.changes }
    ensures { Matches layout.now memories.new }
{
    let mut course = Course { turns: 0, fails };
    let begun = Flush::start(Pid(0), HOLDER, context());
    let marked = mark(&mut course, memories, layout, cache, begun);
    let committed = first(&mut course, memories, layout, cache, marked);
    let written = second(&mut course, memories, layout, cache, committed);
    let _closed = close(&mut course, memories, layout, cache, written);
    course.turns
}

// Whether a copy of a block is in service and holds this.
fn holds(
    memories: &Memories,
    layout: &Layout,
    extent: Extent,
    n: u32,
    shadow: bool,
    block: Block,
) -> bool
    requires matches { Matches layout.now memories.now }
    requires place { IsPlace layout.now.blocks extent.0 n }
{
    layout.serves(memories, extent, shadow)
        && *layout.read_block(memories, extent, n, shadow) == block
}

// Whether a copy of the status word of process 0 is in service and says that it runs.
fn runs(memories: &Memories, layout: &Layout, shadow: bool) -> bool
    requires matches { Matches layout.now memories.now }
    requires place { IsPlace layout.now.words 0 0 }
{
    let status = WordAt {
        extent: Extent(0),
        word: 0,
    };
    layout.serves(memories, status.extent, shadow)
        && layout.read_word(memories, status, shadow) == RUNS
}

// Whether all of these copies are in service and hold what was to be written: eight blocks of context, the two changed
// blocks of the process and the one of a segment, and the status word.
fn all_stand(memories: &Memories, layout: &Layout, shadow: bool) -> bool
    requires matches { Matches layout.now memories.now }
    requires blocks { layout.now.blocks ≡ 10 ∷ 1 ∷ 1 ∷ [] }
    requires words { layout.now.words ≡ 1 ∷ 1 ∷ 1 ∷ [] }
{
    for n in 0..10 {
        if !holds(memories, layout, Extent(0), n, shadow, filled(n as u8 + 1)) {
            return false;
        }
    }
    holds(memories, layout, Extent(2), 0, shadow, filled(11)) && runs(memories, layout, shadow)
}

// A machine with two memories, and a cache to be flushed.
#[derive(Drop)]
struct Machine {
    layout: Layout,
    memories: Memories,
    cache: Cache,
}

fn new_machine(alloc: Global) -> Result<Machine, NoMemory>
    ensures matches { IfOk result (λ b. Matches b.layout b.memories) }
    ensures places { IfOk result (λ b. HavePlaces b.layout 0 b.cache.changes) }
    ensures blocks { IfOk result (λ b. b.layout.blocks ≡ 10 ∷ 1 ∷ 1 ∷ []) }
    ensures words { IfOk result (λ b. b.layout.words ≡ 1 ∷ 1 ∷ 1 ∷ []) }
{
    let layout = layout(alloc)?;
    let memories = layout.memories(alloc)?;
    let cache = three_changes(alloc)?;
    Ok(Machine {
        layout,
        memories,
        cache,
    })
}

// A whole flush: how many turns it takes, and whether all stands then on the primaries, and on the shadows.
fn outcome(alloc: Global, fails: Option<bool>) -> Result<(u64, bool, bool), NoMemory> {
    let mut machine = new_machine(alloc)?;
    let turns = flush(
        &mut machine.memories,
        &machine.layout,
        &machine.cache,
        fails,
    );
    let primaries = all_stand(&machine.memories, &machine.layout, false);
    let shadows = all_stand(&machine.memories, &machine.layout, true);
    Ok((turns, primaries, shadows))
}

// Eleven units take 28 turns, and stand on both copies. So they do on the other copy where a memory fails amid the flush.
#[test]
fn a_flush_goes_on_where_a_memory_fails(rt: HostRuntime) -> Result<(), NoMemory> {
    for (fails, expected) in [
        (None, (28, true, true)),
        (Some(false), (28, false, true)),
        (Some(true), (28, true, false)),
    ] {
        assert_eq!(rt; outcome(rt.alloc(), fails)?, expected, "{fails:?}");
    }
    Ok(())
}
