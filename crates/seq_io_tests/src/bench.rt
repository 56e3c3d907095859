// Machines on which an I/O element is tried. Whether it may take turns there is looked up as a test runs.
ghost use Rattle.std.specs.Prelude.{◌≡◌, ℕ, ◌%◌, ◌<◌, ◌≤◌, true, length, IfOk};
ghost use Rattle.seq_words.specs.Description.{IsDescription};
ghost use Rattle.seq_layout.specs.Places.{IsPlace};
ghost use Rattle.seq_layout.specs.Copies.{Matches, copies, first_word, IsServed};
ghost use Rattle.seq_status.specs.Words.{IsStatusWord};
ghost use Rattle.seq_ruling.specs.Ruling.{HaveRulingWords};
ghost use Rattle.seq_io.specs.Bounds.{IsWired, AreReadable, IsPort, ArePorts, IsCursor};

use seq_io::{IoElement, PortState};
use seq_layout::{Extent, Layout, WordAt};
use seq_memory::Memories;
use seq_shelf::{Line, MemLine};
use seq_status::of_word;
use seq_words::{Block, Bytes, Items, LineNo, MachineDesc, Me, set_block_word};
use std::alloc::Global;
use std::test::Fail;

/// The layout of a description.
pub fn layout_of(alloc: Global, desc: &MachineDesc) -> Result<Layout, Fail>
    requires { IsDescription desc.now }
    ensures { IfOk result IsWired }
{
    let layout = Layout::new(alloc, desc)?;
    Ok(layout)
}

fn has_block(layout: &Layout, extent: Extent, n: u32) -> bool
    ensures { result ≡ true → IsPlace layout.now.blocks extent.0 n }
{
    (extent.0 as usize) < layout.extents() && n < layout.blocks(extent)
}

fn has_word(layout: &Layout, at: WordAt) -> bool
    ensures { result ≡ true → IsPlace layout.now.words at.extent.0 at.word }
{
    (at.extent.0 as usize) < layout.extents() && at.word < layout.words(at.extent)
}

/// Writes a copy of a block that the machine has.
pub fn put_block(
    memories: &mut Memories,
    layout: &Layout,
    extent: Extent,
    n: u32,
    shadow: bool,
    block: &Block,
)
    requires { Matches layout.now memories.old }
    ensures { Matches layout.now memories.new }
{
    if has_block(layout, extent, n) {
        layout.write_block(memories, extent, n, shadow, block);
    }
}

/// Puts a number into the four bytes of a block from `at` on.
pub fn put_number(block: &mut Block, at: usize, value: u32)
    requires inside { at < 32 }
    requires aligned { at % 4 ≡ 0 }
{
    set_block_word(block, at, value);
}

/// Writes a copy of a word that the machine has.
pub fn put_word(
    memories: &mut Memories,
    layout: &Layout,
    extent: Extent,
    word: u32,
    shadow: bool,
    value: u64,
)
    requires { Matches layout.now memories.old }
    ensures { Matches layout.now memories.new }
{
    let at = WordAt { extent, word };
    if has_word(layout, at) {
        layout.write_word(memories, at, shadow, value);
    }
}

/// A memory that the machine has fails. It may be repaired, and then waits to be copied.
#[tactic(auto, unfolding(seq_layout::specs::Copies::failed))]
pub fn take_away(memories: &mut Memories, layout: &Layout, me: Me, repaired: bool)
    requires { Matches layout.now memories.old }
    ensures { Matches layout.now memories.new }
{
    if me.0 >= layout.memory_count() {
        return;
    }
    layout.fail(memories, me);
    if repaired {
        layout.repair(memories, me);
    }
}

// Whether an extent has a copy in service.
fn is_served(memories: &Memories, layout: &Layout, extent: Extent) -> bool
    requires { Matches layout.now memories.now }
    ensures { result ≡ true → IsServed layout.now (copies layout.now memories.now) extent.0 }
{
    let shadow = layout.first_is_shadow(extent, memories);
    layout.serves(memories, extent, shadow)
}

// Whether every extent has: as many extents as there are memories show it.
fn are_served(memories: &Memories, layout: &Layout) -> bool
    requires { Matches layout.now memories.now }
    ensures { result ≡ true → (e : ℕ) → IsServed layout.now (copies layout.now memories.now) e }
{
    for memory in 0..layout.memory_count() {
        if !is_served(memories, layout, Extent(memory as u32)) {
            return false;
        }
    }
    true
}

// Whether a process has a status word in service, inside the format.
fn is_ruled(memories: &Memories, layout: &Layout, process: u8) -> bool
    requires { Matches layout.now memories.now }
    ensures place { result ≡ true → IsPlace layout.now.words process 0 }
    ensures served { result ≡ true → IsServed layout.now (copies layout.now memories.now) process }
    ensures format { result ≡ true → IsStatusWord (first_word layout.now (copies layout.now memories.now) process 0) }
{
    let at = WordAt {
        extent: Extent(process as u32),
        word: 0,
    };
    if !has_word(layout, at) || !is_served(memories, layout, at.extent) {
        return false;
    }
    of_word(layout.first_word(memories, at)).is_some()
}

fn are_ruled(memories: &Memories, layout: &Layout) -> bool
    requires { Matches layout.now memories.now }
    ensures { result ≡ true → HaveRulingWords layout.now (copies layout.now memories.now) }
{
    for process in 0..layout.processes() {
        if !is_ruled(memories, layout, process) {
            return false;
        }
    }
    true
}

// Whether an element may read the memories.
fn are_readable(memories: &Memories, layout: &Layout) -> bool
    requires { Matches layout.now memories.now }
    ensures { result ≡ true → AreReadable layout.now (copies layout.now memories.now) }
{
    are_served(memories, layout) && are_ruled(memories, layout)
}

// Whether it is a port of a line.
fn is_port(port: &PortState, layout: &Layout, line: LineNo) -> bool
    requires line { line.0 < length layout.now.owners }
    requires wired { IsWired layout.now }
    ensures { result ≡ true → IsPort layout.now line.0 port.now }
{
    let extent = layout.line(line);
    if extent.0 as usize >= layout.extents() {
        return false;
    }
    let blocks = layout.blocks(extent) as usize;
    port.taken <= port.arrived
        && port.arrived as usize <= port.store.as_slice().len()
        && port.store.as_slice().len() == 32 * blocks
}

// Whether there is a port for each line.
fn are_ports(ports: &Items<PortState>, layout: &Layout) -> bool
    requires { IsWired layout.now }
    ensures { result ≡ true → ArePorts layout.now ports.now }
{
    if ports.len() != layout.lines() {
        return false;
    }
    for line in 0..ports.len() {
        if !is_port(ports.at(line), layout, LineNo(line as u8)) {
            return false;
        }
    }
    true
}

// Whether an element serves one of the lines next, where there is one.
fn is_cursor(io: &IoElement, layout: &Layout) -> bool
    ensures { result ≡ true → IsCursor layout.now io.now }
{
    layout.lines() == 0 || (io.cursor as usize) < layout.lines()
}

/// Whether an element may take a turn.
pub fn may_turn(
    io: &IoElement,
    ports: &Items<PortState>,
    memories: &Memories,
    layout: &Layout,
) -> bool
    requires matches { Matches layout.now memories.now }
    requires wired { IsWired layout.now }
    ensures cursor { result ≡ true → IsCursor layout.now io.now }
    ensures ports { result ≡ true → ArePorts layout.now ports.now }
    ensures readable { result ≡ true → AreReadable layout.now (copies layout.now memories.now) }
{
    is_cursor(io, layout) && (are_ports(ports, layout) && are_readable(memories, layout))
}

/// Bytes that count up from the first one.
pub fn bytes_from(first: u8) -> [u8; 32]
    requires { first ≤ 200 }
{
    let mut bytes = [first; 32];
    for (i, byte) in bytes.iter_mut().enumerate() {
        *byte = first + i as u8;
    }
    bytes
}

/// A block whose bytes count up from the first one.
pub fn block_from(first: u8) -> Block
    requires { first ≤ 200 }
{
    Block {
        bytes: bytes_from(first),
    }
}

/// A line that has accepted so many bytes, or whose first call of `send` fails.
pub fn line(alloc: Global, accepted: u16, fails: bool) -> Result<Box<MemLine>, Fail> {
    let failing = if fails {
        Bytes::copy_of(alloc, &[0])?
    } else {
        Bytes::new(alloc)
    };
    let mut line = MemLine::new(alloc, failing);
    for _ in 0..accepted {
        let index = line.accepted();
        let _ = line.send(index, 7);
    }
    Ok(Box::new(alloc, line)?)
}
