// What an I/O element reads and writes of a line in the memories.
ghost use Rattle.std.specs.Prelude.{◌≡◌, ◌≢◌, ◌+◌, ◌*◌, ◌/◌, ◌%◌, ◌<◌, ◌^◌, length, true};
ghost use Rattle.seq_layout.specs.Shapes.{line_extent};
ghost use Rattle.seq_layout.specs.Copies.{Matches, copies, serves};
ghost use Rattle.seq_io.specs.Changes.{copies_after};
ghost use Rattle.seq_io.specs.Lines.{owner, is_steady, has_steady_owner, written, outbox_at, is_below, is_at, differs};
ghost use Rattle.seq_io.specs.Bounds.{IsWired, AreReadable, journal_blocks};
ghost use Rattle.seq_io.specs.Duties.{journals, line_set};

use seq_layout::{Layout, WordAt};
use seq_memory::Memories;
use seq_ruling::ruling;
use seq_status::Status;
use seq_words::{LineNo, Pid, block_word, set_block_byte};

/// The bytes of a block.
const BLOCK_BYTES: u32 = 32;

/// The bytes of an outbox.
const OUTBOX_BYTES: u64 = 256;

/// The blocks of an outbox, and those of context that stand before the first outbox.
const OUTBOX_BLOCKS: u32 = 8;

const CONTEXT_BLOCKS: u32 = 8;

/// The block of a context whose second number is the first of the numbers of bytes written. They are every other one.
const COUNTS_BLOCK: u32 = 5;

// The owner of a line, and the line's number among the owner's lines.
#[tactic(auto, using(crate::proofs::Owned::owner_is))]
fn owner(line: LineNo, layout: &Layout) -> (Pid, u8)
    requires line { line.0 < length layout.now.owners }
    requires wired { IsWired layout.now }
    ensures value { result ≡ owner layout.now line.0 }
    ensures process { result.0.0 < layout.now.processes }
    ensures index { result.1 < 4 }
{
    layout.owner(line)
}

// Whether a process of this status is amid neither a flush nor a recovery.
fn is_steady(status: &Status) -> bool
    ensures { result ≡ is_steady status.now }
{
    matches!(status, Status::Idle | Status::Run(_))
}

/// Whether the owner of a line is steady.
pub fn has_steady_owner(line: LineNo, memories: &Memories, layout: &Layout) -> bool
    requires matches { Matches layout.now memories.now }
    requires wired { IsWired layout.now }
    requires readable { AreReadable layout.now (copies layout.now memories.now) }
    requires line { line.0 < length layout.now.owners }
    ensures { result ≡ has_steady_owner layout.now (copies layout.now memories.now) line.0 }
{
    let (pid, _) = owner(line, layout);
    is_steady(&ruling(pid, memories, layout))
}

/// How many bytes of a line its owner's context says are written. It reads one block.
#[tactic(auto, using(crate::proofs::Owned::written_is))]
pub fn written(line: LineNo, memories: &Memories, layout: &Layout) -> u32
    requires matches { Matches layout.now memories.now }
    requires wired { IsWired layout.now }
    requires readable { AreReadable layout.now (copies layout.now memories.now) }
    requires line { line.0 < length layout.now.owners }
    ensures { result ≡ written layout.now (copies layout.now memories.now) line.0 }
{
    let (pid, index) = owner(line, layout);
    let block = layout.first_block(memories, layout.process(pid), COUNTS_BLOCK);
    block_word(block, 4 * (1 + 2 * index as usize))
}

/// Output byte `index` of a line, in the outbox at its owner's first copy.
pub fn outbox_byte(line: LineNo, index: u64, memories: &Memories, layout: &Layout) -> u8
    requires matches { Matches layout.now memories.now }
    requires wired { IsWired layout.now }
    requires readable { AreReadable layout.now (copies layout.now memories.now) }
    requires line { line.0 < length layout.now.owners }
    ensures { result ≡ outbox_at layout.now (copies layout.now memories.now) line.0 index }
{
    let (pid, own) = owner(line, layout);
    let place = (index % OUTBOX_BYTES) as u32;
    let n = CONTEXT_BLOCKS + OUTBOX_BLOCKS * own as u32 + place / BLOCK_BYTES;
    let block = layout.first_block(memories, layout.process(pid), n);
    block.bytes[(place % BLOCK_BYTES) as usize]
}

/// A word of a line: 0 its journal count, 1 whether it is closed, 2 how many bytes were sent.
pub fn word_of(line: LineNo, word: u32, layout: &Layout) -> WordAt
    requires line { line.0 < length layout.now.owners }
    ensures extent { result.extent.0 ≡ line_extent layout.now line.0 }
    ensures word { result.word ≡ word }
{
    WordAt {
        extent: layout.line(line),
        word,
    }
}

/// Whether a copy of a line's word is in service and below a number.
#[tactic(auto, using(seq_layout::proofs::CopiesByPlace::serving_is_up))]
pub fn is_below(
    line: LineNo,
    word: u32,
    shadow: bool,
    bound: u64,
    memories: &Memories,
    layout: &Layout,
) -> bool
    requires matches { Matches layout.now memories.now }
    requires wired { IsWired layout.now }
    requires line { line.0 < length layout.now.owners }
    requires word { word < 3 }
    ensures { result ≡ is_below layout.now (copies layout.now memories.now) line.0 word shadow bound }
{
    let at = word_of(line, word, layout);
    layout.serves(memories, at.extent, shadow) && layout.read_word(memories, at, shadow) < bound
}

/// Whether a copy of a line's word is in service and is a number.
#[tactic(auto, using(seq_layout::proofs::CopiesByPlace::serving_is_up))]
pub fn is_at(
    line: LineNo,
    word: u32,
    shadow: bool,
    value: u64,
    memories: &Memories,
    layout: &Layout,
) -> bool
    requires matches { Matches layout.now memories.now }
    requires wired { IsWired layout.now }
    requires line { line.0 < length layout.now.owners }
    requires word { word < 3 }
    ensures { result ≡ is_at layout.now (copies layout.now memories.now) line.0 word shadow value }
{
    let at = word_of(line, word, layout);
    layout.serves(memories, at.extent, shadow) && layout.read_word(memories, at, shadow) == value
}

/// Sets a copy of a line's word, which is in service.
#[tactic(auto, using(seq_layout::proofs::CopiesByPlace::serving_is_up))]
pub fn set_word(
    line: LineNo,
    word: u32,
    shadow: bool,
    value: u64,
    memories: &mut Memories,
    layout: &Layout,
)
    requires matches { Matches layout.now memories.old }
    requires wired { IsWired layout.now }
    requires line { line.0 < length layout.now.owners }
    requires word { word < 3 }
    requires serves { serves layout.now (copies layout.now memories.old) (line_extent layout.now line.0) shadow ≡ true }
    ensures set { copies layout.now memories.new ≡ copies_after (line_set layout.now line.0 word shadow value) (copies layout.now memories.old) }
    ensures matches { Matches layout.now memories.new }
{
    let at = word_of(line, word, layout);
    layout.set_word(memories, at, shadow, value);
}

/// Whether a byte of a copy of a line's journal, which is in service, differs from a byte.
#[tactic(auto, using(seq_layout::proofs::CopiesByPlace::serving_is_up))]
pub fn differs(
    line: LineNo,
    shadow: bool,
    at: u32,
    byte: u8,
    memories: &Memories,
    layout: &Layout,
) -> bool
    requires matches { Matches layout.now memories.now }
    requires wired { IsWired layout.now }
    requires line { line.0 < length layout.now.owners }
    requires at { at < 32 * journal_blocks layout.now line.0 }
    requires serves { serves layout.now (copies layout.now memories.now) (line_extent layout.now line.0) shadow ≡ true }
    ensures { result ≡ differs layout.now (copies layout.now memories.now) line.0 shadow at byte }
{
    let block = layout.read_block(memories, layout.line(line), at / BLOCK_BYTES, shadow);
    block.bytes[(at % BLOCK_BYTES) as usize] != byte
}

/// Writes a byte to a copy of a line's journal, which is in service.
#[tactic(auto, using(seq_layout::proofs::CopiesByPlace::serving_is_up))]
pub fn journal(
    line: LineNo,
    shadow: bool,
    at: u32,
    byte: u8,
    memories: &mut Memories,
    layout: &Layout,
)
    requires matches { Matches layout.now memories.old }
    requires wired { IsWired layout.now }
    requires line { line.0 < length layout.now.owners }
    requires at { at < 32 * journal_blocks layout.now line.0 }
    requires serves { serves layout.now (copies layout.now memories.old) (line_extent layout.now line.0) shadow ≡ true }
    ensures set { copies layout.now memories.new ≡ copies_after (journals layout.now (copies layout.now memories.old) line.0 shadow at byte) (copies layout.now memories.old) }
    ensures matches { Matches layout.now memories.new }
{
    let extent = layout.line(line);
    let n = at / BLOCK_BYTES;
    let mut block = *layout.read_block(memories, extent, n, shadow);
    set_block_byte(&mut block, (at % BLOCK_BYTES) as usize, byte);
    layout.set_block(memories, extent, n, shadow, &block);
}
