// The memories at the start: the image of the flat start stands on both copies.
ghost use Rattle.std.specs.Prelude.{◌≡◌, ℕ, ◌+◌, ◌*◌, ◌/◌, ◌%◌, ◌^◌, ◌<◌, ◌≤◌, length, slice_index_or, count_ones, IfOk};
ghost use Rattle.seq_words.specs.Blocks.{zero_block};
ghost use Rattle.seq_words.specs.Description.{IsDescription};
ghost use Rattle.seq_layout.specs.Places.{IsPlace};
ghost use Rattle.seq_layout.specs.Shapes.{shape_of, process_extent, segment_extent};
ghost use Rattle.seq_layout.specs.Copies.{Matches, copies};
ghost use Rattle.seq_layout.specs.Contexts.{context_blocks};
ghost use Rattle.seq_kernel.specs.Views.{Blocks};
ghost use Rattle.seq_image.specs.Images.{block_of_bytes};
ghost use Rattle.seq_image.specs.Begun.{start_context};
ghost use Rattle.seq_start.specs.Begun.{start_image, up_to, Hold};

use seq_image::{start_block, start_context};
use seq_layout::{Extent, Layout, context_to_blocks};
use seq_memory::Memories;
use seq_words::{Block, MachineDesc, NoMemory, Pid, ProcessDesc, Seg};
use std::alloc::Global;

// Writes a block to both copies.
fn put(extent: Extent, n: u32, block: &Block, memories: &mut Memories, layout: &Layout)
    requires matches { Matches layout.now memories.old }
    requires place { IsPlace layout.now.blocks extent.0 n }
    ensures holds { (o : Blocks) → o extent.0 n ≡ block.now → Hold layout.now (copies layout.now memories.old) (up_to o extent.0 n) → Hold layout.now (copies layout.now memories.new) (up_to o extent.0 (n + 1)) }
    ensures matches { Matches layout.now memories.new }
{
    layout.write_block(memories, extent, n, false, block);
    layout.write_block(memories, extent, n, true, block);
}

// Writes the context with which a process starts.
fn put_context(extent: Extent, process: &ProcessDesc, memories: &mut Memories, layout: &Layout)
    requires matches { Matches layout.now memories.old }
    requires places { (k : ℕ) → k < 8 → IsPlace layout.now.blocks extent.0 k }
    requires aligned { process.now.entry % 4 ≡ 0 }
    ensures holds { (o : Blocks) → ((k : ℕ) → k < 8 → o extent.0 k ≡ slice_index_or (context_blocks (start_context process.now)) k zero_block) → Hold layout.now (copies layout.now memories.old) (up_to o extent.0 0) → Hold layout.now (copies layout.now memories.new) (up_to o extent.0 8) }
    ensures matches { Matches layout.now memories.new }
{
    let blocks = context_to_blocks(&start_context(process));
    for k in 0..8 {
        put(extent, k, &blocks[k as usize], memories, layout);
    }
}

// Writes bytes to so many blocks of an extent from one of them on, with zeros after the bytes.
fn put_bytes(
    extent: Extent,
    from: u32,
    count: u32,
    bytes: &[u8],
    memories: &mut Memories,
    layout: &Layout,
)
    requires matches { Matches layout.now memories.old }
    requires places { (i : ℕ) → i < count → IsPlace layout.now.blocks extent.0 (from + i) }
    requires fits { from + count < 2 ^ 32 }
    ensures holds { (o : Blocks) → ((i : ℕ) → i < count → o extent.0 (from + i) ≡ block_of_bytes bytes.now i) → Hold layout.now (copies layout.now memories.old) (up_to o extent.0 from) → Hold layout.now (copies layout.now memories.new) (up_to o extent.0 (from + count)) }
    ensures matches { Matches layout.now memories.new }
{
    for i in 0..count {
        let block = start_block(bytes, i as usize);
        put(extent, from + i, &block, memories, layout);
    }
}

// Writes what a process starts with: its context and its private bytes. Its outboxes stay zero.
fn put_process(pid: Pid, desc: &MachineDesc, memories: &mut Memories, layout: &Layout)
    requires described { IsDescription desc.now }
    requires layout { layout.now ≡ shape_of desc.now }
    requires matches { Matches layout.now memories.old }
    requires process { pid.0 < length desc.now.processes }
    requires holds { Hold layout.now (copies layout.now memories.old) (up_to (start_image desc.now) (process_extent pid.0) 0) }
    ensures holds { Hold layout.now (copies layout.now memories.new) (up_to (start_image desc.now) (process_extent pid.0 + 1) 0) }
    ensures matches { Matches layout.now memories.new }
{
    let process = desc.processes.at(pid.0 as usize);
    let extent = layout.process(pid);
    put_context(extent, process, memories, layout);
    let before = 8 + 8 * process.lines.count_ones();
    let bytes = process.image.as_slice();
    put_bytes(extent, before, process.size / 32, bytes, memories, layout);
}

// Writes what a segment starts with.
fn put_segment(segment: Seg, desc: &MachineDesc, memories: &mut Memories, layout: &Layout)
    requires described { IsDescription desc.now }
    requires layout { layout.now ≡ shape_of desc.now }
    requires matches { Matches layout.now memories.old }
    requires segment { segment.0 < length desc.now.segments }
    requires holds { Hold layout.now (copies layout.now memories.old) (up_to (start_image desc.now) (segment_extent layout.now segment.0) 0) }
    ensures holds { Hold layout.now (copies layout.now memories.new) (up_to (start_image desc.now) (segment_extent layout.now segment.0 + 1) 0) }
    ensures matches { Matches layout.now memories.new }
{
    let described = desc.segments.at(segment.0 as usize);
    let extent = layout.segment(segment);
    let bytes = described.first.as_slice();
    put_bytes(extent, 0, described.size / 32, bytes, memories, layout);
}

// Writes what all processes start with.
fn put_processes(desc: &MachineDesc, memories: &mut Memories, layout: &Layout)
    requires described { IsDescription desc.now }
    requires layout { layout.now ≡ shape_of desc.now }
    requires matches { Matches layout.now memories.old }
    requires holds { Hold layout.now (copies layout.now memories.old) (up_to (start_image desc.now) 0 0) }
    ensures holds { Hold layout.now (copies layout.now memories.new) (up_to (start_image desc.now) (length desc.now.processes) 0) }
    ensures matches { Matches layout.now memories.new }
{
    for pid in 0..layout.processes() {
        put_process(Pid(pid), desc, memories, layout);
    }
}

// Writes what all segments start with.
fn put_segments(desc: &MachineDesc, memories: &mut Memories, layout: &Layout)
    requires described { IsDescription desc.now }
    requires layout { layout.now ≡ shape_of desc.now }
    requires matches { Matches layout.now memories.old }
    requires holds { Hold layout.now (copies layout.now memories.old) (up_to (start_image desc.now) (segment_extent layout.now 0) 0) }
    ensures holds { Hold layout.now (copies layout.now memories.new) (up_to (start_image desc.now) (segment_extent layout.now (length desc.now.segments)) 0) }
    ensures matches { Matches layout.now memories.new }
{
    for segment in 0..layout.segments() {
        put_segment(Seg(segment), desc, memories, layout);
    }
}

/// The memories at the start: all in service, with the image of the flat start on both copies of each block, and all words zero.
/// It takes memory, and may be refused it.
#[tactic(auto, using(crate::proofs::Begun::fresh_hold, crate::proofs::Begun::all_hold))]
pub fn start_memories(
    alloc: Global,
    desc: &MachineDesc,
    layout: &Layout,
) -> Result<Memories, NoMemory>
    requires described { IsDescription desc.now }
    requires layout { layout.now ≡ shape_of desc.now }
    ensures matches { IfOk result (Matches layout.now) }
    ensures holds { IfOk result (λ m. Hold layout.now (copies layout.now m) (start_image desc.now)) }
{
    let mut memories = layout.memories(alloc)?;
    put_processes(desc, &mut memories, layout);
    put_segments(desc, &mut memories, layout);
    Ok(memories)
}
