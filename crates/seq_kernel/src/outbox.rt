// The outbox of a line: 256 bytes in eight blocks of its owner's extent.
ghost use Rattle.std.specs.Prelude.{◌≡◌, ℕ, ◌+◌, ◌-◌, ◌*◌, ◌/◌, ◌%◌, ◌<◌, ◌≤◌, ◌↔◌, IsTrue, nat_lt, not, length};
ghost use Rattle.seq_layout.specs.Places.{IsPlace};
ghost use Rattle.seq_layout.specs.Copies.{Matches, copies, IsServed};
ghost use Rattle.seq_cache.specs.Changes.{IsCache};
ghost use Rattle.seq_cache.specs.Overlay.{overlay};
ghost use Rattle.seq_kernel.specs.Outboxes.{outbox_block, after_place, filled_block, touched_count, touched_block, needed, outbox_filled};

use seq_cache::Cache;
use seq_layout::{Extent, Layout};
use seq_memory::Memories;
use seq_words::Block;

/// The bytes of an outbox.
const OUTBOX_BYTES: u32 = 256;

/// The bytes of a block.
const BLOCK_BYTES: u32 = 32;

/// The blocks of an outbox, and those of context that stand before the first outbox.
const OUTBOX_BLOCKS: u32 = 8;

const CONTEXT_BLOCKS: u32 = 8;

/// Where output bytes go from number `from` on: to the outbox of the owner's line with this index.
#[derive(Clone, Copy)]
pub struct Outbox {
    /// The extent of the line's owner.
    pub owner: Extent,
    /// The number of the line among its owner's lines.
    pub index: u8,
    /// The number of the first byte.
    pub from: u32,
}

// A cache is always in order, and never above its capacity.
fn is_in_order(cache: &Cache)
    ensures { IsCache cache.now }
{
    cache.dirty();
}

impl Outbox {
    // How many blocks so many bytes touch.
    fn touched_count(&self, count: u32) -> u32
        requires { count ≤ 64 }
        ensures value { result ≡ touched_count self.now.from count }
        ensures few { result ≤ 3 }
    {
        if count == 0 {
            return 0;
        }
        (self.from % BLOCK_BYTES + count - 1) / BLOCK_BYTES + 1
    }

    // The number in the outbox of the i-th block that is touched.
    fn touched(&self, i: u32) -> u32
        requires { i < 3 }
        ensures value { result ≡ touched_block self.now.from i }
        ensures within { result < 8 }
    {
        (self.from % OUTBOX_BYTES / BLOCK_BYTES + i) % OUTBOX_BLOCKS
    }

    // The number in its owner's extent of a block of the outbox.
    fn block(&self, k: u32) -> u32
        requires index { self.now.index < 4 }
        requires block { k < 8 }
        ensures { result ≡ outbox_block self.now.index k }
    {
        CONTEXT_BLOCKS + OUTBOX_BLOCKS * u32::from(self.index) + k
    }

    // How many of the blocks that so many bytes touch aren't changed yet.
    #[tactic(auto, using(crate::proofs::OutboxFills::counted_more, crate::proofs::OutboxTouched::touched_is))]
    fn needed(&self, cache: &Cache, count: u32) -> u32
        requires index { self.now.index < 4 }
        requires few { count ≤ 64 }
        ensures { result ≡ needed cache.now self.now.owner.0 self.now.index self.now.from count }
    {
        let mut needed = 0;
        for i in 0..self.touched_count(count) {
            let block = self.block(self.touched(i));
            if cache.find(self.owner, block).is_none() {
                needed += 1;
            }
        }
        needed
    }

    /// Whether the cache has room for so many bytes.
    pub fn fits(&self, cache: &Cache, count: u32) -> bool
        requires index { self.now.index < 4 }
        requires few { count ≤ 64 }
        ensures room { IsTrue result ↔ (length cache.now.changes + needed cache.now self.now.owner.0 self.now.index self.now.from count ≤ cache.now.capacity) }
        ensures full { nat_lt cache.now.capacity (length cache.now.changes + needed cache.now self.now.owner.0 self.now.index self.now.from count) ≡ not result }
    {
        cache.room(self.needed(cache, count))
    }

    // How far place q lies behind the place of the first byte.
    fn after_place(&self, q: u32) -> u32
        requires { q < 256 }
        ensures { result ≡ after_place self.now.from q }
    {
        (q + OUTBOX_BYTES - self.from % OUTBOX_BYTES) % OUTBOX_BYTES
    }

    // Block k of the outbox after these bytes are put out.
    fn filled(&self, block: &Block, k: u32, bytes: &[u8]) -> Block
        requires block { k < 8 }
        requires few { length bytes.now ≤ 64 }
        ensures { result ≡ filled_block self.now.from bytes.now k block.now }
    {
        let mut filled = block.bytes;
        for j in 0..BLOCK_BYTES {
            let at = self.after_place(BLOCK_BYTES * k + j) as usize;
            if at < bytes.len() {
                filled[j as usize] = bytes[at];
            }
        }
        Block { bytes: filled }
    }

    /// Puts bytes into the outbox, for which the cache has room.
    #[tactic(auto, using(crate::proofs::OutboxFills::filling_admits, crate::proofs::OutboxFills::filling_more, crate::proofs::OutboxFills::filling_ends))]
    pub fn fill(&self, cache: &mut Cache, memories: &Memories, layout: &Layout, bytes: &[u8])
        requires matches { Matches layout.now memories.now }
        requires served { IsServed layout.now (copies layout.now memories.now) self.now.owner.0 }
        requires places { (k : ℕ) → k < 8 → IsPlace layout.now.blocks self.now.owner.0 (outbox_block self.now.index k) }
        requires index { self.now.index < 4 }
        requires few { length bytes.now ≤ 64 }
        requires room { length cache.old.changes + needed cache.old self.now.owner.0 self.now.index self.now.from (length bytes.now) ≤ cache.old.capacity }
        ensures { cache.new ≡ outbox_filled (overlay layout.now (copies layout.now memories.now) cache.old.changes) cache.old self.now.owner.0 self.now.index self.now.from bytes.now }
    {
        is_in_order(cache);
        for i in 0..self.touched_count(bytes.len() as u32) {
            let k = self.touched(i);
            let place = self.block(k);
            let block = cache.read(self.owner, place, memories, layout);
            let filled = self.filled(&block, k, bytes);
            cache.write(self.owner, place, &filled).unwrap();
        }
    }
}
