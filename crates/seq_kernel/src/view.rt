// The memory that a process sees on the hardware.
ghost use Rattle.std.specs.Prelude.{◌≡◌, ℕ, ◌+◌, ◌*◌, ◌/◌, ◌%◌, ◌^◌, ◌-◌, ◌<◌, ◌≤◌, ◌&&◌, if◌then◌else◌, nat_le, nat_lt, Option, Some, None, IfSome, slice_index, true};
ghost use Rattle.std.specs.Int.{byte_at};
ghost use Rattle.std.proofs.Props.{props};
ghost use Rattle.seq_isa.specs.Meaning.{number_at};
ghost use Rattle.seq_rv32.specs.Widths.{IsWidth};
ghost use Rattle.seq_rv32.specs.ByteMemory.{bytes_stored};
ghost use Rattle.seq_layout.specs.Places.{IsPlace};
ghost use Rattle.seq_layout.specs.Shapes.{shape_of};
ghost use Rattle.seq_layout.specs.Copies.{copies};
ghost use Rattle.seq_cache.specs.Changes.{admits, with_change};
ghost use Rattle.seq_kernel.specs.Views.{IsReady, read_by, seen, block_stored};

use seq_cache::Cache;
use seq_layout::{Extent, Layout};
use seq_memory::Memories;
use seq_rv32::{Admit, Port};
use seq_segments::map;
use seq_words::{Block, MachineDesc, Pid, block_word};

/// How many bytes a block has.
const BLOCK: u32 = 32;

/// What a process sees, as a core's memory: the cache of its processor lies over the memories.
#[derive(Drop)]
pub struct View<'a> {
    pub desc: &'a MachineDesc,
    pub pid: Pid,
    /// The segments that it holds: bit s stands for segment s.
    pub held: u16,
    pub cache: &'a mut Cache,
    pub memories: &'a Memories,
    pub layout: &'a Layout,
    pub ghost ready: { IsReady desc.now pid.0 layout.now memories.now } by { Prim.hlevel props },
}

// The little-endian number of one, two or four bytes of a block.
#[tactic(auto, unfolding(seq_isa::specs::Meaning::number_at))]
#[inline(always)]
fn number_in(block: &Block, at: usize, width: u8) -> u32
    requires width { IsWidth width }
    requires aligned { at % width ≡ 0 }
    requires inside { at < 32 }
    ensures value { number_at (λ k. Some (slice_index block.now.bytes k)) at width ≡ Some result }
    ensures bound { result < 2 ^ (8 * width) }
{
    if width == 4 {
        return block_word(block, at);
    }
    let first = block.bytes[at] as u32;
    if width == 1 {
        return first;
    }
    first + 256 * block.bytes[at + 1] as u32
}

// Puts the low bytes of a number into the bytes of a block.
fn put(bytes: &mut [u8; 32], at: usize, width: u8, value: u32)
    requires width { IsWidth width }
    requires inside { at + width ≤ 32 }
    ensures after { bytes.new ≡ bytes_stored bytes.old at width value }
    ensures each { (k : ℕ) → slice_index bytes.new k ≡ (if nat_le at k && nat_lt k (at + width) then byte_at (k - at) value else slice_index bytes.old k) }
{
    let low = value.to_le_bytes();
    for i in 0..width as usize {
        bytes[at + i] = low[i];
    }
}

// Changes a block that isn't changed yet: it is a copy of this one, with the low bytes of a number put in.
#[cold]
#[inline(never)]
fn change_copy(
    cache: &mut Cache,
    extent: Extent,
    n: u32,
    first: &Block,
    at: usize,
    width: u8,
    value: u32,
)
    requires width { IsWidth width }
    requires inside { at + width ≤ 32 }
    requires admitted { admits cache.old extent.0 n ≡ true }
    ensures { cache.new ≡ with_change cache.old extent.0 n (block_stored first.now at width value) }
{
    let mut block = *first;
    put(&mut block.bytes, at, width, value);
    cache.write(extent, n, &block).unwrap();
}

impl<'a> View<'a> {
    // A block as the process reads it: what it was changed to, else its first copy.
    #[tactic(auto, unfolding(seq_cache::specs::Overlay::overlay))]
    #[inline(always)]
    fn block(&self, extent: Extent, n: u32) -> &Block
        requires { IsPlace (shape_of self.now.desc.now).blocks extent.0 n }
        ensures { result.now ≡ read_by self.now.desc.now (copies self.now.layout.now self.now.memories.now) self.now.cache.now extent.0 n }
    {
        match self.cache.find(extent, n) {
            Some(block) => block,
            None => self.layout.first_block(self.memories, extent, n),
        }
    }

    // The number of one, two or four bytes at an address.
    #[tactic(auto, using(crate::proofs::ViewSeen::number_outside))]
    #[inline(always)]
    fn number(&self, at: u32, width: u8) -> Option<u32>
        requires width { IsWidth width }
        requires aligned { at % width ≡ 0 }
        ensures value { result ≡ number_at (seen self.now.desc.now self.now.pid.0 self.now.held (read_by self.now.desc.now (copies self.now.layout.now self.now.memories.now) self.now.cache.now)) at width }
        ensures bound { IfSome result (λ n. n < 2 ^ (8 * width)) }
    {
        let (extent, byte) = map(self.desc, self.pid, self.held, at)?;
        let block = self.block(extent, byte / BLOCK);
        Some(number_in(block, (byte % BLOCK) as usize, width))
    }
}

impl<'a> Port for View<'a> {
    ghost use Rattle.seq_layout.specs.Copies.{copies};
    ghost use Rattle.seq_kernel.specs.Views.{read_by, seen, admission, stored};

    ghost bytes = { λ v. seen v.desc.now v.pid.0 v.held (read_by v.desc.now (copies v.layout.now v.memories.now) v.cache.now) };

    ghost admission = { λ v. admission v.desc.now v.pid.0 v.held v.cache.now };

    ghost after_store = { λ v at width value. record v {
      cache = record v.cache { now = stored v.desc.now v.pid.0 v.held (copies v.layout.now v.memories.now) v.cache.now at width value };
    } };

    #[inline(always)]
    fn fetch(&self, at: u32) -> Option<u32> {
        self.number(at, 4)
    }

    fn load(&self, at: u32, width: u8) -> Option<u32> {
        self.number(at, width)
    }

    #[tactic(auto, using(crate::proofs::ViewStores::outside_alone), unfolding(crate::specs::Views::admission))]
    fn admit(&self, at: u32, width: u8) -> Admit {
        match map(self.desc, self.pid, self.held, at) {
            Some((extent, byte)) if self.cache.admits(extent, byte / BLOCK) => Admit::Fits,
            Some(_) => Admit::Full,
            None => Admit::Outside,
        }
    }

    fn store(&mut self, at: u32, width: u8, value: u32) {
        let (extent, byte) = map(self.desc, self.pid, self.held, at).unwrap();
        let n = byte / BLOCK;
        let within = (byte % BLOCK) as usize;
        match self.cache.find_mut(extent, n) {
            Some(block) => put(&mut block.bytes, within, width, value),
            None => {
                let first = self.layout.first_block(self.memories, extent, n);
                change_copy(self.cache, extent, n, first, within, width, value);
            }
        }
    }
}
