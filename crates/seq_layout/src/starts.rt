// Where the parts of extents start in each memory.
ghost use Rattle.std.specs.Prelude.{◌≡◌, ℕ, ◌+◌, ◌%◌, ◌<◌, ◌≤◌, ◌^◌, length, slice_index, IfOk, MatchOption};
ghost use Rattle.std.specs.List.Sorted.{IsNonDecreasing};
ghost use Rattle.seq_layout.specs.Places.{memory_of, keeps, start_of, place_of, IsPlace};
ghost use Rattle.seq_layout.specs.Tables.{Spread, IsRow, IsCount, IsPart, site_of, sites_of};

use crate::Extent;
use seq_words::{Items, Me, NoMemory};
use std::alloc::Global;
use std::marker::Model;

// The memory after another one, cyclically.
#[tactic(auto, using(crate::proofs::Apart::wrapped))]
fn memory_after(memory: u32, memories: u32) -> u32
    requires { memory < memories }
    ensures { result ≡ (memory + 1) % memories }
{
    if memory + 1 == memories {
        0
    } else {
        memory + 1
    }
}

// The memory of a copy of an extent.
#[tactic(auto, using(crate::proofs::Apart::next_memory))]
fn memory_of(memories: u8, extent: Extent, shadow: bool) -> Me
    requires { 2 ≤ memories }
    ensures memory { result.0 ≡ memory_of memories extent.0 shadow }
    ensures within { result.0 < memories }
{
    let memories = memories as u32;
    let primary = extent.0 % memories;
    let memory = if shadow {
        memory_after(primary, memories)
    } else {
        primary
    };
    Me(memory as u8)
}

// Whether a memory keeps a copy of an extent.
fn keeps(memories: u8, memory: u8, extent: usize) -> bool
    requires enough { 2 ≤ memories }
    requires small { extent < 2 ^ 32 }
    ensures { result ≡ keeps memories memory extent }
{
    let count = memories as usize;
    extent % count == memory as usize || (extent + 1) % count == memory as usize
}

// How much a memory keeps for the extents before this one.
#[tactic(auto, using(crate::proofs::Apart::start_step, crate::proofs::Apart::start_first))]
fn start_of(memories: u8, sizes: &[u32], memory: u8, extent: usize) -> u32
    requires enough { 2 ≤ memories }
    requires inside { extent ≤ length sizes.now }
    requires small { length sizes.now < 2 ^ 32 }
    requires fits { start_of memories sizes.now memory (length sizes.now) < 2 ^ 32 }
    ensures { result ≡ start_of memories sizes.now memory extent }
{
    let mut total = 0;
    for earlier in 0..extent {
        if keeps(memories, memory, earlier) {
            total += sizes[earlier];
        }
    }
    total
}

// The starts of all extents in a memory, and after them how much it keeps of all.
fn row_of(alloc: Global, memories: u8, sizes: &[u32], memory: u8) -> Result<Items<u32>, NoMemory>
    requires enough { 2 ≤ memories }
    requires small { length sizes.now < 2 ^ 32 }
    requires fits { start_of memories sizes.now memory (length sizes.now) < 2 ^ 32 }
    ensures { IfOk result (λ row. IsRow (record { memories = memories; sizes = sizes.now }) memory row) }
{
    let mut row = Items::new(alloc);
    for extent in 0..=sizes.len() {
        if row.push(start_of(memories, sizes, memory, extent)).is_err() {
            return Err(NoMemory);
        }
    }
    Ok(row)
}

// How many of the starts of a row are at this place or below it.
fn count_up_to(starts: &[u32], place: u32) -> usize
    requires { IsNonDecreasing starts.now }
    ensures { IsCount starts.now place result }
{
    starts.partition_point(|start| *start <= place)
}

/// Where a copy of an extent stands: its memory, and the place there of the extent's first part.
#[derive(Clone, Copy)]
pub struct Site {
    memory: Me,
    start: u32,
}

/// Where the two copies of an extent stand.
#[derive(Clone, Copy)]
pub struct Sites {
    primary: Site,
    shadow: Site,
}

// Where a copy of an extent stands.
fn site_of(memories: u8, sizes: &[u32], extent: usize, shadow: bool) -> Site
    requires enough { 2 ≤ memories }
    requires inside { extent < length sizes.now }
    requires small { length sizes.now < 2 ^ 32 }
    requires fits { (m : ℕ) → m < memories → start_of memories sizes.now m (length sizes.now) < 2 ^ 32 }
    ensures { result ≡ site_of (record { memories = memories; sizes = sizes.now }) extent shadow }
{
    let memory = memory_of(memories, Extent(extent as u32), shadow);
    Site {
        memory,
        start: start_of(memories, sizes, memory.0, extent),
    }
}

// Where the copies of all extents stand.
#[tactic(auto, using(crate::proofs::Sites::one_more))]
fn sites_of(alloc: Global, memories: u8, sizes: &[u32]) -> Result<Items<Sites>, NoMemory>
    requires enough { 2 ≤ memories }
    requires small { length sizes.now < 2 ^ 32 }
    requires fits { (m : ℕ) → m < memories → start_of memories sizes.now m (length sizes.now) < 2 ^ 32 }
    ensures { IfOk result (λ sites. sites ≡ sites_of (record { memories = memories; sizes = sizes.now })) }
{
    let mut sites = Items::new(alloc);
    for extent in 0..sizes.len() {
        let both = Sites {
            primary: site_of(memories, sizes, extent, false),
            shadow: site_of(memories, sizes, extent, true),
        };
        if sites.push(both).is_err() {
            return Err(NoMemory);
        }
    }
    Ok(sites)
}

/// How many parts each extent has, and where they start in each memory.
#[derive(Drop)]
pub struct Starts {
    memories: u8,
    sizes: Items<u32>,
    // by memory and extent, and at the end of each row how much the memory keeps
    starts: Items<Items<u32>>,
    // by extent
    sites: Items<Sites>,
}

impl Model for Starts {
    ghost use Rattle.seq_layout.specs.Tables.{Spread, AreStarts};

    ghost Value = { Spread };

    ghost view = { λ s. record { memories = s.memories; sizes = s.sizes } };

    ghost invariant = { λ s. AreStarts (record { memories = s.memories; sizes = s.sizes }) s.starts s.sites };
}

impl Starts {
    /// The starts of extents of these sizes, with their copies on so many memories.
    pub fn new(alloc: Global, memories: u8, sizes: Items<u32>) -> Result<Starts, NoMemory>
        requires enough { 2 ≤ memories }
        requires small { length sizes < 2 ^ 32 }
        requires fits { (m : ℕ) → m < memories → start_of memories sizes m (length sizes) < 2 ^ 32 }
        ensures { IfOk result (λ s. s ≡ record { memories = memories; sizes = sizes }) }
    {
        let mut starts = Items::new(alloc);
        for memory in 0..memories {
            let row = row_of(alloc, memories, sizes.as_slice(), memory)?;
            if starts.push(row).is_err() {
                return Err(NoMemory);
            }
        }
        let sites = sites_of(alloc, memories, sizes.as_slice())?;
        Ok(Starts {
            memories,
            sizes,
            starts,
            sites,
        })
    }

    /// How many memories there are.
    pub fn memories(&self) -> u8
        ensures count { result ≡ self.now.memories }
        ensures enough { 2 ≤ result }
    {
        self.memories
    }

    /// How many extents there are.
    pub fn extents(&self) -> usize
        ensures { result ≡ length self.now.sizes }
    {
        self.sizes.len()
    }

    // Where a copy of an extent stands.
    #[tactic(auto, using(crate::proofs::Sites::all, crate::proofs::Sites::found, crate::proofs::Sites::is_inside))]
    fn site(&self, extent: Extent, shadow: bool) -> Site
        requires { extent.0 < length self.now.sizes }
        ensures site { result ≡ site_of self.now extent.0 shadow }
        ensures within { result.memory.0 < self.now.memories }
        ensures fits { result.start + slice_index self.now.sizes extent.0 < 2 ^ 32 }
        ensures enough { 2 ≤ self.now.memories }
    {
        let sites = self.sites.at(extent.0 as usize);
        if shadow { sites.shadow } else { sites.primary }
    }

    /// The memory of a copy of an extent.
    pub fn memory(&self, extent: Extent, shadow: bool) -> Me
        ensures memory { result.0 ≡ memory_of self.now.memories extent.0 shadow }
        ensures within { result.0 < self.now.memories }
    {
        if (extent.0 as usize) < self.extents() {
            self.site(extent, shadow).memory
        } else {
            memory_of(self.memories, extent, shadow)
        }
    }

    // The starts of all extents in a memory, and after them how much it keeps of all.
    fn row(&self, memory: Me) -> &[u32]
        requires { memory.0 < self.now.memories }
        ensures row { IsRow self.now memory.0 result.now }
        ensures fits { start_of self.now.memories self.now.sizes memory.0 (length self.now.sizes) < 2 ^ 32 }
        ensures few { length self.now.sizes < 2 ^ 32 }
        ensures enough { 2 ≤ self.now.memories }
    {
        self.starts.at(memory.0 as usize).as_slice()
    }

    /// How many parts a memory keeps.
    pub fn total(&self, memory: Me) -> u32
        requires { memory.0 < self.now.memories }
        ensures { result ≡ start_of self.now.memories self.now.sizes memory.0 (length self.now.sizes) }
    {
        let row = self.row(memory);
        row[row.len() - 1]
    }

    /// The memory of a copy of an extent's `n`-th part, and the part's place there.
    pub fn place(&self, extent: Extent, n: u32, shadow: bool) -> (Me, u32)
        requires { IsPlace self.now.sizes extent.0 n }
        ensures memory { result.0.0 ≡ memory_of self.now.memories extent.0 shadow }
        ensures place { result.1 ≡ place_of self.now.memories self.now.sizes extent.0 n shadow }
        ensures within { result.0.0 < self.now.memories }
        ensures enough { 2 ≤ self.now.memories }
    {
        let Site { memory, start } = self.site(extent, shadow);
        (memory, start + n)
    }

    /// How many parts an extent has.
    pub fn size(&self, extent: Extent) -> u32
        requires { extent.0 < length self.now.sizes }
        ensures { result ≡ slice_index self.now.sizes extent.0 }
    {
        self.sizes.get(extent.0 as usize)
    }

    /// The part at a place of a memory: its extent and its number there. None past the last part that the memory keeps.
    pub fn part_at(&self, memory: Me, place: u32) -> Option<(Extent, u32)>
        requires { memory.0 < self.now.memories }
        ensures { MatchOption result (start_of self.now.memories self.now.sizes memory.0 (length self.now.sizes) ≤ place) (λ part. IsPart self.now memory.0 place part.0.0 part.1) }
    {
        let starts = self.row(memory);
        let count = count_up_to(starts, place);
        if count == starts.len() {
            return None;
        }
        let extent = count - 1;
        Some((Extent(extent as u32), place - starts[extent]))
    }
}
