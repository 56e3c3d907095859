// The layout of a machine: which memory has which part of which extent, and where.
ghost use Rattle.std.specs.Prelude.{◌≡◌, ℕ, ◌+◌, ◌<◌, ◌≤◌, ◌^◌, length, slice_index, slice_get, Some, IfOk};
ghost use Rattle.seq_words.specs.Description.{IsDescription};
ghost use Rattle.seq_layout.specs.Places.{memory_of, start_of, place_of, IsPlace};
ghost use Rattle.seq_layout.specs.Shapes.{Shape, shape_of, process_extent, segment_extent, line_extent};
ghost use Rattle.seq_layout.specs.Units.{units_of};
ghost use Rattle.seq_layout.specs.Tables.{AreUnits};

use crate::described::{blocks_of, owners_of, words_of};
use crate::starts::Starts;
use crate::{Extent, Unit, WordAt};
use seq_words::{Items, LineNo, MachineDesc, Me, NoMemory, Pid, Seg};
use std::alloc::Global;
use std::marker::Model;

/// Where the blocks and the words of a machine's extents stand on its memories.
#[derive(Drop)]
pub struct Layout {
    processes: u8,
    segments: u8,
    blocks: Starts,
    words: Starts,
    // the blocks and words of an extent together
    units: Starts,
    owners: Items<(Pid, u8)>,
}

impl Model for Layout {
    ghost use Rattle.seq_layout.specs.Shapes.{Shape};
    ghost use Rattle.seq_layout.specs.Tables.{AreTables};

    ghost Value = { Shape };

    ghost view = { λ l. record { memories = l.blocks.memories; processes = l.processes; segments = l.segments; blocks = l.blocks.sizes; words = l.words.sizes; owners = l.owners } };

    ghost invariant = { λ l. AreTables l.blocks l.words l.units };
}

// How many units each extent has, its blocks and words together.
fn units_of(alloc: Global, blocks: &[u32], words: &[u32]) -> Result<Items<u32>, NoMemory>
    requires same { length words.now ≡ length blocks.now }
    requires fits { (e : ℕ) → e < length blocks.now → slice_index blocks.now e + slice_index words.now e < 2 ^ 32 }
    ensures { IfOk result (λ units. AreUnits blocks.now words.now units) }
{
    let mut units = Items::new(alloc);
    for (blocks, words) in blocks.iter().zip(words) {
        if units.push(*blocks + *words).is_err() {
            return Err(NoMemory);
        }
    }
    Ok(units)
}

impl Layout {
    /// The layout of a description's machine. It takes memory, and may be refused it.
    #[tactic(auto, using(crate::proofs::Totals::blocks_fit, crate::proofs::Totals::words_fit, crate::proofs::Totals::units_fit, crate::proofs::Totals::unit_small, crate::proofs::Sizes::extents_few, crate::proofs::Sizes::length_blocks, crate::proofs::Sizes::length_words))]
    pub fn new(alloc: Global, desc: &MachineDesc) -> Result<Layout, NoMemory>
        requires { IsDescription desc.now }
        ensures { IfOk result (λ l. l ≡ shape_of desc.now) }
    {
        let blocks = blocks_of(alloc, desc)?;
        let words = words_of(alloc, desc)?;
        let units = units_of(alloc, blocks.as_slice(), words.as_slice())?;
        Ok(Layout {
            processes: desc.processes.len() as u8,
            segments: desc.segments.len() as u8,
            blocks: Starts::new(alloc, desc.memories, blocks)?,
            words: Starts::new(alloc, desc.memories, words)?,
            units: Starts::new(alloc, desc.memories, units)?,
            owners: owners_of(alloc, desc)?,
        })
    }

    /// How many memories the machine has.
    pub fn memory_count(&self) -> u8
        ensures count { result ≡ self.now.memories }
        ensures enough { 2 ≤ result }
    {
        self.blocks.memories()
    }

    /// How many processes it has.
    pub fn processes(&self) -> u8
        ensures { result ≡ self.now.processes }
    {
        self.processes
    }

    /// How many segments it has.
    pub fn segments(&self) -> u8
        ensures { result ≡ self.now.segments }
    {
        self.segments
    }

    /// How many lines it has.
    pub fn lines(&self) -> usize
        ensures { result ≡ length self.now.owners }
    {
        self.owners.len()
    }

    /// How many extents it has.
    pub fn extents(&self) -> usize
        ensures blocks { result ≡ length self.now.blocks }
        ensures words { result ≡ length self.now.words }
    {
        self.blocks.extents()
    }

    /// The extent of a process.
    pub fn process(&self, pid: Pid) -> Extent
        requires { pid.0 < self.now.processes }
        ensures { result.0 ≡ process_extent pid.0 }
    {
        Extent(pid.0 as u32)
    }

    /// The extent of a segment.
    pub fn segment(&self, segment: Seg) -> Extent
        requires { segment.0 < self.now.segments }
        ensures { result.0 ≡ segment_extent self.now segment.0 }
    {
        Extent(self.processes as u32 + segment.0 as u32)
    }

    /// The extent of a line.
    pub fn line(&self, line: LineNo) -> Extent
        requires { line.0 < length self.now.owners }
        ensures { result.0 ≡ line_extent self.now line.0 }
    {
        Extent(self.processes as u32 + self.segments as u32 + line.0 as u32)
    }

    /// The owner of a line, and the line's number among the owner's lines.
    pub fn owner(&self, line: LineNo) -> (Pid, u8)
        requires { line.0 < length self.now.owners }
        ensures { slice_get self.now.owners line.0 ≡ Some result }
    {
        self.owners.get(line.0 as usize)
    }

    /// How many blocks an extent has.
    pub fn blocks(&self, extent: Extent) -> u32
        requires { extent.0 < length self.now.blocks }
        ensures { result ≡ slice_index self.now.blocks extent.0 }
    {
        self.blocks.size(extent)
    }

    /// How many words an extent has.
    pub fn words(&self, extent: Extent) -> u32
        requires { extent.0 < length self.now.words }
        ensures { result ≡ slice_index self.now.words extent.0 }
    {
        self.words.size(extent)
    }

    /// How many blocks a memory keeps.
    pub fn block_count(&self, memory: Me) -> u32
        requires { memory.0 < self.now.memories }
        ensures { result ≡ start_of self.now.memories self.now.blocks memory.0 (length self.now.blocks) }
    {
        self.blocks.total(memory)
    }

    /// How many words a memory keeps.
    pub fn word_count(&self, memory: Me) -> u32
        requires { memory.0 < self.now.memories }
        ensures { result ≡ start_of self.now.memories self.now.words memory.0 (length self.now.words) }
    {
        self.words.total(memory)
    }

    /// The memory of a copy of an extent.
    pub fn memory(&self, extent: Extent, shadow: bool) -> Me
        ensures memory { result.0 ≡ memory_of self.now.memories extent.0 shadow }
        ensures within { result.0 < self.now.memories }
    {
        self.blocks.memory(extent, shadow)
    }

    /// The memory of a copy of an extent's block, and the block's place there.
    pub fn place(&self, extent: Extent, n: u32, shadow: bool) -> (Me, u32)
        requires { IsPlace self.now.blocks extent.0 n }
        ensures memory { result.0.0 ≡ memory_of self.now.memories extent.0 shadow }
        ensures place { result.1 ≡ place_of self.now.memories self.now.blocks extent.0 n shadow }
        ensures within { result.0.0 < self.now.memories }
        ensures enough { 2 ≤ self.now.memories }
    {
        self.blocks.place(extent, n, shadow)
    }

    /// The memory of a copy of a word, and the word's place there.
    pub fn word_place(&self, at: WordAt, shadow: bool) -> (Me, u32)
        requires { IsPlace self.now.words at.extent.0 at.word }
        ensures memory { result.0.0 ≡ memory_of self.now.memories at.extent.0 shadow }
        ensures place { result.1 ≡ place_of self.now.memories self.now.words at.extent.0 at.word shadow }
        ensures within { result.0.0 < self.now.memories }
        ensures enough { 2 ≤ self.now.memories }
    {
        self.words.place(at.extent, at.word, shadow)
    }

    /// The unit of a memory with a number, in the order in which the memory is copied. None past the last.
    #[tactic(auto, using(crate::proofs::UnitLists::unit_block, crate::proofs::UnitLists::unit_word, crate::proofs::UnitLists::no_unit_past))]
    pub fn unit(&self, memory: Me, next: u32) -> Option<Unit>
        requires { memory.0 < self.now.memories }
        ensures { result ≡ slice_get (units_of self.now memory.0) next }
    {
        let (extent, n) = self.units.part_at(memory, next)?;
        let blocks = self.blocks.size(extent);
        let unit = if n < blocks {
            Unit::Block(extent, n)
        } else {
            Unit::Word(WordAt {
                extent,
                word: n - blocks,
            })
        };
        Some(unit)
    }
}
