// A process on two memories, whose primary is on memory 0. A call outside its bounds changes nothing, and answers None.
ghost use Rattle.std.specs.Prelude.{◌≡◌, ◌<◌, true, IfSome};
ghost use Rattle.std.proofs.Props.{props};
ghost use Rattle.seq_words.specs.Description.{IsDescription};
ghost use Rattle.seq_layout.specs.Places.{IsPlace};
ghost use Rattle.seq_layout.specs.Copies.{Matches, IsServed, copies, serves};

use seq_layout::{Extent, Layout, WordAt};
use seq_memory::{Memories, State};
use seq_samples::lone_process;
use seq_words::{Block, MachineDesc, Me, NoMemory};
use std::alloc::Global;

const PROCESS: Extent = Extent(0);

/// The status word of the process.
const STATUS: WordAt = WordAt {
    extent: Extent(0),
    word: 0,
};

/// The layout of a description.
pub fn layout_of(alloc: Global, desc: &MachineDesc) -> Result<Layout, NoMemory>
    requires { IsDescription desc.now }
{
    Layout::new(alloc, desc)
}

/// The layout of the machine with one process, and its memories.
#[derive(Drop)]
pub struct Bench {
    layout: Layout,
    memories: Memories,
    ghost matches: { Matches layout memories } by { Prim.hlevel props },
}

/// Fresh memories.
pub fn new_bench(alloc: Global) -> Result<Bench, NoMemory> {
    let desc = lone_process(alloc)?;
    let layout = layout_of(alloc, &desc)?;
    let memories = layout.memories(alloc)?;
    Ok(Bench { layout, memories })
}

// What the machine has.
impl Bench {
    fn has_block(&self, n: u32) -> bool
        ensures { result ≡ true → IsPlace self.now.layout.blocks 0 n }
    {
        self.layout.extents() > 0 && n < self.layout.blocks(PROCESS)
    }

    fn has_status(&self) -> bool
        ensures { result ≡ true → IsPlace self.now.layout.words 0 0 }
    {
        self.layout.extents() > 0 && self.layout.words(PROCESS) > 0
    }

    /// The state of a memory.
    #[tactic(auto, unfolding(seq_layout::specs::Copies::copies))]
    pub fn state(&self, me: Me) -> Option<State>
        ensures within { IfSome result (λ state. me.0 < self.now.layout.memories) }
        ensures state { IfSome result (λ state. (copies self.now.layout self.now.memories).state me.0 ≡ state) }
    {
        if me.0 < self.layout.memory_count() {
            Some(self.memories.elements.at(me.0 as usize).state)
        } else {
            None
        }
    }

    /// Whether a copy of the process is in service.
    pub fn serves(&self, shadow: bool) -> bool
        ensures { result ≡ serves self.now.layout (copies self.now.layout self.now.memories) 0 shadow }
    {
        self.layout.serves(&self.memories, PROCESS, shadow)
    }

    fn is_served(&self) -> bool
        ensures { result ≡ true → IsServed self.now.layout (copies self.now.layout self.now.memories) 0 }
    {
        let shadow = self.layout.first_is_shadow(PROCESS, &self.memories);
        self.serves(shadow)
    }
}

// What the copies hold.
impl Bench {
    /// Whether the first copy of the process is its shadow.
    pub fn first_is_shadow(&self) -> bool {
        self.layout.first_is_shadow(PROCESS, &self.memories)
    }

    /// The memory of the first copy.
    pub fn first(&self) -> Option<Me> {
        if !self.is_served() {
            return None;
        }
        Some(self.layout.first(PROCESS, &self.memories))
    }

    /// A copy of a block.
    pub fn block(&self, n: u32, shadow: bool) -> Option<Block> {
        if !self.has_block(n) || !self.serves(shadow) {
            return None;
        }
        Some(*self.layout.read_block(&self.memories, PROCESS, n, shadow))
    }

    /// The first copy of a block.
    pub fn first_block(&self, n: u32) -> Option<Block> {
        if !self.has_block(n) || !self.is_served() {
            return None;
        }
        Some(*self.layout.first_block(&self.memories, PROCESS, n))
    }

    /// A copy of the status word.
    pub fn status(&self, shadow: bool) -> Option<u64> {
        if !self.has_status() || !self.serves(shadow) {
            return None;
        }
        Some(self.layout.read_word(&self.memories, STATUS, shadow))
    }

    /// The first copy of the status word.
    pub fn first_status(&self) -> Option<u64> {
        if !self.has_status() || !self.is_served() {
            return None;
        }
        Some(self.layout.first_word(&self.memories, STATUS))
    }
}

// Changes of copies.
impl Bench {
    /// Writes a copy of a block if it is in service.
    pub fn write_block(&mut self, n: u32, shadow: bool, block: &Block) {
        if self.has_block(n) {
            self.layout
                .write_block(&mut self.memories, PROCESS, n, shadow, block);
        }
    }

    /// Sets a copy of a block.
    pub fn set_block(&mut self, n: u32, shadow: bool, block: &Block) {
        if self.has_block(n) && self.serves(shadow) {
            self.layout
                .set_block(&mut self.memories, PROCESS, n, shadow, block);
        }
    }

    /// Writes a copy of the status word if it is in service.
    pub fn write_status(&mut self, shadow: bool, value: u64) {
        if self.has_status() {
            self.layout
                .write_word(&mut self.memories, STATUS, shadow, value);
        }
    }

    /// Sets a copy of the status word.
    pub fn set_status(&mut self, shadow: bool, value: u64) {
        if self.has_status() && self.serves(shadow) {
            self.layout
                .set_word(&mut self.memories, STATUS, shadow, value);
        }
    }

    /// Exchanges a copy of the status word for `new` where it is `old`.
    pub fn swap_status(&mut self, shadow: bool, old: u64, new: u64) -> Option<Result<(), u64>> {
        if !self.has_status() || !self.serves(shadow) {
            return None;
        }
        Some(
            self.layout
                .swap_word(&mut self.memories, STATUS, shadow, old, new),
        )
    }
}

// Changes of memories.
impl Bench {
    /// A memory fails.
    pub fn fail(&mut self, me: Me) {
        if me.0 < self.layout.memory_count() {
            self.layout.fail(&mut self.memories, me);
        }
    }

    /// A memory that is down is repaired.
    pub fn repair(&mut self, me: Me) {
        if let Some(State::Down) = self.state(me) {
            self.layout.repair(&mut self.memories, me);
        }
    }

    /// The units of a memory that returns are copied below `next`.
    pub fn mark_copied(&mut self, me: Me, next: u32) {
        if let Some(State::Stale | State::Copying { .. }) = self.state(me) {
            self.layout.mark_copied(&mut self.memories, me, next);
        }
    }

    /// A memory that returns is in service again.
    pub fn enter_service(&mut self, me: Me) {
        if let Some(State::Stale | State::Copying { .. }) = self.state(me) {
            self.layout.enter_service(&mut self.memories, me);
        }
    }
}
