// The copies of blocks and words: read, written, and lost with their memories.
ghost use Rattle.std.specs.Prelude.{◌≡◌, ◌≢◌, ℕ, ◌<◌, ◌↔◌, Bool, true, length, IsOk, IfOk, OnOk, OnErr, IfErr};
ghost use Rattle.seq_memory.specs.States.{is_returning};
ghost use Rattle.seq_memory.specs.declared.element.State.TheVariants.{InService, Down, Stale, Copying};
ghost use Rattle.seq_layout.specs.Places.{memory_of, IsPlace};
ghost use Rattle.seq_layout.specs.Copies.{Matches, AreFresh, fresh_element, copies, state_of, serves, first_copy, first_block, first_word, IsServed, with_block, with_word, with_state, block_written, word_written, failed, BlockChangesAlone, WordChangesAlone, MemoryFailsAlone, StateChangesAlone, AllAreServed};

use crate::{Extent, Layout, WordAt};
use seq_memory::{Memories, MemoryElement};
use seq_words::{Block, Items, Me, NoMemory};
use std::alloc::Global;

impl Layout {
    // A memory in service, with room for what it keeps, all of it zero.
    fn fresh_memory(&self, alloc: Global, memory: Me) -> Result<MemoryElement, NoMemory>
        requires { memory.0 < self.now.memories }
        ensures { IfOk result (λ m. m ≡ fresh_element self.now memory.0) }
    {
        MemoryElement::new(alloc, self.block_count(memory), self.word_count(memory))
    }

    /// Fresh memories of the machine: each is in service, and all that they hold is zero. It takes memory, and may be refused it.
    pub fn memories(&self, alloc: Global) -> Result<Memories, NoMemory>
        ensures matches { IfOk result (Matches self.now) }
        ensures fresh { IfOk result (λ m. AreFresh self.now (copies self.now m)) }
        ensures served { IfOk result (λ m. (e : ℕ) (c : Bool) → serves self.now (copies self.now m) e c ≡ true) }
    {
        let mut elements = Items::new(alloc);
        for memory in 0..self.memory_count() {
            let element = self.fresh_memory(alloc, Me(memory))?;
            if elements.push(element).is_err() {
                return Err(NoMemory);
            }
        }
        Ok(Memories { elements })
    }
}

impl Layout {
    /// Whether a copy of an extent is in service.
    pub fn serves(&self, memories: &Memories, extent: Extent, shadow: bool) -> bool
        requires { Matches self.now memories.now }
        ensures { result ≡ serves self.now (copies self.now memories.now) extent.0 shadow }
    {
        let me = self.memory(extent, shadow);
        memories.elements.at(me.0 as usize).in_service()
    }

    /// Whether the first copy of an extent is its shadow.
    pub fn first_is_shadow(&self, extent: Extent, memories: &Memories) -> bool
        requires { Matches self.now memories.now }
        ensures { result ≡ first_copy self.now (copies self.now memories.now) extent.0 }
    {
        !self.serves(memories, extent, false)
    }

    /// The memory of the first copy of an extent.
    pub fn first(&self, extent: Extent, memories: &Memories) -> Me
        requires matches { Matches self.now memories.now }
        requires served { IsServed self.now (copies self.now memories.now) extent.0 }
        ensures { result.0 ≡ memory_of self.now.memories extent.0 (first_copy self.now (copies self.now memories.now) extent.0) }
    {
        self.memory(extent, self.first_is_shadow(extent, memories))
    }

    /// A copy of a block.
    pub fn read_block<'a>(
        &self,
        memories: &'a Memories,
        extent: Extent,
        n: u32,
        shadow: bool,
    ) -> &'a Block
        requires matches { Matches self.now memories.now }
        requires place { IsPlace self.now.blocks extent.0 n }
        requires up { state_of self.now (copies self.now memories.now) extent.0 shadow ≢ Down }
        ensures block { result.now ≡ (copies self.now memories.now).block extent.0 n shadow }
        ensures whole { length result.now.bytes ≡ 32 }
    {
        let (me, at) = self.place(extent, n, shadow);
        memories.elements.at(me.0 as usize).read_block(at)
    }

    /// A copy of a word.
    pub fn read_word(&self, memories: &Memories, at: WordAt, shadow: bool) -> u64
        requires matches { Matches self.now memories.now }
        requires place { IsPlace self.now.words at.extent.0 at.word }
        requires up { state_of self.now (copies self.now memories.now) at.extent.0 shadow ≢ Down }
        ensures { result ≡ (copies self.now memories.now).word at.extent.0 at.word shadow }
    {
        let (me, place) = self.word_place(at, shadow);
        memories.elements.at(me.0 as usize).read_word(place)
    }

    /// The first copy of a block.
    pub fn first_block<'a>(&self, memories: &'a Memories, extent: Extent, n: u32) -> &'a Block
        requires matches { Matches self.now memories.now }
        requires place { IsPlace self.now.blocks extent.0 n }
        requires served { IsServed self.now (copies self.now memories.now) extent.0 }
        ensures block { result.now ≡ first_block self.now (copies self.now memories.now) extent.0 n }
        ensures whole { length result.now.bytes ≡ 32 }
    {
        let shadow = self.first_is_shadow(extent, memories);
        self.read_block(memories, extent, n, shadow)
    }

    /// The first copy of a word.
    pub fn first_word(&self, memories: &Memories, at: WordAt) -> u64
        requires matches { Matches self.now memories.now }
        requires place { IsPlace self.now.words at.extent.0 at.word }
        requires served { IsServed self.now (copies self.now memories.now) at.extent.0 }
        ensures { result ≡ first_word self.now (copies self.now memories.now) at.extent.0 at.word }
    {
        let shadow = self.first_is_shadow(at.extent, memories);
        self.read_word(memories, at, shadow)
    }
}

impl Layout {
    /// Sets a copy of a block, whether it is in service or not.
    pub fn set_block(
        &self,
        memories: &mut Memories,
        extent: Extent,
        n: u32,
        shadow: bool,
        block: &Block,
    )
        requires matches { Matches self.now memories.old }
        requires place { IsPlace self.now.blocks extent.0 n }
        requires up { state_of self.now (copies self.now memories.old) extent.0 shadow ≢ Down }
        ensures set { copies self.now memories.new ≡ with_block (copies self.now memories.old) extent.0 n shadow block.now }
        ensures matches { Matches self.now memories.new }
    {
        let (me, at) = self.place(extent, n, shadow);
        let element = memories.elements.at_mut(me.0 as usize);
        element.write_block(at, block);
    }

    /// Sets a copy of a word, whether it is in service or not.
    pub fn set_word(&self, memories: &mut Memories, at: WordAt, shadow: bool, value: u64)
        requires matches { Matches self.now memories.old }
        requires place { IsPlace self.now.words at.extent.0 at.word }
        requires up { state_of self.now (copies self.now memories.old) at.extent.0 shadow ≢ Down }
        ensures set { copies self.now memories.new ≡ with_word (copies self.now memories.old) at.extent.0 at.word shadow value }
        ensures matches { Matches self.now memories.new }
    {
        let (me, place) = self.word_place(at, shadow);
        let element = memories.elements.at_mut(me.0 as usize);
        element.write_word(place, value);
    }

    /// Writes a copy of a block if it is in service; else nothing changes.
    #[tactic(auto, using(crate::proofs::CopiesByPlace::serving_is_up), unfolding(crate::specs::Copies::block_written))]
    pub fn write_block(
        &self,
        memories: &mut Memories,
        extent: Extent,
        n: u32,
        shadow: bool,
        block: &Block,
    )
        requires matches { Matches self.now memories.old }
        requires place { IsPlace self.now.blocks extent.0 n }
        ensures written { copies self.now memories.new ≡ block_written self.now (copies self.now memories.old) extent.0 n shadow block.now }
        ensures matches { Matches self.now memories.new }
    {
        if self.serves(memories, extent, shadow) {
            self.set_block(memories, extent, n, shadow, block);
        }
    }

    /// Writes a copy of a word if it is in service; else nothing changes.
    #[tactic(auto, using(crate::proofs::CopiesByPlace::serving_is_up), unfolding(crate::specs::Copies::word_written))]
    pub fn write_word(&self, memories: &mut Memories, at: WordAt, shadow: bool, value: u64)
        requires matches { Matches self.now memories.old }
        requires place { IsPlace self.now.words at.extent.0 at.word }
        ensures written { copies self.now memories.new ≡ word_written self.now (copies self.now memories.old) at.extent.0 at.word shadow value }
        ensures matches { Matches self.now memories.new }
    {
        if self.serves(memories, at.extent, shadow) {
            self.set_word(memories, at, shadow, value);
        }
    }

    /// Test-and-set of a copy of a word: exchanges it for `new` where it is `old`. Else it answers the word that it saw.
    pub fn swap_word(
        &self,
        memories: &mut Memories,
        at: WordAt,
        shadow: bool,
        old: u64,
        new: u64,
    ) -> Result<(), u64>
        requires matches { Matches self.now memories.old }
        requires place { IsPlace self.now.words at.extent.0 at.word }
        requires up { state_of self.now (copies self.now memories.old) at.extent.0 shadow ≢ Down }
        ensures swaps { IsOk result ↔ ((copies self.now memories.old).word at.extent.0 at.word shadow ≡ old) }
        ensures swapped { OnOk result (copies self.now memories.new ≡ with_word (copies self.now memories.old) at.extent.0 at.word shadow new) }
        ensures seen { IfErr result (λ word. word ≡ (copies self.now memories.old).word at.extent.0 at.word shadow) }
        ensures err { OnErr result (memories.new ≡ memories.old) }
        ensures matches { Matches self.now memories.new }
    {
        let (me, place) = self.word_place(at, shadow);
        let element = memories.elements.at_mut(me.0 as usize);
        element.swap_if(place, old, new)
    }

    /// A memory fails: all copies on it are lost.
    pub fn fail(&self, memories: &mut Memories, me: Me)
        requires matches { Matches self.now memories.old }
        requires memory { me.0 < self.now.memories }
        ensures fails { copies self.now memories.new ≡ failed self.now (copies self.now memories.old) me.0 }
        ensures matches { Matches self.now memories.new }
    {
        let element = memories.elements.at_mut(me.0 as usize);
        element.fail();
    }

    /// A memory that is down is repaired: what it lost is to be copied back.
    pub fn repair(&self, memories: &mut Memories, me: Me)
        requires matches { Matches self.now memories.old }
        requires memory { me.0 < self.now.memories }
        requires down { (copies self.now memories.old).state me.0 ≡ Down }
        ensures repaired { copies self.now memories.new ≡ with_state (copies self.now memories.old) me.0 Stale }
        ensures matches { Matches self.now memories.new }
    {
        let element = memories.elements.at_mut(me.0 as usize);
        element.repair();
    }

    /// The units of a memory below `next` are copied back.
    pub fn mark_copied(&self, memories: &mut Memories, me: Me, next: u32)
        requires matches { Matches self.now memories.old }
        requires memory { me.0 < self.now.memories }
        requires returning { is_returning ((copies self.now memories.old).state me.0) ≡ true }
        ensures marked { copies self.now memories.new ≡ with_state (copies self.now memories.old) me.0 (Copying next) }
        ensures matches { Matches self.now memories.new }
    {
        let element = memories.elements.at_mut(me.0 as usize);
        element.mark_copied(next);
    }

    /// A memory is in service again: all that it lost is copied back.
    pub fn enter_service(&self, memories: &mut Memories, me: Me)
        requires matches { Matches self.now memories.old }
        requires memory { me.0 < self.now.memories }
        requires returning { is_returning ((copies self.now memories.old).state me.0) ≡ true }
        ensures serves { copies self.now memories.new ≡ with_state (copies self.now memories.old) me.0 InService }
        ensures matches { Matches self.now memories.new }
    {
        let element = memories.elements.at_mut(me.0 as usize);
        element.enter_service();
    }
}

/// Where one copy of a block is changed, all else stays as it was.
pub fn block_changes_alone()
    ensures { BlockChangesAlone }
{}

/// Where one copy of a word is changed, all else stays as it was.
pub fn word_changes_alone()
    ensures { WordChangesAlone }
{}

/// Where a memory fails, every other memory, and every copy on it, stays as it was.
pub fn memory_fails_alone()
    ensures { MemoryFailsAlone }
{}

/// Where the state of a memory is changed, every other memory, and all that is held, stays as it was.
pub fn state_changes_alone()
    ensures { StateChangesAlone }
{}

/// While at most one memory is not in service, every extent has a copy in service.
#[tactic(auto, using(crate::proofs::CopiesLaws::all_are_served))]
pub fn all_are_served()
    ensures { AllAreServed }
{}
