// A memory element: a state, blocks and words.
ghost use Rattle.std.specs.Prelude.{◌≡◌, ◌≢◌, ◌<◌, ◌==◌, if◌then◌else◌, true, length, replicate, slice_get, slice_index, slice_set, Some, Ok, Err, IfOk, IsOk, OnOk, OnErr, IfErr, ◌↔◌};
ghost use Rattle.seq_words.specs.Blocks.{zero_block};
ghost use Rattle.seq_memory.specs.States.{is_in_service, is_returning, empty_element};

use seq_words::{Block, Items, NoMemory};
use std::alloc::Global;

/// Whether a memory element serves.
#[derive(Clone, Copy, Debug, PartialEq, Eq)]
pub enum State {
    /// It is read and written.
    InService,
    /// It failed, and holds nothing but zeros.
    Down,
    /// It is repaired, and nothing is copied to it yet.
    Stale,
    /// It is being copied: its units below `next` are done.
    Copying { next: u32 },
}

/// A memory element. All that it holds is lost when it fails.
#[derive(Drop)]
pub struct MemoryElement {
    pub state: State,
    pub blocks: Items<Block>,
    pub words: Items<u64>,
}

/// All memory elements, by their numbers.
#[derive(Drop)]
pub struct Memories {
    pub elements: Items<MemoryElement>,
}

/// Puts `item` at each place.
fn fill<T: Copy + Drop>(items: &mut Items<T>, item: T)
    ensures { items.new ≡ replicate (length items.old) item }
{
    for at in 0..items.len() {
        items.set(at, item);
    }
}

// The length of a block's bytes, which a clause learns only where they are passed.
fn all_bytes(bytes: &[u8; 32])
    ensures { length bytes.now ≡ 32 }
{}

impl MemoryElement {
    /// An element in service, whose blocks and words are zero.
    pub fn new(alloc: Global, blocks: u32, words: u32) -> Result<MemoryElement, NoMemory>
        ensures { IfOk result (λ m. m ≡ empty_element State.InService blocks words) }
    {
        let Ok(blocks) = vec![in alloc; Block::zero(); blocks as usize] else {
            return Err(NoMemory);
        };
        let Ok(words) = vec![in alloc; 0; words as usize] else {
            return Err(NoMemory);
        };
        Ok(MemoryElement {
            state: State::InService,
            blocks: Items::from_vec(blocks),
            words: Items::from_vec(words),
        })
    }

    /// Whether it is in service.
    pub fn in_service(&self) -> bool
        ensures { result ≡ is_in_service self.now.state }
    {
        matches!(self.state, State::InService)
    }

    /// Whether it is repaired, and not in service yet.
    pub fn is_returning(&self) -> bool
        ensures { result ≡ is_returning self.now.state }
    {
        matches!(self.state, State::Stale | State::Copying { .. })
    }

    /// The block at a place.
    pub fn read_block(&self, at: u32) -> &Block
        requires place { at < length self.now.blocks }
        requires up { self.now.state ≢ State.Down }
        ensures block { slice_get self.now.blocks at ≡ Some result.now }
        ensures whole { length result.now.bytes ≡ 32 }
    {
        let block = self.blocks.at(at as usize);
        all_bytes(&block.bytes);
        block
    }

    /// Sets the block at a place.
    pub fn write_block(&mut self, at: u32, block: &Block)
        requires place { at < length self.old.blocks }
        requires up { self.old.state ≢ State.Down }
        ensures { self.new ≡ record self.old { blocks = slice_set self.old.blocks at block.now } }
    {
        self.blocks.set(at as usize, *block);
    }

    /// The word at a place.
    pub fn read_word(&self, at: u32) -> u64
        requires place { at < length self.now.words }
        requires up { self.now.state ≢ State.Down }
        ensures { slice_get self.now.words at ≡ Some result }
    {
        self.words.get(at as usize)
    }

    /// Sets the word at a place.
    pub fn write_word(&mut self, at: u32, value: u64)
        requires place { at < length self.old.words }
        requires up { self.old.state ≢ State.Down }
        ensures { self.new ≡ record self.old { words = slice_set self.old.words at value } }
    {
        self.words.set(at as usize, value);
    }

    /// Test-and-set: exchanges the word at a place for `new` where it is `old`. Else it answers the word that it saw.
    pub fn swap_if(&mut self, at: u32, old: u64, new: u64) -> Result<(), u64>
        requires place { at < length self.old.words }
        requires up { self.old.state ≢ State.Down }
        ensures swaps { IsOk result ↔ (slice_index self.old.words at ≡ old) }
        ensures swapped { OnOk result (self.new ≡ record self.old { words = slice_set self.old.words at new }) }
        ensures seen { IfErr result (λ word. slice_get self.old.words at ≡ Some word) }
        ensures err { OnErr result (self.new ≡ self.old) }
    {
        let word = self.words.get(at as usize);
        if word != old {
            return Err(word);
        }
        self.words.set(at as usize, new);
        Ok(())
    }

    /// Fails: it is down from now on, and all that it held is lost.
    pub fn fail(&mut self)
        ensures { self.new ≡ empty_element State.Down (length self.old.blocks) (length self.old.words) }
    {
        self.state = State::Down;
        fill(&mut self.blocks, Block::zero());
        fill(&mut self.words, 0);
    }

    /// Is repaired: what it lost is to be copied back.
    pub fn repair(&mut self)
        requires { self.old.state ≡ State.Down }
        ensures { self.new ≡ record self.old { state = State.Stale } }
    {
        self.state = State::Stale;
    }

    /// Its units below `next` are copied back.
    pub fn mark_copied(&mut self, next: u32)
        requires { is_returning self.old.state ≡ true }
        ensures { self.new ≡ record self.old { state = State.Copying next } }
    {
        self.state = State::Copying { next };
    }

    /// Is in service again: all that it lost is copied back.
    pub fn enter_service(&mut self)
        requires { is_returning self.old.state ≡ true }
        ensures { self.new ≡ record self.old { state = State.InService } }
    {
        self.state = State::InService;
    }
}
