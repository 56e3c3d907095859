// The cache of a processor, as a sorted vector.
ghost use Rattle.std.specs.Prelude.{◌≡◌, ℕ, ◌+◌, ◌<◌, ◌≤◌, ◌↔◌, ◌==◌, ◌&&◌, if◌then◌else◌, true, false, is_ok, is_some, [], insert, length, slice_get, slice_set, vec_len, vec_capacity, Some, None, IfOk, IfErr, IfSome, OnOk, OnErr, IsTrue, IsErr};
ghost use Rattle.std.specs.Borrow.{sem};
ghost use Rattle.std.specs.Option.{option_copied, option_copied_mut};
ghost use Rattle.std.specs.Vec.{SameBlock};
ghost use Rattle.seq_layout.specs.Places.{IsPlace};
ghost use Rattle.seq_layout.specs.Copies.{Matches, copies, IsServed};
ghost use Rattle.seq_cache.specs.Changes.{IsCache, admits, changed, with_change};
ghost use Rattle.seq_cache.specs.Marks.{mark_of, AreMarked};
ghost use Rattle.seq_cache.specs.Standing.{StandsAt, IsGapFor};
ghost use Rattle.seq_cache.specs.Overlay.{overlay};

use crate::Change;
use seq_layout::{Extent, Layout};
use seq_memory::Memories;
use seq_words::{Block, NoMemory};
use std::alloc::Global;
use std::marker::Model;

/// How many marks blocks have. Several blocks may have one mark.
const MARKS: usize = 1024;

/// The blocks that were changed since the last checkpoint, in ascending order of extent, then place.
#[derive(Drop)]
pub struct Cache {
    capacity: u16,
    // It has room for `capacity` changes from the start.
    changes: Vec<Change>,
    // By mark: 0 where no changed block has it. Else one more than the place where the last change of such a block was put, which
    // others may have moved on since.
    hints: [u16; MARKS],
}

/// A block was refused: as many blocks are changed as there may be.
#[derive(Clone, Copy, Debug, PartialEq, Eq)]
pub struct Full {
    /// How many blocks are changed.
    pub changed: u32,
    /// How many blocks may be.
    pub capacity: u16,
}

impl Model for Cache {
    ghost use Rattle.std.specs.Prelude.{◌≤◌, vec_capacity};
    ghost use Rattle.seq_cache.specs.Changes.{Changes, IsCache};
    ghost use Rattle.seq_cache.specs.Marks.{AreMarked};

    ghost Value = { Changes };

    ghost view = { λ c. record { capacity = c.capacity; changes = c.changes.items } };

    ghost invariant = { λ c. IsCache (record { capacity = c.capacity; changes = c.changes.items }) × (c.capacity ≤ vec_capacity c.changes) × AreMarked c.changes.items c.hints };
}

// The length of a block's bytes, which a clause learns only where they are passed.
fn all_bytes(bytes: &[u8; 32])
    ensures { length bytes.now ≡ 32 }
{}

// The mark of a block.
#[tactic(auto, using(crate::proofs::Marked::mark_within))]
fn mark_of(extent: Extent, n: u32) -> usize
    ensures mark { result ≡ mark_of extent.0 n }
    ensures within { result < 1024 }
{
    let extent = extent.0 as usize % MARKS;
    let place = n as usize % MARKS;
    (97 * extent + place) % MARKS
}

// Puts a change in place of another. The vector stays in its block of memory.
fn set_in_place(changes: &mut Vec<Change>, at: usize, change: Change)
    requires { at < vec_len changes.old }
    ensures items { changes.new.items ≡ slice_set changes.old.items at change }
    ensures in_place { SameBlock changes.old changes.new }
{
    changes[at] = change;
}

// Puts a further change in, where there is room for it. The vector stays in its block of memory.
fn insert_in_place(changes: &mut Vec<Change>, at: usize, change: Change)
    requires place { at ≤ vec_len changes.old }
    requires room { vec_len changes.old < vec_capacity changes.old }
    ensures items { changes.new.items ≡ insert changes.old.items at change }
    ensures in_place { SameBlock changes.old changes.new }
{
    changes.insert(at, change).unwrap();
}

// Takes all changes out. The vector keeps its room.
fn clear_in_place(changes: &mut Vec<Change>)
    ensures items { changes.new.items ≡ [] }
    ensures room { vec_capacity changes.new ≡ vec_capacity changes.old }
{
    changes.clear();
}

impl Cache {
    ghost use Rattle.seq_cache.specs.Lending.{LendsBlock, LendsIfChanged};

    /// No block is changed, and at most `capacity` may be. It takes all the memory that the cache will ever need.
    #[tactic(auto, using(crate::proofs::Marked::none_marked))]
    pub fn new(alloc: Global, capacity: u16) -> Result<Cache, NoMemory>
        ensures { IfOk result (λ c. c ≡ record { capacity = capacity; changes = [] }) }
    {
        let Ok(changes) = Vec::with_capacity(alloc, usize::from(capacity)) else {
            return Err(NoMemory);
        };
        Ok(Cache {
            capacity,
            changes,
            hints: [0; MARKS],
        })
    }

    /// How many blocks are changed.
    pub fn dirty(&self) -> u32
        ensures number { result ≡ length self.now.changes }
        ensures cache { IsCache self.now }
    {
        self.changes.len() as u32
    }

    /// The change at a place of the ascending order.
    pub fn dirty_at(&self, i: u32) -> &Change
        requires { i < length self.now.changes }
        ensures change { slice_get self.now.changes i ≡ Some result.now }
        ensures block { changed self.now.changes result.now.extent.0 result.now.place ≡ Some result.now.block }
        ensures whole { length result.now.block.bytes ≡ 32 }
        ensures cache { IsCache self.now }
    {
        let change = &self.changes[i as usize];
        all_bytes(&change.block.bytes);
        change
    }

    /// What a block was changed to.
    pub fn find(&self, extent: Extent, n: u32) -> Option<&Block>
        ensures found { option_copied result ≡ changed self.now.changes extent.0 n }
        ensures whole { IfSome result (λ block. length block.now.bytes ≡ 32) }
    {
        let at = self.place_of(extent, n)?;
        let block = &self.changes[at].block;
        all_bytes(&block.bytes);
        Some(block)
    }

    /// What a block was changed to, to be changed further in its place.
    pub fn find_mut(&mut self, extent: Extent, n: u32) -> Option<&mut Block>
        ensures* writes_back { sem 𝓛 (LendsIfChanged self.entry extent.0 n result) }
        ensures found { option_copied_mut result ≡ changed self.old.changes extent.0 n }
    {
        let at = self.place_of(extent, n)?;
        Some(self.lend(extent, n, at))
    }

    /// A block as the processor sees it: what it was changed to, else what its first copy holds.
    #[tactic(auto, unfolding(crate::specs::Overlay::overlay))]
    pub fn read(&self, extent: Extent, n: u32, memories: &Memories, layout: &Layout) -> Block
        requires matches { Matches layout.now memories.now }
        requires place { IsPlace layout.now.blocks extent.0 n }
        requires served { IsServed layout.now (copies layout.now memories.now) extent.0 }
        ensures value { result ≡ overlay layout.now (copies layout.now memories.now) self.now.changes extent.0 n }
        ensures whole { length result.bytes ≡ 32 }
    {
        match self.find(extent, n) {
            Some(block) => *block,
            None => *layout.first_block(memories, extent, n),
        }
    }

    /// Whether so many further blocks may be changed.
    pub fn room(&self, needed: u32) -> bool
        ensures { IsTrue result ↔ (length self.now.changes + needed ≤ self.now.capacity) }
    {
        needed <= u32::from(self.capacity) - self.dirty()
    }

    /// Whether a block may be written: it is changed already, or there is room for one more.
    pub fn admits(&self, extent: Extent, n: u32) -> bool
        ensures { result ≡ admits self.now extent.0 n }
    {
        self.room(1) || self.find(extent, n).is_some()
    }

    /// Changes a block. It is refused where the block isn't changed yet and as many are as may be.
    #[tactic(auto, using(crate::proofs::LawsHold::put_changes_one_block))]
    pub fn write(&mut self, extent: Extent, n: u32, block: &Block) -> Result<(), Full>
        ensures admitted { is_ok result ≡ admits self.old extent.0 n }
        ensures refused { IsErr result ↔ ((changed self.old.changes extent.0 n ≡ None) × (length self.old.changes ≡ self.old.capacity)) }
        ensures ok { OnOk result (self.new ≡ with_change self.old extent.0 n block.now) }
        ensures reads { OnOk result ((e n' : ℕ) → changed self.new.changes e n' ≡ (if e == extent.0 && n' == n then Some block.now else changed self.old.changes e n')) }
        ensures full { IfErr result (λ f. f ≡ record { changed = length self.old.changes; capacity = self.old.capacity }) }
        ensures unchanged { OnErr result (self.new ≡ self.old) }
        ensures cache { IsCache self.new }
    {
        let change = Change {
            extent,
            place: n,
            block: *block,
        };
        match self.search(extent, n) {
            Ok(at) => self.replace(at, change),
            Err(at) if self.room(1) => self.insert(at, change),
            Err(_) => {
                return Err(Full {
                    changed: self.dirty(),
                    capacity: self.capacity,
                });
            }
        }
        Ok(())
    }

    /// No block is changed any more.
    #[tactic(auto, using(crate::proofs::Marked::none_marked))]
    pub fn clear(&mut self)
        ensures { self.new ≡ record self.old { changes = [] } }
    {
        clear_in_place(&mut self.changes);
        self.hints = [0; MARKS];
    }

    // Whether a block may be changed, as its mark says.
    #[tactic(auto, using(crate::proofs::Marked::unmarked))]
    fn is_marked(&self, extent: Extent, n: u32) -> bool
        ensures { result ≡ false → changed self.now.changes extent.0 n ≡ None }
    {
        self.hints[mark_of(extent, n)] != 0
    }

    // Whether the change at a place, which may be any, is of this block.
    #[tactic(auto, using(crate::proofs::Found::stands))]
    fn is_at(&self, at: usize, extent: Extent, n: u32) -> bool
        ensures { result ≡ true → StandsAt self.now.changes extent.0 n at }
    {
        if at >= self.changes.len() {
            return false;
        }
        let change = &self.changes[at];
        change.extent.0 == extent.0 && change.place == n
    }

    // Where the change of a block stands, if it is changed. A mark without a hint needs no search.
    fn place_of(&self, extent: Extent, n: u32) -> Option<usize>
        ensures variant { is_some result ≡ is_some (changed self.now.changes extent.0 n) }
        ensures stands { IfSome result (StandsAt self.now.changes extent.0 n) }
    {
        if !self.is_marked(extent, n) {
            return None;
        }
        self.search(extent, n).ok()
    }

    // Where the change of a block stands, or else where it would stand. It looks first where the block's hint says.
    #[tactic(auto, using(crate::proofs::Found::standing_is_changed))]
    fn search(&self, extent: Extent, n: u32) -> Result<usize, usize>
        ensures variant { is_ok result ≡ is_some (changed self.now.changes extent.0 n) }
        ensures found { IfOk result (StandsAt self.now.changes extent.0 n) }
        ensures absent { IfErr result (IsGapFor self.now.changes extent.0 n) }
    {
        let hinted = (self.hints[mark_of(extent, n)] as usize).wrapping_sub(1);
        if self.is_at(hinted, extent, n) {
            return Ok(hinted);
        }
        self.halve(extent, n)
    }

    // The same, by halving.
    fn halve(&self, extent: Extent, n: u32) -> Result<usize, usize>
        ensures variant { is_ok result ≡ is_some (changed self.now.changes extent.0 n) }
        ensures found { IfOk result (StandsAt self.now.changes extent.0 n) }
        ensures absent { IfErr result (IsGapFor self.now.changes extent.0 n) }
    {
        self.changes
            .binary_search_by_key(&(extent.0, n), |change| (change.extent.0, change.place))
    }

    // The block whose change stands at a place, to be changed there. The next search for it looks first at this place.
    fn lend(&mut self, extent: Extent, n: u32, at: usize) -> &mut Block
        requires { StandsAt self.old.changes extent.0 n at }
        ensures* writes_back { sem 𝓛 (LendsBlock self.entry extent.0 n result) }
        ensures value { changed self.old.changes extent.0 n ≡ Some result.now }
    {
        let hints = &mut self.hints;
        hints[mark_of(extent, n)] = at as u16 + 1;
        let change = &mut self.changes[at];
        &mut change.block
    }

    // Puts a change in place of the one of its block.
    fn replace(&mut self, at: usize, change: Change)
        requires { StandsAt self.old.changes change.extent.0 change.place at }
        ensures after { self.new ≡ with_change self.old change.extent.0 change.place change.block }
        ensures cache { IsCache self.new }
    {
        set_in_place(&mut self.changes, at, change);
        self.hints[mark_of(change.extent, change.place)] = at as u16 + 1;
    }

    // Puts in the change of a further block. There is room for it, so it takes no memory.
    fn insert(&mut self, at: usize, change: Change)
        requires gap { IsGapFor self.old.changes change.extent.0 change.place at }
        requires room { length self.old.changes < self.old.capacity }
        ensures after { self.new ≡ with_change self.old change.extent.0 change.place change.block }
        ensures cache { IsCache self.new }
    {
        insert_in_place(&mut self.changes, at, change);
        self.hints[mark_of(change.extent, change.place)] = at as u16 + 1;
    }
}
