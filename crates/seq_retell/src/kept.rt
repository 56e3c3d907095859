ghost use Rattle.std.specs.Prelude.{◌≡◌, ◌<◌, ◌++◌, [], ◌∷◌, length, take, true, false, IfOk};

use seq_words::{Entry, NoMemory};
use std::alloc::Global;
use std::marker::Model;

/// The entries of a history, in room that was taken for them before.
#[derive(Drop)]
pub struct Kept {
    room: usize,
    // It has room for so many entries from the start.
    entries: Vec<Entry>,
}

impl Model for Kept {
    ghost use Rattle.std.specs.Prelude.{◌≤◌, length, vec_capacity};
    ghost use Rattle.seq_retell.specs.Keeping.{Keeping};

    ghost Value = { Keeping };

    ghost view = { λ k. record { entries = k.entries.items; room = k.room } };

    ghost invariant = { λ k. (length k.entries.items ≤ k.room) × (k.room ≤ vec_capacity k.entries) };
}

impl Kept {
    /// No entry, and room for so many. It takes all the memory that will be needed for them.
    pub fn with_room(alloc: Global, room: usize) -> Result<Kept, NoMemory>
        ensures { IfOk result (λ k. k ≡ record { entries = []; room = room }) }
    {
        let Ok(entries) = Vec::with_capacity(alloc, room) else {
            return Err(NoMemory);
        };
        Ok(Kept { room, entries })
    }

    /// The entries, in their order.
    pub fn entries(&self) -> &[Entry]
        ensures { result.now ≡ self.now.entries }
    {
        &self.entries
    }

    /// Whether there is no room for a further entry.
    pub fn is_full(&self) -> bool
        ensures full { result ≡ true → length self.now.entries ≡ self.now.room }
        ensures room { result ≡ false → length self.now.entries < self.now.room }
    {
        self.entries.len() == self.room
    }

    /// Keeps a further entry. It takes no memory.
    pub fn keep(&mut self, entry: Entry)
        requires { length self.old.entries < self.old.room }
        ensures { self.new ≡ record self.old { entries = self.old.entries ++ entry ∷ [] } }
    {
        self.entries.push_reserved(entry);
    }

    /// Keeps a further entry where there is room for it. It takes no memory.
    #[tactic(auto, using(crate::proofs::Keeping::keeps_none, crate::proofs::Keeping::keeps_one))]
    pub fn keep_if_room(&mut self, entry: Entry)
        ensures { self.new ≡ record self.old { entries = take self.old.room (self.old.entries ++ entry ∷ []) } }
    {
        if !self.is_full() {
            self.keep(entry);
        }
    }
}
