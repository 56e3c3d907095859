// A release: a word's shadow is freed, and then its primary.
ghost use Rattle.std.specs.Prelude.{◌≡◌, true, false};
ghost use Rattle.seq_layout.specs.Places.{IsPlace};
ghost use Rattle.seq_layout.specs.Copies.{Matches, copies};
ghost use Rattle.seq_layout.specs.Held.{Holds};
ghost use Rattle.seq_locks.specs.Turns.{release_shadow, release_primary, word_at};
ghost use Rattle.seq_locks.specs.Facts.{BothHold};

use crate::{Free, Primary, Shadow};
use seq_layout::{Layout, WordAt};
use seq_memory::Memories;

/// A release of the word `at`.
#[derive(Drop, Debug)]
pub struct Release<S> {
    pub at: WordAt,
    pub stage: S,
}

impl Release<Shadow> {
    /// A release that begins.
    pub fn start(at: WordAt) -> Release<Shadow>
        ensures { result ≡ record { at = at; stage = record {} } }
    {
        Release { at, stage: Shadow }
    }

    /// Frees the shadow, where it is in service.
    #[tactic(auto, using(seq_layout::proofs::Held::word_holds), unfolding(crate::specs::Turns::release_shadow))]
    pub fn turn(self, memories: &mut Memories, layout: &Layout) -> Release<Primary>
        requires matches { Matches layout.now memories.old }
        requires place { IsPlace layout.now.words self.at.extent.0 self.at.word }
        ensures state { result ≡ (release_shadow layout.now (copies layout.now memories.old) self).state }
        ensures next { result ≡ record { at = self.at; stage = record {} } }
        ensures copies { copies layout.now memories.new ≡ (release_shadow layout.now (copies layout.now memories.old) self).copies }
        ensures matches { Matches layout.now memories.new }
        ensures freed { Holds layout.now (copies layout.now memories.new) self.at true 0 }
    {
        layout.write_word(memories, self.at, true, 0);
        Release {
            at: self.at,
            stage: Primary,
        }
    }
}

impl Release<Primary> {
    /// Frees the primary, where it is in service. The shadow stays as it is.
    #[tactic(auto, using(seq_layout::proofs::Held::word_holds, seq_layout::proofs::Held::shadow_word_stays), unfolding(crate::specs::Turns::release_primary))]
    pub fn turn(self, memories: &mut Memories, layout: &Layout) -> Free
        requires matches { Matches layout.now memories.old }
        requires place { IsPlace layout.now.words self.at.extent.0 self.at.word }
        ensures state { result ≡ (release_primary layout.now (copies layout.now memories.old) self).state }
        ensures copies { copies layout.now memories.new ≡ (release_primary layout.now (copies layout.now memories.old) self).copies }
        ensures matches { Matches layout.now memories.new }
        ensures freed { Holds layout.now (copies layout.now memories.new) self.at false 0 }
        ensures shadow { word_at (copies layout.now memories.new) self.at true ≡ word_at (copies layout.now memories.old) self.at true }
        ensures both { Holds layout.now (copies layout.now memories.old) self.at true 0 → BothHold layout.now (copies layout.now memories.new) self.at 0 }
    {
        layout.write_word(memories, self.at, false, 0);
        Free
    }
}
