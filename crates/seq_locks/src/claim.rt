// A claim: test-and-set of a word's primary, and then of its shadow.
ghost use Rattle.std.specs.Prelude.{◌≡◌, ◌≢◌, ◌<◌, ◌↔◌, true, false, Some, OnOk, OnErr, IsErr, IfErr};
ghost use Rattle.seq_layout.specs.Places.{IsPlace};
ghost use Rattle.seq_layout.specs.Copies.{Matches, copies, word_written};
ghost use Rattle.seq_layout.specs.Held.{Holds};
ghost use Rattle.seq_locks.specs.Turns.{claim_primary, claim_shadow, is_taken, word_at};
ghost use Rattle.seq_locks.specs.Facts.{BothHold};

use crate::{Held, Primary, Shadow};
use seq_layout::{Layout, WordAt};
use seq_memory::Memories;

/// A claim of the word `at`, which is 0 where it is free, for the claimant whose value isn't 0.
#[derive(Drop, Debug)]
pub struct Claim<S> {
    pub at: WordAt,
    pub value: u64,
    pub stage: S,
}

/// What a turn of a claim answers: it goes on, or the word that was tested isn't free.
#[derive(Drop, Debug, PartialEq, Eq)]
pub enum Claimed<T> {
    Got(T),
    /// The value that was seen.
    Refused(u64),
}

// Tests and sets one copy, where it is in service. The error is the value that was seen.
#[tactic(auto, using(seq_layout::proofs::CopiesByPlace::serving_is_up), unfolding(seq_layout::specs::Copies::word_written))]
fn test_and_set(
    memories: &mut Memories,
    layout: &Layout,
    at: WordAt,
    shadow: bool,
    value: u64,
) -> Result<(), u64>
    requires matches { Matches layout.now memories.old }
    requires place { IsPlace layout.now.words at.extent.0 at.word }
    ensures matches { Matches layout.now memories.new }
    ensures ok { OnOk result (copies layout.now memories.new ≡ word_written layout.now (copies layout.now memories.old) at.extent.0 at.word shadow value) }
    ensures err { OnErr result (copies layout.now memories.new ≡ copies layout.now memories.old) }
    ensures refused { IsErr result ↔ (is_taken layout.now (copies layout.now memories.old) at shadow ≡ true) }
    ensures seen { IfErr result (λ v. v ≡ word_at (copies layout.now memories.old) at shadow) }
{
    if !layout.serves(memories, at.extent, shadow) {
        return Ok(());
    }
    layout.swap_word(memories, at, shadow, 0, value)
}

impl Claim<Primary> {
    /// A claim that begins. `value` isn't 0.
    pub fn start(at: WordAt, value: u64) -> Claim<Primary>
        requires { value ≢ 0 }
        ensures { result ≡ record { at = at; value = value; stage = record {} } }
    {
        Claim {
            at,
            value,
            stage: Primary,
        }
    }

    /// Tests and sets the primary. Refused exactly where it is in service and isn't 0; then nothing changes.
    #[tactic(auto, using(seq_layout::proofs::Held::word_holds), unfolding(crate::specs::Turns::claim_primary))]
    pub fn turn(self, memories: &mut Memories, layout: &Layout) -> Claimed<Claim<Shadow>>
        requires matches { Matches layout.now memories.old }
        requires place { IsPlace layout.now.words self.at.extent.0 self.at.word }
        ensures state { result ≡ (claim_primary layout.now (copies layout.now memories.old) self).state }
        ensures copies { copies layout.now memories.new ≡ (claim_primary layout.now (copies layout.now memories.old) self).copies }
        ensures matches { Matches layout.now memories.new }
        ensures next { (c : _) → result ≡ Claimed.Got c → c ≡ record { at = self.at; value = self.value; stage = record {} } }
        ensures holds { (c : _) → result ≡ Claimed.Got c → Holds layout.now (copies layout.now memories.new) self.at false self.value }
        ensures refused { (v : _) → (result ≡ Claimed.Refused v) ↔ ((is_taken layout.now (copies layout.now memories.old) self.at false ≡ true) × (v ≡ word_at (copies layout.now memories.old) self.at false)) }
        ensures taken { (v : _) → result ≡ Claimed.Refused v → v ≢ 0 }
    {
        match test_and_set(memories, layout, self.at, false, self.value) {
            Ok(()) => Claimed::Got(Claim {
                at: self.at,
                value: self.value,
                stage: Shadow,
            }),
            Err(seen) => Claimed::Refused(seen),
        }
    }
}

impl Claim<Shadow> {
    /// Tests and sets the shadow. Refused exactly where it is in service and isn't 0; then nothing changes.
    #[tactic(auto, unfolding(crate::specs::Turns::claim_shadow))]
    pub fn turn(self, memories: &mut Memories, layout: &Layout) -> Claimed<Held>
        requires matches { Matches layout.now memories.old }
        requires place { IsPlace layout.now.words self.at.extent.0 self.at.word }
        ensures state { result ≡ (claim_shadow layout.now (copies layout.now memories.old) self).state }
        ensures copies { copies layout.now memories.new ≡ (claim_shadow layout.now (copies layout.now memories.old) self).copies }
        ensures matches { Matches layout.now memories.new }
        ensures held { (h : _) → result ≡ Claimed.Got h → Holds layout.now (copies layout.now memories.old) self.at false self.value → BothHold layout.now (copies layout.now memories.new) self.at self.value }
        ensures refused { (v : _) → (result ≡ Claimed.Refused v) ↔ ((is_taken layout.now (copies layout.now memories.old) self.at true ≡ true) × (v ≡ word_at (copies layout.now memories.old) self.at true)) }
        ensures taken { (v : _) → result ≡ Claimed.Refused v → v ≢ 0 }
    {
        match test_and_set(memories, layout, self.at, true, self.value) {
            Ok(()) => Claimed::Got(Held),
            Err(word) => Claimed::Refused(word),
        }
    }
}
