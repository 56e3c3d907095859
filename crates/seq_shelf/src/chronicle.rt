// A chronicle: a list of pairs, which can't be read through the trait.
ghost use Rattle.std.specs.Prelude.{◌≡◌, ◌↔◌, ◌++◌, [], ◌∷◌, OnOk, OnErr, IsErrOf, Some, true};
ghost use Rattle.seq_shelf.specs.Calls.{is_due, after_call};
ghost use Rattle.seq_shelf.specs.Causes.{HasCause};
ghost use Rattle.seq_shelf.specs.Told.{Grows, ChronicleView};

use crate::failing::Failing;
use seq_words::{Bytes, Entry, Items, Pid};
use std::alloc::Global;

/// Why a chronicle doesn't take a pair.
#[derive(Clone, Copy, Debug, PartialEq, Eq)]
pub enum ChronicleError {
    /// A fault of the chronicle.
    Fault,
    NoMemory,
}

/// The list of the commits: pairs of a process and the number of steps that it took.
pub trait Chronicle {
    /// The list, where the chronicle tells it, and the counts of its faults and of the memory that was refused to it.
    ghost chronicle: { Self → ChronicleView };

    /// Appends the pair.
    fn append(&mut self, pid: Pid, count: u32) -> Result<(), ChronicleError>
        ensures ok { OnOk result (Grows (chronicle self.old).told (chronicle self.new).told
            (record { pid = pid; count = count } ∷ [])) }

        // A count rises with an error alone.
        ensures ok_faults { OnOk result ((chronicle self.new).faults ≡ (chronicle self.old).faults) }

        // After an error the chronicle has what it had.
        ensures err { OnErr result ((chronicle self.new).told ≡ (chronicle self.old).told) }
        ensures fault { HasCause ChronicleError.Fault (chronicle self.old).faults (chronicle self.new).faults result }
        ensures memory { HasCause ChronicleError.NoMemory (chronicle self.old).refusals (chronicle self.new).refusals result };
}

/// A chronicle in memory that never fails.
#[derive(Drop)]
pub struct SoundChronicle {
    pairs: Items<Entry>,
    refusals: u64,
}

impl SoundChronicle {
    /// A chronicle of no pair. It takes no memory.
    pub fn new(alloc: Global) -> Self
        ensures { ⟦<SoundChronicle as Chronicle>⟧.chronicle result ≡
            record { told = Some []; faults = 0; refusals = 0 } }
    {
        SoundChronicle {
            pairs: Items::new(alloc),
            refusals: 0,
        }
    }

    /// The pairs that were appended.
    pub fn pairs(&self) -> &[Entry]
        ensures { (⟦<SoundChronicle as Chronicle>⟧.chronicle self.now).told ≡ Some result.now }
    {
        self.pairs.as_slice()
    }
}

impl Chronicle for SoundChronicle {
    ghost chronicle = { λ s. record { told = Some s.pairs; faults = 0; refusals = s.refusals } };

    fn append(&mut self, pid: Pid, count: u32) -> Result<(), ChronicleError>
        ensures ok { OnOk result (self.new ≡
            record self.old { pairs = self.old.pairs ++ record { pid = pid; count = count } ∷ [] }) }
        ensures err { OnErr result (self.new.pairs ≡ self.old.pairs) }
        ensures never_fails { ¬ IsErrOf result ChronicleError.Fault }
        ensures memory { HasCause ChronicleError.NoMemory self.old.refusals self.new.refusals result }
    {
        match self.pairs.push(Entry { pid, count }) {
            Ok(()) => Ok(()),
            Err(_) => {
                self.refusals = self.refusals.saturating_add(1);
                Err(ChronicleError::NoMemory)
            }
        }
    }
}

/// A chronicle in memory that fails at listed calls of `append`, by their numbers from 0.
#[derive(Drop)]
pub struct MemChronicle {
    sound: SoundChronicle,
    failing: Failing,
}

impl MemChronicle {
    /// A chronicle of no pair. It takes no memory.
    pub fn new(alloc: Global, failing: Bytes) -> Self
        ensures fresh { ⟦<MemChronicle as Chronicle>⟧.chronicle result ≡
            record { told = Some []; faults = 0; refusals = 0 } }
        ensures failing { result.failing ≡ record { numbers = failing; calls = 0; faults = 0 } }
    {
        MemChronicle {
            sound: SoundChronicle::new(alloc),
            failing: Failing::new(failing),
        }
    }

    /// The pairs that were appended.
    pub fn pairs(&self) -> &[Entry]
        ensures { (⟦<MemChronicle as Chronicle>⟧.chronicle self.now).told ≡ Some result.now }
    {
        self.sound.pairs()
    }
}

impl Chronicle for MemChronicle {
    ghost chronicle = { λ s. record (⟦<SoundChronicle as Chronicle>⟧.chronicle s.sound) { faults = s.failing.faults } };

    fn append(&mut self, pid: Pid, count: u32) -> Result<(), ChronicleError>
        ensures fails { result ≡ Err ChronicleError.Fault ↔ (is_due self.old.failing ≡ true) }
        ensures counted { self.new.failing ≡ after_call self.old.failing }
        ensures ok { OnOk result (self.new.sound ≡
            record self.old.sound { pairs = self.old.sound.pairs ++ record { pid = pid; count = count } ∷ [] }) }
        ensures err { OnErr result (self.new.sound.pairs ≡ self.old.sound.pairs) }
        ensures fault { HasCause ChronicleError.Fault self.old.failing.faults self.new.failing.faults result }
        ensures memory { HasCause ChronicleError.NoMemory self.old.sound.refusals self.new.sound.refusals result }
    {
        if self.failing.fails() {
            return Err(ChronicleError::Fault);
        }
        self.sound.append(pid, count)
    }
}
