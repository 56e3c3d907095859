// Laws of extents and their places, over every machine, each as the contract of a function.
ghost use Rattle.std.specs.Prelude.{ℕ, ◌<◌, ◌≤◌, length, slice_get, IsSomeAnd};
ghost use Rattle.seq_words.specs.Description.{IsDescription, line_count};
ghost use Rattle.seq_words.specs.declared.description.MachineDesc.{MachineDesc};
ghost use Rattle.seq_layout.specs.Places.{AreApart, IsPlace};
ghost use Rattle.seq_layout.specs.Shapes.{Shape, shape_of, owners_of, Owns, OwnersAreAlone, process_extent, segment_extent, line_extent};
ghost use Rattle.seq_layout.specs.Units.{UnitsStand, StandingAreUnits, UnitsAreOnce, UnitsAreFew};

/// On two or more memories, no two copies of blocks stand at one place, and no two copies of words.
pub fn places_are_apart()
    ensures blocks { (s : Shape) → 2 ≤ s.memories → AreApart s.memories s.blocks }
    ensures words { (s : Shape) → 2 ≤ s.memories → AreApart s.memories s.words }
{}

/// A line's entry among the owners is the process that owns it, and the line's number among that process's lines.
#[tactic(auto, using(crate::proofs::Owners::line_owned))]
pub fn line_has_its_owner()
    ensures { (d : MachineDesc) (l : ℕ) → IsDescription d → l < line_count d → IsSomeAnd (slice_get (owners_of d) l) (λ owner. Owns d l owner.0.0 owner.1) }
{}

/// A line has one owner, and one number among its lines.
pub fn owners_are_alone()
    ensures { OwnersAreAlone }
{}

/// The units of a memory are exactly the blocks and words that stand on it by one of their copies, each once. There are at most as
/// many as the machine has blocks, processes and segments, and lines three times.
pub fn units_are_places()
    ensures stand { UnitsStand }
    ensures listed { StandingAreUnits }
    ensures once { UnitsAreOnce }
    ensures few { UnitsAreFew }
{}

/// Every extent of a machine has a block and a word: a process its eight blocks of context and its status word, a segment
/// its lock word, a line its three words.
#[tactic(auto, using(crate::proofs::Sizes::extent_has_block, crate::proofs::Sizes::extent_has_word, crate::proofs::Sizes::process_has_status, crate::proofs::Sizes::segment_has_lock, crate::proofs::Sizes::line_has_counts))]
pub fn extents_have_their_parts()
    ensures block { (d : MachineDesc) (e : ℕ) → IsDescription d → e < length (shape_of d).blocks → IsPlace (shape_of d).blocks e 0 }
    ensures word { (d : MachineDesc) (e : ℕ) → e < length (shape_of d).blocks → IsPlace (shape_of d).words e 0 }
    ensures context { (d : MachineDesc) (p k : ℕ) → p < length d.processes → k < 8 → IsPlace (shape_of d).blocks (process_extent p) k }
    ensures status { (d : MachineDesc) (p : ℕ) → p < length d.processes → IsPlace (shape_of d).words (process_extent p) 0 }
    ensures lock { (d : MachineDesc) (s : ℕ) → s < length d.segments → IsPlace (shape_of d).words (segment_extent (shape_of d) s) 0 }
    ensures counts { (d : MachineDesc) (l w : ℕ) → l < line_count d → w < 3 → IsPlace (shape_of d).words (line_extent (shape_of d) l) w }
{}
