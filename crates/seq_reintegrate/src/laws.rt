// What is known of the units of a memory that is copied survives what happens elsewhere.
ghost use Rattle.std.specs.Prelude.{ℕ};
ghost use Rattle.seq_layout.specs.Shapes.{Shape};
ghost use Rattle.seq_reintegrate.specs.Survive.{CopyingSurvives};

/// While a memory is copied, its units behind the next one stay equal on both copies through each write to any other block or word,
/// and through each change of another memory's state. Of a memory that fails, nothing is known.
pub fn copied_units_survive()
    ensures { (s : Shape) (i : ℕ) → CopyingSurvives s i }
{}
