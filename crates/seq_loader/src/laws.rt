ghost use Rattle.std.specs.Prelude.{◌≡◌, ◌<◌, ℕ, List, All, None};
ghost use Rattle.seq_loader.specs.declared.image.Image.{Image};
ghost use Rattle.seq_loader.specs.Image.{Spells};
ghost use Rattle.seq_loader.specs.Faults.{first_fault};

/// The law of the format: a file has an image exactly where it violates no rule, and then one alone.
pub fn one_image()
    ensures some { (file : List ℕ) → All (λ byte. byte < 256) file →
        first_fault file ≡ None → (i : Image) × Spells file i }
    ensures none { (file : List ℕ) (i : Image) → Spells file i → first_fault file ≡ None }
    ensures one { (file : List ℕ) (i j : Image) → Spells file i → Spells file j → i ≡ j }
{}
