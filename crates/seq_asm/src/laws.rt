ghost use Rattle.std.specs.Prelude.{◌≡◌, ℕ, List};
ghost use Rattle.seq_loader.specs.declared.image.Image.{Image};
ghost use Rattle.seq_asm.specs.Assembled.{Makes};

/// The law of sources: a text makes at most one image.
pub fn one_image()
    ensures { (text : List ℕ) (i j : Image) → Makes text i → Makes text j → i ≡ j }
{}
