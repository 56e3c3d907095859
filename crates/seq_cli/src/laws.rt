// Laws of what is asked for. The functions do nothing: what they say is in their contracts.
ghost use Rattle.std.specs.Prelude.{◌≡◌, ℕ, List, Option};
ghost use Rattle.seq_shelf.specs.Told.{Map};
ghost use Rattle.seq_cli.specs.Files.{Opening};
ghost use Rattle.seq_cli.specs.Opening.{Opens};

/// Words and files ask for one thing alone: so each status that answers it comes exactly where it is asked for.
pub fn one_opening()
    ensures { (words : List (List ℕ)) (map : Map) (failed : Option ℕ) (o p : Opening) → Opens words map failed o → Opens words map failed p → o ≡ p }
{}
