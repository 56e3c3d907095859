ghost use Rattle.std.specs.Prelude.{◌≡◌, ℕ, List, None};
ghost use Rattle.seq_manifest.specs.declared.draft.Draft.{Draft};
ghost use Rattle.seq_manifest.specs.Drafts.{Describes};
ghost use Rattle.seq_manifest.specs.Faults.{first_fault};

/// The law of the grammar: a text describes a draft exactly where it violates no rule, and then one alone.
pub fn one_draft()
    ensures some { (text : List ℕ) → first_fault text ≡ None → (d : Draft) × Describes text d }
    ensures none { (text : List ℕ) (d : Draft) → Describes text d → first_fault text ≡ None }
    ensures one { (text : List ℕ) (d e : Draft) → Describes text d → Describes text e → d ≡ e }
{}
