// What the grammar of predicates implies.
ghost use Rattle.std.specs.Prelude.{◌≡◌, ℕ, List};
ghost use Rattle.g4_preds.specs.Readings.{IsPredicate};
ghost use Rattle.g4_preds.specs.Trees.{Tree};

/// A text is at most one predicate.
pub fn one_reading()
    ensures { (text : List ℕ) (a b : Tree) → IsPredicate text a → IsPredicate text b → a ≡ b }
{}
