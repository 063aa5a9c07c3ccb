// What the definition of pieces implies.
ghost use Rattle.std.specs.Prelude.{◌≡◌, ◌≢◌, ℕ, List, [], ◌∷◌, All};
ghost use Rattle.g4_base.specs.Place.{first_place, place_after};
ghost use Rattle.g4_tags.specs.Pieces.{IsFaulty, IsOrdinary, IsPieced, plain_from};
ghost use Rattle.g4_tags.specs.declared.pieces.Piece.TheVariants.{Plain};
ghost use Rattle.g4_tags.specs.declared.pieces.Pieced.{Pieced};

/// A text has its pieces in one way at most.
pub fn one_reading()
    ensures { (names : List (List ℕ)) (text : List ℕ) (a b : Pieced) → IsPieced names text a → IsPieced names text b → a ≡ b }
{}

/// A text that has pieces has no fault.
pub fn pieces_or_fault()
    ensures { (names : List (List ℕ)) (text : List ℕ) (pieced : Pieced) (at : ℕ) → IsPieced names text pieced
        → IsFaulty names text at → ⊥ }
{}

/// A text has its fault at one place at most.
pub fn one_fault()
    ensures { (names : List (List ℕ)) (text : List ℕ) (one other : ℕ) → IsFaulty names text one → IsFaulty names text other
        → one ≡ other }
{}

/// A text that is not empty, without `<` and `\`, is one plain text of the same characters.
pub fn one_plain_text()
    ensures { (names : List (List ℕ)) (text : List ℕ) → text ≢ [] → All IsOrdinary text
        → IsPieced names text (record { pieces = Plain (plain_from first_place text) ∷ []; end = place_after first_place text }) }
{}
