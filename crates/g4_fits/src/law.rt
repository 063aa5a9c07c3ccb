// Prediction finds what fits, and what fits at the decision of a loop.
ghost use Rattle.std.specs.Prelude.{◌≡◌, ℕ, List, ◌∷◌};
ghost use Rattle.g4_net.specs.AddedRule.{IsReady};
ghost use Rattle.g4_net.specs.Allowed.{Allows};
ghost use Rattle.g4_net.specs.Configurations.{above_bottom};
ghost use Rattle.g4_net.specs.declared.allowed.Allowed.{Allowed};
ghost use Rattle.g4_net.specs.Loops.{IsLoop, LeadsSilently};
ghost use Rattle.g4_net.specs.Network.{IsFirst, ParserNetwork};
ghost use Rattle.g4_net.specs.Prediction.{Choice, Full, Path, Sll, answer, chosen, error_at};
ghost use Rattle.g4_net.specs.Proper.{IsProper};
ghost use Rattle.g4_fits.specs.Fitting.{Fits, FitsFrom, IsLeastThatFits, IsOnlyThatFits, SomeFits};

/// Where some allowed alternative fits the word, full stacks choose the least that does.
pub fn fitting_by_full_stacks()
    ensures { (net : ParserNetwork) (d : ℕ) (allowed : Allowed) (returns w : List ℕ) (c : Choice) → IsReady net → IsProper net d returns →
        SomeFits net d (Allows allowed) returns w → Full net d (Allows allowed) (above_bottom returns) w c → (i : ℕ) × (c ≡ chosen i) ×
        IsLeastThatFits net d (Allows allowed) returns w i }
{}

/// Where some allowed alternative fits the word, SLL finds no error in it, and answers none but the only one that fits.
pub fn fitting_by_sll()
    ensures answers { (net : ParserNetwork) (d : ℕ) (allowed : Allowed) (returns w : List ℕ) (i : ℕ) (path : Path) → IsReady net →
        IsProper net d returns → SomeFits net d (Allows allowed) returns w → Sll net d (Allows allowed) w (answer i) path →
        IsOnlyThatFits net d (Allows allowed) returns w i }
    ensures no_error { (net : ParserNetwork) (d : ℕ) (allowed : Allowed) (returns w : List ℕ) (k : ℕ) (path : Path) → IsReady net →
        IsProper net d returns → SomeFits net d (Allows allowed) returns w → Sll net d (Allows allowed) w (error_at k) path → ⊥ }
{}

/// Where the newest return state leads to the same loop again and some alternative of the loop fits, to leave fits too: the loop
/// that is returned to can take the same turns.
pub fn leave_fits()
    ensures { (net : ParserNetwork) (k u exit back i : ℕ) (returns w : List ℕ) → IsLoop net k u exit → LeadsSilently net back u →
        Fits net u i (back ∷ returns) w →
        ((j : ℕ) × IsFirst net u j exit) × FitsFrom net exit (back ∷ returns) w }
{}
