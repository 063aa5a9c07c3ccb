// What holds of every decision.
ghost use Rattle.std.specs.Prelude.{◌≡◌, ◌++◌, ◌∷◌, ℕ, List, []};
ghost use Rattle.g4_tokens.specs.Symbols.{end_of_list};
ghost use Rattle.g4_net.specs.AddedRule.{IsReady};
ghost use Rattle.g4_net.specs.Allowed.{Allows};
ghost use Rattle.g4_net.specs.Configurations.{above_bottom, wildcard};
ghost use Rattle.g4_net.specs.declared.allowed.Allowed.{Allowed};
ghost use Rattle.g4_net.specs.Lookahead.{Start};
ghost use Rattle.g4_net.specs.Network.{ParserNetwork};
ghost use Rattle.g4_net.specs.Prediction.{Path, Sll, Verdict};
ghost use Rattle.g4_net.specs.Proper.{IsProper};
ghost use Rattle.g4_lookahead.specs.EndOfList.{After, GoesOn, GoesOnFull};

/// No decision looks past END: neither SLL nor full stacks go on after the set that a word which ends in END leads to.
pub fn no_decision_goes_past_end()
    ensures sll { (net : ParserNetwork) (d : ℕ) (allowed : Allowed) (w : List ℕ) → IsReady net
        → GoesOn (After net (Start net d (Allows allowed) wildcard) (w ++ end_of_list ∷ [])) → ⊥ }
    ensures full { (net : ParserNetwork) (d : ℕ) (allowed : Allowed) (returns w : List ℕ) → IsReady net → IsProper net d returns
        → GoesOnFull (After net (Start net d (Allows allowed) (above_bottom returns)) (w ++ end_of_list ∷ [])) → ⊥ }
{}

/// A decision has at most one SLL verdict on a word, with one path.
pub fn one_verdict()
    ensures { (net : ParserNetwork) (d : ℕ) (allowed : Allowed) (word : List ℕ) (v w : Verdict) (p q : Path)
        → Sll net d (Allows allowed) word v p → Sll net d (Allows allowed) word w q → (v ≡ w) × (p ≡ q) }
{}
