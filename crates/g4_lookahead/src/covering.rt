// What full stacks choose.
ghost use Rattle.std.specs.Prelude.{◌≡◌, ◌∷◌, ◌⊎◌, ℕ, List, Contains};
ghost use Rattle.g4_lookahead.specs.Covering.{Covers, Takers};
ghost use Rattle.g4_lookahead.specs.Near.{IsNear};
ghost use Rattle.g4_net.specs.AddedRule.{IsReady};
ghost use Rattle.g4_net.specs.Allowed.{Allows};
ghost use Rattle.g4_net.specs.Configurations.{above_bottom};
ghost use Rattle.g4_net.specs.declared.allowed.Allowed.{Allowed};
ghost use Rattle.g4_net.specs.Lookahead.{IsLeast, Start};
ghost use Rattle.g4_net.specs.Network.{ParserNetwork};
ghost use Rattle.g4_net.specs.Prediction.{Choice, Full, chosen, no_viable};
ghost use Rattle.g4_net.specs.Proper.{IsProper};
ghost use Rattle.g4_tokens.specs.Symbols.{end_of_list};

/// Where the least alternative whose edges take the first symbol covers the others, full stacks choose it, or none is viable.
pub fn covering_chooses()
    ensures { (net : ParserNetwork) (d : ℕ) (allowed : Allowed) (returns : List ℕ) (a i : ℕ) (w : List ℕ) (c : Choice)
        → Covers net (Takers net (Start net d (Allows allowed) (above_bottom returns)) a) i
        → IsLeast (Takers net (Start net d (Allows allowed) (above_bottom returns)) a) i
        → Full net d (Allows allowed) (above_bottom returns) (a ∷ w) c → (c ≡ chosen i) ⊎ ((k : ℕ) × (c ≡ no_viable k)) }
{}

/// Where an alternative can be decided nearby on the first symbol, full stacks choose it, or none is viable.
pub fn near_chooses()
    ensures { (net : ParserNetwork) (d : ℕ) (allowed : Allowed) (returns : List ℕ) (a i : ℕ) (w : List ℕ) (c : Choice)
        → IsNear net d (Allows allowed) returns a i → Full net d (Allows allowed) (above_bottom returns) (a ∷ w) c
        → (c ≡ chosen i) ⊎ ((k : ℕ) × (c ≡ no_viable k)) }
{}

/// On a word with END full stacks choose an alternative, or say that none is viable.
pub fn full_stacks_choose()
    ensures { (net : ParserNetwork) (d : ℕ) (allowed : Allowed) (returns w : List ℕ) → IsReady net → IsProper net d returns
        → Contains w end_of_list → (c : Choice) × Full net d (Allows allowed) (above_bottom returns) w c }
{}
