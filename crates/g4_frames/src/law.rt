// What framed sets mean, and what they say.
ghost use Rattle.std.specs.Prelude.{◌↔◌, ◌++◌, ℕ, List, Contains};
ghost use Rattle.g4_frames.specs.Framed.{FramedNext, FramedStart, IsDown, IsFramed, Kept, Lowered, Meant, Over};
ghost use Rattle.g4_frames.specs.Running.{AreSame, FramedFull, HaveSameVerdicts};
ghost use Rattle.g4_net.specs.Allowed.{Allows};
ghost use Rattle.g4_net.specs.Configurations.{Config, above_bottom};
ghost use Rattle.g4_net.specs.declared.allowed.Allowed.{Allowed};
ghost use Rattle.g4_net.specs.Lookahead.{Next, Start};
ghost use Rattle.g4_net.specs.Network.{ParserNetwork};
ghost use Rattle.g4_net.specs.Prediction.{Choice, Full};

/// The framed start set means the start set with the parser's stack.
pub fn start_means()
    ensures { (net : ParserNetwork) (d : ℕ) (allowed : Allowed) (returns : List ℕ)
        → AreSame (Start net d (Allows allowed) (above_bottom returns)) (Meant net (FramedStart net d (Allows allowed)) returns) }
{}

/// A step by the newest return states keeps what a framed set means.
pub fn lowering_means()
    ensures { (net : ParserNetwork) (row : List Config) (above below : List ℕ) → IsFramed net (Contains row)
        → AreSame (Meant net (Contains row) (above ++ below)) (Meant net (Lowered net (Contains row) above) below) }
{}

/// From a set that is taken down, a step by a symbol means the next set.
pub fn next_means()
    ensures { (net : ParserNetwork) (row : List Config) (below : List ℕ) (a : ℕ) → IsFramed net (Contains row)
        → IsDown net (Contains row) below → AreSame (Next net (Meant net (Contains row) below) a)
        (Meant net (FramedNext net (Contains row) a) below) }
{}

/// A set that is taken down means what is kept of it, over the return states.
pub fn down_means()
    ensures { (net : ParserNetwork) (row : List Config) (below : List ℕ) → IsFramed net (Contains row)
        → IsDown net (Contains row) below → AreSame (Meant net (Contains row) below) (Over below (Kept net (Contains row))) }
{}

/// Sets have the same verdicts over return states.
pub fn verdicts_stay()
    ensures { (row : List Config) (below : List ℕ) → HaveSameVerdicts (Over below (Contains row)) (Contains row) }
{}

/// Full stacks choose what framed sets choose.
pub fn frames_choose()
    ensures { (net : ParserNetwork) (d : ℕ) (allowed : Allowed) (returns w : List ℕ) (c : Choice)
        → Full net d (Allows allowed) (above_bottom returns) w c ↔ FramedFull net d (Allows allowed) returns w c }
{}
