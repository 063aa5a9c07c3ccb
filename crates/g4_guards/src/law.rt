// What holds of every choice, whichever alternatives are allowed.
ghost use Rattle.std.specs.Prelude.{◌≡◌, ◌↔◌, ℕ, List};
ghost use Rattle.g4_fits.specs.Fitting.{IsLeastThatFits, SomeFits};
ghost use Rattle.g4_net.specs.AddedRule.{IsReady};
ghost use Rattle.g4_net.specs.Configurations.{Stack, above_bottom};
ghost use Rattle.g4_net.specs.Network.{ParserNetwork};
ghost use Rattle.g4_net.specs.Prediction.{Choice, Full, Path, Sll, Verdict, chosen};
ghost use Rattle.g4_net.specs.Proper.{IsProper};
ghost use Rattle.g4_guards.specs.Choosing.{AllowAlike, BeginsAllowed, Chooses};

/// Any set of alternatives, by their numbers: those that are allowed at a decision.
pub trait Alternatives {
    /// The alternative is in the set.
    ghost include: { ℕ → Type 0 };
}

/// Where one of the allowed alternatives fits the word, a decision over them chooses the least that does.
pub fn chooses_what_fits<A: Alternatives>()
    ensures { (net : ParserNetwork) (d : ℕ) (returns w : List ℕ) (c : Choice) → IsReady net → IsProper net d returns
        → SomeFits net d A.include returns w → Chooses net d A.include (above_bottom returns) w c
        → (i : ℕ) × (c ≡ chosen i) × IsLeastThatFits net d A.include returns w i }
{}

/// What a decision chooses is one of its alternatives that are allowed, whether one fits or not.
pub fn chooses_what_is_allowed<A: Alternatives>()
    ensures { (net : ParserNetwork) (d : ℕ) (z : Stack) (w : List ℕ) (i : ℕ) → Chooses net d A.include z w (chosen i)
        → (t : ℕ) × BeginsAllowed net d A.include i t }
{}

/// A decision over the allowed alternatives has at most one choice.
pub fn one_choice<A: Alternatives>()
    ensures { (net : ParserNetwork) (d : ℕ) (z : Stack) (w : List ℕ) (b c : Choice) → Chooses net d A.include z w b
        → Chooses net d A.include z w c → b ≡ c }
{}

/// Two sets with the same members, however each is said, have the same choice.
pub fn choice_over_the_same<A: Alternatives, B: Alternatives>()
    ensures { (net : ParserNetwork) (d : ℕ) (z : Stack) (w : List ℕ) (c : Choice) → ((i : ℕ) → A.include i ↔ B.include i)
        → Chooses net d A.include z w c → Chooses net d B.include z w c }
{}

/// What looking ahead says does not depend on alternatives that are not allowed. Of two decisions of a network of which the allowed
/// alternatives begin at the same states, whatever the others are, SLL says the same on the same path, and so do full stacks.
pub fn verdict_of_the_allowed<A: Alternatives, B: Alternatives>()
    ensures sll { (net : ParserNetwork) (d e : ℕ) (w : List ℕ) (v : Verdict) (path : Path) → AllowAlike net d A.include e B.include
        → Sll net d A.include w v path → Sll net e B.include w v path }
    ensures full { (net : ParserNetwork) (d e : ℕ) (z : Stack) (w : List ℕ) (c : Choice) → AllowAlike net d A.include e B.include
        → Full net d A.include z w c → Full net e B.include z w c }
{}
