// What holds of all tallies.
ghost use Rattle.std.specs.Prelude.{◌≡◌, ◌↔◌, ℕ, Contains, List};
ghost use Rattle.g4_net.specs.Network.{ParserNetwork};
ghost use Rattle.g4_run.specs.Running.{RunOver};
ghost use Rattle.g4_tally.specs.Tallies.{IsTally};
ghost use Rattle.g4_tally.specs.declared.tally.Tally.{Tally};

/// The same runs have one tally.
pub fn one_tally()
    ensures { (rows : ℕ) (net : ParserNetwork) (runs others : List RunOver) (a b : Tally)
        → ((over : RunOver) → Contains runs over ↔ Contains others over) → IsTally rows net runs a → IsTally rows net others b → a ≡ b }
{}
