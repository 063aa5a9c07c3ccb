// What holds of all classes.
ghost use Rattle.std.specs.Prelude.{◌≡◌, ℕ};
ghost use Rattle.g4_classes.specs.Classes.{AreClassesOf};
ghost use Rattle.g4_net.specs.Network.{ParserNetwork};

/// A number has at most one class in a network.
pub fn one_classes()
    ensures { (net : ParserNetwork) (one other : ℕ → ℕ) → AreClassesOf net one → AreClassesOf net other → (a : ℕ) → one a ≡ other a }
{}
