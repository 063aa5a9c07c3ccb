// What holds of cycles and of the answers of all graphs.
ghost use Rattle.std.specs.Prelude.{◌≡◌, ◌↔◌, Contains, List, Option, ℕ};
ghost use Rattle.g4_cycles.specs.Cycles.{Answers, IsCycle, IsFirstCycle, Reaches};
ghost use Rattle.g4_cycles.specs.Edges.{EdgeOf, Graph};

/// A node is on a cycle exactly where it reaches itself.
pub fn on_a_cycle()
    ensures { (graph : Graph) (k : ℕ) → Reaches (EdgeOf graph) k k ↔ ((cycle : List ℕ) × IsCycle (EdgeOf graph) cycle × Contains cycle k) }
{}

/// A graph has at most one first cycle.
pub fn one_first_cycle()
    ensures { (graph : Graph) (a b : List ℕ) → IsFirstCycle (EdgeOf graph) a → IsFirstCycle (EdgeOf graph) b → a ≡ b }
{}

/// A graph has one answer.
pub fn one_answer()
    ensures { (graph : Graph) (a b : Option (List ℕ)) → Answers (EdgeOf graph) a → Answers (EdgeOf graph) b → a ≡ b }
{}
