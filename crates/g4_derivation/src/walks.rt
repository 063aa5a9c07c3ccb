// What the definitions of walks imply.
ghost use Rattle.std.specs.Prelude.{◌≡◌, ◌≤◌, ◌⊎◌, ◌↔◌, ℕ, List, [], length, Some, slice_get, Contains};
ghost use Rattle.g4_source.specs.Elements.{Alternatives, Elements};
ghost use Rattle.g4_grammar.specs.Derives.{DerivesAll, NoCalls};
ghost use Rattle.g4_grammar.specs.StepRules.{CanBeRewritten, StepRule};
ghost use Rattle.g4_grammar.specs.declared.step.Step.{Step};
ghost use Rattle.g4_layout.specs.Built.{IsBuilt};
ghost use Rattle.g4_layout.specs.Layout.{IsNetworkOf};
ghost use Rattle.g4_leftrec.specs.Rewriting.{numberings, rewritten};
ghost use Rattle.g4_net.specs.Leads.{IsTarget};
ghost use Rattle.g4_net.specs.Network.{ParserNetwork, end_of, start_of, state_at, written_at};
ghost use Rattle.g4_net.specs.Proper.{IsOf};
ghost use Rattle.g4_net.specs.declared.network.State.TheVariants.{Decision, End, Level};
ghost use Rattle.g4_net.specs.declared.network.State.{State};
ghost use Rattle.g4_derivation.specs.Alternatives.{BeginsAt, IsAlternative, IsOuterStart, all_numberings};
ghost use Rattle.g4_derivation.specs.Letters.{Letter, NamesRule, TakesSymbol};
ghost use Rattle.g4_derivation.specs.WalkSpelling.{BeginsOperator, BeginsWritten};
ghost use Rattle.g4_derivation.specs.Walks.{AnyLevel, NoLevel, ReadsLetter, WalksTo};

/// The walks that pass no level, from where an alternative begins to the end of its rule, read exactly the words that the
/// alternative derives without levels.
pub fn walks_derive()
    ensures { (rules : List (Alternatives (Step (List ℕ)))) (net : ParserNetwork) → IsNetworkOf rules net
        → (k : ℕ) (xs : Alternatives (Step (List ℕ))) → slice_get rules k ≡ Some xs →
        (i a : ℕ) (x : Elements (Step (List ℕ))) → IsAlternative xs i x → BeginsAt net k xs i a →
        (w : List Letter) → WalksTo TakesSymbol NamesRule NoLevel net a (end_of k) w
        ↔ DerivesAll (ReadsLetter TakesSymbol NamesRule NoLevel) NoCalls [] x w }
{}

/// The same of walks that pass every level, which reads nothing then.
pub fn walks_over_levels_derive()
    ensures { (rules : List (Alternatives (Step (List ℕ)))) (net : ParserNetwork) → IsNetworkOf rules net
        → (k : ℕ) (xs : Alternatives (Step (List ℕ))) → slice_get rules k ≡ Some xs →
        (i a : ℕ) (x : Elements (Step (List ℕ))) → IsAlternative xs i x → BeginsAt net k xs i a →
        (w : List Letter) → WalksTo TakesSymbol NamesRule AnyLevel net a (end_of k) w
        ↔ DerivesAll (ReadsLetter TakesSymbol NamesRule AnyLevel) NoCalls [] x w }
{}

/// Where a rule starts that is no outer start, one of its alternatives begins.
pub fn rules_start_with_one()
    ensures { (set : List ℕ) (rules : List StepRule) (start : List ℕ) (net : ParserNetwork) → CanBeRewritten rules
        → IsBuilt set (rewritten rules) (numberings rules) start net →
        (k : ℕ) → 1 ≤ k → k ≤ length rules → (IsOuterStart (all_numberings rules) (start_of k) → ⊥)
        → BeginsWritten TakesSymbol NamesRule net rules k (start_of k) }
{}

/// At an outer start a decision has no number, and leads to where alternatives of the rule begin.
pub fn rules_start_with_alternatives()
    ensures { (set : List ℕ) (rules : List StepRule) (start : List ℕ) (net : ParserNetwork) → CanBeRewritten rules
        → IsBuilt set (rewritten rules) (numberings rules) start net →
        (k : ℕ) → IsOuterStart (all_numberings rules) (start_of k)
        → (targets : List ℕ) × (state_at net (start_of k) ≡ Some (Decision targets)) × (written_at net (start_of k) ≡ 0) ×
        ((t : ℕ) → Contains targets t → BeginsWritten TakesSymbol NamesRule net rules k t) }
{}

/// At a level of a rule one of the rule's operators begins.
pub fn levels_begin_operators()
    ensures { (set : List ℕ) (rules : List StepRule) (start : List ℕ) (net : ParserNetwork) → CanBeRewritten rules
        → IsBuilt set (rewritten rules) (numberings rules) start net →
        (k p q t : ℕ) → 1 ≤ k → k ≤ length rules → IsOf net k p → state_at net p ≡ Some (Level q t)
        → BeginsOperator TakesSymbol NamesRule net rules k p t }
{}

/// Only a decision leads to a level, and from this decision the rule can end without reading more.
pub fn levels_follow_whole_alternatives()
    ensures { (set : List ℕ) (rules : List StepRule) (start : List ℕ) (net : ParserNetwork) → CanBeRewritten rules
        → IsBuilt set (rewritten rules) (numberings rules) start net →
        (p t q u : ℕ) (s : State (List ℕ)) → state_at net p ≡ Some s → IsTarget s t → state_at net t ≡ Some (Level q u) →
        ((targets : List ℕ) × (s ≡ Decision targets))
        × ((e ended : ℕ) × (state_at net e ≡ Some (End ended)) × WalksTo TakesSymbol NamesRule NoLevel net p e []) }
{}

/// Any other decision than those at outer starts leads to states without a number and to levels.
pub fn only_outer_starts_begin()
    ensures { (set : List ℕ) (rules : List StepRule) (start : List ℕ) (net : ParserNetwork) → CanBeRewritten rules
        → IsBuilt set (rewritten rules) (numberings rules) start net →
        (p t : ℕ) (targets : List ℕ) → state_at net p ≡ Some (Decision targets) → (IsOuterStart (all_numberings rules) p → ⊥)
        → Contains targets t →
        (written_at net t ≡ 0) ⊎ ((q u : ℕ) × (state_at net t ≡ Some (Level q u))) }
{}

/// No edge leads to an outer start: it is reached by calls alone.
pub fn no_edge_to_outer_starts()
    ensures { (set : List ℕ) (rules : List StepRule) (start : List ℕ) (net : ParserNetwork) → CanBeRewritten rules
        → IsBuilt set (rewritten rules) (numberings rules) start net →
        (p t : ℕ) (s : State (List ℕ)) → state_at net p ≡ Some s → IsTarget s t → IsOuterStart (all_numberings rules) t → ⊥ }
{}
