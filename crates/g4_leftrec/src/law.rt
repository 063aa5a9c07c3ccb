// What the definitions of primaries and operators imply.
ghost use Rattle.std.specs.Prelude.{◌≡◌, ◌↔◌, ◌+◌, ◌<◌, ℕ, Bool, List, length, true};
ghost use Rattle.g4_source.specs.declared.rule.RuleAlternative.{RuleAlternative as Written};
ghost use Rattle.g4_grammar.specs.StepRules.{AreUnpredicated, CanBeRewritten, StepRule};
ghost use Rattle.g4_layout.specs.Built.{IsBuilt};
ghost use Rattle.g4_leftrec.specs.OwnCalls.{is_left_recursive, operators, primaries};
ghost use Rattle.g4_leftrec.specs.Rewriting.{numberings, rewritten};
ghost use Rattle.g4_net.specs.AddedRule.{IsUnpredicated};
ghost use Rattle.g4_net.specs.Network.{ParserNetwork};

/// A left-recursive rule has an operator, and no other rule has any.
pub fn only_left_recursive_rules_have_operators<A>()
    ensures { (is_self : A → Bool) (alternatives : List (Written A))
        → is_left_recursive is_self alternatives ≡ true ↔ 0 < length (operators is_self alternatives) }
{}

/// Each alternative is a primary or an operator.
pub fn each_alternative_is_kept<A>()
    ensures { (is_self : A → Bool) (alternatives : List (Written A))
        → length (primaries is_self alternatives) + length (operators is_self alternatives) ≡ length alternatives }
{}

/// Rules without predicates have none as they are laid.
pub fn rewritten_without_predicates()
    ensures { (rules : List StepRule) → AreUnpredicated rules → AreUnpredicated (rewritten rules) }
{}

/// Where no rule as it is written has a predicate, no state of the network is one.
pub fn network_without_predicates()
    ensures { (set : List ℕ) (rules : List StepRule) (start : List ℕ) (net : ParserNetwork) → CanBeRewritten rules
        → AreUnpredicated rules → IsBuilt set (rewritten rules) (numberings rules) start net → IsUnpredicated net }
{}
