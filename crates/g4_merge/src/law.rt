// What the definition of merging implies.
ghost use Rattle.std.specs.Prelude.{◌≡◌, ◌++◌, ◌∷◌, List, Contains};
ghost use Rattle.g4_merge.specs.Laws.{NamesDiffer, rules_of};
ghost use Rattle.g4_source.specs.Rules.{rule_name};
ghost use Rattle.g4_source.specs.declared.rule.Rule.{Rule};
ghost use Rattle.g4_source.specs.declared.source.Source.{Source};

/// The rules of the main grammar come first, all of them, where no two of them have one name: so each wins over an imported one.
pub fn main_rules_first()
    ensures { (main : Source) (imports : List Source) → NamesDiffer main.rules
        → (rest : List Rule) × (rules_of main imports ≡ main.rules ++ rest) }
{}

/// No two rules have one name.
pub fn names_differ()
    ensures { (main : Source) (imports : List Source) → NamesDiffer (rules_of main imports) }
{}

/// For each rule of each of the grammars there is a rule with its name.
pub fn each_name_there()
    ensures { (main : Source) (imports : List Source) (grammar : Source) (rule : Rule) → Contains (main ∷ imports) grammar
        → Contains grammar.rules rule → (kept : Rule) × Contains (rules_of main imports) kept × (rule_name kept ≡ rule_name rule) }
{}

/// A grammar that is imported twice counts once.
pub fn twice_is_once()
    ensures { (main grammar : Source) (first between rest : List Source)
        → rules_of main (first ++ grammar ∷ between ++ grammar ∷ rest) ≡ rules_of main (first ++ grammar ∷ between ++ rest) }
{}
