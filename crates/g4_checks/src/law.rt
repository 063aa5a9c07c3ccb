// What holds of all checks.
ghost use Rattle.std.specs.Prelude.{◌≡◌, [], ℕ, All, List, Option};
ghost use Rattle.g4_source.specs.declared.source.Source.{Source};
ghost use Rattle.g4_source.specs.declared.rule.Rule.{Rule};
ghost use Rattle.g4_checks.specs.Checking.{HasNoFault, IsFault};
ghost use Rattle.g4_checks.specs.Holders.{FindsHolder};
ghost use Rattle.g4_checks.specs.Predicates.{ArePredicates};
ghost use Rattle.g4_grammar.specs.Written.{ParserRuleIsUntested, predicate_texts};
ghost use Rattle.g4_preds.specs.Trees.{Tree};
ghost use Rattle.g4_source.specs.Rules.{parser_rules};
ghost use Rattle.g4_checks.specs.declared.references.ReferenceFault.{ReferenceFault};
ghost use Rattle.g4_checks.specs.declared.fault.CheckFault.{CheckFault};

/// Of the rules of a grammar one fault is reported, and none where they have none.
pub fn one_check()
    ensures one { (source : Source) (f g : CheckFault) → IsFault source f → IsFault source g → f ≡ g }
    ensures none { (source : Source) (f : CheckFault) → HasNoFault source → IsFault source f → ⊥ }
{}

/// The place of a fault is held by at most one rule.
pub fn one_holder()
    ensures { (fault : ReferenceFault) (rules : List Rule) (a b : Option ℕ) → FindsHolder fault rules a → FindsHolder fault rules b
        → a ≡ b }
{}

/// The predicates with some actions are one list of trees.
pub fn one_predicates()
    ensures { (actions : List (List ℕ)) (a b : List Tree) → ArePredicates actions a → ArePredicates actions b → a ≡ b }
{}

/// Where no parser rule tests anything, there are no predicates.
pub fn no_predicates()
    ensures { (rules : List Rule) (trees : List Tree) → All ParserRuleIsUntested (parser_rules rules)
        → ArePredicates (predicate_texts rules) trees → trees ≡ [] }
{}
