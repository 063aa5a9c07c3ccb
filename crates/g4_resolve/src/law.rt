// What the numbers of predicates and of rules imply.
ghost use Rattle.std.specs.Prelude.{◌≡◌, ◌↔◌, ℕ, ◌+◌, List, ◌∷◌, Some, map, slice_get};
ghost use Rattle.g4_source.specs.Elements.{Alternatives};
ghost use Rattle.g4_source.specs.Rules.{alternatives_of, parser_rules};
ghost use Rattle.g4_source.specs.declared.name.Name.{Name};
ghost use Rattle.g4_source.specs.declared.rule.Rule.{Rule};
ghost use Rattle.g4_source.specs.declared.source.Source.{Source};
ghost use Rattle.g4_grammar.specs.StepRules.{AreUnpredicated};
ghost use Rattle.g4_grammar.specs.Written.{predicate_texts};
ghost use Rattle.g4_grammar.specs.declared.step.Step.{Step};
ghost use Rattle.g4_token_file.specs.declared.entry.TokenEntry.{TokenEntry};
ghost use Rattle.g4_resolve.specs.Derivations.{DerivesByName, DerivesByNumber, IsFirstNamed};
ghost use Rattle.g4_resolve.specs.Resolving.{IsPredicateOf, RulesAreUntested, parser_names, place_named, resolved};

/// A parser rule over steps derives exactly what it derives as the grammar's text has it, by the names of rules and tokens and by literals.
/// Rules have the numbers that follow their places, whatever rule 0 is. The number that a reference has is that of the first rule of its
/// name: where there is none, neither derives anything.
pub fn rules_derive_by_name()
    ensures numbered { (types : List TokenEntry) (source : Source) (added : Alternatives (Step (List ℕ))) (name : List ℕ) (place : ℕ)
        (word : List ℕ) → IsFirstNamed (parser_rules source.rules) name place
        → DerivesByNumber (added ∷ map alternatives_of (resolved types source)) (place + 1) word
        ↔ DerivesByName types source.rules name word }
    ensures called { (types : List TokenEntry) (source : Source) (added : Alternatives (Step (List ℕ))) (name word : List ℕ)
        → DerivesByNumber (added ∷ map alternatives_of (resolved types source)) (place_named (parser_names source.rules) name + 1) word
        ↔ DerivesByName types source.rules name word }
{}

/// Where no parser rule has a predicate, no rule over steps has one.
pub fn untested_rules_are_unpredicated()
    ensures { (types : List TokenEntry) (source : Source) → RulesAreUntested source.rules → AreUnpredicated (resolved types source) }
{}

/// A predicate of a parser rule has the number of its own text.
pub fn predicates_have_their_texts()
    ensures { (rules : List Rule) (name : Name) → IsPredicateOf rules name
        → slice_get (predicate_texts rules) (place_named (predicate_texts rules) name.text) ≡ Some name.text }
{}

/// So predicates of parser rules have one number only where they have one text.
pub fn predicates_of_one_number()
    ensures { (rules : List Rule) (one other : Name) → IsPredicateOf rules one → IsPredicateOf rules other
        → place_named (predicate_texts rules) one.text ≡ place_named (predicate_texts rules) other.text → one.text ≡ other.text }
{}
