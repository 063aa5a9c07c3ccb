// What the rules of an interpreter derive, as the text of its grammar has it.
ghost use Rattle.std.specs.Prelude.{◌↔◌, ℕ, [], ◌∷◌, List, Ok, Option};
ghost use Rattle.g4_derivation.specs.Spelling.{DerivesFrom};
ghost use Rattle.g4_fetch.specs.Files.{Files};
ghost use Rattle.g4_grammar.specs.StepRules.{AreUnpredicated};
ghost use Rattle.g4_resolve.specs.Resolving.{RulesAreUntested};
ghost use Rattle.g4_tokens.specs.Symbols.{eof};
ghost use Rattle.g4_load.specs.Building.{Builds};
ghost use Rattle.g4_load.specs.Derivations.{DerivesList};
ghost use Rattle.g4_load.specs.Loading.{Unifies};
ghost use Rattle.g4_load.specs.declared.interpreter.Interpreter.{Interpreter as Made};
ghost use Rattle.g4_load.specs.declared.whole.United.{United as Whole};

use g4_resolve::{rules_derive_by_name, untested_rules_are_unpredicated};

/// The rules that files are parsed with derive from a rule exactly the token lists that the parser rule of this name derives as the text of
/// the grammar has it, by the names of rules and tokens and by literals. None of them has a predicate where no parser rule of the text has
/// one.
pub fn lists_are_derived_by_name()
    ensures derived { (files : Files) (library : Option (List ℕ)) (name start : List ℕ) (f g : List (List ℕ)) (united : Whole) (made : Made)
        → Unifies files library name f (Ok united) → Builds files library name start g (Ok made) → (rule list : List ℕ)
        → DerivesFrom (eof ∷ []) made.rules rule list ↔ DerivesList united rule list }
    ensures untested { (files : Files) (library : Option (List ℕ)) (name start : List ℕ) (f g : List (List ℕ)) (united : Whole)
        (made : Made) → Unifies files library name f (Ok united) → Builds files library name start g (Ok made)
        → RulesAreUntested united.whole.source.rules → AreUnpredicated made.rules }
{
    // A rule over steps derives what it derives by name.
    rules_derive_by_name();
    // Its predicates are those of the text.
    untested_rules_are_unpredicated();
}
