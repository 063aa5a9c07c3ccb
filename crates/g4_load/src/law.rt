// What holds of all grammars in files.
ghost use Rattle.std.specs.Prelude.{◌≡◌, ℕ, All, List, Ok, Option, Result};
ghost use Rattle.g4_checks.specs.References.{commands_in};
ghost use Rattle.g4_fetch.specs.Files.{Files};
ghost use Rattle.g4_resolve.specs.Resolving.{IsPredicateOf};
ghost use Rattle.g4_source.specs.declared.name.Name.{Name};
ghost use Rattle.g4_load.specs.Building.{Builds};
ghost use Rattle.g4_load.specs.Commands.{CarriesOutAll, IsCarriedOut};
ghost use Rattle.g4_load.specs.Listing.{Lists};
ghost use Rattle.g4_load.specs.Loading.{Loads, Unifies};
ghost use Rattle.g4_load.specs.Predicates.{HasItsTree};
ghost use Rattle.g4_load.specs.declared.interpreter.Interpreter.{Interpreter as Made};
ghost use Rattle.g4_load.specs.declared.loading.Loaded.{Loaded as Grammar};
ghost use Rattle.g4_load.specs.declared.stop.Stop.{Stop};
ghost use Rattle.g4_load.specs.declared.whole.United.{United as Whole};

use g4_lexer_rules::known_commands_are_carried_out;
use g4_resolve::predicates_have_their_texts;

/// A grammar is loaded in at most one way, or stops a command line in at most one way.
pub fn one_loaded()
    ensures { (files : Files) (library : Option (List ℕ)) (name : List ℕ) (f g : List (List ℕ)) (a b : Result Grammar Stop)
        → Loads files library name f a → Loads files library name g b → a ≡ b }
{}

/// A file and a start rule give at most one interpreter, or stop a command line in at most one way.
pub fn one_built()
    ensures { (files : Files) (library : Option (List ℕ)) (name start : List ℕ) (f g : List (List ℕ)) (a b : Result Made Stop)
        → Builds files library name start f a → Builds files library name start g b → a ≡ b }
{}

/// A file and a rule give at most one listing, or stop a command line in at most one way.
pub fn one_listed()
    ensures { (files : Files) (library : Option (List ℕ)) (name rule : List ℕ) (f g : List (List ℕ)) (a b : Result (List ℕ) Stop)
        → Lists files library name rule f a → Lists files library name rule g b → a ≡ b }
{}

/// Each command of the lexer rules of a grammar that is loaded is carried out. The lexer of an interpreter has what each of them does,
/// in order, so none is passed over.
pub fn commands_are_carried_out()
    ensures each { (files : Files) (library : Option (List ℕ)) (name : List ℕ) (f g : List (List ℕ)) (united : Whole)
        (grammar : Grammar) → Unifies files library name f (Ok united) → Loads files library name g (Ok grammar)
        → All (IsCarriedOut grammar) (commands_in united.whole.source) }
    ensures all { (files : Files) (library : Option (List ℕ)) (name start : List ℕ) (f g : List (List ℕ)) (grammar : Grammar)
        (made : Made) → Loads files library name f (Ok grammar) → Builds files library name start g (Ok made)
        → CarriesOutAll grammar made.lexer }
{
    // The checks before leave no command that is not known.
    known_commands_are_carried_out();
}

/// Each predicate of the parser rules of a grammar that is loaded is the one of its predicates that has the number which the rules give it.
pub fn predicates_have_their_trees()
    ensures { (files : Files) (library : Option (List ℕ)) (name : List ℕ) (f g : List (List ℕ)) (united : Whole) (grammar : Grammar)
        (written : Name) → Unifies files library name f (Ok united) → Loads files library name g (Ok grammar)
        → IsPredicateOf united.whole.source.rules written → HasItsTree united.whole.source grammar.predicates written }
{
    // A predicate has the number of its own text.
    predicates_have_their_texts();
}
