// What holds of all grammars with their imports.
ghost use Rattle.std.specs.Prelude.{◌≡◌, ◌++◌, ◌∷◌, ℕ, List, Option};
ghost use Rattle.g4_fetch.specs.declared.closure.GrammarFile.{GrammarFile as File};
ghost use Rattle.g4_fetch.specs.declared.closure.WithImports.{WithImports as Grammar};
ghost use Rattle.g4_imports.specs.Composites.{AreComposites, IsComposite};
ghost use Rattle.g4_imports.specs.Faults.{HasNoFault, IsFault, RepeatsRule};
ghost use Rattle.g4_imports.specs.declared.composite.Composite.{Composite as One};
ghost use Rattle.g4_imports.specs.declared.composite.Composites.{Composites as Both};
ghost use Rattle.g4_imports.specs.declared.fault.ImportFault.{ImportFault as Fault};
ghost use Rattle.g4_source.specs.First.{IsNone};
ghost use Rattle.g4_source.specs.declared.rule.Rule.{Rule};

use g4_merge::main_rules_first;

/// The rules of the main grammar come first, all of them: each wins over an imported one.
pub fn main_rules_win()
    ensures { (main : File) (imports : List File) (composite : One) → IsNone RepeatsRule (main ∷ imports)
        → IsComposite (main ∷ imports) composite → (rest : List Rule) × (composite.merged.source.rules ≡ main.source.rules ++ rest) }
{
    // No two rules of the main grammar have one name.
    main_rules_first();
}

/// Of a grammar with all that it imports one thing is reported: the grammar that they are together, with its lexer grammar, or one fault.
pub fn one_integration()
    ensures fault { (grammar : Grammar) (a b : Fault) → IsFault grammar a → IsFault grammar b → a ≡ b }
    ensures none { (grammar : Grammar) (fault : Fault) → HasNoFault grammar → IsFault grammar fault → ⊥ }
    ensures composites { (files : List File) (lexer : Option ℕ) (a b : Both) → AreComposites files lexer a
        → AreComposites files lexer b → a ≡ b }
{}
