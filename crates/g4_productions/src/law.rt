// Grammar texts.
ghost use Rattle.std.specs.Prelude.{◌≡◌, List};
ghost use Rattle.g4_source.specs.declared.source.Source.{Source};
ghost use Rattle.g4_syntax.specs.Notation.{Spelled};
ghost use Rattle.g4_productions.specs.Grammars.{IsGrammarText};

/// Tokens are one grammar at most.
pub fn one_grammar()
    ensures { (tokens : List Spelled) (a b : Source) → IsGrammarText tokens a → IsGrammarText tokens b → a ≡ b }
{}
