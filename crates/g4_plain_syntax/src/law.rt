// One token of lookahead loses only parser rules' names, references and labels that are spelled like one of ten keywords.
ghost use Rattle.std.specs.Prelude.{◌≡◌, [], List};
ghost use Rattle.g4_syntax.specs.Notation.{Spelled};
ghost use Rattle.g4_syntax.specs.Productions.{grammar};
ghost use Rattle.g4_syntax.specs.Trees.{Tree, HasTree};
ghost use Rattle.g4_plain_syntax.specs.Plain.{Derives, NamesArePlain};

/// A text that is derived with plain names is read, with the same tree.
pub fn derivation_read()
    ensures { (tokens : List Spelled) (tree : Tree grammar) → NamesArePlain tree → Derives tree tokens [] → HasTree tokens tree }
{}

/// So tokens have at most one derivation with plain names.
pub fn one_derivation()
    ensures { (tokens : List Spelled) (a b : Tree grammar) → NamesArePlain a → NamesArePlain b → Derives a tokens []
        → Derives b tokens [] → a ≡ b }
{}

/// A text that is read is derived, with the same tree.
pub fn reading_derived()
    ensures { (tokens : List Spelled) (tree : Tree grammar) → HasTree tokens tree → Derives tree tokens [] }
{}
