// What holds of all grammar texts.
ghost use Rattle.std.specs.Prelude.{◌≡◌, ◌++◌, ◌⊎◌, List};
ghost use Rattle.g4_syntax.specs.Notation.{Spelled, Nonterminal, part};
ghost use Rattle.g4_syntax.specs.Productions.{grammar, production};
ghost use Rattle.g4_syntax.specs.Trees.{Tree, HasTree, BeginsText, TextStops, Ends, begins};

/// A text has one tree.
pub fn one_tree()
    ensures { (tokens : List Spelled) (a b : Tree grammar) → HasTree tokens a → HasTree tokens b → a ≡ b }
{}

/// Where reading stops, some grammar text begins with the tokens before, and none continues with the next.
pub fn first_stop()
    ensures { (before rest : List Spelled) → TextStops (before ++ rest) rest → BeginsText before × Ends before rest }
{}

/// Some tokens are a grammar text, or reading stops at some of them.
pub fn text_or_stop()
    ensures { (tokens : List Spelled) → ((tree : Tree grammar) × HasTree tokens tree)
        ⊎ ((before : List Spelled) × (rest : List Spelled) × (tokens ≡ before ++ rest) × TextStops tokens rest) }
{}

/// A part can begin with just the tokens with which its production can.
pub fn first_tokens()
    ensures { (n : Nonterminal) (token : Spelled) → begins (part n) token ≡ begins (production n) token }
{}
