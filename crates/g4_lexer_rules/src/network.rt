// What the definition of a lexer's network implies.
ghost use Rattle.std.specs.Prelude.{◌≡◌, ◌↔◌, ℕ, List, [], ◌∷◌, length};
ghost use Rattle.g4_chars.specs.CharSets.{Has, IsScalar};
ghost use Rattle.g4_chars.specs.declared.range.Range.{Range as Span};
ghost use Rattle.g4_source.specs.Elements.{atom};
ghost use Rattle.g4_source.specs.declared.atom.AtomKind.{AtomKind as Kind};
ghost use Rattle.g4_source.specs.declared.rule.LexerRule.{LexerRule as Rule};
ghost use Rattle.g4_grammar.specs.Written.{MatchesKind};
ghost use Rattle.g4_ordered.specs.Network.{IsLexable};
ghost use Rattle.g4_lexer_rules.specs.Lexable.{CanBeLexed};
ghost use Rattle.g4_lexer_rules.specs.LexNets.{IsLexNet};
ghost use Rattle.g4_lexer_rules.specs.NetworkRules.{all_rules, lexer_states};
ghost use Rattle.g4_lexer_rules.specs.Steps.{element_of_kind, SetIsCanonical};
ghost use Rattle.g4_lexer_rules.specs.declared.lex_net.LexNet.{LexNet as Made};
ghost use Rattle.g4_lexer_rules.specs.declared.step.LexerStep.TheVariants.{Set as SetStep};

/// The rules of a lexer have at most one network.
pub fn one_lex_net()
    ensures { (literals rules : List Rule) (modes : List (List ℕ)) (a b : Made) → IsLexNet literals rules modes a
        → IsLexNet literals rules modes b → a ≡ b }
{}

/// The network has as many states as are counted for the limit.
pub fn states_are_counted()
    ensures { (literals rules : List Rule) (modes : List (List ℕ)) (made : Made) → IsLexNet literals rules modes made
        → length made.net.states ≡ lexer_states (all_rules literals rules) }
{}

/// The set of an atom has exactly the characters that the atom matches.
pub fn sets_match()
    ensures { (names : List (List ℕ)) (kind : Kind) (set : List Span) → SetIsCanonical kind
        → element_of_kind names kind ≡ atom (SetStep set) → (c : ℕ) → Has set c ↔ (IsScalar c × MatchesKind kind (c ∷ [])) }
{}

/// The network of rules that can be lexed with can be lexed with.
pub fn is_lexable()
    ensures { (literals rules : List Rule) (modes : List (List ℕ)) (made : Made) → IsLexNet literals rules modes made
        → CanBeLexed (all_rules literals rules) → IsLexable made.net }
{}
