// What a lexer's network has to do with its rules as they are written.
ghost use Rattle.std.specs.Prelude.{◌≡◌, ◌⊎◌, ◌↔◌, ℕ, List, [], Some, slice_get, Contains};
ghost use Rattle.g4_source.specs.Elements.{atom, empty, then};
ghost use Rattle.g4_source.specs.declared.atom.Atom.{Atom};
ghost use Rattle.g4_source.specs.declared.rule.LexerAlternative.{LexerAlternative};
ghost use Rattle.g4_source.specs.declared.rule.LexerRule.{LexerRule as Rule};
ghost use Rattle.g4_grammar.specs.Written.{IsEndOfFile};
ghost use Rattle.g4_ordered.specs.Matching.{IsBest, IsGreedyRule, IsMatch, MatchesAlone};
ghost use Rattle.g4_ordered.specs.Spelling.{SpellsText};
ghost use Rattle.g4_lexer_rules.specs.Lexable.{CanBeLexed};
ghost use Rattle.g4_lexer_rules.specs.LexNets.{IsLexNet};
ghost use Rattle.g4_lexer_rules.specs.NetworkRules.{all_rules};
ghost use Rattle.g4_lexer_rules.specs.declared.lex_net.LexNet.{LexNet as Made};
ghost use Rattle.g4_ordered.specs.declared.start.Start.{Start};
ghost use Rattle.g4_ordered.specs.Starts.{starts_of};
ghost use Rattle.g4_spelling.specs.Begins.{MayBegin};
ghost use Rattle.g4_spelling.specs.Canonical.{SetsAreCanonical};
ghost use Rattle.g4_spelling.specs.Fronts.{IsLexStart, IsAlternativeOf, DerivesFront};
ghost use Rattle.g4_spelling.specs.Greedy.{IsWrittenGreedy};
ghost use Rattle.g4_spelling.specs.Matches.{IsStarted, Matches, MatchesDerived};

/// From where an alternative begins the network spells exactly what the alternative, as it is written, matches by derivation.
pub fn spelled_where_derived()
    ensures { (literals others : List Rule) (modes : List (List ℕ)) (made : Made) → IsLexNet literals others modes made
        → CanBeLexed (all_rules literals others) → SetsAreCanonical (all_rules literals others) →
        (r i a : ℕ) (x : LexerAlternative) → IsAlternativeOf (all_rules literals others) r i x
        → IsLexStart made.net.states (all_rules literals others) r i a →
        (w z : List ℕ) → SpellsText made.net a w z ↔ DerivesFront (all_rules literals others) x.elements w z }
{}

/// A rule that is written without non-greedy parts has none in the network.
pub fn greedy_where_written()
    ensures { (literals others : List Rule) (modes : List (List ℕ)) (made : Made) → IsLexNet literals others modes made
        → CanBeLexed (all_rules literals others) →
        (starts : List Start) → Contains made.modes starts → (r : ℕ) → IsWrittenGreedy (all_rules literals others) r
        → IsGreedyRule made.net (starts_of starts) r }
{}

/// The starts of a mode are those of the alternatives with which a match in the mode may begin, as the rules are written.
pub fn started_where_written()
    ensures { (literals others : List Rule) (modes : List (List ℕ)) (made : Made) → IsLexNet literals others modes made
        → CanBeLexed (all_rules literals others) →
        (m : ℕ) (starts : List Start) → slice_get made.modes m ≡ Some starts → (r i : ℕ)
        → IsStarted starts r i ↔ MayBegin literals others modes m r i }
{}

/// A rule without non-greedy parts matches alone exactly what its alternatives match by derivation.
pub fn matches_where_derived()
    ensures { (literals others : List Rule) (modes : List (List ℕ)) (made : Made) → IsLexNet literals others modes made
        → CanBeLexed (all_rules literals others) → SetsAreCanonical (all_rules literals others) →
        (starts : List Start) → Contains made.modes starts → (text : List ℕ) (r i n : ℕ) → IsWrittenGreedy (all_rules literals others) r →
        MatchesAlone made.net (starts_of starts) text r i n ↔ MatchesDerived (all_rules literals others) starts text r i n }
{}

/// The match by the ordered list is the best of what the alternatives match: by derivation, of rules without non-greedy parts.
pub fn match_by_derivation()
    ensures { (literals others : List Rule) (modes : List (List ℕ)) (made : Made) → IsLexNet literals others modes made
        → CanBeLexed (all_rules literals others) → SetsAreCanonical (all_rules literals others) →
        (starts : List Start) → Contains made.modes starts → (text : List ℕ) (n rule alternative : ℕ) →
        IsMatch made.net (starts_of starts) text n rule alternative
        ↔ IsBest (Matches (all_rules literals others) made.net starts text) n rule alternative }
{}

/// A rule either has no non-greedy part or has one, so `Matches` says of every rule what it matches.
pub fn greedy_or_not()
    ensures { (rules : List Rule) → CanBeLexed rules → (r : ℕ) → IsWrittenGreedy rules r ⊎ (IsWrittenGreedy rules r → ⊥) }
{}

/// `EOF` takes no character, and matches only where nothing is left.
pub fn end_of_file_takes_nothing()
    ensures { (rules : List Rule) (a : Atom) → IsEndOfFile a.kind → (w z : List ℕ)
        → DerivesFront rules (then (atom a) empty) w z ↔ ((w ≡ []) × (z ≡ [])) }
{}
