// What holds of every ordered list, and of the match by it.
ghost use Rattle.std.specs.Prelude.{◌≡◌, ◌↔◌, ℕ, List, ◌++◌};
ghost use Rattle.g4_ordered.specs.Configurations.{In, LexerConfig};
ghost use Rattle.g4_ordered.specs.Leads.{Reaches};
ghost use Rattle.g4_ordered.specs.Lists.{HasNoRepetition, IsKept, ListAt, is_last};
ghost use Rattle.g4_ordered.specs.Matching.{AreFresh, HasEndOf, InOrder, IsBest, IsGreedyRule, IsMatch, MatchesAlone, Spelled, SpellsFront};
ghost use Rattle.g4_ordered.specs.Network.{IsLexable, LexerNetwork};

/// In a well-formed network there is a list before each rest of a text.
pub fn there_is_a_list()
    ensures { (net : LexerNetwork) (starts : List LexerConfig) (w u v : List ℕ) → IsLexable net → w ≡ u ++ v
        → (list : List LexerConfig) × ListAt net starts w v list }
{}

/// There is no other.
pub fn one_list()
    ensures { (net : LexerNetwork) (starts list other : List LexerConfig) (w v : List ℕ) → ListAt net starts w v list
        → ListAt net starts w v other → list ≡ other }
{}

/// No configuration is in it twice.
pub fn no_repetition()
    ensures { (net : LexerNetwork) (starts list : List LexerConfig) (w v : List ℕ) → ListAt net starts w v list → HasNoRepetition list }
{}

/// The first list has all that is kept and that the starts lead to, also what has gone through a reluctant decision.
pub fn first_has_all()
    ensures { (net : LexerNetwork) (starts list : List LexerConfig) (w : List ℕ) (c : LexerConfig) → ListAt net starts w w list
        → In c list ↔ (IsKept net c × ((s : LexerConfig) × In s starts × Reaches net (is_last w) s c)) }
{}

/// The list has the end of a rule without non-greedy parts exactly where its start spells the prefix.
pub fn ended_where_spelled()
    ensures { (net : LexerNetwork) (starts list : List LexerConfig) (w v : List ℕ) (rule alternative : ℕ) → ListAt net starts w v list
        → AreFresh starts → IsGreedyRule net starts rule → HasEndOf net list rule alternative ↔ Spelled net starts rule alternative w v }
{}

/// The match by the list of all rules is the best of what each rule matches alone.
pub fn match_by_rules()
    ensures { (net : LexerNetwork) (starts : List LexerConfig) (text : List ℕ) (n rule alternative : ℕ) → IsLexable net
        → InOrder starts → IsMatch net starts text n rule alternative ↔ IsBest (MatchesAlone net starts text) n rule alternative }
{}

/// A rule without non-greedy parts matches alone exactly what it spells.
pub fn alone_where_spelled()
    ensures { (net : LexerNetwork) (starts : List LexerConfig) (text : List ℕ) (rule alternative n : ℕ) → IsLexable net
        → AreFresh starts → IsGreedyRule net starts rule
        → MatchesAlone net starts text rule alternative n ↔ SpellsFront net starts text rule alternative n }
{}
