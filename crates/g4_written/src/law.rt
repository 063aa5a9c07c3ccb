// Rewriting keeps what rules derive, and so a run accepts what they derive as they are written, and its trees keep precedence.
ghost use Rattle.std.specs.Prelude.{◌≡◌, ◌↔◌, ℕ, List};
ghost use Rattle.g4_derivation.specs.Spelling.{DerivesFrom};
ghost use Rattle.g4_grammar.specs.StepRules.{AreUnpredicated, CanBeRewritten, StepRule};
ghost use Rattle.g4_layout.specs.Built.{IsBuilt};
ghost use Rattle.g4_leftrec.specs.Rewriting.{numberings, rewritten};
ghost use Rattle.g4_net.specs.Network.{ParserNetwork};
ghost use Rattle.g4_run.specs.Running.{Ending, Ends, Values, parsed, too_deep};
ghost use Rattle.g4_tokens.specs.TokenList.{EndsInEnd};
ghost use Rattle.g4_trees.specs.Trees.{Tree};
ghost use Rattle.g4_written.specs.Nests.{HasNest};
ghost use Rattle.g4_written.specs.Precedence.{KeepsPrecedence};
ghost use Rattle.g4_written.specs.Written.{RuleDerives};

/// Each rule derives as it is written exactly the words that it derives as it is laid, left-recursive or not. Levels, actions and
/// predicates derive the empty word.
pub fn rewriting_keeps_words()
    ensures { (rules : List StepRule) (k : ℕ) (word : List ℕ) → RuleDerives rules k word ↔ RuleDerives (rewritten rules) k word }
{}

/// A rule derives as it is written exactly the words of a primary, an alternative that does not begin with the rule itself, each followed
/// by what follows the rule itself in operators, the alternatives that begin with it: any number of them, in order.
pub fn left_recursion_is_repetition()
    ensures { (rules : List StepRule) (k : ℕ) (word : List ℕ) → RuleDerives rules k word ↔ HasNest rules k word }
{}

/// The rules as they are written derive exactly the token lists that they derive as they are laid, from each start rule.
pub fn rewriting_keeps_derivation()
    ensures { (set : List ℕ) (rules : List StepRule) (start word : List ℕ) → DerivesFrom set rules start word
        ↔ DerivesFrom set (rewritten rules) start word }
{}

/// A token list that has a tree is derived by the rules as they are written, with predicates or without.
pub fn trees_are_derived_as_written()
    ensures { (set : List ℕ) (rules : List StepRule) (start : List ℕ) (net : ParserNetwork) (values : Values) (word : List ℕ)
        (tree : Tree) → IsBuilt set (rewritten rules) (numberings rules) start net → EndsInEnd word → Ends net values word (parsed tree)
        → DerivesFrom set rules start word }
{}

/// Where no rule has a predicate, a token list has a tree exactly where the rules as they are written derive it, unless too many rules
/// are open.
pub fn trees_where_derived_as_written()
    ensures { (set : List ℕ) (rules : List StepRule) (start : List ℕ) (net : ParserNetwork) (values : Values) (word : List ℕ)
        (ending : Ending) → CanBeRewritten rules → AreUnpredicated rules → IsBuilt set (rewritten rules) (numberings rules) start net →
        EndsInEnd word → Ends net values word ending → ((at : ℕ) → ending ≡ too_deep at → ⊥) →
        ((tree : Tree) × (ending ≡ parsed tree)) ↔ DerivesFrom set rules start word }
{}

/// A tree keeps precedence. Where an alternative of a left-recursive rule ends with the rule itself, the operators of this right operand,
/// its own node and then first child after first child down to a primary, have at least the precedence that the alternative asks for.
/// Nothing is said of left operands, nor that no operator further to the right in an operand binds less closely: where `-` is a prefix
/// operator that binds less closely than `+`, the tree of `1 * - 2 + 3` has a `+` in the right operand of `*`, below the one of `-`.
pub fn trees_keep_precedence()
    ensures { (set : List ℕ) (rules : List StepRule) (start : List ℕ) (net : ParserNetwork) (values : Values) (word : List ℕ)
        (tree : Tree) → CanBeRewritten rules → IsBuilt set (rewritten rules) (numberings rules) start net →
        Ends net values word (parsed tree) → KeepsPrecedence rules tree }
{}
