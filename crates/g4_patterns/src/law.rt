// What holds of every pattern.
ghost use Rattle.std.specs.Prelude.{◌≡◌, ◌↔◌, ℕ, List, [], Some, map, slice_get};
ghost use Rattle.g4_tokens.specs.declared.token.Tokens.{Tokens as FileTokens};
ghost use Rattle.g4_trees.specs.declared.tree.Item.{Item};
ghost use Rattle.g4_trees.specs.Trees.{Tree, leaf, node, only};
ghost use Rattle.g4_patterns.specs.declared.token.PatternToken.{PatternToken as PlainOrTag};
ghost use Rattle.g4_patterns.specs.declared.token.PatternToken.TheVariants as patterns;
ghost use Rattle.g4_patterns.specs.declared.binding.Binding.{Binding as Bound};
ghost use Rattle.g4_patterns.specs.Alike.{HasNoTags, IsAlike, IsNodeOf};
ghost use Rattle.g4_patterns.specs.Matching.{bound, Matches, MatchesAt};
ghost use Rattle.g4_patterns.specs.Tags.{tag_names};

/// A pattern matches at a place with one list of bindings at most.
pub fn one_list_of_bindings()
    ensures { (pattern_items : List Item) (pattern : List PlainOrTag) (items : List Item) (tokens : FileTokens) (k : ℕ) (bs cs : List Bound)
        → MatchesAt pattern_items pattern items tokens k bs → MatchesAt pattern_items pattern items tokens k cs → bs ≡ cs }
{}

/// What is bound are the tags of the pattern, each once and in its order.
pub fn tags_are_bound()
    ensures { (pattern : List PlainOrTag) (tokens : FileTokens) (p : Tree) (k : ℕ) (t : Tree) (bs : List Bound)
        → Matches pattern tokens p k t bs → map (λ b. b.name) bs ≡ tag_names pattern p }
{}

/// A pattern without tags matches exactly the trees that are like it: the same rules, and tokens of the same types and texts.
pub fn without_tags()
    ensures { (pattern : List PlainOrTag) (tokens : FileTokens) (p : Tree) (k : ℕ) (t : Tree) (bs : List Bound) → HasNoTags pattern p
        → Matches pattern tokens p k t bs ↔ (IsAlike pattern tokens p t × (bs ≡ [])) }
{}

/// A pattern that is the tag of its own rule matches exactly the nodes of the rule, and is bound to them.
pub fn own_tag()
    ensures { (pattern : List PlainOrTag) (tokens : FileTokens) (rule alt at place : ℕ) (name : List ℕ) (k : ℕ) (t : Tree) (bs : List Bound)
        → slice_get pattern place ≡ Some (patterns.RuleTag rule name)
        → Matches pattern tokens (node rule alt at (only (leaf place))) k t bs ↔ (IsNodeOf rule t × (bs ≡ bound name k)) }
{}
