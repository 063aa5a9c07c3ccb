// Whether a tree is one of a grammar over a list of tokens.
ghost use Rattle.std.specs.Prelude.{◌↔◌, IfOk, IsTrue};
ghost use Rattle.g4_tokens.specs.TokenList.{word_of};
ghost use Rattle.g4_tree_check.specs.TreesOf.{IsTreeOf};

use crate::standing::Standing;
use g4_grammar::StepRule;
use g4_tokens::Token;
use g4_trees::Tree;
use std::alloc::{AllocError, Global};

/// Whether the tree is one of the rules over the tokens: its items are those of a node, its tokens are the first of the list in
/// order, counted from 0, each node is at the place of its first token, or of the next one where it has none, and the children of each
/// node are a word of the alternative that the node names, as it is written.
/// Rules count from 1, and the alternatives of a rule too. The time is in proportion to the number of items, each times the
/// size of the alternative of its node, and no call is as deep as the tree.
///
/// # Errors
/// No memory.
pub fn check_tree(
    alloc: Global,
    rules: &[StepRule],
    tree: &Tree,
    tokens: &[Token],
) -> Result<bool, AllocError>
    ensures { IfOk result (λ yes. IsTrue yes ↔ IsTreeOf rules.now (word_of tokens.now) tree.now) }
{
    let mut standing = Standing::new(alloc);
    for item in tree.items() {
        if !standing.read(alloc, rules, item, tokens)? {
            return Ok(false);
        }
    }
    Ok(standing.is_complete())
}
