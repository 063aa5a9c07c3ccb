// A tree of a million nodes, and a pattern with a hundred thousand tags.
ghost use Rattle.std.specs.Prelude.{IfOk};
ghost use Rattle.g4_patterns.specs.Places.{AreOneTree};

use crate::notation::{pattern_of, rules, tokens_of};
use crate::trees::Trees;
use g4_base::{Octets, Sequence};
use g4_patterns::{Pattern, PatternToken, Subject};
use g4_tokens::Tokens;
use g4_trees::Tree;
use std::alloc::{AllocError, Global};
use std::test::Fail;

/// A binary tree over the tokens `1` and `+`: `(e 1)` where there are no levels, else `(e LEFT + RIGHT)`.
fn binary(alloc: Global, levels: u32) -> Result<Tree, AllocError>
    ensures { IfOk result AreOneTree }
{
    let mut children = Trees::new(alloc).with_token(0)?;
    for _ in 0..levels {
        let left = Trees::new(alloc).with_node(1, 1, 0, &children)?;
        children = left.with_token(1)?.with_node(1, 1, 0, &children)?;
    }
    children.into_node(alloc, 1, 1, 0)
}

/// A node with this many children, each a node with the first token alone.
fn wide(alloc: Global, count: u32) -> Result<Tree, AllocError>
    ensures { IfOk result AreOneTree }
{
    let child = Trees::new(alloc).with_token(0)?;
    let mut children = Trees::new(alloc);
    for _ in 0..count {
        children = children.with_node(1, 1, 0, &child)?;
    }
    children.into_node(alloc, 2, 1, 0)
}

/// How many nodes a pattern matches in a binary tree with 19 levels of operators, and how many bytes the text of the tree has.
fn found_and_printed(
    alloc: Global,
    tokens: &Tokens,
    pattern: &Pattern,
) -> Result<(usize, usize), AllocError> {
    let tree = binary(alloc, 19)?;
    let subject = Subject::new(alloc, &tree, tokens)?;
    let found = pattern.find_all(alloc, &subject)?;
    let rules = rules(alloc)?;
    let mut out = Vec::new(alloc);
    subject.print_node(alloc, &mut out, rules.as_slice(), 0)?;
    Ok((found.len(), out.len()))
}

/// How many bindings a wide tree of tags has in the same tree of tokens.
fn many_bindings(alloc: Global, tokens: &Tokens) -> Result<usize, AllocError> {
    let mut tag = Vec::new(alloc);
    tag.push(PatternToken::RuleTag {
        rule: 1,
        name: Octets::new(b"e".to_vec(alloc)?),
    })?;
    let pattern = Pattern::new(wide(alloc, 100_000)?, Sequence::new(tag));
    let tree = wide(alloc, 100_000)?;
    let subject = Subject::new(alloc, &tree, tokens)?;
    let count = match pattern.matches(alloc, &subject, 0)? {
        Some(bindings) => bindings.len(),
        None => 0,
    };
    Ok(count)
}

#[test]
fn large(rt: HostRuntime) -> Result<(), Fail> {
    let tokens = tokens_of(rt.alloc(), "1 +")?;
    let pattern = pattern_of(rt.alloc(), "(e (e <x:e> ) + (e <y:e> ) )")?;
    let (found, printed) = found_and_printed(rt.alloc(), &tokens, &pattern)?;
    assert_eq!(rt; found, 524_287);
    assert_eq!(rt; printed, 6_291_449);
    assert_eq!(rt; many_bindings(rt.alloc(), &tokens)?, 100_000);
    Ok(())
}
