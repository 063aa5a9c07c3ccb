// Trees of small rules, worked out by hand, and large trees.
use crate::rows::{answered, cut, push_row};
use g4_base::{Place, Sequence, Text};
use g4_grammar::{Step, StepRule};
use g4_source::{Alternative, Element, Elements, Repeat, RuleAlternative, Suffix};
use g4_tokens::{Symbols, Token};
use g4_tree_check::check_tree;
use g4_trees::{Item, Tree};
use std::alloc::{AllocError, Global};
use std::test::Fail;

const GREEDY: Suffix = Suffix { greedy: true };

/// The symbol that a letter represents.
fn symbol(letter: char) -> u32 {
    letter.to_digit(36).unwrap_or(0)
}

/// A step: `!` is an action, `#` a predicate, a digit a call of the rule of this number, and a letter takes its symbol.
fn step(alloc: Global, sign: char) -> Result<Step<Symbols>, AllocError> {
    if sign == '!' {
        return Ok(Step::Action);
    }
    if sign == '#' {
        return Ok(Step::Predicate(0));
    }
    match sign.to_digit(10) {
        Some(rule) => Ok(Step::Call { rule, level: 0 }),
        None => Ok(Step::Edge(Symbols::one(alloc, symbol(sign))?)),
    }
}

/// Puts a sign after the last element.
fn repeat_last(
    alloc: Global,
    all: &mut Vec<Element<Step<Symbols>>>,
    repeat: Repeat,
) -> Result<(), AllocError> {
    let mut elements = Vec::new(alloc);
    if let Some(last) = all.pop() {
        elements.push(last)?;
    }
    let alternatives = vec![in alloc; Alternative { elements }]?;
    all.push(Element::Block(None, repeat, alternatives))?;
    Ok(())
}

/// Elements by the characters of a text: the signs `?`, `*` and `+` are of the element before them, and `@` puts all elements
/// before it in brackets, in which `/` comes between alternatives.
fn elements(alloc: Global, text: &str) -> Result<Vec<Element<Step<Symbols>>>, AllocError> {
    let mut all = Vec::new(alloc);
    let mut sides = Vec::new(alloc);
    for sign in text.chars() {
        match sign {
            '?' => repeat_last(alloc, &mut all, Repeat::Optional(GREEDY))?,
            '*' => repeat_last(alloc, &mut all, Repeat::Star(GREEDY))?,
            '+' => repeat_last(alloc, &mut all, Repeat::Plus(GREEDY))?,
            '/' => {
                sides.push(Alternative { elements: all })?;
                all = Vec::new(alloc);
            }
            '@' => {
                sides.push(Alternative { elements: all })?;
                all = vec![in alloc; Element::Block(None, Repeat::Once, sides)]?;
                sides = Vec::new(alloc);
            }
            other => all.push(Element::Atom(step(alloc, other)?))?,
        }
    }
    Ok(all)
}

/// A rule by its alternatives, with `|` between them.
fn rule(alloc: Global, text: &str) -> Result<StepRule, AllocError> {
    let mut all = Vec::new(alloc);
    for alternative in text.split('|') {
        let elements = Elements::new(elements(alloc, alternative)?);
        all.push(RuleAlternative {
            right: false,
            elements,
            label: None,
        })?;
    }
    let name = Text::copy_of(alloc, "r")?;
    Ok(StepRule {
        name,
        alternatives: Sequence::new(all),
    })
}

/// The rules of the words of a text.
fn rules(alloc: Global, text: &str) -> Result<Vec<StepRule>, AllocError> {
    let mut all = Vec::new(alloc);
    for word in text.split(' ') {
        all.push(rule(alloc, word)?)?;
    }
    Ok(all)
}

/// The tokens of the letters of a text.
pub(crate) fn tokens(alloc: Global, text: &str) -> Result<Vec<Token>, AllocError> {
    let mut all = Vec::new(alloc);
    for letter in text.chars() {
        all.push(Token {
            symbol: symbol(letter),
            channel: 0,
            place: Place::START,
            start: 0,
            end: 0,
        })?;
    }
    Ok(all)
}

/// The number that a digit represents.
fn number(digit: Option<char>) -> u32 {
    match digit {
        Some(digit) => digit.to_digit(10).unwrap_or(0),
        None => 0,
    }
}

/// An item by its word, after `next` tokens: `<` with the digits of a rule and an alternative and, if the node is misplaced, of
/// its place, `>`, or the place of a token.
fn item(word: &str, next: u32) -> Item {
    let mut signs = word.chars();
    match signs.next() {
        Some('<') => {
            let rule = number(signs.next());
            let alt = number(signs.next());
            let at = match signs.next() {
                None => next,
                place => number(place),
            };
            Item::Enter { rule, alt, at }
        }
        Some('>') => Item::Exit,
        other => Item::Token(number(other)),
    }
}

/// The items of the words of a text.
pub(crate) fn tree(alloc: Global, text: &str) -> Result<Tree, AllocError> {
    let mut all = Vec::new(alloc);
    let mut next = 0_u32;
    for word in text.split(' ') {
        let item = item(word, next);
        if let Item::Token(_) = item {
            next = next.wrapping_add(1);
        }
        all.push(item)?;
    }
    Ok(Tree::new(all))
}

/// What a row shows, rules, tokens and the items of a tree that is one of the rules over the tokens.
const RIGHT: &str = "tokens alone | a2*c|2b b|! | ac | <11 0 1 >
a node | a2*c|2b b|! | abc | <11 0 <21 1 > 2 >
two nodes | a2*c|2b b|! | abbc | <11 0 <21 1 > <21 2 > 3 >
empty nodes | a2*c|2b b|! | ac | <11 0 <22 > <22 > 1 >
the second alternative | a2*c|2b b|! | bb | <12 <21 0 > 1 >
tokens are left | a2*c|2b b|! | acac | <11 0 1 >
no token | ! |  | <11 >
a chain | 2 3 b | b | <11 <21 <31 0 > > >
a call of its own rule | a1|b | aab | <11 0 <11 1 <12 2 > > >";

/// The same of trees that are none. Of the last nine the items are ill nested.
const WRONG: &str = "a root after its first token | ac | ac | <111 0 1 >
a node before its first token | a2*c|2b b|! | abc | <11 0 <210 1 > 2 >
a node after its first token | a2*c|2b b|! | abc | <11 0 <212 1 > 2 >
an empty node before the next token | a2*c|2b b|! | ac | <11 0 <220 > 1 >
an empty node after the next token | a2*c|2b b|! | ac | <11 0 <222 > 1 >
tokens out of order | ac | ca | <11 1 0 >
a token is left out | aa | aba | <11 0 2 >
a token twice | aa | aa | <11 0 0 >
another symbol | ac | aa | <11 0 1 >
past the tokens | ac | a | <11 0 1 >
alternative 0 | ac|b | ac | <10 0 1 >
alternative 3 | ac|b | ac | <13 0 1 >
the other alternative | ac|b | ac | <12 0 1 >
rule 0 | ac | ac | <01 0 1 >
rule 2 | ac | ac | <21 0 1 >
a node of another rule | 2 b b | b | <11 <31 0 > >
a fault at depth 2 | a2c b | aac | <11 0 <21 1 > 2 >
a fault at depth 3 | 2 3 b | a | <11 <21 <31 0 > > >
a token for a node | 2 b | b | <11 0 >
an end too many | a|1 | aa | <11 0 > >
an end is missing | a|1 | aa | <11 0
an inner end is missing | a|1 | aa | <12 <11 0 >
two roots | a|1 | aa | <11 0 > <11 1 >
a token as root | a|1 | aa | 0
a token after the root | a|1 | aa | <11 0 > 1
a token before the root | a|1 | aa | 0 <11 1 >
an end alone | a|1 | aa | >
ends first | a|1 | aa | > <11 0";

/// A rule, tokens of one node, and whether they are a word of its alternative.
const WORDS: &str = " |  => yes
 | a => no
a? |  => yes
a? | a => yes
a? | aa => no
a* |  => yes
a* | aaa => yes
a* | ab => no
a+ |  => no
a+ | aaa => yes
ab@*c | c => yes
ab@*c | ababc => yes
ab@*c | abac => no
ab@*c | abab => no
ab/c@+ | cabc => yes
ab/c@+ | ca => no
a/ab@b | abb => yes
a/ab@b | ab => yes
a/ab@b | aab => no
a*b@*c | abbaabc => yes
a*b@*c | abbaac => no
a*@*b | aab => yes
a*@*b | b => yes
a?@+b | b => yes
a?@+b | aaab => yes
a+b?@+ | abaab => yes
a+b?@+ | abbaab => no
!a#b | ab => yes
!a#b | a => no
!/#@+ |  => yes
a?a?a?aaa | aaa => yes
a?a?a?aaa | aaaaaaa => no";

/// Whether the tree is one of the rules over the tokens, where a case is all three.
fn answer(alloc: Global, case: &str) -> Result<bool, AllocError> {
    let (grammar, rest) = cut(case);
    let (word, items) = cut(rest);
    let rules = rules(alloc, grammar)?;
    let tokens = tokens(alloc, word)?;
    let tree = tree(alloc, items)?;
    check_tree(alloc, rules.as_slice(), &tree, tokens.as_slice())
}

/// The rows that have another answer than this one.
fn wrong_rows(alloc: Global, rows: &str, wanted: bool) -> Result<String, AllocError> {
    let mut wrong = String::new(alloc);
    for row in rows.lines() {
        if answer(alloc, cut(row).1)? != wanted {
            push_row(&mut wrong, row, "another answer")?;
        }
    }
    Ok(wrong)
}

#[test]
fn small_trees(rt: HostRuntime) -> Result<(), Fail> {
    for (rows, wanted) in [(RIGHT, true), (WRONG, false)] {
        let wrong = wrong_rows(rt.alloc(), rows, wanted)?;
        assert_eq!(rt; wrong.as_str(), "");
    }
    Ok(())
}

#[test]
fn no_item(rt: HostRuntime) -> Result<(), Fail> {
    let rules = rules(rt.alloc(), "a|1")?;
    let nothing = Tree::new(Vec::new(rt.alloc()));
    let yes = check_tree(rt.alloc(), rules.as_slice(), &nothing, &[])?;
    assert!(rt; !yes);
    Ok(())
}

/// A node of `count` tokens.
fn wide(alloc: Global, count: u32) -> Result<Tree, AllocError> {
    let mut all = Vec::new(alloc);
    all.push(Item::Enter {
        rule: 1,
        alt: 1,
        at: 0,
    })?;
    for at in 0..count {
        all.push(Item::Token(at))?;
    }
    all.push(Item::Exit)?;
    Ok(Tree::new(all))
}

/// Whether the tokens are a word of the rule.
fn is_word(alloc: Global, grammar: &str, word: &str) -> Result<bool, AllocError> {
    let rules = rules(alloc, grammar)?;
    let tokens = tokens(alloc, word)?;
    let tree = wide(alloc, tokens.len().min(1_000) as u32)?;
    check_tree(alloc, rules.as_slice(), &tree, tokens.as_slice())
}

#[test]
fn words_of_one_node(rt: HostRuntime) -> Result<(), Fail> {
    let alloc = rt.alloc();
    let mut wrong = String::new(alloc);
    for row in WORDS.lines() {
        let (asked, wanted) = answered(row);
        let (grammar, word) = cut(asked);
        if is_word(alloc, grammar, word)? != (wanted == "yes") {
            push_row(&mut wrong, row, "another answer")?;
        }
    }
    assert_eq!(rt; wrong.as_str(), "");
    Ok(())
}

/// `count` tokens `a`, and then a `b`.
fn many_tokens(alloc: Global, count: u32) -> Result<Vec<Token>, AllocError> {
    let mut all = Vec::new(alloc);
    for _ in 0..count {
        all.append(&mut tokens(alloc, "a")?)?;
    }
    all.append(&mut tokens(alloc, "b")?)?;
    Ok(all)
}

/// `count` nodes, each in the one before it and after its token.
pub(crate) fn deep(alloc: Global, count: u32) -> Result<Tree, AllocError> {
    let mut all = Vec::new(alloc);
    for at in 0..count {
        all.push(Item::Enter {
            rule: 1,
            alt: 1,
            at,
        })?;
        all.push(Item::Token(at))?;
    }
    for _ in 0..count {
        all.push(Item::Exit)?;
    }
    Ok(Tree::new(all))
}

/// Whether the tree is one of the rules over 20,000 tokens `a` and a `b`.
fn is_large_tree(alloc: Global, grammar: &str, tree: &Tree) -> Result<bool, AllocError> {
    let rules = rules(alloc, grammar)?;
    let tokens = many_tokens(alloc, 20_000)?;
    check_tree(alloc, rules.as_slice(), tree, tokens.as_slice())
}

#[test]
fn large_trees(rt: HostRuntime) -> Result<(), Fail> {
    for (count, wanted) in [(20_000, true), (20_001, false)] {
        let broad = wide(rt.alloc(), count)?;
        let found = is_large_tree(rt.alloc(), "a*a?@+", &broad)?;
        assert!(rt; found == wanted, "a node of {count} tokens");
        let high = deep(rt.alloc(), count)?;
        let found = is_large_tree(rt.alloc(), "a1?", &high)?;
        assert!(rt; found == wanted, "{count} nodes, one in the other");
    }
    Ok(())
}
