// Trees, patterns and tokens by a short notation. `(e` begins a node of the rule e and `)` ends it, and other words are tokens.
ghost use Rattle.std.specs.Prelude.{IfOk};
ghost use Rattle.g4_patterns.specs.Places.{AreOneTree};

use crate::trees::Trees;
use g4_base::{Octets, Place, Sequence, Text};
use g4_patterns::{Pattern, PatternToken};
use g4_source::ParserRule;
use g4_tokens::{EOF, Token, Tokens};
use g4_trees::Tree;
use std::alloc::{AllocError, Global};

/// The rules of the notation.
const NAMES: [&str; 4] = ["e", "s", "t", "r"];

/// A node whose end has not come.
#[derive(Drop)]
struct Open {
    rule: u32,
    at: u32,
    children: Trees,
}

/// The number of a rule by its name: 4 for any other.
fn rule_of(name: &str) -> u32 {
    match name {
        "e" => 1,
        "s" => 2,
        "t" => 3,
        _ => 4,
    }
}

/// The token type of a word: 1 of a number, 2 of a name, and a type of its own for each other character.
fn symbol_of(word: &str) -> u32 {
    if word == "$" {
        return EOF;
    }
    match word.chars().next() {
        Some(first) if first.is_ascii_digit() => 1,
        Some(first) if first.is_ascii_lowercase() => 2,
        Some(first) => 10 + (first as u32 % 1_000),
        None => 3,
    }
}

/// Whether the word is a token.
fn is_token(word: &str) -> bool {
    word != ")" && !word.starts_with('(')
}

/// The tree of the words of a text, if they are those of one node.
pub(crate) fn tree_of(alloc: Global, text: &str) -> Result<Tree, AllocError>
    ensures { IfOk result AreOneTree }
{
    let mut outer: Vec<Open> = Vec::new(alloc);
    let mut at: u32 = 0;
    for word in text.split(' ') {
        if let Some(name) = word.strip_prefix('(') {
            outer.push(Open {
                rule: rule_of(name),
                at,
                children: Trees::new(alloc),
            })?;
            continue;
        }
        let Some(
            Open {
                rule,
                at: first,
                children,
            },
        ) = outer.pop()
        else {
            return Err(AllocError);
        };
        if word != ")" {
            outer.push(Open {
                rule,
                at: first,
                children: children.with_token(at)?,
            })?;
            at = at.saturating_add(1);
            continue;
        }
        match outer.pop() {
            Some(parent) => outer.push(Open {
                rule: parent.rule,
                at: parent.at,
                children: parent.children.with_node(rule, 7, first, &children)?,
            })?,
            None => return children.into_node(alloc, rule, 7, first),
        }
    }
    Err(AllocError)
}

/// The token of a pattern that a word is: `<INT>`, `<ID>`, `<EOF>` or `<e>`, also with a label, as `<x:e>`, or a plain one.
fn pattern_token(alloc: Global, word: &str) -> Result<PatternToken, AllocError> {
    let tag = word
        .strip_prefix('<')
        .unwrap_or("")
        .strip_suffix('>')
        .unwrap_or("");
    let (label, kind) = tag.split_once(':').unwrap_or((tag, tag));
    let name = Octets::new(label.as_bytes().to_vec(alloc)?);
    Ok(match kind {
        "" => PatternToken::Plain {
            symbol: symbol_of(word),
            text: Octets::new(
                if word == "$" { "<EOF>" } else { word }
                    .as_bytes()
                    .to_vec(alloc)?,
            ),
        },
        "INT" => PatternToken::TokenTag { symbol: 1, name },
        "ID" => PatternToken::TokenTag { symbol: 2, name },
        "EOF" => PatternToken::TokenTag { symbol: EOF, name },
        rule => PatternToken::RuleTag {
            rule: rule_of(rule),
            name,
        },
    })
}

/// The pattern of the words of a text.
pub(crate) fn pattern_of(alloc: Global, text: &str) -> Result<Pattern, AllocError> {
    let mut tokens = Vec::new(alloc);
    for word in text.split(' ') {
        if is_token(word) {
            tokens.push(pattern_token(alloc, word)?)?;
        }
    }
    Ok(Pattern::new(tree_of(alloc, text)?, Sequence::new(tokens)))
}

/// The number of a byte of a file.
fn byte(at: usize) -> u32 {
    u32::try_from(at).unwrap_or(u32::MAX)
}

/// The tokens of the words of a text, which is their file. Those that close the file are at its end.
pub(crate) fn tokens_of(alloc: Global, text: &str) -> Result<Tokens, AllocError> {
    let mut list = Vec::new(alloc);
    let mut start: usize = 0;
    for word in text.split(' ') {
        let begins = if word == "$" { text.len() } else { start };
        let ends = begins.saturating_add(word.len()).min(text.len());
        if is_token(word) {
            list.push(Token {
                symbol: symbol_of(word),
                channel: 0,
                place: Place::START,
                start: byte(begins),
                end: byte(ends),
            })?;
        }
        start = start.saturating_add(word.len()).saturating_add(1);
    }
    Ok(Tokens {
        bytes: Octets::new(text.as_bytes().to_vec(alloc)?),
        all: Sequence::new(Vec::new(alloc)),
        list: Sequence::new(list),
    })
}

/// The rules of the notation, by their names alone.
pub(crate) fn rules(alloc: Global) -> Result<Vec<ParserRule<u32>>, AllocError> {
    let mut all = Vec::new(alloc);
    for name in NAMES {
        all.push(ParserRule {
            name: Text::copy_of(alloc, name)?,
            alternatives: Sequence::new(Vec::new(alloc)),
        })?;
    }
    Ok(all)
}
