// The parser rules and the lexer rules of a grammar.
ghost use Rattle.std.specs.Prelude.{IfOk, map};
ghost use Rattle.g4_vocab.specs.Halves.{AreHalves};

use g4_source::{Atom, LexerRule, ParserRule, Rule};
use std::alloc::{AllocError, Global};

/// The parser rules, and the lexer rules without `fragment`, each in order of the text.
#[derive(Drop)]
pub struct Halves<'a> {
    pub parsers: Vec<&'a ParserRule<Atom>>,
    pub lexers: Vec<&'a LexerRule>,
}

/// The parser rules, and the lexer rules without `fragment`, among the rules.
pub fn halves_of(alloc: Global, rules: &[Rule]) -> Result<Halves<'_>, AllocError>
    ensures { IfOk result (λ halves. AreHalves rules.now (map (λ r. r.now) halves.parsers.items) (map (λ r. r.now) halves.lexers.items)) }
{
    let mut parsers = Vec::new(alloc);
    let mut lexers = Vec::new(alloc);
    for rule in rules {
        match rule {
            Rule::Parser(parser) => parsers.push(parser)?,
            Rule::Lexer(lexer) => {
                if !lexer.fragment {
                    lexers.push(lexer)?;
                }
            }
        }
    }
    Ok(Halves { parsers, lexers })
}
