// What the atoms of lexer rules become, while their labels are not made yet.
use crate::chars::between;
use g4_chars::CharSet;
use g4_grammar::Step;
use g4_ordered::Reads;
use g4_states::Atom;
use std::alloc::{AllocError, Global};

/// What one atom of a lexer rule becomes, but for a literal, which becomes one of these for each of its characters.
#[derive(Drop)]
pub enum LexerStep {
    /// One character.
    Character(char),
    /// One character of a set.
    Set(CharSet),
    /// Nothing, where no character is left.
    AtEnd,
    /// What the rule of this number matches.
    Call(u32),
    /// Nothing.
    Empty,
}

impl Atom for LexerStep {
    type Label = Reads;

    ghost use Rattle.g4_lexer_rules.specs.Steps.{step_of};

    ghost step = { step_of };

    fn step(&self, alloc: Global) -> Result<Step<Reads>, AllocError> {
        match self {
            LexerStep::Character(c) => Ok(Step::Edge(Reads::Characters(between(alloc, *c, *c)?))),
            LexerStep::Set(set) => Ok(Step::Edge(Reads::Characters(set.copy_of(alloc)?))),
            LexerStep::AtEnd => Ok(Step::Edge(Reads::EndOfText)),
            LexerStep::Call(rule) => Ok(Step::Call {
                rule: *rule,
                level: 0,
            }),
            LexerStep::Empty => Ok(Step::Empty),
        }
    }
}
