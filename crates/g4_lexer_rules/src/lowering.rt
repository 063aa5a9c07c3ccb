// From lexer rules as they are written to rules over steps: a literal becomes its characters, and a reference a call by number.
ghost use Rattle.std.specs.Prelude.{◌≡◌, ◌<◌, ◌^◌, IfOk, length, map};
ghost use Rattle.g4_source.specs.Trees.{element_of};
ghost use Rattle.g4_names.specs.Places.{ArePlaces};
ghost use Rattle.g4_lexer_rules.specs.Steps.{chained, reference};
ghost use Rattle.g4_lexer_rules.specs.NetworkRules.{names_of, lowered};

use crate::chars::{all, others, spanned};
use crate::step::LexerStep;
use g4_base::Sequence;
use g4_chars::CharSet;
use g4_names::Places;
use g4_source::{
    Alternative, Atom, AtomKind, Element, Elements, LexerRule, Repeat, Substitution, substituted,
};
use std::alloc::{AllocError, Global};

/// The rules that references may call, and the place of each name among them.
#[derive(Drop)]
pub struct Stage<'a> {
    rules: &'a [LexerRule],
    places: Places<'a>,
    ghost few: { length rules.now < 2 ^ 31 },
    ghost named: { ArePlaces (names_of rules.now) places },
}

/// The place of the first of each name.
fn places_of<'a>(alloc: Global, rules: &'a [LexerRule]) -> Result<Places<'a>, AllocError>
    requires few { length rules.now < 2 ^ 31 }
    ensures { IfOk result (λ places. ArePlaces (names_of rules.now) places) }
{
    let mut places = Places::new(alloc);
    for (place, rule) in rules.iter().enumerate() {
        places.add(rule.name.as_str(), place as u32)?;
    }
    Ok(places)
}

/// A character after another, as one element.
fn chained(alloc: Global, characters: &[char]) -> Result<Element<LexerStep>, AllocError>
    ensures { IfOk result (λ made. element_of made ≡ chained characters.now) }
{
    let mut elements = Vec::new(alloc);
    for character in characters {
        elements.push(Element::Atom(LexerStep::Character(*character)))?;
    }
    let mut alternatives = Vec::new(alloc);
    alternatives.push(Alternative { elements })?;
    Ok(Element::Block(None, Repeat::Once, alternatives))
}

impl Stage<'_> {
    /// What a name calls: the first rule of that name, or their number where there is none; `EOF` is the end of the text.
    fn reference(&self, name: &str) -> LexerStep
        ensures { result ≡ reference (names_of self.now.rules.now) name.now }
    {
        if name == "EOF" {
            return LexerStep::AtEnd;
        }
        let place = self.places.place_of(name);
        let count = self.rules.len() as u32;
        LexerStep::Call(place.unwrap_or(count))
    }
}

impl Substitution<Atom> for Stage<'_> {
    type To = LexerStep;

    ghost use Rattle.g4_lexer_rules.specs.NetworkRules.{names_of as names};
    ghost use Rattle.g4_lexer_rules.specs.Steps.{element_of_kind};

    ghost image = { λ stage a. element_of_kind (names stage.rules.now) a.kind };

    #[tactic(auto, using(g4_source::proofs::Trees::of_atom))]
    fn image(&self, alloc: Global, atom: &Atom) -> Result<Element<LexerStep>, AllocError> {
        let step = match &atom.kind {
            AtomKind::Literal(literal) => {
                let chain = chained(alloc, literal.characters.as_slice())?;
                return Ok(chain);
            }
            AtomKind::Token(name) => self.reference(name.text.as_str()),
            AtomKind::Range(first, last) => {
                LexerStep::Set(spanned(
                    alloc,
                    first.characters.as_slice(),
                    last.characters.as_slice(),
                )?)
            }
            AtomKind::Set(set) => LexerStep::Set(set.copy_of(alloc)?),
            AtomKind::Any => LexerStep::Set(all(alloc)?),
            AtomKind::NotCharacters(set) => LexerStep::Set(others(alloc, set)?),
            AtomKind::Action => LexerStep::Empty,
            AtomKind::Predicate(_) => LexerStep::Empty,
            _ => LexerStep::Set(CharSet::empty(alloc)),
        };
        Ok(Element::Atom(step))
    }
}

/// The alternatives of the rule over steps.
fn lowered_rule(
    alloc: Global,
    stage: &Stage<'_>,
    rule: &LexerRule,
) -> Result<Sequence<Elements<LexerStep>>, AllocError>
    ensures { IfOk result (λ made. made ≡ lowered stage.now.rules.now rule.now) }
{
    let mut all = Vec::new(alloc);
    for alternative in rule.alternatives.as_slice() {
        all.push(substituted(alloc, stage, &alternative.elements)?)?;
    }
    Ok(Sequence::new(all))
}

/// The alternatives of the rules over steps.
pub fn lower(
    alloc: Global,
    rules: &[LexerRule],
) -> Result<Vec<Sequence<Elements<LexerStep>>>, AllocError>
    requires few { length rules.now < 2 ^ 31 }
    ensures { IfOk result (λ made. made.items ≡ map (lowered rules.now) rules.now) }
{
    let places = places_of(alloc, rules)?;
    let stage = Stage { rules, places };
    let mut all = Vec::new(alloc);
    for rule in rules {
        all.push(lowered_rule(alloc, &stage, rule)?)?;
    }
    Ok(all)
}
