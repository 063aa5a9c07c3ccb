// Tokens as symbols, references to rules as calls by number, and predicates as their numbers.
ghost use Rattle.std.specs.Prelude.{◌≡◌, ◌≤◌, ◌<◌, ◌^◌, IfOk, length, map};
ghost use Rattle.g4_vocab.specs.Answers.{IsVocabularyFor};
ghost use Rattle.g4_vocab.specs.Vocabularies.{lexers_in, types_in};
ghost use Rattle.g4_resolve.specs.Resolving.{CanBeResolved, resolved, resolved_alternative, resolved_rule, step_of};

use crate::predicates::texts_of;
use crate::texts::Texts;
use g4_base::{Sequence, Text};
use g4_grammar::{ParserRules, Step, StepRule};
use g4_source::{
    Atom, AtomKind, Element, ParserRule, RuleAlternative, Source, Substitution, parser_rules,
    substituted, views_of,
};
use g4_tokens::Symbols;
use g4_vocab::Vocabulary;
use std::alloc::{AllocError, Global};

/// What the atoms of parser rules become: the names of these rules, which count from 1, and the texts of their predicates, which count from
/// 0, with their places, and the symbols of tokens.
#[derive(Drop)]
struct Stage<'n, 'p, 'a> {
    names: Texts<'n>,
    predicates: Texts<'p>,
    vocabulary: &'n Vocabulary<'a>,
    ghost few: { length names.texts.now < 2 ^ 31 },
}

impl Stage<'_, '_, '_> {
    /// The step that the atom is.
    fn step_of(&self, alloc: Global, kind: &AtomKind) -> Result<Step<Symbols>, AllocError>
        ensures { IfOk result (λ step. step ≡ step_of self.now.names.texts.now self.now.predicates.texts.now
            (lexers_in self.now.vocabulary.now) (types_in self.now.vocabulary.now) kind.now) }
    {
        match kind {
            AtomKind::Rule(name) => {
                let place = self.names.place_of(name.text.as_str());
                Ok(Step::Call {
                    rule: (place + 1) as u32,
                    level: 0,
                })
            }
            AtomKind::Action => Ok(Step::Action),
            AtomKind::Predicate(name) => {
                let place = self.predicates.place_of(name.text.as_str());
                Ok(Step::Predicate(place as u32))
            }
            _ => Ok(Step::Edge(self.vocabulary.symbols_of_kind(alloc, kind)?)),
        }
    }
}

impl Substitution<Atom> for Stage<'_, '_, '_> {
    type To = Step<Symbols>;

    ghost use Rattle.g4_source.specs.Elements.{atom as lone};
    ghost use Rattle.g4_vocab.specs.Vocabularies.{lexers_in as lexers, types_in as types};
    ghost use Rattle.g4_resolve.specs.Resolving.{step_of as becomes};

    ghost image = { λ stage a. lone (becomes stage.names.texts.now stage.predicates.texts.now
        (lexers stage.vocabulary.now) (types stage.vocabulary.now) a.kind) };

    #[tactic(auto, using(g4_source::proofs::Trees::of_atom))]
    fn image(&self, alloc: Global, atom: &Atom) -> Result<Element<Step<Symbols>>, AllocError> {
        let step = self.step_of(alloc, &atom.kind)?;
        Ok(Element::Atom(step))
    }
}

/// The alternative over steps.
fn resolved_alternative(
    alloc: Global,
    stage: &Stage<'_, '_, '_>,
    alternative: &RuleAlternative<Atom>,
) -> Result<RuleAlternative<Step<Symbols>>, AllocError>
    ensures { IfOk result (λ made. made ≡ resolved_alternative stage.now.names.texts.now stage.now.predicates.texts.now
        (lexers_in stage.now.vocabulary.now) (types_in stage.now.vocabulary.now) alternative.now) }
{
    let elements = substituted(alloc, stage, &alternative.elements)?;
    let label = match &alternative.label {
        Some(label) => Some(Text::copy_of(alloc, label.as_str())?),
        None => None,
    };
    Ok(RuleAlternative {
        right: alternative.right,
        elements,
        label,
    })
}

/// The rule over steps.
fn resolved_rule(
    alloc: Global,
    stage: &Stage<'_, '_, '_>,
    rule: &ParserRule<Atom>,
) -> Result<StepRule, AllocError>
    ensures { IfOk result (λ made. made ≡ resolved_rule stage.now.names.texts.now stage.now.predicates.texts.now
        (lexers_in stage.now.vocabulary.now) (types_in stage.now.vocabulary.now) rule.now) }
{
    let name = Text::copy_of(alloc, rule.name.as_str())?;
    let mut all = Vec::new(alloc);
    for alternative in rule.alternatives.as_slice() {
        all.push(resolved_alternative(alloc, stage, alternative)?)?;
    }
    Ok(ParserRule {
        name,
        alternatives: Sequence::new(all),
    })
}

/// The rules over steps.
fn resolved_rules(
    alloc: Global,
    stage: &Stage<'_, '_, '_>,
    rules: &[&ParserRule<Atom>],
) -> Result<Sequence<StepRule>, AllocError>
    ensures { IfOk result (λ made. made ≡ map
        (resolved_rule stage.now.names.texts.now stage.now.predicates.texts.now
        (lexers_in stage.now.vocabulary.now) (types_in stage.now.vocabulary.now))
        (map (λ r. r.now) rules.now)) }
{
    let mut all = Vec::new(alloc);
    for rule in rules {
        all.push(resolved_rule(alloc, stage, rule)?)?;
    }
    Ok(Sequence::new(all))
}

/// The names of the rules.
fn names_of(alloc: Global, rules: &[&ParserRule<Atom>]) -> Result<Vec<Text>, AllocError>
    ensures { IfOk result (λ names. names.items ≡ map (λ rule. rule.name) (map (λ r. r.now) rules.now)) }
{
    let mut names = Vec::new(alloc);
    for rule in rules {
        names.push(Text::copy_of(alloc, rule.name.as_str())?)?;
    }
    Ok(names)
}

/// The parser rules of a grammar without fault, over steps, its tokens as the symbols of this vocabulary, and its predicates as numbers:
/// the place of the first with the same text, counted from 0 in order of the grammar. They can be rewritten.
///
/// # Errors
/// No memory.
pub fn resolve(
    alloc: Global,
    source: &Source,
    vocabulary: &Vocabulary<'_>,
) -> Result<ParserRules, AllocError>
    requires numbered { IsVocabularyFor source.now vocabulary.now }
    requires checked { CanBeResolved source.now.rules }
    ensures { IfOk result (λ made. made ≡ resolved (types_in vocabulary.now) source.now) }
{
    let views = views_of(alloc, source.rules.as_slice())?;
    let parsers = parser_rules(alloc, views.as_slice())?;
    let names = names_of(alloc, parsers.as_slice())?;
    let texts = texts_of(alloc, parsers.as_slice())?;
    let named = Texts::of(alloc, names.as_slice())?;
    let predicates = Texts::of(alloc, texts.as_slice())?;
    let stage = Stage {
        names: named,
        predicates,
        vocabulary,
    };
    let made = resolved_rules(alloc, &stage, parsers.as_slice())?;
    Ok(ParserRules::new(made))
}
