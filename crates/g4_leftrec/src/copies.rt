// Copies of rules over steps.
ghost use Rattle.std.specs.Prelude.{◌≡◌, IfOk};

use g4_base::{Sequence, Text};
use g4_grammar::{Step, StepRule};
use g4_source::{Element, RuleAlternative, Substitution, substituted};
use g4_tokens::Symbols;
use std::alloc::{AllocError, Global};

/// A copy of the step.
fn step(alloc: Global, step: &Step<Symbols>) -> Result<Step<Symbols>, AllocError>
    ensures { IfOk result (λ copy. copy ≡ step.now) }
{
    match step {
        Step::Edge(set) => Ok(Step::Edge(set.copy_of(alloc)?)),
        Step::Call { rule, level } => Ok(Step::Call {
            rule: *rule,
            level: *level,
        }),
        Step::Predicate(number) => Ok(Step::Predicate(*number)),
        Step::Level(level) => Ok(Step::Level(*level)),
        Step::Action => Ok(Step::Action),
        Step::Empty => Ok(Step::Empty),
    }
}

/// The stage that keeps each step.
#[derive(Drop)]
struct Same;

impl Substitution<Step<Symbols>> for Same {
    ghost use Rattle.g4_source.specs.Elements.{atom};

    type To = Step<Symbols>;

    ghost image = { λ _ a. atom a };

    fn image(
        &self,
        alloc: Global,
        atom: &Step<Symbols>,
    ) -> Result<Element<Step<Symbols>>, AllocError> {
        let copy = step(alloc, atom)?;
        Ok(Element::Atom(copy))
    }
}

/// A copy of the label of an alternative.
fn label(alloc: Global, label: &Option<Text>) -> Result<Option<Text>, AllocError>
    ensures { IfOk result (λ copy. copy ≡ label.now) }
{
    match label {
        Some(label) => Ok(Some(Text::copy_of(alloc, label.as_str())?)),
        None => Ok(None),
    }
}

/// A copy of the alternative.
fn alternative(
    alloc: Global,
    alternative: &RuleAlternative<Step<Symbols>>,
) -> Result<RuleAlternative<Step<Symbols>>, AllocError>
    ensures { IfOk result (λ copy. copy ≡ alternative.now) }
{
    let right = alternative.right;
    let elements = substituted(alloc, &Same, &alternative.elements)?;
    let label = label(alloc, &alternative.label)?;
    Ok(RuleAlternative {
        right,
        elements,
        label,
    })
}

/// A copy of the rule.
pub(crate) fn rule(alloc: Global, rule: &StepRule) -> Result<StepRule, AllocError>
    ensures { IfOk result (λ copy. copy ≡ rule.now) }
{
    let name = Text::copy_of(alloc, rule.name.as_str())?;
    let mut copies = Vec::new(alloc);
    for other in rule.alternatives.as_slice() {
        copies.push(alternative(alloc, other)?)?;
    }
    Ok(StepRule {
        name,
        alternatives: Sequence::new(copies),
    })
}
