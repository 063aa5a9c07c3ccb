// Rules in the form in which they are laid.
ghost use Rattle.std.specs.Prelude.{◌≡◌, ◌<◌, ◌^◌, ◌+◌, ◌-◌, [], ◌∷◌, IfOk, length, map};
ghost use Rattle.std.specs.List.{range_with_len};
ghost use Rattle.g4_source.specs.Elements.{Elements as Tree};
ghost use Rattle.g4_source.specs.Marks.{onto};
ghost use Rattle.g4_source.specs.Trees.{alternative_of, element_of, in_order};
ghost use Rattle.g4_leftrec.specs.OwnCalls.{primaries};
ghost use Rattle.g4_leftrec.specs.OwnSteps.{calls};
ghost use Rattle.g4_leftrec.specs.Rewriting.{StepIn, after_primary, formed, loop_of, numbering_of, numberings, plain_alternative, rewritten, turns_of};

use crate::copies;
use crate::kinds::{Kinds, is_left_recursive, kinds_of};
use crate::laid_rules::LaidRules;
use g4_base::{Sequence, Text};
use g4_grammar::{Numbering, ParserRules, Step, StepRule};
use g4_source::{Alternative, Element, Elements, ParserRule, Repeat, RuleAlternative, Suffix};
use g4_tokens::Symbols;
use std::alloc::{AllocError, Global};

/// A rule in the form in which it is laid, and its numbering.
#[derive(Drop)]
struct Laid {
    rule: StepRule,
    numbering: Numbering,
}

/// The elements of one of the primaries, which are a block where there are several.
fn primary_elements(
    alloc: Global,
    mut primaries: Vec<Alternative<Step<Symbols>>>,
) -> Result<Vec<Element<Step<Symbols>>>, AllocError>
    ensures { IfOk result (λ made. (more : Tree StepIn)
        → onto (in_order (map element_of made.items)) more ≡ after_primary (map alternative_of primaries.items) more) }
{
    if primaries.len() != 1 {
        let block = Element::Block(None, Repeat::Once, primaries);
        let elements = vec![in alloc; block]?;
        return Ok(elements);
    }
    let Alternative { mut elements } = primaries.remove(0);
    elements.push(Element::Atom(Step::Empty))?;
    Ok(elements)
}

/// The operators, any number of times.
#[tactic(auto, using(g4_source::proofs::Trees::of_block))]
fn turns_of(operators: Vec<Alternative<Step<Symbols>>>) -> Element<Step<Symbols>>
    ensures { in_order (element_of result ∷ []) ≡ turns_of (map alternative_of operators.items) }
{
    let sign = Suffix { greedy: true };
    Element::Block(None, Repeat::Star(sign), operators)
}

/// The one alternative of a left-recursive rule: one of the primaries, and then operators any number of times.
fn loop_of(
    alloc: Global,
    primaries: Vec<Alternative<Step<Symbols>>>,
    operators: Vec<Alternative<Step<Symbols>>>,
) -> Result<RuleAlternative<Step<Symbols>>, AllocError>
    ensures { IfOk result (λ made. made ≡ plain_alternative
        (after_primary (map alternative_of primaries.items) (turns_of (map alternative_of operators.items)))) }
{
    let mut elements = primary_elements(alloc, primaries)?;
    elements.push(turns_of(operators))?;
    Ok(RuleAlternative {
        right: false,
        elements: Elements::new(elements),
        label: None,
    })
}

/// The numbers of `count` alternatives, in order.
#[tactic(auto, using(crate::proofs::Lists::range_more))]
fn first_numbers(alloc: Global, count: u32) -> Result<Vec<u32>, AllocError>
    requires { count < 2 ^ 32 - 1 }
    ensures { IfOk result (λ numbers. numbers.items ≡ range_with_len 1 count) }
{
    let mut numbers = Vec::new(alloc);
    for before in 0..count {
        numbers.push(before + 1)?;
    }
    Ok(numbers)
}

/// How many alternatives there are, with an error where that and one are no numbers of 32 bits.
fn count_of(alternatives: &[RuleAlternative<Step<Symbols>>]) -> Result<u32, AllocError>
    ensures count { IfOk result (λ count. count ≡ length alternatives.now) }
    ensures small { IfOk result (λ count. count < 2 ^ 32 - 1) }
{
    if alternatives.len() >= u32::MAX as usize {
        return Err(AllocError);
    }
    Ok(alternatives.len() as u32)
}

/// The left-recursive rule of this number and these alternatives, `count` of them, as a loop over its operators, and its numbering.
fn looped(
    alloc: Global,
    number: u32,
    count: u32,
    name: Text,
    alternatives: Vec<RuleAlternative<Step<Symbols>>>,
) -> Result<Laid, AllocError>
    requires count { count ≡ length alternatives.items }
    requires small { count < 2 ^ 32 - 1 }
    ensures rule { IfOk result (λ made. made.rule
        ≡ record { name = name; alternatives = plain_alternative (loop_of number alternatives.items) ∷ [] }) }
    ensures numbering { IfOk result (λ made. made.numbering
        ≡ record { starts = map (λ x. x.number) (primaries (calls number) alternatives.items); count = count }) }
{
    let Kinds {
        primaries,
        operators,
        starts,
    } = kinds_of(alloc, number, count, alternatives)?;
    let only = loop_of(alloc, primaries, operators)?;
    let alternatives = vec![in alloc; only]?;
    Ok(Laid {
        rule: ParserRule {
            name,
            alternatives: Sequence::new(alternatives),
        },
        numbering: Numbering {
            starts: Sequence::new(starts),
            count,
        },
    })
}

/// The rule of this number in the form in which it is laid, and its numbering.
fn formed(alloc: Global, number: u32, rule: StepRule) -> Result<Laid, AllocError>
    ensures rule { IfOk result (λ made. made.rule ≡ formed (number, rule)) }
    ensures numbering { IfOk result (λ made. made.numbering ≡ numbering_of (number, rule)) }
    ensures small { IfOk result (λ made. made.numbering.count + 1 < 2 ^ 32) }
{
    let ParserRule { name, alternatives } = rule;
    let alternatives = alternatives.into_vec();
    let count = count_of(alternatives.as_slice())?;
    if is_left_recursive(number, alternatives.as_slice()) {
        return looped(alloc, number, count, name, alternatives);
    }
    let starts = first_numbers(alloc, count)?;
    Ok(Laid {
        rule: ParserRule {
            name,
            alternatives: Sequence::new(alternatives),
        },
        numbering: Numbering {
            starts: Sequence::new(starts),
            count,
        },
    })
}

/// The rules, which count from 1, in the form in which they are laid, with their numberings: a rule with an alternative that begins
/// with a plain call of the rule itself becomes a loop over its operators, and any other stays as it is written.
///
/// # Errors
/// No memory, also where there are more rules, or more alternatives of a rule and one, than numbers of 32 bits.
pub fn rewrite(alloc: Global, rules: &ParserRules) -> Result<LaidRules, AllocError>
    ensures { IfOk result (λ made. made ≡ (rewritten rules.now, numberings rules.now)) }
{
    let mut laid = Vec::new(alloc);
    let mut numberings = Vec::new(alloc);
    let mut number = 0u32;
    for rule in rules.as_slice() {
        let Some(next) = number.checked_add(1) else {
            return Err(AllocError);
        };
        number = next;
        let made = formed(alloc, number, copies::rule(alloc, rule)?)?;
        laid.push(made.rule)?;
        numberings.push(made.numbering)?;
    }
    Ok(LaidRules::new(laid, numberings))
}
