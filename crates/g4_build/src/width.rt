// Whether the network of rules would have a decision with too many alternatives.
ghost use Rattle.std.specs.Prelude.{◌↔◌, ◌<◌, ◌+◌, IsTrue, map};
ghost use Rattle.g4_source.specs.Elements.{either};
ghost use Rattle.g4_source.specs.Trees.{element_of, alternative_of, in_order};
ghost use Rattle.g4_source.specs.Rules.{alternatives_of};
ghost use Rattle.g4_layout.specs.Decisions.{HasDecision, OneHasDecision, SomeHasDecision, RuleHasDecision, RulesHaveDecision, IsWide, most_alternatives, ways_to_exit};

use g4_source::{Alternative, Element, ParserRule, Repeat, RuleAlternative};

/// The most alternatives that a decision has, the exit branch counted.
const MOST_ALTERNATIVES: usize = 1_024;

/// Whether a decision over this many bodies, with this repeat, has too many alternatives.
fn is_too_many(repeat: Repeat, bodies: usize) -> bool
    ensures { IsTrue result ↔ most_alternatives < bodies + ways_to_exit repeat }
{
    match repeat {
        Repeat::Once => bodies > MOST_ALTERNATIVES,
        Repeat::Optional(_) => bodies >= MOST_ALTERNATIVES,
        Repeat::Star(_) => bodies >= MOST_ALTERNATIVES,
        Repeat::Plus(_) => bodies >= MOST_ALTERNATIVES,
    }
}

/// Whether an element has a decision with too many alternatives.
#[cycle(width)]
fn is_wide<A>(element: &Element<A>) -> bool
    ensures { IsTrue result ↔ IsWide (HasDecision (element_of element.now)) }
{
    match element {
        Element::Atom(_) => false,
        Element::Block(_, repeat, alternatives) => {
            let bodies = alternatives.as_slice();
            is_too_many(*repeat, bodies.len()) || some_is_wide(bodies)
        }
    }
}

/// Whether one of alternatives has such a decision inside.
#[cycle(width)]
fn some_is_wide<A>(alternatives: &[Alternative<A>]) -> bool
    ensures { IsTrue result ↔ IsWide (SomeHasDecision (either (map alternative_of alternatives.now))) }
{
    for alternative in alternatives {
        if one_is_wide(alternative.elements.as_slice()) {
            return true;
        }
    }
    false
}

/// Whether one of elements has such a decision.
#[cycle(width)]
fn one_is_wide<A>(elements: &[Element<A>]) -> bool
    ensures { IsTrue result ↔ IsWide (OneHasDecision (in_order (map element_of elements.now))) }
{
    for element in elements {
        if is_wide(element) {
            return true;
        }
    }
    false
}

/// Whether one of a rule's alternatives has such a decision inside.
fn some_body_is_wide<A>(alternatives: &[RuleAlternative<A>]) -> bool
    ensures { IsTrue result ↔ IsWide (SomeHasDecision (either (map (λ a. a.elements) alternatives.now))) }
{
    for alternative in alternatives {
        if one_is_wide(alternative.elements.as_slice()) {
            return true;
        }
    }
    false
}

/// Whether a rule has a decision with too many alternatives.
fn rule_is_wide<A>(rule: &ParserRule<A>) -> bool
    ensures { IsTrue result ↔ IsWide (RuleHasDecision (alternatives_of rule.now)) }
{
    let bodies = rule.alternatives.as_slice();
    is_too_many(Repeat::Once, bodies.len()) || some_body_is_wide(bodies)
}

/// Whether one of the rules has a decision with too many alternatives.
pub fn some_rule_is_wide<A>(rules: &[ParserRule<A>]) -> bool
    ensures { IsTrue result ↔ IsWide (RulesHaveDecision (map alternatives_of rules.now)) }
{
    for rule in rules {
        if rule_is_wide(rule) {
            return true;
        }
    }
    false
}
