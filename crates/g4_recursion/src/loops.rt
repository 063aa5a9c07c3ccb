// Which elements derive the empty word, and which rules have a loop that can be empty.
ghost use Rattle.std.specs.Prelude.{◌≡◌, ◌↔◌, IsTrue, List, map, Option, ◌||◌, ◌&&◌};
ghost use Rattle.g4_source.specs.declared.name.Label.{Label as Named};
ghost use Rattle.g4_source.specs.Elements.{block, Alternatives, either};
ghost use Rattle.g4_source.specs.Trees.{element_of, alternative_of, in_order};
ghost use Rattle.g4_grammar.specs.LeftCalls.{Nullable, AllNullable, OneNullable};
ghost use Rattle.g4_grammar.specs.Loops.{HasEmptyLoop, OneHasEmptyLoop, SomeHasEmptyLoop};
ghost use Rattle.g4_horn.specs.Follows.{Tells};
ghost use Rattle.g4_recursion.specs.declared.lead.Lead.{Lead as Atom};
ghost use Rattle.g4_recursion.specs.Leads.{ReadsLead, CallsLead, IsNullableRule, alternatives_of};
ghost use Rattle.g4_recursion.specs.Finds.{TellsLoops};

use crate::lead::is_nullable;
use crate::{Lead, LeadRule};
use g4_source::{Alternative, Element, Repeat};

/// What is found of elements: whether they derive the empty word, and whether a `*` or `+` among them has a body that
/// does.
#[derive(Clone, Copy)]
struct Found {
    nullable: bool,
    looped: bool,
}

impl Found {
    /// Of one or the other.
    fn or(self, other: Found) -> Found
        ensures nullable { result.nullable ≡ (self.nullable || other.nullable) }
        ensures looped { result.looped ≡ (self.looped || other.looped) }
    {
        Found {
            nullable: self.nullable || other.nullable,
            looped: self.looped || other.looped,
        }
    }

    /// Of one and then the other.
    fn then(self, other: Found) -> Found
        ensures nullable { result.nullable ≡ (self.nullable && other.nullable) }
        ensures looped { result.looped ≡ (self.looped || other.looped) }
    {
        Found {
            nullable: self.nullable && other.nullable,
            looped: self.looped || other.looped,
        }
    }

    /// Whether a loop of these, or one among them, has a body that derives the empty word.
    fn loops(self) -> bool
        ensures { result ≡ (self.nullable || self.looped) }
    {
        self.nullable || self.looped
    }
}

/// What is found of an element.
#[cycle(loops)]
fn of_element(nullable: &[bool], element: &Element<Lead>) -> Found
    ensures { (rules : List (Alternatives Atom)) → Tells nullable.now (IsNullableRule rules)
        → TellsLoops result (Nullable ReadsLead CallsLead rules (element_of element.now))
        (HasEmptyLoop ReadsLead CallsLead rules (element_of element.now)) }
{
    match element {
        Element::Atom(lead) => Found {
            nullable: is_nullable(nullable, *lead),
            looped: false,
        },
        Element::Block(_, repeat, alternatives) => {
            of_block(nullable, *repeat, alternatives.as_slice())
        }
    }
}

/// What is found of a block.
#[cycle(loops)]
fn of_block(nullable: &[bool], repeat: Repeat, alternatives: &[Alternative<Lead>]) -> Found
    ensures { (rules : List (Alternatives Atom)) → Tells nullable.now (IsNullableRule rules) → (label : Option Named)
        → TellsLoops result (Nullable ReadsLead CallsLead rules (block label repeat (either (map alternative_of alternatives.now))))
        (HasEmptyLoop ReadsLead CallsLead rules (block label repeat (either (map alternative_of alternatives.now)))) }
{
    let body = of_either(nullable, alternatives);
    match repeat {
        Repeat::Once => body,
        Repeat::Optional(_) => Found {
            nullable: true,
            looped: body.looped,
        },
        Repeat::Star(_) => Found {
            nullable: true,
            looped: body.loops(),
        },
        Repeat::Plus(_) => Found {
            nullable: body.nullable,
            looped: body.loops(),
        },
    }
}

/// What is found of alternatives.
#[cycle(loops)]
fn of_either(nullable: &[bool], alternatives: &[Alternative<Lead>]) -> Found
    ensures { (rules : List (Alternatives Atom)) → Tells nullable.now (IsNullableRule rules)
        → TellsLoops result (OneNullable ReadsLead CallsLead rules (either (map alternative_of alternatives.now)))
        (SomeHasEmptyLoop ReadsLead CallsLead rules (either (map alternative_of alternatives.now))) }
{
    let mut found = Found {
        nullable: false,
        looped: false,
    };
    for alternative in alternatives {
        found = found.or(of_elements(nullable, alternative.elements.as_slice()));
    }
    found
}

/// What is found of elements one after another.
#[cycle(loops)]
fn of_elements(nullable: &[bool], elements: &[Element<Lead>]) -> Found
    ensures { (rules : List (Alternatives Atom)) → Tells nullable.now (IsNullableRule rules)
        → TellsLoops result (AllNullable ReadsLead CallsLead rules (in_order (map element_of elements.now)))
        (OneHasEmptyLoop ReadsLead CallsLead rules (in_order (map element_of elements.now))) }
{
    let mut found = Found {
        nullable: true,
        looped: false,
    };
    for element in elements {
        found = found.then(of_element(nullable, element));
    }
    found
}

/// Whether the elements, one after another, derive the empty word, where it is given which rules do.
pub fn are_nullable(nullable: &[bool], elements: &[Element<Lead>]) -> bool
    ensures { (rules : List (Alternatives Atom)) → Tells nullable.now (IsNullableRule rules)
        → IsTrue result ↔ AllNullable ReadsLead CallsLead rules (in_order (map element_of elements.now)) }
{
    of_elements(nullable, elements).nullable
}

/// Whether the rule has a `*` or `+` whose body derives the empty word, where it is given which rules do.
pub fn has_empty_loop(nullable: &[bool], rule: &LeadRule) -> bool
    ensures { (rules : List (Alternatives Atom)) → Tells nullable.now (IsNullableRule rules)
        → IsTrue result ↔ SomeHasEmptyLoop ReadsLead CallsLead rules (alternatives_of rule.now) }
{
    for elements in rule.alternatives.as_slice() {
        if of_elements(nullable, elements.as_slice()).looped {
            return true;
        }
    }
    false
}
