// What the atoms of rules do before anything is read.
ghost use Rattle.std.specs.Prelude.{◌≡◌, ◌<◌, ◌^◌, IfOk, OnOk, length, map};
ghost use Rattle.g4_source.specs.Bind.{in_order_over};
ghost use Rattle.g4_source.specs.Views.{rule_view};
ghost use Rattle.g4_source.specs.declared.kind.RuleKind.TheVariants as kinds;
ghost use Rattle.g4_recursion.specs.Leads.{operators_of};
ghost use Rattle.g4_recursion.specs.AtomLeads.{lead_by, leads_by, leads_in, may_have_operators, operators_in, reference_lead, text_lead};
ghost use Rattle.g4_recursion.specs.Numbers.{number_in};

use crate::numbers::{Numbers, numbers_of};
use crate::{Lead, LeadRule};
use g4_base::Sequence;
use g4_source::{
    Atom, AtomKind, Element, Elements, LexerRule, ParserRule, RuleKind, RuleView, Substitution,
    substituted,
};
use std::alloc::{AllocError, Global};

/// What the atoms of rules of one kind become, where rules have these numbers.
#[derive(Drop)]
struct Leading<'n, 'a> {
    numbers: &'n Numbers<'a>,
    kind: RuleKind,
}

/// What a text that is matched does.
fn lead_of_text(characters: &[char]) -> Lead
    ensures { result ≡ text_lead characters.now }
{
    if characters.is_empty() {
        Lead::Empty
    } else {
        Lead::Symbol
    }
}

/// What a reference to a rule of this kind does.
fn lead_of_reference(numbers: &Numbers<'_>, kind: RuleKind, name: &str) -> Lead
    ensures { result ≡ reference_lead (number_in numbers.now kind name.now) }
{
    match numbers.number_of(kind, name) {
        Some(number) => Lead::Call(number),
        None => Lead::Symbol,
    }
}

/// What an atom of a parser rule does.
fn lead_in_parser(numbers: &Numbers<'_>, atom: &AtomKind) -> Lead
    ensures { result ≡ lead_by (number_in numbers.now) kinds.Parser atom.now }
{
    match atom {
        AtomKind::Rule(name) => { lead_of_reference(numbers, RuleKind::Parser, name.text.as_str()) }
        AtomKind::Action => Lead::Empty,
        AtomKind::Predicate(_) => Lead::Empty,
        _ => Lead::Symbol,
    }
}

/// What an atom of a lexer rule does.
fn lead_in_lexer(numbers: &Numbers<'_>, atom: &AtomKind) -> Lead
    ensures { result ≡ lead_by (number_in numbers.now) kinds.Lexer atom.now }
{
    match atom {
        AtomKind::Token(name) => {
            let name = name.text.as_str();
            if name == "EOF" {
                Lead::Empty
            } else {
                lead_of_reference(numbers, RuleKind::Lexer, name)
            }
        }
        AtomKind::Literal(literal) => lead_of_text(literal.characters.as_slice()),
        AtomKind::Action => Lead::Empty,
        AtomKind::Predicate(_) => Lead::Empty,
        _ => Lead::Symbol,
    }
}

impl Leading<'_, '_> {
    /// What an atom does.
    fn lead_of(&self, atom: &AtomKind) -> Lead
        ensures { result ≡ lead_by (number_in self.now.numbers.now) self.now.kind atom.now }
    {
        match self.kind {
            RuleKind::Parser => lead_in_parser(self.numbers, atom),
            RuleKind::Lexer => lead_in_lexer(self.numbers, atom),
        }
    }
}

impl Substitution<Atom> for Leading<'_, '_> {
    type To = Lead;

    ghost use Rattle.g4_source.specs.Elements.{atom as lone};
    ghost use Rattle.g4_recursion.specs.AtomLeads.{lead_by};
    ghost use Rattle.g4_recursion.specs.Numbers.{number_in};

    ghost image = { λ stage a. lone (lead_by (number_in stage.numbers.now) stage.kind a.kind) };

    #[tactic(auto, using(g4_source::proofs::Trees::of_atom))]
    fn image(&self, _alloc: Global, atom: &Atom) -> Result<Element<Lead>, AllocError> {
        let lead = self.lead_of(&atom.kind);
        Ok(Element::Atom(lead))
    }
}

/// The alternatives of a parser rule over leads.
fn parser_leads(
    alloc: Global,
    stage: &Leading<'_, '_>,
    rule: &ParserRule<Atom>,
) -> Result<Sequence<Elements<Lead>>, AllocError>
    ensures { IfOk result (λ made. made ≡ map (λ alternative.
        in_order_over (λ a. lead_by (number_in stage.now.numbers.now) stage.now.kind a.kind) alternative.elements) rule.now.alternatives) }
{
    let mut all = Vec::new(alloc);
    for alternative in rule.alternatives.as_slice() {
        all.push(substituted(alloc, stage, &alternative.elements)?)?;
    }
    Ok(Sequence::new(all))
}

/// The alternatives of a lexer rule over leads.
fn lexer_leads(
    alloc: Global,
    stage: &Leading<'_, '_>,
    rule: &LexerRule,
) -> Result<Sequence<Elements<Lead>>, AllocError>
    ensures { IfOk result (λ made. made ≡ map (λ alternative.
        in_order_over (λ a. lead_by (number_in stage.now.numbers.now) stage.now.kind a.kind) alternative.elements) rule.now.alternatives) }
{
    let mut all = Vec::new(alloc);
    for alternative in rule.alternatives.as_slice() {
        all.push(substituted(alloc, stage, &alternative.elements)?)?;
    }
    Ok(Sequence::new(all))
}

/// A rule over leads. A parser rule may have operators, a lexer rule has none.
fn lead_rule(
    alloc: Global,
    numbers: &Numbers<'_>,
    rule: RuleView<'_>,
) -> Result<LeadRule, AllocError>
    ensures leads { IfOk result (λ made. made.alternatives ≡ leads_by (number_in numbers.now) (rule_view rule.entry)) }
    ensures operators { IfOk result (λ made. made.may_have_operators ≡ may_have_operators (rule_view rule.entry)) }
{
    match rule {
        RuleView::Parser(rule) => {
            let kind = RuleKind::Parser;
            let alternatives = parser_leads(alloc, &Leading { numbers, kind }, rule)?;
            Ok(LeadRule {
                may_have_operators: true,
                alternatives,
            })
        }
        RuleView::Lexer(rule) => {
            let kind = RuleKind::Lexer;
            let alternatives = lexer_leads(alloc, &Leading { numbers, kind }, rule)?;
            Ok(LeadRule {
                may_have_operators: false,
                alternatives,
            })
        }
    }
}

/// The rules over leads.
///
/// # Errors
/// No memory, also where there are more rules than numbers of 32 bits.
pub fn lead_rules(alloc: Global, rules: &[RuleView<'_>]) -> Result<Vec<LeadRule>, AllocError>
    ensures few { OnOk result (length rules.now < 2 ^ 32) }
    ensures leads { IfOk result (λ made. map (λ lead. lead.alternatives) made.items ≡ leads_in (map rule_view rules.now)) }
    ensures operators { IfOk result (λ made. operators_of made.items ≡ operators_in (map rule_view rules.now)) }
{
    let numbers = numbers_of(alloc, rules)?;
    let mut all = Vec::with_capacity(alloc, rules.len())?;
    for rule in rules {
        all.push(lead_rule(alloc, &numbers, *rule)?)?;
    }
    Ok(all)
}
