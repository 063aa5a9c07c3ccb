// The first parser rule that is partly labelled, or has a label that clashes.
ghost use Rattle.std.specs.Prelude.{◌≡◌, IfOk, map, option_map, is_some, is_none};
ghost use Rattle.std.specs.List.{list_any};
ghost use Rattle.g4_checks.specs.References.{LabelsClash, parsers_in};
ghost use Rattle.g4_source.specs.First.{Finds, FindsFirst};
ghost use Rattle.g4_checks.specs.Labels.{HasClash, IsClash, are_partly_labelled};
ghost use Rattle.g4_checks.specs.Views.{AreParts, clashes_in};

use crate::capital::capitalised_names;
use crate::labels::{labels_of, repeated_labels};
use crate::names::{Names, copied};
use crate::parts::Parts;
use g4_base::Text;
use g4_source::{Atom, ParserRule, RuleAlternative, Source};
use std::alloc::{AllocError, Global};

/// The labels that clash: those of two rules, and the names of rules with their first letter made upper case.
#[derive(Drop)]
pub struct Clashing<'a, 'b> {
    pub repeated: Names<'a>,
    pub capitalised: Names<'b>,
}

impl Clashing<'_, '_> {
    /// Whether the label clashes.
    fn has(&self, label: &str) -> bool
        ensures { result ≡ clashes_in self.now label.now }
    {
        self.repeated.has(label) || self.capitalised.has(label)
    }
}

/// The first label that clashes.
fn first_clash<'a>(clashing: &Clashing<'_, '_>, labels: &[&'a str]) -> Option<&'a str>
    ensures { FindsFirst (IsClash (clashes_in clashing.now)) (map (λ l. l.now) labels.now) (option_map (λ n. n.now) result) }
{
    for label in labels {
        if clashing.has(*label) {
            return Some(*label);
        }
    }
    None
}

/// Whether one of the alternatives has a label.
fn has_label(alternatives: &[RuleAlternative<Atom>]) -> bool
    ensures { result ≡ list_any (λ a. is_some a.label) alternatives.now }
{
    alternatives.iter().any(|a| a.label.is_some())
}

/// Whether one of the alternatives has no label.
fn lacks_label(alternatives: &[RuleAlternative<Atom>]) -> bool
    ensures { result ≡ list_any (λ a. is_none a.label) alternatives.now }
{
    alternatives.iter().any(|a| a.label.is_none())
}

/// Whether some of the alternatives have a label, and some have none.
fn are_partly_labelled(alternatives: &[RuleAlternative<Atom>]) -> bool
    ensures { result ≡ are_partly_labelled alternatives.now }
{
    has_label(alternatives) && lacks_label(alternatives)
}

/// The name of the rule where it is partly labelled, or else its first label that clashes.
fn clash<'a>(
    alloc: Global,
    clashing: &Clashing<'_, '_>,
    rule: &'a ParserRule<Atom>,
) -> Result<Option<&'a str>, AllocError>
    ensures { IfOk result (λ found. Finds (HasClash (clashes_in clashing.now)) rule.now (option_map (λ n. n.now) found)) }
{
    if are_partly_labelled(rule.alternatives.as_slice()) {
        return Ok(Some(rule.name.as_str()));
    }
    let labels = labels_of(alloc, rule)?;
    Ok(first_clash(clashing, labels.as_slice()))
}

/// The first clash of the rules.
fn first_of<'a>(
    alloc: Global,
    clashing: &Clashing<'_, '_>,
    rules: &[&'a ParserRule<Atom>],
) -> Result<Option<&'a str>, AllocError>
    ensures { IfOk result (λ found. FindsFirst (HasClash (clashes_in clashing.now)) (map (λ r. r.now) rules.now)
        (option_map (λ n. n.now) found)) }
{
    for rule in rules {
        if let Some(name) = clash(alloc, clashing, *rule)? {
            return Ok(Some(name));
        }
    }
    Ok(None)
}

/// The first clash: the name of a parser rule of whose alternatives some have a label and some have none, or a label that is in
/// two rules or is the name of a parser rule with its first letter made upper case.
///
/// # Errors
/// No memory.
pub fn first_label_clash(
    alloc: Global,
    source: &Source,
    parts: &Parts<'_>,
) -> Result<Option<Text>, AllocError>
    requires { AreParts source.now parts.now }
    ensures { IfOk result (FindsFirst (LabelsClash source.now) (parsers_in source.now)) }
{
    let rules = parts.parsers.as_slice();
    let capitals = capitalised_names(alloc, rules)?;
    let mut capitalised = Names::new(alloc);
    capitalised.add_all(capitals.as_slice())?;
    let repeated = repeated_labels(alloc, rules)?;
    let clashing = Clashing {
        repeated,
        capitalised,
    };
    let found = copied(alloc, first_of(alloc, &clashing, rules)?)?;
    Ok(found)
}
