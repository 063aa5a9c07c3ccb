// The labels of parser rules, and those that are in two rules.
ghost use Rattle.std.specs.Prelude.{◌≡◌, ℕ, List, [], ◌∷◌, ◌++◌, ◌||◌, ◌&&◌, IfOk, OnOk, map};
ghost use Rattle.std.specs.Str.{bytes_eq};
ghost use Rattle.g4_source.specs.declared.rule.ParserRule.{ParserRule as LabelledRule};
ghost use Rattle.g4_source.specs.declared.atom.Atom.{Atom as AnyAtom};
ghost use Rattle.g4_checks.specs.Known.{Counting, Counts};
ghost use Rattle.g4_checks.specs.Labels.{is_in_two, labels_of};
ghost use Rattle.g4_checks.specs.Names.{is_one_of};

use crate::names::Names;
use g4_source::{Atom, ParserRule};
use std::alloc::{AllocError, Global};

/// The labels of the rule in order.
///
/// # Errors
/// No memory.
pub fn labels_of<'a>(alloc: Global, rule: &'a ParserRule<Atom>) -> Result<Vec<&'a str>, AllocError>
    ensures { IfOk result (λ labels. map (λ l. l.now) labels.items ≡ labels_of rule.now) }
{
    let mut labels = Vec::new(alloc);
    for alternative in rule.alternatives.as_slice() {
        match &alternative.label {
            Some(label) => labels.push(label.as_str())?,
            None => {}
        }
    }
    Ok(labels)
}

/// The labels of some rules: those that are in a rule, and those that are in two.
#[derive(Drop)]
struct LabelSets<'a> {
    once: Names<'a>,
    again: Names<'a>,
}

impl<'a> LabelSets<'a> {
    /// Adds a label of a rule that has not come in the rule before.
    fn add_new(&mut self, label: &'a str) -> Result<(), AllocError>
        ensures once { OnOk result ((n : List ℕ) → is_one_of self.new.once n ≡ (is_one_of self.old.once n || bytes_eq n label.now)) }
        ensures again { OnOk result ((n : List ℕ) → is_one_of self.new.again n
            ≡ (is_one_of self.old.again n || (is_one_of self.old.once n && bytes_eq n label.now))) }
    {
        let is_first = self.once.add(label)?;
        if !is_first {
            self.again.add(label)?;
        }
        Ok(())
    }

    /// Adds a label of a rule of which `own` are the labels before.
    fn add_label(&mut self, own: &mut Names<'a>, label: &'a str) -> Result<(), AllocError>
        ensures own { OnOk result ((n : List ℕ) → is_one_of own.new n ≡ (is_one_of own.old n || bytes_eq n label.now)) }
        ensures counting { OnOk result ((once again : List (List ℕ)) → Counting once again own.old self.old.once self.old.again
            → Counting once again own.new self.new.once self.new.again) }
    {
        let is_new = own.add(label)?;
        if is_new {
            self.add_new(label)?;
        }
        Ok(())
    }

    /// Adds the labels of a rule.
    fn add_rule(&mut self, alloc: Global, rule: &'a ParserRule<Atom>) -> Result<(), AllocError>
        ensures { OnOk result ((rules : List (LabelledRule AnyAtom)) → Counts rules self.old.once self.old.again
            → Counts (rules ++ rule.now ∷ []) self.new.once self.new.again) }
    {
        let labels = labels_of(alloc, rule)?;
        let mut own = Names::new(alloc);
        for label in &labels {
            self.add_label(&mut own, *label)?;
        }
        Ok(())
    }
}

/// The labels that are in two of the rules.
///
/// # Errors
/// No memory.
pub fn repeated_labels<'a>(
    alloc: Global,
    rules: &[&'a ParserRule<Atom>],
) -> Result<Names<'a>, AllocError>
    ensures { IfOk result (λ names. (n : List ℕ) → is_one_of names n ≡ is_in_two (map (λ r. r.now) rules.now) n) }
{
    let mut sets = LabelSets {
        once: Names::new(alloc),
        again: Names::new(alloc),
    };
    for rule in rules {
        sets.add_rule(alloc, *rule)?;
    }
    let LabelSets { once: _, again } = sets;
    Ok(again)
}
