// The rules of a grammar with what they do before anything is read, and what is found among them.
ghost use Rattle.std.specs.Prelude.{◌≡◌, ◌+◌, ◌<◌, ◌↔◌, ℕ, All, IfOk, IfSome, IsTrue, MatchOption, length, option_map};
ghost use Rattle.g4_cycles.specs.Cycles.{Answers};
ghost use Rattle.g4_grammar.specs.Written.{RuleLeftCalls};
ghost use Rattle.g4_source.specs.Views.{rule_view};
ghost use Rattle.g4_source.specs.Rules.{rule_name};
ghost use Rattle.g4_recursion.specs.Checking.{AreNamed, HasEmptyLoop, HasEmptyOperator, IsEmptyOperator, IsNamed, LacksPrimary};
ghost use Rattle.g4_recursion.specs.Grammars.{AreLeads, rules_in};
ghost use Rattle.g4_recursion.specs.Least.{FindsLeast, IsLeast};

use crate::direct::{all_begin, first_empty};
use crate::leads::lead_rules;
use crate::{LeadRule, has_empty_loop, left_calls, nullable};
use g4_base::{Sequence, Text};
use g4_cycles::first_cycle;
use g4_source::{RuleView, Source, views_of};
use std::alloc::{AllocError, Global};

/// The rules of a grammar, what their atoms do before anything is read, and of each rule whether it derives the empty word.
#[derive(Drop)]
pub struct Grammar<'a> {
    rules: Vec<RuleView<'a>>,
    leads: Vec<LeadRule>,
    nullable: Vec<bool>,
}

/// The name of a rule in place.
fn name_of<'a>(rule: RuleView<'a>) -> &'a str
    ensures { result.now ≡ rule_name (rule_view rule.entry) }
{
    match rule {
        RuleView::Parser(rule) => rule.name.as_str(),
        RuleView::Lexer(rule) => rule.name.as_str(),
    }
}

impl Grammar<'_> {
    /// Whether each alternative of a parser rule begins with the rule itself.
    fn lacks_primary(&self, rule: usize) -> bool
        requires leads { AreLeads self.now }
        requires within { rule < length (rules_in self.now) }
        ensures { IsTrue result ↔ LacksPrimary (rules_in self.now) rule }
    {
        match self.rules[rule] {
            RuleView::Parser(_) => all_begin(rule, self.leads[rule].alternatives.as_slice()),
            RuleView::Lexer(_) => false,
        }
    }

    /// The place of the first alternative of a parser rule that begins with the rule itself and goes on with what derives the
    /// empty word.
    fn empty_operator(&self, rule: usize) -> Option<usize>
        requires leads { AreLeads self.now }
        requires within { rule < length (rules_in self.now) }
        ensures { FindsLeast (λ place. IsEmptyOperator (rules_in self.now) rule (place + 1)) result }
    {
        match self.rules[rule] {
            RuleView::Parser(_) => first_empty(
                self.nullable.as_slice(),
                rule,
                self.leads[rule].alternatives.as_slice(),
            ),
            RuleView::Lexer(_) => None,
        }
    }

    /// Whether a rule has a loop whose body derives the empty word.
    fn has_empty_loop(&self, rule: usize) -> bool
        requires leads { AreLeads self.now }
        requires within { rule < length (rules_in self.now) }
        ensures { IsTrue result ↔ HasEmptyLoop (rules_in self.now) rule }
    {
        has_empty_loop(self.nullable.as_slice(), &self.leads[rule])
    }

    /// The first parser rule each of whose alternatives begins with the rule itself.
    pub fn first_without_primary(&self) -> Option<usize>
        requires { AreLeads self.now }
        ensures first { FindsLeast (LacksPrimary (rules_in self.now)) result }
        ensures within { IfSome result (λ rule. rule < length (rules_in self.now)) }
    {
        for rule in 0..self.rules.len() {
            if self.lacks_primary(rule) {
                return Some(rule);
            }
        }
        None
    }

    /// The first parser rule with an alternative that begins with the rule itself and goes on with what derives the empty word,
    /// and the place of its first one.
    pub fn first_empty_operator(&self) -> Option<(usize, usize)>
        requires { AreLeads self.now }
        ensures first { MatchOption result ((k : ℕ) → HasEmptyOperator (rules_in self.now) k → ⊥)
            (λ found. IsLeast (HasEmptyOperator (rules_in self.now)) found.0
            × IsLeast (IsEmptyOperator (rules_in self.now) found.0) (found.1 + 1)) }
        ensures within { IfSome result (λ found. found.0 < length (rules_in self.now)) }
    {
        for rule in 0..self.rules.len() {
            if let Some(place) = self.empty_operator(rule) {
                return Some((rule, place));
            }
        }
        None
    }

    /// The first rule with a loop whose body derives the empty word.
    pub fn first_empty_loop(&self) -> Option<usize>
        requires { AreLeads self.now }
        ensures first { FindsLeast (HasEmptyLoop (rules_in self.now)) result }
        ensures within { IfSome result (λ rule. rule < length (rules_in self.now)) }
    {
        for rule in 0..self.rules.len() {
            if self.has_empty_loop(rule) {
                return Some(rule);
            }
        }
        None
    }

    /// The first cycle of rules of which each, as it is run, calls the next before anything is read.
    ///
    /// # Errors
    /// No memory.
    pub fn first_left_cycle(&self, alloc: Global) -> Result<Option<Vec<u32>>, AllocError>
        requires { AreLeads self.now }
        ensures first { IfOk result (λ found. Answers (RuleLeftCalls (rules_in self.now)) (option_map (λ cycle. cycle.items) found)) }
        ensures within { IfOk result (λ found. IfSome found (λ cycle. All (λ rule. rule < length (rules_in self.now)) cycle.items)) }
    {
        let calls = left_calls(alloc, self.nullable.as_slice(), self.leads.as_slice())?;
        let found = first_cycle(alloc, calls.as_slice())?;
        Ok(found)
    }

    /// A copy of the name of a rule.
    ///
    /// # Errors
    /// No memory.
    pub fn name(&self, alloc: Global, rule: usize) -> Result<Text, AllocError>
        requires { rule < length (rules_in self.now) }
        ensures { IfOk result (IsNamed (rules_in self.now) rule) }
    {
        let name = Text::copy_of(alloc, name_of(self.rules[rule]))?;
        Ok(name)
    }

    /// Copies of the names of rules.
    ///
    /// # Errors
    /// No memory.
    pub fn names(&self, alloc: Global, rules: &[u32]) -> Result<Sequence<Text>, AllocError>
        requires { All (λ rule. rule < length (rules_in self.now)) rules.now }
        ensures { IfOk result (AreNamed (rules_in self.now) rules.now) }
    {
        let mut all = Vec::new(alloc);
        for rule in rules {
            all.push(self.name(alloc, *rule as usize)?)?;
        }
        Ok(Sequence::new(all))
    }
}

/// The rules of a grammar with what they do before anything is read.
///
/// # Errors
/// No memory, also where there are more rules or blocks than numbers of 32 bits.
pub fn grammar_of(alloc: Global, source: &Source) -> Result<Grammar<'_>, AllocError>
    ensures rules { IfOk result (λ grammar. rules_in grammar ≡ source.now.rules) }
    ensures leads { IfOk result AreLeads }
{
    let rules = views_of(alloc, source.rules.as_slice())?;
    let leads = lead_rules(alloc, rules.as_slice())?;
    let nullable = nullable(alloc, leads.as_slice())?;
    Ok(Grammar {
        rules,
        leads,
        nullable,
    })
}
