// The numbers of rules by their names.
ghost use Rattle.std.specs.Prelude.{◌≡◌, ◌<◌, ◌^◌, ℕ, List, IfOk, OnOk, if◌then◌else◌, length, map};
ghost use Rattle.std.specs.Option.{option_or};
ghost use Rattle.g4_grammar.specs.Written.{is_rule_of};
ghost use Rattle.g4_source.specs.Views.{rule_view};
ghost use Rattle.g4_source.specs.declared.kind.RuleKind.{RuleKind as Kind};
ghost use Rattle.g4_recursion.specs.Numbers.{AreNumbers, number_in};

use g4_names::Places;
use g4_source::{RuleKind, RuleView};
use std::alloc::{AllocError, Global};

/// The number of the first rule of each name, for parser rules and for lexer rules.
#[derive(Drop)]
pub struct Numbers<'a> {
    parsers: Places<'a>,
    lexers: Places<'a>,
}

impl<'a> Numbers<'a> {
    /// The number of the first rule of this kind and name.
    pub fn number_of(&self, kind: RuleKind, name: &str) -> Option<u32>
        ensures { result ≡ number_in self.now kind name.now }
    {
        match kind {
            RuleKind::Parser => self.parsers.place_of(name),
            RuleKind::Lexer => self.lexers.place_of(name),
        }
    }

    /// Gives the rule this number, unless there is a rule of its kind and name.
    fn add(&mut self, rule: RuleView<'a>, number: u32) -> Result<(), AllocError>
        ensures { OnOk result ((kind : Kind) (name : List ℕ)
            → number_in self.new kind name ≡ option_or (number_in self.old kind name)
            (if is_rule_of kind name (rule_view rule.entry) then Some number else None)) }
    {
        match rule {
            RuleView::Parser(rule) => {
                self.parsers.add(rule.name.as_str(), number)?;
            }
            RuleView::Lexer(rule) => {
                self.lexers.add(rule.name.as_str(), number)?;
            }
        }
        Ok(())
    }
}

/// The numbers of the rules, counted from 0 in order.
///
/// # Errors
/// No memory, also where there are more rules than numbers of 32 bits.
pub fn numbers_of<'a>(alloc: Global, rules: &[RuleView<'a>]) -> Result<Numbers<'a>, AllocError>
    ensures few { OnOk result (length rules.now < 2 ^ 32) }
    ensures numbers { IfOk result (λ numbers. AreNumbers (map rule_view rules.now) numbers) }
{
    if rules.len() > u32::MAX as usize {
        return Err(AllocError);
    }
    let mut numbers = Numbers {
        parsers: Places::new(alloc),
        lexers: Places::new(alloc),
    };
    for (number, rule) in rules.iter().enumerate() {
        numbers.add(*rule, number as u32)?;
    }
    Ok(numbers)
}
