// The network of parser rules whose atoms are steps.
ghost use Rattle.std.specs.Prelude.{◌≡◌, ◌≤◌, ◌↔◌, ◌∷◌, [], IfOk, IsTrue, map};
ghost use Rattle.std.specs.List.{position};
ghost use Rattle.std.specs.Str.{bytes_eq};
ghost use Rattle.g4_source.specs.Rules.{alternatives_of};
ghost use Rattle.g4_grammar.specs.StepRules.{CanBeLaid};
ghost use Rattle.g4_layout.specs.Numbers.{NumberingsFit};
ghost use Rattle.g4_derivation.specs.Spelling.{SpellsRules};
ghost use Rattle.g4_layout.specs.Rules.{rules_of, state_count};
ghost use Rattle.g4_tokens.specs.Symbols.{eof};
ghost use Rattle.g4_build.specs.Answers.{GivesNetwork};

use crate::drawing::draw;
use crate::width::some_rule_is_wide;
use g4_grammar::{Numbering, StepRule};
use g4_leftrec::LaidRules;
use g4_net::{MOST_STATES, ParserNetwork};
use g4_states::past_rules;
use g4_tokens::{EOF, Symbols};
use std::alloc::{AllocError, Global};

/// Why rules have no network.
#[derive(Drop)]
pub enum BuildFault {
    /// No parser rule has the name.
    UnknownStart,
    /// A decision with more than 1,024 alternatives, the exit branch counted.
    Alternatives,
    /// More than 65,536 states.
    States,
    NoMemory,
}

impl From<AllocError> for BuildFault {
    ghost use Rattle.std.specs.Prelude.{◌≡◌};
    ghost use Rattle.g4_build.specs.declared.builder.BuildFault.TheVariants.{NoMemory};

    ghost from_gives = { λ _ e. e ≡ NoMemory };

    fn from(_: AllocError) -> Self {
        BuildFault::NoMemory
    }
}

/// The place of the rule of this name, where there is one.
fn place_of(rules: &[StepRule], name: &str) -> Option<usize>
    ensures { result ≡ position (λ rule. bytes_eq rule.name name.now) rules.now }
{
    rules.iter().position(|rule| rule.name.as_str() == name)
}

/// Whether the network of the rules has no more states than it may.
pub fn fits(rules: &[StepRule]) -> bool
    ensures { IsTrue result ↔ state_count rules.now ≤ MOST_STATES }
{
    if rules.len() > (MOST_STATES - 7) / 2 {
        return false;
    }
    past_rules(MOST_STATES - 7 - 2 * rules.len(), rules).is_some()
}

/// The network of the rules with these numberings, whose added rule calls the rule of this name, or the first fault of the rules.
fn network_of(
    alloc: Global,
    rules: &[StepRule],
    numberings: &[Numbering],
    start: &str,
) -> Result<ParserNetwork, BuildFault>
    requires laid { CanBeLaid rules.now }
    requires fit { NumberingsFit (map alternatives_of rules.now) numberings.now }
    ensures { GivesNetwork rules.now numberings.now start.now result }
{
    let Some(place) = place_of(rules, start) else {
        return Err(BuildFault::UnknownStart);
    };
    if some_rule_is_wide(rules) {
        return Err(BuildFault::Alternatives);
    }
    if !fits(rules) {
        return Err(BuildFault::States);
    }
    let file_end = Symbols::one(alloc, EOF)?;
    let net = draw(alloc, rules, numberings, &file_end, place as u32 + 1)?;
    Ok(net)
}

/// The network of the rules, whose added rule calls the rule of this name: from where a rule starts it spells exactly the words that
/// the rule derives. Of the faults that the rules have, the answer is the first in their order.
///
/// # Errors
/// No rule has the name, a decision has too many alternatives, there are too many states, or there is no memory.
pub fn build(alloc: Global, laid: &LaidRules, start: &str) -> Result<ParserNetwork, BuildFault>
    ensures built { GivesNetwork laid.now.0 laid.now.1 start.now result }
    ensures spells { IfOk result (SpellsRules (rules_of (eof ∷ []) laid.now.0 start.now)) }
{
    let net = network_of(alloc, laid.rules(), laid.numberings(), start)?;
    Ok(net)
}
