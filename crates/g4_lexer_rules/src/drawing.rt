// The network of rules over steps.
ghost use Rattle.std.specs.Prelude.{◌≡◌, ◌≤◌, ◌+◌, ◌*◌, All, IfOk, length, sum_by};
ghost use Rattle.g4_net.specs.declared.network.TheConstants.{MOST_STATES};
ghost use Rattle.g4_layout.specs.Numbered.{IsNumberedNetworkOf};
ghost use Rattle.g4_layout.specs.Numbers.{NumberingsFit};
ghost use Rattle.g4_layout.specs.Size.{states_of_rule};
ghost use Rattle.g4_states.specs.Rules.{AreFullTrees};
ghost use Rattle.g4_states.specs.Trees.{rules_over};
ghost use Rattle.g4_lexer_rules.specs.NetworkRules.{numbering_of, numberings_of};
ghost use Rattle.g4_lexer_rules.specs.Steps.{step_of};

use crate::step::LexerStep;
use g4_base::Sequence;
use g4_grammar::Numbering;
use g4_net::Network;
use g4_ordered::LexerNetwork;
use g4_source::{Elements, LexerRule};
use g4_states::{callers, heads, lay_rules, number_rules, zeros};
use std::alloc::{AllocError, Global};

/// The numbering of a rule that begins with each of `count` alternatives.
fn numbering_of(alloc: Global, count: u32) -> Result<Numbering, AllocError>
    requires few { count ≤ MOST_STATES }
    ensures { IfOk result (λ numbering. numbering ≡ numbering_of count) }
{
    let mut starts = Vec::new(alloc);
    let mut next = 1;
    for _ in 0..count {
        starts.push(next)?;
        next += 1;
    }
    Ok(Numbering {
        starts: Sequence::new(starts),
        count,
    })
}

/// The numberings of the rules.
pub fn numberings_of(alloc: Global, rules: &[LexerRule]) -> Result<Vec<Numbering>, AllocError>
    requires few { All (λ rule. length rule.alternatives ≤ MOST_STATES) rules.now }
    ensures { IfOk result (λ numberings. numberings.items ≡ numberings_of rules.now) }
{
    let mut all = Vec::new(alloc);
    for rule in rules {
        all.push(numbering_of(alloc, rule.alternatives.len() as u32)?)?;
    }
    Ok(all)
}

/// The network of the rules with these numberings.
pub fn draw(
    alloc: Global,
    rules: &[Sequence<Elements<LexerStep>>],
    numberings: &[Numbering],
) -> Result<LexerNetwork, AllocError>
    requires full { AreFullTrees (rules_over step_of (λ x. x) (λ rule. rule) rules.now) }
    requires fit { NumberingsFit (rules_over step_of (λ x. x) (λ rule. rule) rules.now) numberings.now }
    requires room { 2 * length rules.now + sum_by states_of_rule (rules_over step_of (λ x. x) (λ rule. rule) rules.now) ≤ MOST_STATES }
    ensures { IfOk result (λ net. IsNumberedNetworkOf (rules_over step_of (λ x. x) (λ rule. rule) rules.now) numberings.now net) }
{
    let count = rules.len() as u32;
    let mut states = heads(alloc, count)?;
    let ends = lay_rules::<LexerStep, Elements<LexerStep>, Sequence<Elements<LexerStep>>>(
        alloc,
        &mut states,
        0,
        rules,
    )?;
    let callers = callers(alloc, states.as_slice(), count)?;
    let mut written = zeros(alloc, 2 * rules.len())?;
    number_rules(
        &mut written,
        states.as_slice(),
        0,
        ends.as_slice(),
        numberings,
    )?;
    Ok(Network {
        states: Sequence::new(states),
        callers: Sequence::new(callers),
        written: Sequence::new(written),
    })
}
