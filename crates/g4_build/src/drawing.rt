// The network of rules: heads, the added rule, the rules, and who calls them.
ghost use Rattle.std.specs.Prelude.{◌≡◌, ◌≤◌, ◌<◌, ◌+◌, ◌++◌, IfOk, OnOk, length, map, slice_set};
ghost use Rattle.g4_source.specs.Blocks.{ParserRulesAreFull};
ghost use Rattle.g4_source.specs.Rules.{alternatives_of};
ghost use Rattle.g4_net.specs.declared.network.State.TheVariants.{Call};
ghost use Rattle.g4_layout.specs.Numbers.{NumberingsFit};
ghost use Rattle.g4_layout.specs.Rules.{state_count};
ghost use Rattle.g4_build.specs.Rules.{IsDrawn, added_states};
ghost use Rattle.g4_net.specs.declared.network.TheConstants.{MOST_STATES};

use crate::numbering::numbers;
use g4_base::Sequence;
use g4_grammar::{Numbering, StepRule};
use g4_net::{Network, ParserNetwork, State};
use g4_states::{callers, heads, lay_rules};
use g4_tokens::{END, Symbols};
use std::alloc::{AllocError, Global};

/// Adds the states of the added rule, which calls this one and whose loop takes the symbols of the set.
fn add_start(
    alloc: Global,
    states: &mut Vec<State<Symbols>>,
    set: &Symbols,
    rule: u32,
) -> Result<(), AllocError>
    requires some { 0 < length states.old.items }
    requires few { length states.old.items ≤ MOST_STATES }
    ensures { OnOk result (states.new.items ≡ slice_set states.old.items 0 (Call rule 0 (length states.old.items))
        ++ added_states set.now (length states.old.items)) }
{
    let first = states.len() as u32;
    states[0] = State::Call {
        rule,
        level: 0,
        back: first,
    };
    let turn_or_leave = vec![in alloc; first + 1, first + 3]?;
    states.push(State::Decision(Sequence::new(turn_or_leave)))?;
    let turn = set.copy_of(alloc)?;
    states.push(State::Edge(turn, first + 2))?;
    states.push(State::Empty(first))?;
    let list_end = Symbols::one(alloc, END)?;
    states.push(State::Edge(list_end, first + 4))?;
    states.push(State::Empty(1))?;
    Ok(())
}

/// The network of the rules with their numberings, whose added rule calls this one and then takes any number of symbols of
/// the set.
pub fn draw(
    alloc: Global,
    rules: &[StepRule],
    numberings: &[Numbering],
    set: &Symbols,
    start: u32,
) -> Result<ParserNetwork, AllocError>
    requires full { ParserRulesAreFull rules.now }
    requires fit { NumberingsFit (map alternatives_of rules.now) numberings.now }
    requires low { 1 ≤ start }
    requires high { start ≤ length rules.now }
    requires room { state_count rules.now ≤ MOST_STATES }
    ensures { IfOk result (λ net. IsDrawn set.now rules.now numberings.now start net) }
{
    let count = rules.len() as u32 + 1;
    let mut states = heads(alloc, count)?;
    add_start(alloc, &mut states, set, start)?;
    let ends = lay_rules(alloc, &mut states, 1, rules)?;
    let callers = callers(alloc, states.as_slice(), count)?;
    let written = numbers(alloc, states.as_slice(), ends.as_slice(), numberings)?;
    Ok(Network {
        states: Sequence::new(states),
        callers: Sequence::new(callers),
        written: Sequence::new(written),
    })
}
