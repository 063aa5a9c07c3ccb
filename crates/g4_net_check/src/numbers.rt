// Whether the numbers in a network are those of its states and rules.
ghost use Rattle.std.specs.Prelude.{◌<◌, ◌↔◌, All, IsTrue, length};
ghost use Rattle.g4_net_check.specs.Numbers.{StateFits, NumbersFit};

use g4_net::{Network, State};

/// Whether each of the numbers is that of a state.
fn are_states(states: usize, numbers: &[u32]) -> bool
    ensures { IsTrue result ↔ All (λ t. t < states) numbers.now }
{
    numbers.iter().all(|number| (*number as usize) < states)
}

/// Whether the numbers in a state are those of states and rules, and a decision has two alternatives or more.
fn state_fits<L>(states: usize, rules: usize, state: &State<L>) -> bool
    ensures { IsTrue result ↔ StateFits states rules state.now }
{
    match state {
        State::Decision(targets) => targets.len() >= 2 && are_states(states, targets.as_slice()),
        State::End(rule) => (*rule as usize) < rules,
        State::Edge(_, target) => (*target as usize) < states,
        State::Call { rule, back, .. } => (*rule as usize) < rules && (*back as usize) < states,
        State::Predicate(_, target) => (*target as usize) < states,
        State::Level(_, target) => (*target as usize) < states,
        State::Action(target) => (*target as usize) < states,
        State::Empty(target) => (*target as usize) < states,
    }
}

/// Whether each of the states fits.
fn states_fit<L>(rules: usize, states: &[State<L>]) -> bool
    ensures { IsTrue result ↔ All (StateFits (length states.now) rules) states.now }
{
    states
        .iter()
        .all(|state| state_fits(states.len(), rules, state))
}

/// Whether each rule has two states, each state the number of an alternative or 0, and each state fits.
pub fn numbers_fit<L>(net: &Network<L>) -> bool
    ensures { IsTrue result ↔ NumbersFit net.now }
{
    let states = net.states.as_slice();
    let rules = net.callers.len();
    rules <= states.len() / 2 && net.written.len() == states.len() && states_fit(rules, states)
}
