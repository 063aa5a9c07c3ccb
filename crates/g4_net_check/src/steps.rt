// The graph of the steps from state to state before a symbol is read.
ghost use Rattle.std.specs.Prelude.{◌≡◌, ◌<◌, ◌^◌, ◌↔◌, ℕ, All, Contains, IfOk, IsTrue, Some, true, length, slice_get};
ghost use Rattle.g4_cycles.specs.Edges.{EdgeOf};
ghost use Rattle.g4_horn.specs.Follows.{Tells};
ghost use Rattle.g4_net.specs.Network.{start_of as the_start};
ghost use Rattle.g4_net_check.specs.Steps.{IsNext, IsNullable, StartsFit, StepsTo, epsilon_targets as the_targets};

use g4_net::{Network, State};
use std::alloc::{AllocError, Global};
use std::slice;

/// The state that a rule starts at.
pub fn start_of(rule: u32) -> u32
    requires { the_start rule < 2 ^ 32 }
    ensures { result ≡ the_start rule }
{
    2 * rule
}

/// The targets of the state's edges that read nothing and call nothing.
pub fn epsilon_targets<L>(state: &State<L>) -> &[u32]
    ensures { result.now ≡ the_targets state.now }
{
    match state {
        State::Decision(targets) => targets.as_slice(),
        State::End(_) => &[],
        State::Edge(..) => &[],
        State::Call { .. } => &[],
        State::Predicate(_, target) => slice::from_ref(target),
        State::Level(_, target) => slice::from_ref(target),
        State::Action(target) => slice::from_ref(target),
        State::Empty(target) => slice::from_ref(target),
    }
}

/// Whether the answer for a state is yes: it is not where there is none.
fn says(answers: &[bool], state: u32) -> bool
    ensures { IsTrue result ↔ (slice_get answers.now state ≡ Some true) }
{
    answers.get(state as usize).copied().unwrap_or(false)
}

/// The states that a state leads to at once, where it is given which states are nullable.
fn next_states<L>(
    alloc: Global,
    nullable: &[bool],
    state: &State<L>,
) -> Result<Vec<u32>, AllocError>
    requires { StartsFit state.now }
    ensures { IfOk result (λ next. (t : ℕ) → Contains next.items t ↔ IsNext nullable.now state.now t) }
{
    match state {
        State::Call { rule, back, .. } => {
            let start = start_of(*rule);
            let next = if says(nullable, start) {
                vec![in alloc; start, *back]?
            } else {
                vec![in alloc; start]?
            };
            Ok(next)
        }
        _ => epsilon_targets(state).to_vec(alloc),
    }
}

/// For each state the states that it leads to at once, where it is given which states are nullable.
pub fn steps<L>(
    alloc: Global,
    nullable: &[bool],
    net: &Network<L>,
) -> Result<Vec<Vec<u32>>, AllocError>
    requires starts { All StartsFit net.now.states }
    requires nullable { Tells nullable.now (IsNullable net.now) }
    ensures size { IfOk result (λ graph. length graph.items ≡ length net.now.states) }
    ensures steps { IfOk result (λ graph. (p t : ℕ) → EdgeOf graph.items p t ↔ StepsTo net.now p t) }
{
    let mut graph = Vec::with_capacity(alloc, net.states.len())?;
    for state in net.states.as_slice() {
        graph.push(next_states(alloc, nullable, state)?)?;
    }
    Ok(graph)
}
