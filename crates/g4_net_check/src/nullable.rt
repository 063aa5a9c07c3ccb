// Which states are nullable: this follows from a definite clause for each way to go on from a state.
ghost use Rattle.std.specs.Prelude.{◌≡◌, ◌<◌, ◌^◌, ℕ, [], ◌∷◌, All, Contains, IfOk, OnOk, length};
ghost use Rattle.g4_horn.specs.Follows.{Tells};
ghost use Rattle.g4_net.specs.declared.network.State.TheVariants.{Call};
ghost use Rattle.g4_net.specs.Network.{start_of};
ghost use Rattle.g4_net_check.specs.Clauses.{AddsClauses, AreClauses, NeedsOf};
ghost use Rattle.g4_net_check.specs.Steps.{IsNullable, StartsFit, epsilon_targets};

use crate::steps::{epsilon_targets, start_of};
use g4_horn::{Clause, consequences};
use g4_net::{Network, State};
use std::alloc::{AllocError, Global};

/// Adds a clause for each of the targets: the head is nullable where the target is.
fn add_edges(
    alloc: Global,
    head: u32,
    targets: &[u32],
    clauses: &mut Vec<Clause>,
) -> Result<(), AllocError>
    ensures { OnOk result (AddsClauses head (λ needs. (t : ℕ) × Contains targets.now t × (needs ≡ t ∷ [])) clauses.old.items
        clauses.new.items) }
{
    for target in targets {
        let needs = vec![in alloc; *target]?;
        clauses.push(Clause { head, needs })?;
    }
    Ok(())
}

/// Adds the clauses of a state.
fn add_clauses<L>(
    alloc: Global,
    head: u32,
    state: &State<L>,
    clauses: &mut Vec<Clause>,
) -> Result<(), AllocError>
    requires { StartsFit state.now }
    ensures { OnOk result (AddsClauses head (NeedsOf state.now) clauses.old.items clauses.new.items) }
{
    match state {
        State::End(_) => {
            let needs = Vec::new(alloc);
            clauses.push(Clause { head, needs })?;
            Ok(())
        }
        State::Call { rule, back, .. } => {
            let needs = vec![in alloc; start_of(*rule), *back]?;
            clauses.push(Clause { head, needs })?;
            Ok(())
        }
        _ => {
            add_edges(alloc, head, epsilon_targets(state), clauses)?;
            Ok(())
        }
    }
}

/// The clauses of all states.
fn clauses_of<L>(alloc: Global, states: &[State<L>]) -> Result<Vec<Clause>, AllocError>
    requires few { length states.now < 2 ^ 32 }
    requires starts { All StartsFit states.now }
    ensures { IfOk result (λ clauses. AreClauses states.now clauses.items) }
{
    let mut clauses = Vec::new(alloc);
    for (number, state) in states.iter().enumerate() {
        add_clauses(alloc, number as u32, state, &mut clauses)?;
    }
    Ok(clauses)
}

/// Of each state, whether it is nullable.
pub fn nullable<L>(alloc: Global, net: &Network<L>) -> Result<Vec<bool>, AllocError>
    requires few { length net.now.states < 2 ^ 32 }
    requires starts { All StartsFit net.now.states }
    ensures { IfOk result (λ answers. Tells answers.items (IsNullable net.now)) }
{
    let states = net.states.as_slice();
    let clauses = clauses_of(alloc, states)?;
    let answers = consequences(alloc, states.len() as u32, clauses.as_slice())?;
    Ok(answers)
}
