// Which states call each rule: one pass over the states, since rules call each other.
ghost use Rattle.std.specs.Prelude.{◌≡◌, IfOk, OnOk, [], replicate};
ghost use Rattle.g4_layout.specs.Callers.{callers_of};
ghost use Rattle.g4_states.specs.Rules.{with_return};

use g4_base::Sequence;
use g4_net::State;
use std::alloc::{AllocError, Global};
use std::mem;

/// `count` empty lists.
fn empty_lists(alloc: Global, count: u32) -> Result<Vec<Sequence<u32>>, AllocError>
    ensures { IfOk result (λ lists. lists.items ≡ replicate count []) }
{
    let mut lists = Vec::new(alloc);
    for _ in 0..count {
        lists.push(Sequence::new(Vec::new(alloc)))?;
    }
    Ok(lists)
}

/// Adds a return state to those of a rule, if there is such a rule.
fn add_return(
    alloc: Global,
    lists: &mut Vec<Sequence<u32>>,
    rule: u32,
    back: u32,
) -> Result<(), AllocError>
    ensures { OnOk result (lists.new.items ≡ with_return rule back lists.old.items) }
{
    if rule as usize >= lists.len() {
        return Ok(());
    }
    let empty = Sequence::new(Vec::new(alloc));
    let list = mem::replace(&mut lists[rule as usize], empty);
    let mut returns = list.into_vec();
    returns.push(back)?;
    lists[rule as usize] = Sequence::new(returns);
    Ok(())
}

/// For each of `count` rules the return states of its calls, in order of the states that call.
pub fn callers<L>(
    alloc: Global,
    states: &[State<L>],
    count: u32,
) -> Result<Vec<Sequence<u32>>, AllocError>
    ensures { IfOk result (λ callers. callers.items ≡ callers_of states.now count) }
{
    let mut lists = empty_lists(alloc, count)?;
    for state in states {
        if let State::Call { rule, back, .. } = state {
            add_return(alloc, &mut lists, *rule, *back)?;
        }
    }
    Ok(lists)
}
