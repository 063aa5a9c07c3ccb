// SLL: looking ahead from a decision as if any rule had called the one that is open.
ghost use Rattle.std.specs.Prelude.{◌≡◌, ◌<◌, ◌≤◌, ◌+◌, ◌^◌, ◌↔◌, Contains, IfOk, IsTrue, length, map};
ghost use Rattle.g4_configs.specs.Configs.{Holds};
ghost use Rattle.g4_tokens.specs.Symbols.{end_of_list};
ghost use Rattle.g4_net.specs.AddedRule.{IsReady};
ghost use Rattle.g4_net.specs.Allowed.{Allows};
ghost use Rattle.g4_net.specs.Configurations.{Config, IsWithin};
ghost use Rattle.g4_net.specs.declared.network.TheConstants.{MOST_STATES};
ghost use Rattle.g4_net.specs.Leads.{WellFormed};
ghost use Rattle.g4_net.specs.Lookahead.{Next};
ghost use Rattle.g4_net.specs.Prediction.{Sll, SllFrom};
ghost use Rattle.g4_tokens.specs.TokenList.{word_of};
ghost use Rattle.g4_lookahead.specs.EndOfList.{Matters};
ghost use Rattle.g4_predict.specs.Paths.{looked_of, path_of, verdict_of};
ghost use Rattle.g4_predict.specs.Reached.{IsReached};
ghost use Rattle.g4_predict.specs.Verdicts.{IsSeen, IsStartSet};

use crate::{Led, Looked, Path, Verdict};
use g4_base::Sequence;
use g4_closure::{Left, left_after, start};
use g4_configs::{Configs, Snapshot};
use g4_net::{Allowed, ParserNetwork};
use g4_tokens::Token;
use std::alloc::{AllocError, Global};

/// Whether the parser's stack matters: some two alternatives have the same stacks at a state, and no state is of one alone.
fn stack_matters(alloc: Global, set: &Configs) -> Result<bool, AllocError>
    ensures { IfOk result (λ answer. IsTrue answer ↔ Matters (Holds set.now)) }
{
    if !set.conflict(alloc)? {
        return Ok(false);
    }
    let lone = set.lone_state(alloc)?;
    Ok(!lone)
}

/// The start set of a decision, over the allowed alternatives and above the wildcard.
///
/// # Errors
/// No memory.
pub fn start_set(
    alloc: Global,
    net: &ParserNetwork,
    decision: u32,
    allowed: &Allowed,
) -> Result<Configs, AllocError>
    requires well_formed { WellFormed net.now }
    requires few { length net.now.states ≤ MOST_STATES }
    ensures { IfOk result (λ set. IsStartSet net.now decision (Allows allowed.now) (Holds set)) }
{
    let set = start(alloc, net, decision, allowed, &[], true)?;
    Ok(set)
}

/// Where looking at a symbol leads.
#[derive(Drop)]
pub enum Seen {
    /// SLL ends at the next set.
    Ended(Verdict),
    /// Another symbol is looked at after the next set.
    Onward(Configs),
}

/// What SLL sees on symbol k after a set.
///
/// # Errors
/// No memory.
pub fn look(
    alloc: Global,
    net: &ParserNetwork,
    set: Configs,
    symbol: u32,
    k: u32,
) -> Result<Seen, AllocError>
    requires well_formed { WellFormed net.now }
    requires few { length net.now.states ≤ MOST_STATES }
    requires within { (c : Config) → Holds set c → IsWithin net.now c }
    ensures { IfOk result (IsSeen net.now (Next net.now (Holds set) symbol) k) }
{
    let left = left_after(alloc, net, set, symbol)?;
    match left {
        Left::Nothing => Ok(Seen::Ended(Verdict::ErrorAt(k))),
        Left::Only(alternative) => Ok(Seen::Ended(Verdict::Answer(alternative))),
        Left::Several(next) => {
            let matters = stack_matters(alloc, &next)?;
            if matters {
                return Ok(Seen::Ended(Verdict::Sensitive(k)));
            }
            Ok(Seen::Onward(next))
        }
    }
}

/// SLL from a set, after k symbols were looked at: the verdict, and what each token that is looked at leads to.
fn look_on(
    alloc: Global,
    net: &ParserNetwork,
    from: Configs,
    tokens: &[Token],
    k: u32,
) -> Result<(Verdict, Sequence<Looked>), AllocError>
    requires ready { IsReady net.now }
    requires reached { (c : Config) → Holds from c → IsReached net.now c }
    requires ends { Contains (word_of tokens.now) end_of_list }
    requires few { k + length tokens.now < 2 ^ 32 }
    ensures { IfOk result (λ r. SllFrom net.now (Holds from) (word_of tokens.now) k (verdict_of r.0) (map looked_of r.1)) }
{
    let mut set = from;
    let mut looked = Vec::new(alloc);
    for (index, token) in tokens.iter().enumerate() {
        let symbol = token.symbol;
        let seen = look(alloc, net, set, symbol, k + index as u32)?;
        match seen {
            Seen::Ended(verdict) => {
                let led = Led::Ended(verdict);
                looked.push(Looked { symbol, led })?;
                return Ok((verdict, Sequence::new(looked)));
            }
            Seen::Onward(next) => {
                let row = next.snapshot(alloc)?;
                let led = Led::Row(row);
                looked.push(Looked { symbol, led })?;
                set = next;
            }
        }
    }
    unreachable!()
}

/// The SLL verdict of a decision over its allowed alternatives, on the tokens from it on, and its path.
///
/// # Errors
/// No memory.
pub fn simulate(
    alloc: Global,
    net: &ParserNetwork,
    decision: u32,
    allowed: &Allowed,
    tokens: &[Token],
) -> Result<(Verdict, Path), AllocError>
    requires ready { IsReady net.now }
    requires ends { Contains (word_of tokens.now) end_of_list }
    requires few { length tokens.now < 2 ^ 32 }
    ensures decision { IfOk result (λ r. r.1.decision ≡ decision) }
    ensures path { IfOk result (λ r. Sll net.now decision (Allows allowed.now) (word_of tokens.now) (verdict_of r.0) (path_of r.1)) }
{
    let set = start_set(alloc, net, decision, allowed)?;
    let start = set.snapshot(alloc)?;
    let (verdict, looked) = look_on(alloc, net, set, tokens, 0)?;
    let path = Path {
        decision,
        start,
        looked,
    };
    Ok((verdict, path))
}

/// The SLL verdict from a set to which SLL came by k symbols, on the tokens after these, and the rest of its path. Symbols count from 0,
/// the decision's first.
///
/// # Errors
/// No memory.
pub fn simulate_from(
    alloc: Global,
    net: &ParserNetwork,
    row: &Snapshot,
    tokens: &[Token],
    k: u32,
) -> Result<(Verdict, Sequence<Looked>), AllocError>
    requires ready { IsReady net.now }
    requires reached { (c : Config) → Contains row.now c → IsReached net.now c }
    requires ends { Contains (word_of tokens.now) end_of_list }
    requires few { k + length tokens.now < 2 ^ 32 }
    ensures { IfOk result (λ r. SllFrom net.now (Contains row.now) (word_of tokens.now) k (verdict_of r.0) (map looked_of r.1)) }
{
    let set = row.load(alloc)?;
    let found = look_on(alloc, net, set, tokens, k)?;
    Ok(found)
}
