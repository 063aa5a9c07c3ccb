// The alternative that prediction chooses at a decision where SLL says that the stack matters.
ghost use Rattle.std.specs.Prelude.{◌≡◌, ◌<◌, ◌≤◌, ◌^◌, IfSome, None, drop, length, reverse};
ghost use Rattle.g4_decide.specs.Deciding.{IsChosen, IsDecided, IsFar, IsSensitive};
ghost use Rattle.g4_fits.specs.Fitting.{IsLeastThatFits};
ghost use Rattle.g4_full.specs.Ahead.{IsAhead};
ghost use Rattle.g4_guards.specs.Levels.{AllowedAt, IsCondition};
ghost use Rattle.g4_net.specs.AddedRule.{IsReady};
ghost use Rattle.g4_net.specs.Loops.{HasLoops};
ghost use Rattle.g4_net.specs.Proper.{IsProper};
ghost use Rattle.g4_tokens.specs.TokenList.{EndsInEnd, word_of};

use crate::fault::DecideFault;
use g4_full::{Ahead, Memory, Settled};
use g4_learned::{DecisionNet, Store};
use g4_net::ParserNetwork;
use g4_store::view::Home;
use g4_tokens::Token;
use std::alloc::Global;

/// What a decision comes to.
#[derive(Drop)]
pub enum Decided {
    /// This alternative, counted from 1.
    Chosen(u32),
    /// The stack matters, and as many symbols as may be looked at do not settle which alternative it is.
    Far,
}

/// What a decision under this condition comes to where the stack matters, with the return states of the parser's stack, newest last, on the
/// tokens from a place on: the least alternative that fits these, if it is known, else what full stacks come to within so many symbols.
///
/// # Errors
/// No alternative is viable, or no memory.
pub(crate) fn decide_within<B: Home<DecisionNet>>(
    alloc: Global,
    net: &ParserNetwork,
    memory: &mut Memory<B>,
    decision: u32,
    condition: u32,
    known: Option<u32>,
    returns: &[u32],
    tokens: &[Token],
    from: u32,
    most: usize,
) -> Result<Decided, DecideFault>
    requires own { net.now ≡ B.plan.net.net }
    requires ready { IsReady net.now }
    requires loops { HasLoops net.now }
    requires condition { IsCondition net.now decision condition }
    requires proper { IsProper net.now decision (reverse returns.now) }
    requires ends { EndsInEnd (word_of tokens.now) }
    requires more { from < length tokens.now }
    requires few { length tokens.now < 2 ^ 32 }
    requires matters { IsSensitive net.now decision condition (drop from (word_of tokens.now)) }
    requires known { IfSome known (IsLeastThatFits net.now decision (AllowedAt net.now decision condition) (reverse returns.now)
        (drop from (word_of tokens.now))) }
    ensures decided { IsDecided net.now decision condition (reverse returns.now) (drop from (word_of tokens.now)) from result }
    ensures far { IsFar result → (known ≡ None) × (most ≤ length (drop from (word_of tokens.now))) }
{
    if let Some(alternative) = known {
        return Ok(Decided::Chosen(alternative));
    }
    let rest = &tokens[from as usize..];
    let ahead = memory.look(alloc, net, decision, condition, returns, rest, most)?;
    match ahead {
        Ahead::Settled(settled) => match settled {
            Settled::Chosen(alternative) => Ok(Decided::Chosen(alternative)),
            Settled::NoViable(k) => Err(DecideFault::NoViable { at: from + k }),
        },
        Ahead::Open(_) => Ok(Decided::Far),
    }
}

/// The alternative, counted from 1, that prediction chooses at a decision under this condition where the stack matters, with the return
/// states of the parser's stack, newest last, on the tokens from a place on: the least alternative that fits these, if it is known, else
/// that of full stacks.
///
/// # Errors
/// No alternative is viable, or no memory.
pub fn decide_far<B: Home<DecisionNet>>(
    alloc: Global,
    store: &Store<B>,
    memory: &mut Memory<B>,
    decision: u32,
    condition: u32,
    known: Option<u32>,
    returns: &[u32],
    tokens: &[Token],
    from: u32,
) -> Result<u32, DecideFault>
    requires condition { IsCondition B.plan.net.net decision condition }
    requires proper { IsProper B.plan.net.net decision (reverse returns.now) }
    requires ends { EndsInEnd (word_of tokens.now) }
    requires more { from < length tokens.now }
    requires few { length tokens.now < 2 ^ 32 }
    requires matters { IsSensitive B.plan.net.net decision condition (drop from (word_of tokens.now)) }
    requires known { IfSome known (IsLeastThatFits B.plan.net.net decision (AllowedAt B.plan.net.net decision condition)
        (reverse returns.now) (drop from (word_of tokens.now))) }
    ensures { IsChosen B.plan.net.net decision condition (reverse returns.now) (drop from (word_of tokens.now)) from result }
{
    let net = store.net();
    let most = tokens.len() + 1;
    match decide_within(
        alloc,
        net.net(),
        memory,
        decision,
        condition,
        known,
        returns,
        tokens,
        from,
        most,
    ) {
        Ok(Decided::Chosen(alternative)) => Ok(alternative),
        Ok(Decided::Far) => unreachable!(),
        Err(fault) => Err(fault),
    }
}
