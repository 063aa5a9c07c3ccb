// Looking ahead from a decision with the parser's own stack.
ghost use Rattle.std.specs.Prelude.{◌≡◌, ◌<◌, ◌^◌, Contains, IfOk, length, reverse};
ghost use Rattle.g4_full.specs.Ahead.{IsAhead, alternative_of};
ghost use Rattle.g4_tokens.specs.Symbols.{end_of_list};
ghost use Rattle.g4_net.specs.AddedRule.{IsReady};
ghost use Rattle.g4_net.specs.Allowed.{Allows};
ghost use Rattle.g4_net.specs.Configurations.{above_bottom};
ghost use Rattle.g4_net.specs.Loops.{HasLoops};
ghost use Rattle.g4_net.specs.Prediction.{Full};
ghost use Rattle.g4_net.specs.Proper.{IsProper};
ghost use Rattle.g4_tokens.specs.TokenList.{word_of};
ghost use Rattle.g4_full.specs.Settled.{choice_of};
ghost use Rattle.g4_guards.specs.Levels.{AllowedAt};

use crate::lowering::take_down;
use crate::shown::{come_to, show};
use g4_closure::{framed_advance, framed_start};
use g4_guards::allowed_at;
use g4_net::{Allowed, ParserNetwork};
use g4_tokens::Token;
use std::alloc::{AllocError, Global};

/// What full stacks say at a decision. Symbols count from 0, the decision's first.
#[derive(Drop)]
pub enum Settled {
    /// This alternative.
    Chosen(u32),
    /// None is left after this symbol.
    NoViable(u32),
}

/// What looking so far ahead with full stacks comes to.
#[derive(Drop)]
pub enum Ahead {
    /// Full stacks say this.
    Settled(Settled),
    /// Several alternatives are left after as many symbols as may be looked at. This is the least of them.
    Open(u32),
}

impl Ahead {
    /// The alternative, if there is one.
    pub(crate) fn alternative(&self) -> Option<u32>
        ensures { result ≡ alternative_of self.now }
    {
        match self {
            Ahead::Settled(Settled::Chosen(alternative)) => Some(*alternative),
            Ahead::Settled(Settled::NoViable(_)) => None,
            Ahead::Open(least) => Some(*least),
        }
    }
}

/// What full stacks come to at a decision within so many symbols, over the allowed alternatives and with the return states of the parser's
/// stack, newest last, on the tokens from it on.
fn look_over(
    alloc: Global,
    net: &ParserNetwork,
    decision: u32,
    allowed: &Allowed,
    returns: &[u32],
    tokens: &[Token],
    most: usize,
) -> Result<Ahead, AllocError>
    requires ready { IsReady net.now }
    requires proper { IsProper net.now decision (reverse returns.now) }
    requires ends { Contains (word_of tokens.now) end_of_list }
    requires few { length tokens.now < 2 ^ 32 }
    ensures { IfOk result (IsAhead net.now decision (Allows allowed.now) (reverse returns.now) (word_of tokens.now) most) }
{
    let first = framed_start(alloc, net, decision, allowed)?;
    let mut place = take_down(alloc, net, first, returns, 0)?;
    for (k, token) in tokens.iter().enumerate() {
        let next = framed_advance(alloc, net, place.set, token.symbol)?;
        place = take_down(alloc, net, next, place.below, place.taken)?;
        let shown = show(alloc, &place.set)?;
        if let Some(ahead) = come_to(shown, k as u32, k + 1 >= most) {
            return Ok(ahead);
        }
    }
    unreachable!()
}

/// The choice of a decision, over the allowed alternatives and with the return states of the parser's stack, newest last, on the
/// tokens from it on.
///
/// # Errors
/// No memory.
pub fn settle_over(
    alloc: Global,
    net: &ParserNetwork,
    decision: u32,
    allowed: &Allowed,
    returns: &[u32],
    tokens: &[Token],
) -> Result<Settled, AllocError>
    requires ready { IsReady net.now }
    requires proper { IsProper net.now decision (reverse returns.now) }
    requires ends { Contains (word_of tokens.now) end_of_list }
    requires few { length tokens.now < 2 ^ 32 }
    ensures { IfOk result (λ settled. Full net.now decision (Allows allowed.now) (above_bottom (reverse returns.now))
        (word_of tokens.now) (choice_of settled)) }
{
    let most = tokens.len() + 1;
    match look_over(alloc, net, decision, allowed, returns, tokens, most)? {
        Ahead::Settled(settled) => Ok(settled),
        Ahead::Open(_) => unreachable!(),
    }
}

/// What full stacks come to at a decision under this condition within so many symbols, with the return states of the parser's stack, newest
/// last, on the tokens from it on.
pub(crate) fn look_at(
    alloc: Global,
    net: &ParserNetwork,
    decision: u32,
    condition: u32,
    returns: &[u32],
    tokens: &[Token],
    most: usize,
) -> Result<Ahead, AllocError>
    requires ready { IsReady net.now }
    requires loops { HasLoops net.now }
    requires proper { IsProper net.now decision (reverse returns.now) }
    requires ends { Contains (word_of tokens.now) end_of_list }
    requires few { length tokens.now < 2 ^ 32 }
    ensures { IfOk result (IsAhead net.now decision (AllowedAt net.now decision condition) (reverse returns.now) (word_of tokens.now)
        most) }
{
    let allowed = allowed_at(alloc, net, decision, condition)?;
    let ahead = look_over(alloc, net, decision, &allowed, returns, tokens, most)?;
    Ok(ahead)
}
