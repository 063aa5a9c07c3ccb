// The alternative that prediction chooses at a decision without guards.
ghost use Rattle.std.specs.Prelude.{◌<◌, ◌^◌, drop, length, reverse};
ghost use Rattle.g4_decide.specs.Deciding.{AllowedFirsts, IsChosenOver};
ghost use Rattle.g4_full.specs.Settled.{choice_of};
ghost use Rattle.g4_guards.specs.Tests.{HasTests};
ghost use Rattle.g4_guards.specs.declared.tests.Tests.TheVariants.{Many};
ghost use Rattle.g4_net.specs.AddedRule.{IsReady};
ghost use Rattle.g4_net.specs.Allowed.{Allows};
ghost use Rattle.g4_net.specs.Configurations.{above_bottom};
ghost use Rattle.g4_net.specs.Prediction.{Full};
ghost use Rattle.g4_net.specs.Proper.{IsProper};
ghost use Rattle.g4_tokens.specs.TokenList.{EndsInEnd, word_of};

use crate::fault::DecideFault;
use g4_full::{Settled, settle_over};
use g4_net::{Allowed, ParserNetwork};
use g4_tokens::Token;
use std::alloc::Global;

/// The alternative, counted from 1, that prediction chooses at a decision with many tests, over the allowed alternatives and with the
/// return states of the parser's stack, newest last, on the tokens from a place on: that of full stacks. Nothing of it is learned.
///
/// # Errors
/// No allowed alternative is viable, or no memory.
pub fn decide_by_stack(
    alloc: Global,
    net: &ParserNetwork,
    decision: u32,
    allowed: &Allowed,
    returns: &[u32],
    tokens: &[Token],
    from: u32,
) -> Result<u32, DecideFault>
    requires ready { IsReady net.now }
    requires many { HasTests net.now decision Many }
    requires proper { IsProper net.now decision (reverse returns.now) }
    requires ends { EndsInEnd (word_of tokens.now) }
    requires more { from < length tokens.now }
    requires few { length tokens.now < 2 ^ 32 }
    ensures { IsChosenOver net.now decision (AllowedFirsts net.now decision allowed.now) (reverse returns.now)
        (drop from (word_of tokens.now)) from result }
{
    let rest = &tokens[from as usize..];
    match settle_over(alloc, net, decision, allowed, returns, rest)? {
        Settled::Chosen(alternative) => Ok(alternative),
        Settled::NoViable(k) => Err(DecideFault::NoViable { at: from + k }),
    }
}
