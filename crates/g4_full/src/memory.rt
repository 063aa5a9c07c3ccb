// What full stacks settle, with a memory of the steps between framed sets.
ghost use Rattle.std.specs.Prelude.{◌≡◌, ◌<◌, ◌^◌, Contains, IfOk, IfSome, length, reverse};
ghost use Rattle.g4_full.specs.Ahead.{IsAhead, IsCandidate};
ghost use Rattle.g4_full.specs.Settled.{choice_of};
ghost use Rattle.g4_guards.specs.Levels.{AllowedAt};
ghost use Rattle.g4_net.specs.AddedRule.{IsReady};
ghost use Rattle.g4_net.specs.Configurations.{above_bottom};
ghost use Rattle.g4_net.specs.Loops.{HasLoops};
ghost use Rattle.g4_net.specs.Prediction.{Full};
ghost use Rattle.g4_net.specs.Proper.{IsProper};
ghost use Rattle.g4_tokens.specs.Symbols.{end_of_list};
ghost use Rattle.g4_tokens.specs.TokenList.{word_of};

use crate::frames::Frames;
use crate::full::{Ahead, Settled, look_at};
use crate::live::Live;
use g4_learned::DecisionNet;
use g4_net::ParserNetwork;
use g4_store::view::Home;
use g4_tokens::Token;
use std::alloc::{AllocError, Global};
use std::marker::{Model, PhantomData};

/// The most steps that are made for one question. Where it needs more, it is settled without the memory.
const MOST_MADE: usize = 16;

/// Framed sets and the steps between them, as they were made for the questions before, up to a bounded number. It holds for one network
/// alone, which contracts see. What it answers does not depend on what it remembers.
#[derive(Drop)]
pub struct Memory<B: Home<DecisionNet>> {
    frames: Frames,
    home: PhantomData<B>,
}

impl<B: Home<DecisionNet>> Model for Memory<B> {
    ghost use Rattle.g4_full.specs.Remembered.{IsSound};
    ghost use Rattle.g4_net.specs.Network.{ParserNetwork as Net};

    ghost Value = { Net };

    ghost view = { λ _. B.plan.net.net };

    ghost invariant = { λ m. IsSound B.plan.net.net m.frames };
}

impl<B: Home<DecisionNet>> Memory<B> {
    /// With nothing remembered.
    pub fn new(alloc: Global) -> Memory<B> {
        Memory {
            frames: Frames::new(alloc),
            home: PhantomData,
        }
    }

    /// What full stacks come to at a decision under this condition within so many symbols, with the return states of the parser's stack,
    /// newest last, on the tokens from it on. A question all of whose steps are remembered takes no memory.
    ///
    /// # Errors
    /// No memory.
    pub fn look(
        &mut self,
        alloc: Global,
        net: &ParserNetwork,
        decision: u32,
        condition: u32,
        returns: &[u32],
        tokens: &[Token],
        most: usize,
    ) -> Result<Ahead, AllocError>
        requires own { net.now ≡ B.plan.net.net }
        requires ready { IsReady net.now }
        requires loops { HasLoops net.now }
        requires proper { IsProper net.now decision (reverse returns.now) }
        requires ends { Contains (word_of tokens.now) end_of_list }
        requires few { length tokens.now < 2 ^ 32 }
        ensures { IfOk result (IsAhead net.now decision (AllowedAt net.now decision condition) (reverse returns.now) (word_of tokens.now)
            most) }
    {
        let mut live = Live::none();
        for _ in 0..MOST_MADE {
            match self
                .frames
                .look::<B>(decision, condition, returns, tokens, most)
            {
                Ok(ahead) => return Ok(ahead),
                Err(step) => live = self.frames.make(alloc, net, step, live)?,
            }
        }
        let ahead = look_at(alloc, net, decision, condition, returns, tokens, most)?;
        Ok(ahead)
    }

    /// An alternative of a decision under this condition that can be the least that fits the tokens from it on, with the return states of
    /// the parser's stack, newest last: the least that is left after so many symbols, if one is left.
    ///
    /// # Errors
    /// No memory.
    pub fn candidate(
        &mut self,
        alloc: Global,
        net: &ParserNetwork,
        decision: u32,
        condition: u32,
        returns: &[u32],
        tokens: &[Token],
        most: usize,
    ) -> Result<Option<u32>, AllocError>
        requires own { net.now ≡ B.plan.net.net }
        requires ready { IsReady net.now }
        requires loops { HasLoops net.now }
        requires proper { IsProper net.now decision (reverse returns.now) }
        requires ends { Contains (word_of tokens.now) end_of_list }
        requires few { length tokens.now < 2 ^ 32 }
        ensures { IfOk result (λ found. IfSome found (IsCandidate net.now decision (AllowedAt net.now decision condition)
            (reverse returns.now) (word_of tokens.now))) }
    {
        let ahead = self.look(alloc, net, decision, condition, returns, tokens, most)?;
        Ok(ahead.alternative())
    }

    /// What full stacks settle at a decision under this condition, with the return states of the parser's stack,
    /// newest last, on the tokens from it on. A question all of whose steps are remembered takes no memory.
    ///
    /// # Errors
    /// No memory.
    pub fn settle(
        &mut self,
        alloc: Global,
        net: &ParserNetwork,
        decision: u32,
        condition: u32,
        returns: &[u32],
        tokens: &[Token],
    ) -> Result<Settled, AllocError>
        requires own { net.now ≡ B.plan.net.net }
        requires ready { IsReady net.now }
        requires loops { HasLoops net.now }
        requires proper { IsProper net.now decision (reverse returns.now) }
        requires ends { Contains (word_of tokens.now) end_of_list }
        requires few { length tokens.now < 2 ^ 32 }
        ensures { IfOk result (λ settled. Full net.now decision (AllowedAt net.now decision condition) (above_bottom (reverse returns.now))
            (word_of tokens.now) (choice_of settled)) }
    {
        let most = tokens.len() + 1;
        match self.look(alloc, net, decision, condition, returns, tokens, most)? {
            Ahead::Settled(settled) => Ok(settled),
            Ahead::Open(_) => unreachable!(),
        }
    }
}
