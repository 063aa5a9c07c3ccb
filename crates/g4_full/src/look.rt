// The way along remembered steps.
ghost use Rattle.std.specs.Prelude.{◌≡◌, ◌<◌, ◌^◌, ℕ, All, Contains, IfErr, IfOk, MatchResult, Some, length, reverse, slice_get};
ghost use Rattle.g4_full.specs.Ahead.{IsAhead};
ghost use Rattle.g4_full.specs.Places.{IsLoweredTo};
ghost use Rattle.g4_full.specs.Remembered.{CanBeMade, IsNumber, IsSound, SetOf};
ghost use Rattle.g4_full.specs.declared.look.Step.TheVariants.{Return as ByReturn, Start as ByStart, Symbol as BySymbol};
ghost use Rattle.g4_guards.specs.Levels.{AllowedAt};
ghost use Rattle.g4_net.specs.AddedRule.{IsReady};
ghost use Rattle.g4_net.specs.Proper.{IsProper};
ghost use Rattle.g4_stacks.specs.Table.{number_at};
ghost use Rattle.g4_tokens.specs.Symbols.{end_of_list};
ghost use Rattle.g4_tokens.specs.TokenList.{word_of};

use crate::frames::{Frame, Frames};
use crate::full::Ahead;
use crate::shown::come_to;
use g4_learned::DecisionNet;
use g4_store::view::Home;
use g4_tokens::Token;

/// A step between framed sets.
#[derive(Clone, Copy)]
pub(crate) enum Step {
    /// To the start set of a decision under a condition.
    Start { decision: u32, condition: u32 },
    /// From a set by a symbol.
    Symbol { from: u32, symbol: u32 },
    /// From a set by a return state, which is put in the place of the hole.
    Return { from: u32, state: u32 },
}

/// The number of a set, and the return states that are below its hole, newest last.
#[derive(Clone, Copy)]
struct Spot<'a> {
    set: u32,
    below: &'a [u32],
}

impl Frames {
    /// The set of this number.
    fn frame(&self, number: u32) -> &Frame
        requires { IsNumber self.now number }
        ensures { slice_get self.now.sets.items number ≡ Some result.now }
    {
        &self.sets[number as usize]
    }

    /// The start set of a decision under a condition, or else the step to it.
    fn start(&self, decision: u32, condition: u32) -> Result<u32, Step>
        ensures { MatchResult result (λ n. number_at self.now.starts.entries (decision, condition) ≡ Some n)
            (λ step. step ≡ ByStart decision condition) }
    {
        match self.starts.get(&(decision, condition)) {
            Some(number) => Ok(*number),
            None => Err(Step::Start {
                decision,
                condition,
            }),
        }
    }

    /// The set after a set and a symbol, or else the step to it.
    fn after(&self, from: u32, symbol: u32) -> Result<u32, Step>
        ensures { MatchResult result (λ n. number_at self.now.symbols.entries (from, symbol) ≡ Some n)
            (λ step. step ≡ BySymbol from symbol) }
    {
        match self.symbols.get(&(from, symbol)) {
            Some(number) => Ok(*number),
            None => Err(Step::Symbol { from, symbol }),
        }
    }

    /// The set after a set and a return state, or else the step to it.
    fn below(&self, from: u32, state: u32) -> Result<u32, Step>
        ensures { MatchResult result (λ n. number_at self.now.returns.entries (from, state) ≡ Some n)
            (λ step. step ≡ ByReturn from state) }
    {
        match self.returns.get(&(from, state)) {
            Some(number) => Ok(*number),
            None => Err(Step::Return { from, state }),
        }
    }

    /// Goes by return states, newest first, while something is at the hole.
    ///
    /// # Errors
    /// The step that is not remembered.
    fn go_down<'a, B: Home<DecisionNet>>(
        &self,
        from: u32,
        returns: &'a [u32],
    ) -> Result<Spot<'a>, Step>
        requires sound { IsSound B.plan.net.net self.now }
        requires number { IsNumber self.now from }
        requires states { All (λ t. t < length B.plan.net.net.states) returns.now }
        ensures number { IfOk result (λ p. IsNumber self.now p.set) }
        ensures lowered { IfOk result (λ p. IsLoweredTo B.plan.net.net (SetOf self.now from) (reverse returns.now)
            (SetOf self.now p.set) p.below.now) }
        ensures missing { IfErr result (CanBeMade B.plan.net.net self.now) }
    {
        let mut set = from;
        let mut below = returns;
        while let Some((newest, older)) = below.split_last() {
            if !self.frame(set).at_hole {
                return Ok(Spot { set, below });
            }
            set = self.below(set, *newest)?;
            below = older;
        }
        Ok(Spot { set, below })
    }

    /// What full stacks come to at a decision under this condition within so many symbols, with the return states of the parser's stack,
    /// newest last, on the tokens from it on, as far as steps are remembered.
    ///
    /// # Errors
    /// The first step that is not remembered.
    pub fn look<B: Home<DecisionNet>>(
        &self,
        decision: u32,
        condition: u32,
        returns: &[u32],
        tokens: &[Token],
        most: usize,
    ) -> Result<Ahead, Step>
        requires sound { IsSound B.plan.net.net self.now }
        requires ready { IsReady B.plan.net.net }
        requires proper { IsProper B.plan.net.net decision (reverse returns.now) }
        requires ends { Contains (word_of tokens.now) end_of_list }
        requires few { length tokens.now < 2 ^ 32 }
        ensures ahead { IfOk result (IsAhead B.plan.net.net decision (AllowedAt B.plan.net.net decision condition) (reverse returns.now)
            (word_of tokens.now) most) }
        ensures missing { IfErr result (CanBeMade B.plan.net.net self.now) }
    {
        let start = self.start(decision, condition)?;
        let mut spot = self.go_down::<B>(start, returns)?;
        for (k, token) in tokens.iter().enumerate() {
            let next = self.after(spot.set, token.symbol)?;
            spot = self.go_down::<B>(next, spot.below)?;
            let shown = self.frame(spot.set).shown;
            if let Some(ahead) = come_to(shown, k as u32, k + 1 >= most) {
                return Ok(ahead);
            }
        }
        unreachable!()
    }
}
