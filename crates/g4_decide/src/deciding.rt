// The alternative that prediction chooses at a decision under a condition.
ghost use Rattle.std.specs.Prelude.{◌≡◌, ◌+◌, ◌<◌, ◌≤◌, ◌^◌, All, Contains, IfOk, IfSome, List, None, drop, length, reverse};
ghost use Rattle.g4_classes.specs.Classes.{IsSymbol};
ghost use Rattle.g4_decide.specs.Asked.{Asked, HasSeen, KeepsToPath, NeedsNoStack};
ghost use Rattle.g4_decide.specs.Deciding.{HadMemory, IsDecided, IsFar};
ghost use Rattle.g4_decide.specs.declared.deciding.TheConstants.{NEAR};
ghost use Rattle.g4_fits.specs.Fitting.{IsLeastThatFits};
ghost use Rattle.g4_guards.specs.Levels.{AllowedAt, IsCondition, IsDecision};
ghost use Rattle.g4_net.specs.Configurations.{Config};
ghost use Rattle.g4_net.specs.Prediction.{Verdict as Said};
ghost use Rattle.g4_net.specs.Proper.{IsProper};
ghost use Rattle.g4_store.specs.declared.automaton.Fact.{Fact};
ghost use Rattle.g4_tokens.specs.Symbols.{end_of_list};
ghost use Rattle.g4_tokens.specs.TokenList.{EndsInEnd, word_of};

use crate::asking::ask;
use crate::fault::DecideFault;
use crate::within::{Decided, decide_within};
use g4_full::Memory;
use g4_learned::{DecisionNet, Pass, Store};
use g4_predict::Verdict;
use g4_store::steps::Steps;
use g4_store::view::Home;
use g4_tokens::Token;
use std::alloc::Global;
use std::sync::Wait;
use std::sync::ledger::Ledger;

/// How many symbols full stacks look at before the decision is far.
const NEAR: usize = 256;

/// What prediction chooses at a decision under this condition, with the return states of the parser's stack, newest last, on the tokens
/// from
/// a place on: SLL's answer, by what is learned, or where SLL says that the stack matters, the least alternative that may be taken with
/// which all of the tokens can be read, if it is known, or else that of full stacks, if 256 symbols settle it.
///
/// # Errors
/// No alternative is viable, or no memory. Where the pass has seen the words of SLL's path and the stack does not matter, it takes no
/// memory, and makes one step for the decision and one for each token that SLL looks at.
pub fn decide<B: Home<DecisionNet>, R: Wait, L: Ledger>(
    rt: &R,
    alloc: Global,
    store: &Store<B>,
    pass: &mut Pass<B>,
    memory: &mut Memory<B>,
    decision: u32,
    condition: u32,
    known: Option<u32>,
    returns: &[u32],
    tokens: &[Token],
    from: u32,
    steps: &mut Steps<L>,
) -> Result<Decided, DecideFault>
    requires decision { IsDecision B.plan.net.net decision }
    requires condition { IsCondition B.plan.net.net decision condition }
    requires proper { IsProper B.plan.net.net decision (reverse returns.now) }
    requires symbols { All IsSymbol (word_of tokens.now) }
    requires ends { EndsInEnd (word_of tokens.now) }
    requires more { from < length tokens.now }
    requires few { length tokens.now < 2 ^ 32 }
    requires known { IfSome known (IsLeastThatFits B.plan.net.net decision (AllowedAt B.plan.net.net decision condition)
        (reverse returns.now) (drop from (word_of tokens.now))) }
    ensures decided { IsDecided B.plan.net.net decision condition (reverse returns.now) (drop from (word_of tokens.now)) from result }
    ensures far { IsFar result → (known ≡ None) × (NEAR ≤ length (drop from (word_of tokens.now))) }
    ensures keeps { KeepsToPath B.plan decision condition (drop from (word_of tokens.now)) pass.old pass.new }
    ensures asked { HadMemory result
        → (v : Said) × Asked B.plan decision condition (drop from (word_of tokens.now)) v pass.old pass.new }
    ensures walked { (v : Said) (facts : List (Fact (List Config)))
        → HasSeen B.plan decision condition (drop from (word_of tokens.now)) pass.old v facts
        → (steps.new ≡ steps.old + length facts) × (NeedsNoStack v → HadMemory result) }
{
    let net = store.net();
    match ask(
        rt, alloc, store, pass, decision, condition, tokens, from, steps,
    )? {
        Verdict::Answer(alternative) => Ok(Decided::Chosen(alternative)),
        Verdict::ErrorAt(k) => Err(DecideFault::NoViable { at: from + k }),
        Verdict::Sensitive(_) => decide_within(
            alloc,
            net.net(),
            memory,
            decision,
            condition,
            known,
            returns,
            tokens,
            from,
            NEAR,
        ),
    }
}
