// SLL's verdict at a decision, by the store.
ghost use Rattle.std.specs.Prelude.{◌≡◌, ◌+◌, ◌<◌, ◌^◌, All, Contains, IfOk, IsOk, List, drop, length};
ghost use Rattle.g4_classes.specs.Classes.{IsSymbol};
ghost use Rattle.g4_decide.specs.Asked.{Asked, HasSeen, KeepsToPath};
ghost use Rattle.g4_guards.specs.Levels.{AllowedAt, IsCondition, IsDecision};
ghost use Rattle.g4_net.specs.AddedRule.{IsReady};
ghost use Rattle.g4_net.specs.Configurations.{Config, IsRow, wildcard};
ghost use Rattle.g4_net.specs.Lookahead.{Start};
ghost use Rattle.g4_net.specs.Loops.{HasLoops};
ghost use Rattle.g4_net.specs.Prediction.{Sll, Verdict as Said};
ghost use Rattle.g4_predict.specs.Paths.{path_of, verdict_of};
ghost use Rattle.g4_store.specs.declared.automaton.Fact.{Fact};
ghost use Rattle.g4_tokens.specs.Symbols.{end_of_list};
ghost use Rattle.g4_tokens.specs.TokenList.{EndsInEnd, word_of};

use crate::onward::go_on;
use g4_configs::Snapshot;
use g4_guards::allowed_at;
use g4_learned::{DecisionNet, Pass, Store, Walk};
use g4_net::ParserNetwork;
use g4_predict::{Path, Verdict, simulate, start_set};
use g4_store::book::Learned;
use g4_store::steps::Steps;
use g4_store::view::Home;
use g4_tokens::Token;
use std::alloc::{AllocError, Global};
use std::sync::Wait;
use std::sync::ledger::Ledger;

/// SLL's verdict at a decision under this condition, on these tokens, and its path.
fn simulate_at(
    alloc: Global,
    net: &ParserNetwork,
    decision: u32,
    condition: u32,
    tokens: &[Token],
) -> Result<(Verdict, Path), AllocError>
    requires ready { IsReady net.now }
    requires loops { HasLoops net.now }
    requires ends { Contains (word_of tokens.now) end_of_list }
    requires few { length tokens.now < 2 ^ 32 }
    ensures decision { IfOk result (λ r. r.1.decision ≡ decision) }
    ensures path { IfOk result (λ r. Sll net.now decision (AllowedAt net.now decision condition) (word_of tokens.now) (verdict_of r.0)
        (path_of r.1)) }
{
    let allowed = allowed_at(alloc, net, decision, condition)?;
    let simulated = simulate(alloc, net, decision, &allowed, tokens)?;
    Ok(simulated)
}

/// The row of the start set of a decision under this condition.
fn start_at(
    alloc: Global,
    net: &ParserNetwork,
    decision: u32,
    condition: u32,
) -> Result<Snapshot, AllocError>
    requires ready { IsReady net.now }
    requires loops { HasLoops net.now }
    ensures { IfOk result (λ row. IsRow row (Start net.now decision (AllowedAt net.now decision condition) wildcard)) }
{
    let allowed = allowed_at(alloc, net, decision, condition)?;
    let set = start_set(alloc, net, decision, &allowed)?;
    let row = set.snapshot(alloc)?;
    Ok(row)
}

/// SLL's verdict at a decision under this condition, on the tokens from a place on, by one simulation; its path is learned.
fn simulate_all<B: Home<DecisionNet>, R: Wait>(
    rt: &R,
    alloc: Global,
    store: &Store<B>,
    pass: &mut Pass<B>,
    decision: u32,
    condition: u32,
    tokens: &[Token],
    from: u32,
) -> Result<Verdict, AllocError>
    requires decision { IsDecision B.plan.net.net decision }
    requires condition { IsCondition B.plan.net.net decision condition }
    requires symbols { All IsSymbol (word_of tokens.now) }
    requires ends { EndsInEnd (word_of tokens.now) }
    requires more { from < length tokens.now }
    requires few { length tokens.now < 2 ^ 32 }
    ensures keeps { KeepsToPath B.plan decision condition (drop from (word_of tokens.now)) pass.old pass.new }
    ensures asked { IfOk result (λ v. Asked B.plan decision condition (drop from (word_of tokens.now)) (verdict_of v) pass.old pass.new) }
{
    let rest = &tokens[from as usize..];
    let net = store.net().net();
    let (verdict, path) = simulate_at(alloc, net, decision, condition, rest)?;
    store.learn(rt, alloc, pass, condition, path)?;
    Ok(verdict)
}

/// SLL's verdict at a decision under this condition, whose start is not learned: it is learned first, and then each step from there.
fn start_and_go_on<B: Home<DecisionNet>, R: Wait>(
    rt: &R,
    alloc: Global,
    store: &Store<B>,
    pass: &mut Pass<B>,
    decision: u32,
    condition: u32,
    tokens: &[Token],
    from: u32,
) -> Result<Verdict, AllocError>
    requires decision { IsDecision B.plan.net.net decision }
    requires condition { IsCondition B.plan.net.net decision condition }
    requires symbols { All IsSymbol (word_of tokens.now) }
    requires ends { EndsInEnd (word_of tokens.now) }
    requires more { from < length tokens.now }
    requires few { length tokens.now < 2 ^ 32 }
    ensures keeps { KeepsToPath B.plan decision condition (drop from (word_of tokens.now)) pass.old pass.new }
    ensures asked { IfOk result (λ v. Asked B.plan decision condition (drop from (word_of tokens.now)) (verdict_of v) pass.old pass.new) }
{
    let net = store.net().net();
    let start = start_at(alloc, net, decision, condition)?;
    let learned = store.learn_start(rt, alloc, pass, decision, condition, start)?;
    match learned {
        Learned::All => {
            let first = store.start_row(pass, decision, condition);
            match first {
                Some(row) => {
                    let rest = &tokens[from as usize..];
                    let verdict = go_on(rt, alloc, store, pass, row, rest, 0)?;
                    Ok(verdict)
                }
                None => unreachable!(),
            }
        }
        Learned::Full => {
            let verdict = simulate_all(rt, alloc, store, pass, decision, condition, tokens, from)?;
            Ok(verdict)
        }
    }
}

/// SLL's verdict at a decision under this condition, whose start is not learned. A pass that has met with a want of room looks ahead once
/// and learns what it has room for; any other learns a step at a time.
fn begin<B: Home<DecisionNet>, R: Wait>(
    rt: &R,
    alloc: Global,
    store: &Store<B>,
    pass: &mut Pass<B>,
    decision: u32,
    condition: u32,
    tokens: &[Token],
    from: u32,
) -> Result<Verdict, AllocError>
    requires decision { IsDecision B.plan.net.net decision }
    requires condition { IsCondition B.plan.net.net decision condition }
    requires symbols { All IsSymbol (word_of tokens.now) }
    requires ends { EndsInEnd (word_of tokens.now) }
    requires more { from < length tokens.now }
    requires few { length tokens.now < 2 ^ 32 }
    ensures keeps { KeepsToPath B.plan decision condition (drop from (word_of tokens.now)) pass.old pass.new }
    ensures asked { IfOk result (λ v. Asked B.plan decision condition (drop from (word_of tokens.now)) (verdict_of v) pass.old pass.new) }
{
    if pass.was_full() {
        let verdict = simulate_all(rt, alloc, store, pass, decision, condition, tokens, from)?;
        return Ok(verdict);
    }
    let verdict = start_and_go_on(rt, alloc, store, pass, decision, condition, tokens, from)?;
    Ok(verdict)
}

/// SLL's verdict at a decision under this condition, on the tokens from a place on: that of a walk along what is
/// learned, and from where it stops of SLL's steps, each of which is learned.
///
/// # Errors
/// No memory. Where the pass has seen the words of SLL's path it takes none, and makes one step for the decision and one for each token
/// that SLL looks at.
pub fn ask<B: Home<DecisionNet>, R: Wait, L: Ledger>(
    rt: &R,
    alloc: Global,
    store: &Store<B>,
    pass: &mut Pass<B>,
    decision: u32,
    condition: u32,
    tokens: &[Token],
    from: u32,
    steps: &mut Steps<L>,
) -> Result<Verdict, AllocError>
    requires decision { IsDecision B.plan.net.net decision }
    requires condition { IsCondition B.plan.net.net decision condition }
    requires symbols { All IsSymbol (word_of tokens.now) }
    requires ends { EndsInEnd (word_of tokens.now) }
    requires more { from < length tokens.now }
    requires few { length tokens.now < 2 ^ 32 }
    ensures keeps { KeepsToPath B.plan decision condition (drop from (word_of tokens.now)) pass.old pass.new }
    ensures asked { IfOk result (λ v. Asked B.plan decision condition (drop from (word_of tokens.now)) (verdict_of v) pass.old pass.new) }
    ensures walked { (v : Said) (facts : List (Fact (List Config)))
        → HasSeen B.plan decision condition (drop from (word_of tokens.now)) pass.old v facts
        → IsOk result × (steps.new ≡ steps.old + length facts) }
{
    match store.walk(pass, decision, condition, tokens, from, steps) {
        Walk::Ended(verdict, _) => Ok(verdict),
        Walk::NoStart => {
            let verdict = begin(rt, alloc, store, pass, decision, condition, tokens, from)?;
            Ok(verdict)
        }
        Walk::NoEdge { row, at } => {
            let rest = &tokens[from as usize + at..];
            let verdict = go_on(rt, alloc, store, pass, row, rest, at as u32)?;
            Ok(verdict)
        }
    }
}
