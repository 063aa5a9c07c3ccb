// SLL's verdict from a row on that the store has.
ghost use Rattle.std.specs.Prelude.{◌≡◌, ◌+◌, ◌<◌, ◌^◌, ℕ, All, Contains, IfOk, List, OnErr, drop, length, map};
ghost use Rattle.g4_classes.specs.Classes.{IsSymbol};
ghost use Rattle.g4_decide.specs.Asked.{Asked, HaveCodes};
ghost use Rattle.g4_decide.specs.Going.{CameTo, Keeps, Question};
ghost use Rattle.g4_learned.specs.Stored.{stored_entry};
ghost use Rattle.g4_net.specs.Configurations.{Config, IsRow};
ghost use Rattle.g4_net.specs.Prediction.{Looked, SllFrom};
ghost use Rattle.g4_predict.specs.Paths.{verdict_of};
ghost use Rattle.g4_predict.specs.Reached.{IsReached};
ghost use Rattle.g4_store.specs.Known.{KnowsRows};
ghost use Rattle.g4_store.specs.Learned.{IsLearned};
ghost use Rattle.g4_store.specs.Numbers.{Among};
ghost use Rattle.g4_store.specs.Paths.{cells_of};
ghost use Rattle.g4_store.specs.declared.book.Learned.{Learned};
ghost use Rattle.g4_tokens.specs.Symbols.{end_of_list};
ghost use Rattle.g4_tokens.specs.TokenList.{word_of};

use crate::stepping::{Here, Step, next_step};
use g4_learned::{DecisionNet, Pass, Store};
use g4_predict::{Verdict, simulate_from};
use g4_store::view::Home;
use g4_tokens::Token;
use std::alloc::{AllocError, Global};
use std::sync::Wait;

/// SLL's verdict from a row on that the pass knows, to which the symbols before this place lead, on the tokens from there on, by one
/// simulation; what it looks at is learned.
fn finish<B: Home<DecisionNet>, R: Wait>(
    rt: &R,
    alloc: Global,
    store: &Store<B>,
    pass: &mut Pass<B>,
    row: usize,
    tokens: &[Token],
    at: u32,
) -> Result<Verdict, AllocError>
    requires row { (y : List Config) × Among (row, y) pass.old.0.known × IsRow y (Contains y)
        × ((c : Config) → Contains y c → IsReached B.plan.net.net c) × HaveCodes B.plan.net.net y (word_of tokens.now) at }
    requires symbols { All IsSymbol (word_of tokens.now) }
    requires ends { Contains (word_of tokens.now) end_of_list }
    requires few { at + length tokens.now < 2 ^ 32 }
    ensures unchanged { OnErr result (pass.new ≡ pass.old) }
    ensures learned { (y : List Config) → Among (row, y) pass.old.0.known → IfOk result (λ v. (looked : List Looked)
        × SllFrom B.plan.net.net (Contains y) (word_of tokens.now) at (verdict_of v) looked
        × ((learned : Learned) × IsLearned B.plan.rows (cells_of y (map (stored_entry B.plan.net) looked)) pass.old pass.new learned)) }
    ensures rows { IfOk result (λ v. KnowsRows B.plan.rows pass.new) }
{
    let net = store.net().net();
    let kept = store.row(rt, alloc, pass, row)?;
    let (verdict, looked) = simulate_from(alloc, net, kept.snapshot(), tokens, at)?;
    store.learn_on(rt, alloc, pass, row, looked)?;
    Ok(verdict)
}

/// SLL's verdict from a row on that the pass knows, to which the symbols before this place lead, on the tokens from there on: a step at
/// a time as long as there is room for the rows to which they lead.
pub(crate) fn go_on<B: Home<DecisionNet>, R: Wait>(
    rt: &R,
    alloc: Global,
    store: &Store<B>,
    pass: &mut Pass<B>,
    row: usize,
    tokens: &[Token],
    at: u32,
) -> Result<Verdict, AllocError>
    requires came { (q : Question) × CameTo B.plan q at row pass.old × (drop at q.word ≡ word_of tokens.now) }
    requires few { at + length tokens.now < 2 ^ 32 }
    ensures keeps { (q : Question) → CameTo B.plan q at row pass.old → drop at q.word ≡ word_of tokens.now
        → Keeps B.plan q pass.old pass.new }
    ensures asked { (q : Question) → CameTo B.plan q at row pass.old → drop at q.word ≡ word_of tokens.now
        → IfOk result (λ v. Asked B.plan q.decision q.condition q.word (verdict_of v) pass.old pass.new) }
{
    let mut here = Here { row, set: None };
    for (index, token) in tokens.iter().enumerate() {
        let k = at + index as u32;
        let came = next_step(rt, alloc, store, pass, here, token.symbol, k)?;
        match came {
            Step::Ended(verdict) => return Ok(verdict),
            Step::Onward(next) => here = next,
            Step::NoRoom(row) => {
                let rest = &tokens[index..];
                let verdict = finish(rt, alloc, store, pass, row, rest, k)?;
                return Ok(verdict);
            }
        }
    }
    unreachable!()
}
