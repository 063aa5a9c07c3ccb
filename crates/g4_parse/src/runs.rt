// The run of the parser over a token list.
ghost use Rattle.std.specs.Prelude.{◌≡◌, ◌<◌, ◌^◌, All, List, ℕ, IfOk, length};
ghost use Rattle.g4_classes.specs.Classes.{IsSymbol};
ghost use Rattle.g4_grammar.specs.StepRules.{AreUnpredicated, CanBeRewritten, StepRule};
ghost use Rattle.g4_layout.specs.Built.{IsBuilt};
ghost use Rattle.g4_learned.specs.Stored.{IsPlan};
ghost use Rattle.g4_leftrec.specs.Rewriting.{numberings, rewritten};
ghost use Rattle.g4_derivation.specs.Spelling.{DerivesFrom};
ghost use Rattle.g4_parse.specs.Parsing.{IsAcceptance, IsParse, KeepPrecedence, LeavesClosing};
ghost use Rattle.g4_parse.specs.Teaching.{HadMemory, HasKept, IsPassed, IsTaught};
ghost use Rattle.g4_tokens.specs.TokenList.{word_of, EndsInEnd};
ghost use Rattle.g4_tree_check.specs.TreesOf.{IsTreeOf};

use crate::parser::{ParseFault, Parser};
use crate::predicates::Predicates;
use crate::trial::Trial;
use g4_full::Memory;
use g4_learned::{DecisionNet, Pass, Store};
use g4_net::ParserNetwork;
use g4_store::steps::Steps;
use g4_store::view::Home;
use g4_tokens::Token;
use g4_trees::Tree;
use std::alloc::Global;
use std::sync::Wait;
use std::sync::ledger::Ledger;

/// The tree of a token list, by the network of a store.
fn run<B: Home<DecisionNet>, R: Wait, L: Ledger, P: Predicates>(
    rt: &R,
    alloc: Global,
    net: &ParserNetwork,
    store: &Store<B>,
    pass: &mut Pass<B>,
    memory: &mut Memory<B>,
    predicates: &P,
    tokens: &[Token],
    steps: &mut Steps<L>,
) -> Result<Tree, ParseFault>
    requires own { net.now ≡ B.plan.net.net }
    requires plan { IsPlan B.plan }
    requires symbols { All IsSymbol (word_of tokens.now) }
    requires ends { EndsInEnd (word_of tokens.now) }
    requires few { length tokens.now < 2 ^ 32 }
    ensures parse { IsParse B.plan.net.net (P.values predicates.now) (word_of tokens.now) result }
    ensures kept { HasKept pass.old pass.new }
    ensures taught { HadMemory result → IsTaught B.plan (IsPassed B.plan.net (P.values predicates.now)
        (word_of tokens.now)) pass.old pass.new }
{
    let mut parser = Parser::new(alloc);
    let mut trial = Trial::new();
    'run: while !parser.has_ended(net) {
        parser.turn(
            rt, alloc, net, store, pass, memory, predicates, tokens, &mut trial, steps,
        )?;
    }
    Ok(parser.finish(alloc)?)
}

/// The tree of a token list, with these values of its grammar's predicates. Only a list that the rules derive, as they are written, has
/// one, and where they have no predicate each such list has, unless too many rules are open. All tokens are in it but those that end the
/// list, and its right operands keep precedence. What the store's threads have learned makes no difference to it; what SLL looks at in
/// the run is learned then, as far as the store has room.
///
/// # Errors
/// The fault at which the run stops, or no memory.
pub fn parse<B: Home<DecisionNet>, R: Wait, L: Ledger, P: Predicates>(
    rt: &R,
    alloc: Global,
    store: &Store<B>,
    pass: &mut Pass<B>,
    memory: &mut Memory<B>,
    predicates: &P,
    tokens: &[Token],
    steps: &mut Steps<L>,
) -> Result<Tree, ParseFault>
    requires symbols { All IsSymbol (word_of tokens.now) }
    requires ends { EndsInEnd (word_of tokens.now) }
    requires few { length tokens.now < 2 ^ 32 }
    ensures parse { IsParse B.plan.net.net (P.values predicates.now) (word_of tokens.now) result }
    ensures tree { (set : List ℕ) (rules : List StepRule) (start : List ℕ) → CanBeRewritten rules →
        IsBuilt set (rewritten rules) (numberings rules) start B.plan.net.net
        → IfOk result (IsTreeOf rules (word_of tokens.now)) }
    ensures whole { (set : List ℕ) (rules : List StepRule) (start : List ℕ) → CanBeRewritten rules →
        IsBuilt set (rewritten rules) (numberings rules) start B.plan.net.net
        → IfOk result (LeavesClosing set (word_of tokens.now)) }
    ensures precedence { (set : List ℕ) (rules : List StepRule) (start : List ℕ) → CanBeRewritten rules →
        IsBuilt set (rewritten rules) (numberings rules) start B.plan.net.net
        → IfOk result (KeepPrecedence rules) }
    ensures accepts { (set : List ℕ) (rules : List StepRule) (start : List ℕ) → CanBeRewritten rules →
        IsBuilt set (rewritten rules) (numberings rules) start B.plan.net.net
        → IsAcceptance (AreUnpredicated rules) (DerivesFrom set rules start (word_of tokens.now)) result }
    ensures kept { HasKept pass.old pass.new }
    ensures taught { HadMemory result → IsTaught B.plan (IsPassed B.plan.net (P.values predicates.now)
        (word_of tokens.now)) pass.old pass.new }
{
    let net = store.net().net();
    run(
        rt, alloc, net, store, pass, memory, predicates, tokens, steps,
    )
}
