// Walks along what was learned of the decisions of a parser.
ghost use Rattle.std.specs.Prelude.{◌≡◌, ◌+◌, ◌<◌, ◌≤◌, ◌^◌, ℕ, List, All, drop, length};
ghost use Rattle.g4_classes.specs.Classes.{IsSymbol};
ghost use Rattle.g4_store.specs.declared.walk.Walk.TheVariants.{End};
ghost use Rattle.g4_store.specs.Walks.{Keeps, SeenTo, Ticks};
ghost use Rattle.g4_tokens.specs.Symbols.{end_of_list};
ghost use Rattle.g4_tokens.specs.TokenList.{EndsInEnd, word_of};
ghost use Rattle.g4_learned.specs.Automata.{LeadsTo, StartsAt};
ghost use Rattle.g4_guards.specs.Levels.{IsCondition, IsDecision};
ghost use Rattle.g4_learned.specs.Stored.{IsPlan, columns_of};
ghost use Rattle.g4_learned.specs.Walks.{Loads, StopsAt, WalkedAlong, Walks};
ghost use Rattle.g4_store.specs.Known.{KnowsRows};

use crate::decision_net::DecisionNet;
use crate::path::verdict_at;
use crate::store::{Pass, Store};
use g4_predict::Verdict;
use g4_store::board::Found;
use g4_store::steps::Steps;
use g4_store::view::Home;
use g4_store::walk;
use g4_tokens::Token;
use std::sync::ledger::Ledger;

/// Where a walk ended: at a verdict, to which the symbol at this place after the decision led; or at a word that held 0 when it was read,
/// that of the start, or that of a row and the symbol at this place.
#[derive(Clone, Copy, Debug, PartialEq, Eq)]
pub enum Walk {
    Ended(Verdict, usize),
    NoStart,
    NoEdge { row: usize, at: usize },
}

/// A walk of the store, and the row to which it came last.
struct Way {
    walk: walk::Walk,
    row: usize,
}

impl<B: Home<DecisionNet>> Store<B> {
    /// Walks from a start along the columns of tokens by loads alone.
    fn walk_along<L: Ledger>(
        &self,
        pass: &mut Pass<B>,
        start: usize,
        tokens: &[Token],
        steps: &mut Steps<L>,
    ) -> Way
        requires { start < B.plan.starts }
        ensures walked { WalkedAlong B.plan start (word_of tokens.now) pass.old.0 pass.new.0 result.walk }
        ensures stops { StopsAt B.plan start (word_of tokens.now) pass.old.0 pass.new.0 result.row result.walk }
        ensures learned { (k code : ℕ) → SeenTo StartsAt LeadsTo B.plan start (columns_of B.plan.net (word_of tokens.now)) k code pass.old.0
            → result.walk ≡ End code k }
        ensures loads { Ticks (length tokens.now) pass.old.0.looks.count pass.new.0.looks.count result.walk }
        ensures same { Keeps pass.old.0 pass.new.0 }
        ensures steps { Ticks (length tokens.now) steps.old steps.new result.walk }
        ensures full { pass.new.1 ≡ pass.old.1 }
        ensures rows { KnowsRows B.plan.rows pass.new }
    {
        let net = self.net();
        steps.tick();
        let Some(first) = self.store.read_start(pass, start) else {
            return Way {
                walk: walk::Walk::NotLearned(0),
                row: 0,
            };
        };
        let mut row = first;
        for (k, token) in tokens.iter().enumerate() {
            let column = net.column_of(token.symbol);
            steps.tick();
            let found = self.store.read_cell(pass, row, column as usize);
            match found {
                Found::Nothing => {
                    return Way {
                        walk: walk::Walk::NotLearned(k + 1),
                        row,
                    };
                }
                Found::End(code) => {
                    return Way {
                        walk: walk::Walk::End(code, k),
                        row,
                    };
                }
                Found::Row(next, _mark) => row = next,
            }
        }
        Way {
            walk: walk::Walk::Open,
            row,
        }
    }

    /// Walks at a decision, under a condition, along the tokens from a place on. It takes neither memory nor a lock.
    pub fn walk<L: Ledger>(
        &self,
        pass: &mut Pass<B>,
        decision: u32,
        condition: u32,
        tokens: &[Token],
        from: u32,
        steps: &mut Steps<L>,
    ) -> Walk
        requires decision { IsDecision B.plan.net.net decision }
        requires condition { IsCondition B.plan.net.net decision condition }
        requires symbols { All IsSymbol (word_of tokens.now) }
        requires ends { EndsInEnd (word_of tokens.now) }
        requires more { from < length tokens.now }
        requires few { length tokens.now < 2 ^ 32 }
        ensures plan { IsPlan B.plan }
        ensures walks { Walks B.plan decision condition (drop from (word_of tokens.now)) pass.old.0 pass.new.0 result }
        ensures loads { Loads pass.old.0.looks.count pass.new.0.looks.count result }
        ensures same { Keeps pass.old.0 pass.new.0 }
        ensures steps { Loads steps.old steps.new result }
        ensures full { pass.new.1 ≡ pass.old.1 }
        ensures rows { KnowsRows B.plan.rows pass.new }
    {
        let start = self.store.net().start_of(decision, condition);
        let rest = &tokens[from as usize..];
        let Way { walk, row } = self.walk_along(pass, start, rest, steps);
        match walk {
            walk::Walk::End(code, k) => Walk::Ended(verdict_at(code, k as u32), k),
            walk::Walk::NotLearned(k) => {
                if k == 0 {
                    return Walk::NoStart;
                }
                Walk::NoEdge { row, at: k - 1 }
            }
            walk::Walk::Open => unreachable!(),
        }
    }
}
